//! The data of an element by its extension: an unknown one has none.

ghost use Rattle.std.specs.Prelude.{◌≡◌, ◌≢◌, ◌≤◌, [], ◌++◌, drop, length, unwrap_or, Some, IfOk, IfSome, IsErr};
ghost use Rattle.std.specs.Option.{option_map};
ghost use Rattle.rtp_values.specs.Values.{Reads, with_fields, IsWellFormed, TakesMemory};
ghost use Rattle.rtp_values.specs.Spelling.{spelled_data, has_no_data, carried_values, longest, HasRoom};

use super::ExtensionValues;
use crate::Extension;
use std::alloc::{AllocError, Global};

impl Extension {
    /// Reads the data of an element of this kind into the values: `Some` exactly when the data are
    /// well-formed for the kind, and then the kind's fields are what they say, and all other fields
    /// are as before. `None` changes nothing.
    ///
    /// Only a layer allocation of two bytes or more takes memory. Where that is refused no field is
    /// changed.
    pub fn parse_value(
        &self,
        alloc: Global,
        buf: &[u8],
        ev: &mut ExtensionValues,
    ) -> Result<Option<()>, AllocError>
        ensures found { result ≡ Ok (Some (record {})) → Reads self.now buf.now ev.new }
        ensures others { ev.new ≡ with_fields self.now ev.old ev.new }
        ensures only { IsWellFormed self.now buf.now → IfOk result (λ answer.
            answer ≡ Some (record {})) }
        ensures unchanged { result ≢ Ok (Some (record {})) → ev.new ≡ ev.old }
        ensures refused { IsErr result → TakesMemory self.now buf.now }
    {
        match self.known_kind() {
            Some(kind) => kind.parse_value(alloc, buf, ev),
            None => Ok(None),
        }
    }

    /// Writes the data of this kind's element to the front of the buffer and returns their length,
    /// or returns `None` and changes nothing where a value that the kind needs is absent, or is an
    /// allocation that can't be written in 255 bytes. The bytes after the data stay as they were.
    /// It requires room for the data; 255 bytes always suffice.
    pub fn write_to(&self, buf: &mut [u8], ev: &ExtensionValues) -> Option<usize>
        requires room { HasRoom self.now ev.now buf.old }
        ensures length { result ≡ option_map length (spelled_data self.now ev.now) }
        ensures written { buf.new ≡ unwrap_or (spelled_data self.now ev.now) []
            ++ drop (length (unwrap_or (spelled_data self.now ev.now) [])) buf.old }

        // What was written is read as the value that these bytes carry.
        ensures read_back { IfSome (spelled_data self.now ev.now) (λ bytes.
            Reads self.now bytes (carried_values ev.now)) }
        ensures few { IfSome (spelled_data self.now ev.now) (λ bytes. length bytes ≤ longest self.now) }
    {
        self.known_kind()?.write_to(buf, ev)
    }

    /// Whether [`write_to`](Self::write_to) writes data of no bytes, which only a text can have.
    pub fn has_empty_data(&self, ev: &ExtensionValues) -> bool
        ensures { result ≡ has_no_data (spelled_data self.now ev.now) }
    {
        match self.known_kind() {
            Some(kind) => kind.has_empty_data(ev),
            None => false,
        }
    }

    /// How many bytes [`write_to`](Self::write_to) writes, and `None` where it writes no element.
    pub fn data_len(&self, ev: &ExtensionValues) -> Option<usize>
        ensures length { result ≡ option_map length (spelled_data self.now ev.now) }
        ensures few { IfSome result (λ len. len ≤ 255) }
    {
        self.known_kind()?.data_len(ev)
    }
}
