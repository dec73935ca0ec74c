//! What the elements of a block are written from.

ghost use Rattle.std.specs.Prelude.{◌≡◌, ◌≤◌, [], ◌++◌, drop, length, unwrap_or, is_some, if◌then◌else◌, IfSome, false, None};
ghost use Rattle.std.specs.Option.{option_map};
ghost use Rattle.rtp_values.specs.declared.kind.Extension.{Extension};
ghost use Rattle.rtp_values.specs.declared.kind.Extension.TheVariants.{VideoLayersAllocation};
ghost use Rattle.rtp_values.specs.KnownKind.{extension_of_kind};
ghost use Rattle.rtp_values.specs.KindBytes.{WritesData};
ghost use Rattle.rtp_values.specs.Spelling.{has_no_data, has_empty_text, spelled_data, longest, HasRoom};

use super::ExtensionValues;
use crate::KnownKind;

/// The values that the elements of a block are written from: [`ExtensionValues`] are such, and
/// [`WithLayers`](super::WithLayers) are for a sender that keeps its layers without memory.
pub trait ElementValues {
    ghost use Rattle.rtp_values.specs.HeaderValues.{HeaderValues};

    // What they are, as one value.
    ghost values: { Self → HeaderValues };

    /// Whether a mid, a stream id or a repaired stream id is there and has no characters, as
    /// [`ExtensionValues::has_empty_text`] says.
    fn has_empty_text(&self) -> bool
        ensures empty { result ≡ has_empty_text (values self.now) }

        // Only a layer allocation has data of more than 16 bytes.
        ensures few { (kind : Extension) → IfSome (spelled_data kind (values self.now)) (λ bytes.
            length bytes ≤ longest kind) };

    /// A layer allocation that is written has at most so many bytes of data: 0 only where none is
    /// written, and 255 where nothing is known of it.
    #[tactic(auto, using(crate::proofs::DataLengthLemmas::few_of_allocation))]
    fn layers_at_most(&self) -> usize
        ensures most { IfSome (spelled_data VideoLayersAllocation (values self.now)) (λ bytes.
            length bytes ≤ result) }
        ensures few { result ≤ 255 }
    {
        255
    }

    /// Whether [`write_data`](Self::write_data) writes data of no bytes, which only a text can
    /// have.
    fn has_empty_data(&self, kind: KnownKind) -> bool
        ensures { result ≡ has_no_data (spelled_data (extension_of_kind kind) (values self.now)) };

    /// How many bytes [`write_data`](Self::write_data) writes, and `None` where it writes no
    /// element.
    fn data_len(&self, kind: KnownKind) -> Option<usize>
        ensures length { result
            ≡ option_map length (spelled_data (extension_of_kind kind) (values self.now)) }
        ensures few { IfSome result (λ len. len ≤ 255) };

    /// Writes the data of the kind's element to the front of the buffer, as
    /// [`KnownKind::write_to`] does.
    fn write_data(&self, kind: KnownKind, buf: &mut [u8]) -> Option<usize>
        requires room { HasRoom (extension_of_kind kind) (values self.now) buf.old }
        ensures { WritesData (extension_of_kind kind) (values self.now) buf.old buf.new result };
}

impl ElementValues for ExtensionValues {
    ghost values = { λ values. values };

    #[inline(always)]
    fn has_empty_text(&self) -> bool {
        ExtensionValues::has_empty_text(self)
    }

    #[inline(always)]
    #[tactic(auto, using(crate::proofs::DataLengthLemmas::few_of_allocation))]
    fn layers_at_most(&self) -> usize
        ensures exact { result ≡ if is_some self.now.video_layers_allocation then 255 else 0 }
        ensures most { IfSome (spelled_data VideoLayersAllocation self.now) (λ bytes.
            length bytes ≤ result) }
        ensures few { result ≤ 255 }
    {
        if self.video_layers_allocation.is_some() {
            255
        } else {
            0
        }
    }

    #[inline(always)]
    fn has_empty_data(&self, kind: KnownKind) -> bool {
        kind.has_empty_data(self)
    }

    #[inline(always)]
    fn data_len(&self, kind: KnownKind) -> Option<usize> {
        kind.data_len(self)
    }

    #[inline(always)]
    fn write_data(&self, kind: KnownKind, buf: &mut [u8]) -> Option<usize> {
        kind.write_to(buf, self)
    }
}
