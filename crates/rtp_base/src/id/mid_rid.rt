//! A media section and one of its streams.

ghost use Rattle.std.specs.Prelude.{◌≡◌, ◌⊎◌, ◌↔◌, IsTrue};

use super::{Mid, Rid};

/// A media section, and perhaps one stream of its simulcast.
#[derive(Clone, Copy, Debug, PartialEq, Eq, Hash)]
pub struct MidRid(pub Mid, pub Option<Rid>);

impl MidRid {
    /// Returns the media section.
    pub fn mid(&self) -> Mid
        ensures { result ≡ self.now.0 }
    {
        self.0
    }

    /// Returns the stream, if one is named.
    pub fn rid(&self) -> Option<Rid>
        ensures { result ≡ self.now.1 }
    {
        self.1
    }

    /// Returns whether `other` is of this media section and, if a stream is named here, of that
    /// stream. It is not symmetric: a section without a stream equals each of its streams, and none
    /// of them equals it.
    pub fn special_equals(&self, other: &MidRid) -> bool
        ensures { IsTrue result ↔ ((self.now.0 ≡ other.now.0)
            × ((self.now.1 ≡ None) ⊎ (self.now.1 ≡ other.now.1))) }
    {
        self.mid() == other.mid() && (self.rid().is_none() || self.rid() == other.rid())
    }
}
