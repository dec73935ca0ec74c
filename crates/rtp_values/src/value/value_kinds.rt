//! Which kinds some values have.

ghost use Rattle.std.specs.Prelude.{◌≡◌, ◌↔◌, true};
ghost use Rattle.rtp_values.specs.declared.known_kind.KnownKind.{KnownKind};
ghost use Rattle.rtp_values.specs.KnownKind.{extension_of_kind};
ghost use Rattle.rtp_values.specs.KindSet.{has, HasValue};

use super::ElementValues;
use crate::KindSet;

/// Values of which it is known which kinds they have: [`ExtensionValues`](super::ExtensionValues) are
/// such, and those with layers in place of an allocation.
pub trait ValueKinds: ElementValues {
    /// The kinds of which a value is there, whether an element can carry it or not: those of an
    /// audio level without voice, and of one of the two delays, too.
    fn kinds(&self) -> KindSet
        ensures { (kind : KnownKind) →
            (has result kind ≡ true) ↔ HasValue (extension_of_kind kind) (Self.values self.now) };
}
