//! Which values no element of a block carries.

ghost use Rattle.std.specs.Prelude.{◌≡◌, ◌↔◌, true};
ghost use Rattle.rtp_values.specs.declared.known_kind.KnownKind.{KnownKind};
ghost use Rattle.rtp_values.specs.KindSet.{has};
ghost use Rattle.rtp_values.specs.KnownKind.{extension_of_kind};
ghost use Rattle.rtp_ext.specs.WrittenBlock.{image_values, IsLeftOut};

use super::kinds::Kinds;
use super::known_ids::KnownIds;
use rtp_values::{KindSet, ValueKinds};

/// The kinds of which a value is there and that no element carries which
/// [`write_values`](super::write_values) writes, in either form: those that aren't mapped, and those
/// whose values make no data, as an audio level without voice.
pub fn values_left_out<K: Kinds, V: ValueKinds>(ids: &KnownIds<'_, K>, ev: &V) -> KindSet
    ensures { (kind : KnownKind) → (has result kind ≡ true) ↔ IsLeftOut (V.values ev.now)
        (image_values ids.now (V.values ev.now)) (extension_of_kind kind) }
{
    let mut left = ev.kinds();
    let mut items = ids.iter();
    while let Some((_, kind)) = items.next() {
        if ev.data_len(kind).is_some() {
            left.remove(kind);
        }
    }
    left
}
