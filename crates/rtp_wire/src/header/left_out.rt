//! Which values of a header are left out where it is written.

ghost use Rattle.std.specs.Prelude.{◌≡◌, ◌↔◌, true};
ghost use Rattle.rtp_values.specs.declared.known_kind.KnownKind.{KnownKind};
ghost use Rattle.rtp_values.specs.KindSet.{has};
ghost use Rattle.rtp_values.specs.KnownKind.{extension_of_kind};
ghost use Rattle.rtp_ext.specs.WrittenBlock.{IsLeftOut};
ghost use Rattle.rtp_wire.specs.Written.{image_of, with_values};

use super::RtpHeader;
use super::get_fields::GetFields;
use rtp_ext::{KindSet, Kinds, KnownIds, ValueKinds, values_left_out as left_out_of_block};

impl RtpHeader {
    /// The kinds of which the header has a value and that no element carries which
    /// [`write_to`](Self::write_to) writes under the map: all that it has where `has_extension` is
    /// clear, and else those that aren't mapped, those of which a second value is absent (an audio
    /// level without voice, one of two delays), and an allocation that can't be written in 255
    /// bytes (RFC 8285, 4). Where none is, what was written is read again with a value of each kind
    /// that the header has.
    ///
    /// Of a header with an audio level of -42 and the mid `0`, under a map of 3 to the audio level:
    /// both kinds where `voice_activity` is `None`, the mid alone where it is `Some`, and both again
    /// where X is clear.
    pub fn left_out<K: Kinds>(&self, exts: &K) -> KindSet
        ensures { (kind : KnownKind) → (has result kind ≡ true)
            ↔ IsLeftOut self.now.ext_vals (image_of (K.slots exts.now) self.now).ext_vals
            (extension_of_kind kind) }
    {
        values_left_out(self, &self.ext_vals, exts)
    }
}

/// The kinds of which there is a value and that no element carries which
/// [`try_write_values`](super::try_write_values) writes of these fields and values, as
/// [`RtpHeader::left_out`] says it of a header and its own values.
pub fn values_left_out<F: GetFields, K: Kinds, V: ValueKinds>(
    fields: &F,
    values: &V,
    exts: &K,
) -> KindSet
    ensures { (kind : KnownKind) → (has result kind ≡ true)
        ↔ IsLeftOut (V.values values.now) (image_of (K.slots exts.now)
        (with_values (F.header fields.now) (V.values values.now))).ext_vals
        (extension_of_kind kind) }
{
    if !fields.fixed().has_extension {
        return values.kinds();
    }
    left_out_of_block(&KnownIds::of(exts), values)
}
