//! Audio level (RFC 6464, 3): voice activity in the top bit, and the level below it.

ghost use Rattle.std.specs.Prelude.{◌≡◌, ◌+◌, ◌*◌, ◌%◌, unsigned_abs};
ghost use Rattle.rtp_base.specs.Flag.{bit};
ghost use Rattle.rtp_values.specs.declared.kind.Extension.TheVariants.{AudioLevel};
ghost use Rattle.rtp_values.specs.Spelling.{HasRoom};
ghost use Rattle.rtp_values.specs.KindBytes.{SetsFields, WritesData};

use super::{GetValues, SetValues};
use rtp_base::put;

// The magnitude of the level modulo 128, below a bit that is set for voice.
fn level_byte(level: i8, voice: bool) -> u8
    ensures { result ≡ bit voice * 128 + unsigned_abs level % 128 }
{
    let magnitude = level.unsigned_abs() & 0x7F;
    if voice { 0x80 | magnitude } else { magnitude }
}

pub(super) fn read<V: SetValues>(buf: &[u8], ev: &mut V) -> Option<()>
    ensures { SetsFields V.shows AudioLevel buf.now ev.old ev.new result }
{
    let byte = *buf.first()?;
    ev.set_audio_level(-((byte & 0x7F) as i8), byte & 0x80 != 0);
    Some(())
}

pub(super) fn write<V: GetValues>(buf: &mut [u8], ev: &V) -> Option<usize>
    requires room { HasRoom AudioLevel (V.values ev.now) buf.old }
    ensures { WritesData AudioLevel (V.values ev.now) buf.old buf.new result }
{
    let level = ev.audio_level()?;
    let voice = ev.voice_activity()?;
    Some(put(buf, 0, &[level_byte(level, voice)]))
}
