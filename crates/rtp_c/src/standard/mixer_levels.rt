//! Mixer-to-client audio levels (RFC 6465, 4): a byte for each CSRC.

ghost use Rattle.std.specs.Prelude.{◌≡◌, ◌↔◌, ◌<◌, length, slice_index, All, IsTrue};
ghost use Rattle.rtp_values.specs.StandardLevels.{IsLevel, level_in};
ghost use Rattle.rtp_c.specs.StandardData.{TellsValue, WritesData};
ghost use Rattle.rtp_c.specs.StandardLevels.{AreLevelsData};

use super::putting::tell;
use crate::status::{BAD_FIELD, OK, SHORT_BUFFER};
use rtp_values::standard::{mixer_audio_level, write_mixer_audio_levels};

/// Reads the audio level of the CSRC at this index of the packet's list of `csrc_count`, in
/// decibels relative to the overload point (RFC 6465, 4). `OK`, or `BAD_FIELD` where the packet
/// hasn't that CSRC or the data no byte for it, and then nothing is written.
#[unsafe(no_mangle)]
pub extern "C" fn rtpw_read_mixer_level(
    bytes: &[u8],
    csrc_count: usize,
    index: usize,
    level: &mut i8,
) -> i32
    ensures { TellsValue (λ value. value ≡ level_in (slice_index bytes.now index))
        ((index < csrc_count) × (index < length bytes.now)) level.old level.new result }
{
    tell(mixer_audio_level(bytes, csrc_count, index), level)
}

// How many CSRCs a packet has at most (RFC 3550, 5.1).
const MOST_SOURCES: usize = 15;

// Whether each level can be written.
fn are_levels(levels: &[i8]) -> bool
    ensures { IsTrue result ↔ All IsLevel levels.now }
{
    levels.iter().all(|level| (-127..=0).contains(level))
}

/// Writes the audio levels of a packet's CSRCs, in their order, to the front of the buffer, a byte
/// for each (RFC 6465, 4). `OK`, and how many they are is written too; `BAD_FIELD` where there
/// are more than 15, or a level is above 0 or below -127; `SHORT_BUFFER` where only the room is
/// short. Where it isn't `OK` nothing is written.
#[unsafe(no_mangle)]
pub extern "C" fn rtpw_write_mixer_levels(levels: &[i8], buf: &mut [u8], len: &mut usize) -> i32
    ensures { WritesData (AreLevelsData levels.now) buf.old buf.new len.old len.new result }
{
    if levels.len() > MOST_SOURCES {
        return BAD_FIELD;
    }
    if buf.len() < levels.len() {
        return if are_levels(levels) {
            SHORT_BUFFER
        } else {
            BAD_FIELD
        };
    }
    let Some(count) = write_mixer_audio_levels(levels, buf) else {
        return BAD_FIELD;
    };
    *len = count;
    OK
}
