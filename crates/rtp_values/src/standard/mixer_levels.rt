//! Mixer-to-client audio levels (RFC 6465, 4): a byte for each CSRC.

ghost use Rattle.std.specs.Prelude.{◌≡◌, ℕ, ◌<◌, ◌≤◌, ◌↔◌, IsTrue, All, IfSome, IfNone, map, length, slice_index, slice_index_or, unsigned_abs, pos};
ghost use Rattle.std.specs.Option.{SomeIff};
ghost use Rattle.rtp_base.specs.Overwriting.{overwritten};
ghost use Rattle.rtp_values.specs.StandardLevels.{IsLevel, level_in};

use rtp_base::put;

/// The audio level of the CSRC at this index of the packet's list of `csrc_count`, in decibels
/// relative to the overload point, -127 (silence) to 0 (loudest) (RFC 6465, 4). `Some` exactly when
/// the packet has that CSRC, and the data a byte for it. The high bit of the byte is ignored.
///
/// ```
/// // The second of two CSRCs, at -10 dB; there is no third.
/// assert_eq!(mixer_audio_level(b"\x7F\x0A\x00", 2, 1), Some(-10));
/// assert_eq!(mixer_audio_level(b"\x7F\x0A\x00", 2, 2), None);
/// ```
pub fn mixer_audio_level(bytes: &[u8], csrc_count: usize, index: usize) -> Option<i8>
    ensures { SomeIff result ((index < csrc_count) × (index < length bytes.now))
        (level_in (slice_index bytes.now index)) }
{
    if index >= csrc_count {
        return None;
    }
    let byte = *bytes.get(index)?;
    Some(-((byte & 0x7F) as i8))
}

// Whether a level can be written.
fn is_level(level: i8) -> bool
    ensures { IsTrue result ↔ IsLevel level }
{
    (-127..=0).contains(&level)
}

// Whether each level can be written.
fn are_levels(levels: &[i8]) -> bool
    ensures { IsTrue result ↔ All IsLevel levels.now }
{
    levels.iter().all(|level| is_level(*level))
}

/// Writes the audio levels of a packet's CSRCs, in the order of the CSRCs, to the front of the
/// buffer, a byte for each, and returns their number (RFC 6465, 4). `None` exactly where a level is
/// above 0 or below -127, and then nothing is written. The bytes after the data stay as they were. It
/// requires room for a byte for each level.
pub fn write_mixer_audio_levels(levels: &[i8], buf: &mut [u8]) -> Option<usize>
    requires room { length levels.now ≤ length buf.old }
    ensures result { SomeIff result (All IsLevel levels.now) (length levels.now) }
    ensures written { IfSome result (λ _. buf.new ≡ overwritten buf.old 0 (map unsigned_abs levels.now)) }
    ensures unchanged { IfNone result (buf.new ≡ buf.old) }

    // The bytes are read as the levels again.
    ensures back { IfSome result (λ _. (i : ℕ) → i < length levels.now →
        level_in (slice_index (map unsigned_abs levels.now) i) ≡ slice_index_or levels.now i (pos 0)) }
{
    if !are_levels(levels) {
        return None;
    }
    for (index, level) in levels.iter().enumerate() {
        put(buf, index, &[level.unsigned_abs()]);
    }
    Some(levels.len())
}
