//! The values that C gives to be written.

ghost use Rattle.std.specs.Prelude.{◌≡◌, ◌≢◌, ◌<◌, ◌≤◌, ◌-◌, ◌↔◌, ℕ, length, slice_index, ◌==◌, if◌then◌else◌, IsTrue, IfSome, IfNone};
ghost use Rattle.std.specs.List.{All};
ghost use Rattle.std.specs.Int.{w64, trailing_zeros};
ghost use Rattle.rtp_base.specs.Id.{IsIdByte};
ghost use Rattle.rtp_values.specs.declared.value.video_orientation.VideoOrientation.{VideoOrientation as Orientation};
ghost use Rattle.rtp_values.specs.StandardLevels.{IsLevel};
ghost use Rattle.rtp_c.specs.Told.{degrees_of};
ghost use Rattle.rtp_c.specs.Given.{given, text_in, turn_of, is_nonzero, IsTextIn, CanBeGiven};

use super::values::ValuesView;
use rtp_values::VideoOrientation;
use std::simd::prelude::*;

// A value, where its flag is set.
#[inline(always)]
pub fn given<T: Drop>(has: u8, value: T) -> Option<T>
    ensures { result ≡ given has value }
{
    if has == 0 { None } else { Some(value) }
}

// The orientation of these degrees.
pub fn orientation_of(degrees: u16) -> Option<VideoOrientation>
    ensures found { IfSome result (λ turn. degrees_of turn ≡ degrees) }
    ensures none { IfNone result ((turn : Orientation) → degrees_of turn ≢ degrees) }
{
    match degrees {
        0 => Some(VideoOrientation::Deg0),
        90 => Some(VideoOrientation::Deg90),
        180 => Some(VideoOrientation::Deg180),
        270 => Some(VideoOrientation::Deg270),
        _ => None,
    }
}

// Whether each byte is a letter, a digit or an underscore.
fn are_id_bytes(bytes: &[u8]) -> bool
    ensures { IsTrue result ↔ All IsIdByte bytes.now }
{
    bytes
        .iter()
        .all(|byte| byte.is_ascii_alphanumeric() | (*byte == b'_'))
}

// The index of the first zero.
fn first_zero(bytes: &[u8]) -> Option<usize>
    ensures found { IfSome result (λ index. (index < length bytes.now)
        × (slice_index bytes.now index ≡ 0) × ((k : ℕ) → k < index → slice_index bytes.now k ≢ 0)) }
    ensures none { IfNone result ((k : ℕ) → k < length bytes.now → slice_index bytes.now k ≢ 0) }
{
    bytes.iter().position(|byte| *byte == 0)
}

// The bytes before the first zero.
#[inline(always)]
pub fn text_in(bytes: &[u8]) -> &[u8]
    ensures { result.now ≡ text_in bytes.now }
{
    match first_zero(bytes) {
        Some(len) => &bytes[..len],
        None => bytes,
    }
}

// Whether a zero ends a text of letters, digits and underscores.
#[inline(always)]
fn is_text(bytes: &[u8]) -> bool
    ensures { IsTrue result ↔ IsTextIn bytes.now (text_in bytes.now) }
{
    match first_zero(bytes) {
        Some(len) => are_id_bytes(&bytes[..len]),
        None => false,
    }
}

// The index of the lowest bit that is set of sixteen, and 16 where none is.
#[inline(always)]
fn lowest_of_16(mask: u64) -> usize
    ensures { result ≡ if mask == 0 then 16 else trailing_zeros w64 mask }
{
    if mask == 0 {
        16
    } else {
        mask.trailing_zeros() as usize
    }
}

// How many of the first sixteen bytes stand before one that is no letter, digit or underscore. They
// are looked at at once.
#[inline(always)]
fn id_bytes_in_front(bytes: &[u8]) -> usize
    requires { 16 ≤ length bytes.now }
    ensures few { result ≤ 16 }
    ensures before { (k : ℕ) → k < result → IsIdByte (slice_index bytes.now k) }
    ensures stops { result < 16 → IsIdByte (slice_index bytes.now result) → ⊥ }
{
    let bytes = u8x16::from_slice(bytes);
    let from_a = (bytes | u8x16::splat(0x20)) - u8x16::splat(b'a');
    let from_0 = bytes - u8x16::splat(b'0');
    let others = from_a.simd_ge(u8x16::splat(26))
        & from_0.simd_ge(u8x16::splat(10))
        & bytes.simd_ne(u8x16::splat(b'_'));
    lowest_of_16(others.to_bitmask())
}

// Whether a zero ends a text of letters, digits and underscores, in the bytes of a tag.
#[inline(always)]
fn is_mid_text(bytes: &[u8; 17]) -> bool
    ensures { IsTrue result ↔ IsTextIn bytes.now (text_in bytes.now) }
{
    bytes[id_bytes_in_front(bytes)] == 0
}

// Whether these are the degrees of an orientation.
#[inline(always)]
fn is_orientation(degrees: u16) -> bool
    ensures { IsTrue result ↔ degrees_of (turn_of degrees) ≡ degrees }
{
    orientation_of(degrees).is_some()
}

// Whether this is an audio level (RFC 6464, 3).
#[inline(always)]
fn is_level(level: i8) -> bool
    ensures { IsTrue result ↔ IsLevel level }
{
    (-127..=0).contains(&level)
}

// Whether the texts that are there are such.
#[inline(always)]
fn can_be_texts(view: &ValuesView) -> bool
    ensures { IsTrue result ↔ ((0 < view.now.has_mid → IsTextIn view.now.mid (text_in view.now.mid))
        × (0 < view.now.has_rid → IsTextIn view.now.rid (text_in view.now.rid))
        × (0 < view.now.has_repaired_rid
        → IsTextIn view.now.repaired_rid (text_in view.now.repaired_rid))) }
{
    (view.has_mid == 0 || is_mid_text(&view.mid))
        && (view.has_rid == 0 || is_text(&view.rid))
        && (view.has_repaired_rid == 0 || is_text(&view.repaired_rid))
}

// Whether the level, the orientation and the times that are there are such. A clock of a time has
// ticks.
#[inline(always)]
fn can_be_numbers(view: &ValuesView) -> bool
    ensures { IsTrue result ↔ ((0 < view.now.has_audio_level → IsLevel view.now.audio_level)
        × (0 < view.now.has_video_orientation
        → degrees_of (turn_of view.now.video_orientation) ≡ view.now.video_orientation)
        × (0 < view.now.has_playout_delay_min → 0 < view.now.playout_delay_min.hertz)
        × (0 < view.now.has_playout_delay_max → 0 < view.now.playout_delay_max.hertz)) }
{
    (view.has_video_orientation == 0 || is_orientation(view.video_orientation))
        && (view.has_playout_delay_min == 0 || view.playout_delay_min.hertz != 0)
        && (view.has_playout_delay_max == 0 || view.playout_delay_max.hertz != 0)
        && (view.has_audio_level == 0 || is_level(view.audio_level))
}

// Whether each audio level, orientation, time and text that is there is one.
#[inline(always)]
pub fn can_be_given(view: &ValuesView) -> bool
    ensures { IsTrue result ↔ CanBeGiven view.now }
{
    can_be_numbers(view) && can_be_texts(view)
}
