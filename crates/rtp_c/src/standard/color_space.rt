//! Color space, in four bytes, or in 28 with HDR metadata.

ghost use Rattle.std.specs.Prelude.{◌≡◌, ◌≢◌, ◌⊎◌, ◌<◌, ◌/◌, ◌%◌, length, slice_index, IfSome, IfNone};
ghost use Rattle.rtp_values.specs.StandardColor.{range_number, siting_number, color_in};
ghost use Rattle.rtp_values.specs.declared.standard.color_space.ColorRange.{ColorRange as Range};
ghost use Rattle.rtp_values.specs.declared.standard.color_space.ChromaSiting.{ChromaSiting as Siting};
ghost use Rattle.rtp_values.specs.declared.standard.color_space.ColorSpace.{ColorSpace as Space};
ghost use Rattle.rtp_c.specs.StandardData.{TellsValue, WritesData};
ghost use Rattle.rtp_c.specs.StandardColor.{IsViewOfSpace, IsGivenSpace, AreSpaceData};

use super::putting::{put_data, tell};
use crate::given::given;
use crate::status::BAD_FIELD;
use crate::values::told;
use rtp_values::standard::{ChromaSiting, ColorRange, ColorSpace, HdrMetadata};

/// The color space of a video: `rtpw_color_space` in C, 32 bytes.
#[repr(C)]
#[derive(Clone, Copy)]
pub struct SpaceView {
    /// The metadata: all zeros as read where there are none.
    pub hdr: HdrMetadata,
    /// The color primaries, a code point of H.273, 8.1.
    pub primaries: u8,
    /// The transfer characteristics, a code point of H.273, 8.2.
    pub transfer: u8,
    /// The matrix coefficients, a code point of H.273, 8.3.
    pub matrix: u8,
    /// Which numbers stand for the colors: 0 unknown, 1 limited, 2 full, 3 derived.
    pub range: u8,
    /// Where the chroma samples lie, from left to right: 0 unspecified, 1 collocated, 2 half.
    pub horizontal: u8,
    /// Where they lie from top to bottom.
    pub vertical: u8,
    /// Whether there are metadata: 0 or 1.
    pub has_hdr: u8,
}

// What C is told of a color space.
fn view_of(space: &ColorSpace) -> SpaceView
    ensures { IsViewOfSpace space.now result }
{
    let (has_hdr, hdr) = told(space.hdr);
    SpaceView {
        hdr,
        primaries: space.primaries,
        transfer: space.transfer,
        matrix: space.matrix,
        range: space.range as u8,
        horizontal: space.horizontal as u8,
        vertical: space.vertical as u8,
        has_hdr,
    }
}

// The range of this number.
fn range_of(number: u8) -> Option<ColorRange>
    ensures found { IfSome result (λ range. range_number range ≡ number) }
    ensures none { IfNone result ((range : Range) → range_number range ≢ number) }
{
    match number {
        0 => Some(ColorRange::Unknown),
        1 => Some(ColorRange::Limited),
        2 => Some(ColorRange::Full),
        3 => Some(ColorRange::Derived),
        _ => None,
    }
}

// The siting of this number.
fn siting_of(number: u8) -> Option<ChromaSiting>
    ensures found { IfSome result (λ siting. siting_number siting ≡ number) }
    ensures none { IfNone result ((siting : Siting) → siting_number siting ≢ number) }
{
    match number {
        0 => Some(ChromaSiting::Unspecified),
        1 => Some(ChromaSiting::Collocated),
        2 => Some(ChromaSiting::Half),
        _ => None,
    }
}

// The color space that is given.
fn given_space(view: &SpaceView) -> Option<ColorSpace>
    ensures found { IfSome result (IsGivenSpace view.now) }
    ensures none { IfNone result ((space : Space) → IsGivenSpace view.now space → ⊥) }
{
    Some(ColorSpace {
        primaries: view.primaries,
        transfer: view.transfer,
        matrix: view.matrix,
        range: range_of(view.range)?,
        horizontal: siting_of(view.horizontal)?,
        vertical: siting_of(view.vertical)?,
        hdr: given(view.has_hdr, view.hdr),
    })
}

/// Reads a color space (WebRTC's `color-space`). `OK`, or `BAD_FIELD` where there are neither four
/// bytes nor 28, or a siting of the fourth byte is 3, and then nothing is written.
#[unsafe(no_mangle)]
pub extern "C" fn rtpw_read_color_space(bytes: &[u8], space: &mut SpaceView) -> i32
    ensures { TellsValue (IsViewOfSpace (color_in bytes.now))
        (((length bytes.now ≡ 4) ⊎ (length bytes.now ≡ 28))
        × (slice_index bytes.now 3 / 4 % 4 < 3) × (slice_index bytes.now 3 % 4 < 3))
        space.old space.new result }
{
    tell(ColorSpace::parse(bytes).map(|read| view_of(&read)), space)
}

/// Writes a color space to the front of the buffer (WebRTC's `color-space`). `OK`, and how many
/// bytes it has is written too: four, or 28 with HDR metadata. `BAD_FIELD` where there is no such
/// range or siting; `SHORT_BUFFER` where only the room is short. Where it isn't `OK` nothing is
/// written.
#[unsafe(no_mangle)]
pub extern "C" fn rtpw_write_color_space(space: &SpaceView, buf: &mut [u8], len: &mut usize) -> i32
    ensures { WritesData (AreSpaceData space.now) buf.old buf.new len.old len.new result }
{
    let Some(given) = given_space(space) else {
        return BAD_FIELD;
    };
    let mut bytes = [0; 28];
    let data_len = given.write_to(&mut bytes);
    put_data(&bytes[..data_len], buf, len)
}
