//! Color space, in four bytes, or in 28 with HDR metadata.

ghost use Rattle.std.specs.Prelude.{◌≡◌, ◌⊎◌, ◌≤◌, ◌<◌, ◌+◌, ◌*◌, ◌/◌, ◌%◌, length, slice_index};
ghost use Rattle.std.specs.Option.{SomeIff};
ghost use Rattle.rtp_base.specs.Overwriting.{overwritten};
ghost use Rattle.rtp_values.specs.StandardColor.{range_in, siting_in, sampling_byte, point_at, hdr_in, hdr_numbers, numbers_data, color_with, color_in, color_data};

use crate::value::{u16_at, u16_bytes};
use rtp_base::put;

/// Which numbers stand for the colors of a video.
#[derive(Clone, Copy, Debug, PartialEq, Eq)]
pub enum ColorRange {
    /// It isn't known.
    Unknown = 0,
    /// As in broadcasting, 16 to 235 where there are 8 bits.
    Limited = 1,
    /// All numbers.
    Full = 2,
    /// By the transfer and matrix code points.
    Derived = 3,
}

/// Where the chroma samples lie in one direction.
#[derive(Clone, Copy, Debug, PartialEq, Eq)]
pub enum ChromaSiting {
    /// It isn't known.
    Unspecified = 0,
    /// On the luma samples.
    Collocated = 1,
    /// Half way between two of them.
    Half = 2,
}

/// The color space of a video, as WebRTC's `color-space` has it.
#[derive(Clone, Copy, Debug, PartialEq, Eq)]
pub struct ColorSpace {
    /// The color primaries, a code point of H.273, 8.1.
    pub primaries: u8,
    /// The transfer characteristics, a code point of H.273, 8.2.
    pub transfer: u8,
    /// The matrix coefficients, a code point of H.273, 8.3.
    pub matrix: u8,
    /// Which numbers stand for the colors.
    pub range: ColorRange,
    /// Where the chroma samples lie, from left to right.
    pub horizontal: ChromaSiting,
    /// Where they lie from top to bottom.
    pub vertical: ChromaSiting,
    /// The screen on which the video was made, and its light, for one of high dynamic range.
    pub hdr: Option<HdrMetadata>,
}

/// The metadata of a video of high dynamic range (SMPTE ST 2086, CTA-861.3), in 24 bytes, as C has
/// them too.
#[repr(C)]
#[derive(Clone, Copy, Debug, Default, PartialEq, Eq)]
pub struct HdrMetadata {
    /// The greatest luminance of the screen, in cd/m^2.
    pub luminance_max: u16,
    /// Its least luminance, in 0.0001 cd/m^2.
    pub luminance_min: u16,
    /// Its red.
    pub red: Chromaticity,
    /// Its green.
    pub green: Chromaticity,
    /// Its blue.
    pub blue: Chromaticity,
    /// Its white.
    pub white: Chromaticity,
    /// The greatest light level of a pixel, in cd/m^2.
    pub max_content_light_level: u16,
    /// The greatest mean light level of a frame, in cd/m^2.
    pub max_frame_average_light_level: u16,
}

/// A point of the CIE 1931 chromaticity diagram, in 0.00002.
#[repr(C)]
#[derive(Clone, Copy, Debug, Default, PartialEq, Eq)]
pub struct Chromaticity {
    /// From left to right.
    pub x: u16,
    /// Upwards.
    pub y: u16,
}

// The range of this number.
fn range_in(number: u8) -> ColorRange
    ensures { result ≡ range_in number }
{
    match number {
        1 => ColorRange::Limited,
        2 => ColorRange::Full,
        3 => ColorRange::Derived,
        _ => ColorRange::Unknown,
    }
}

// The siting of this number, if it is one.
fn siting_in(number: u8) -> Option<ChromaSiting>
    ensures { SomeIff result (number < 3) (siting_in number) }
{
    Some(match number {
        0 => ChromaSiting::Unspecified,
        1 => ChromaSiting::Collocated,
        2 => ChromaSiting::Half,
        _ => return None,
    })
}

// The point in the four bytes from this offset on.
fn point_at(bytes: &[u8], offset: usize) -> Chromaticity
    requires { offset + 4 ≤ length bytes.now }
    ensures { result ≡ point_at offset bytes.now }
{
    Chromaticity {
        x: u16_at(bytes, offset),
        y: u16_at(bytes, offset + 2),
    }
}

// The metadata in 24 bytes.
fn hdr_in(bytes: &[u8]) -> HdrMetadata
    requires { length bytes.now ≡ 24 }
    ensures { result ≡ hdr_in bytes.now }
{
    HdrMetadata {
        luminance_max: u16_at(bytes, 0),
        luminance_min: u16_at(bytes, 2),
        red: point_at(bytes, 4),
        green: point_at(bytes, 8),
        blue: point_at(bytes, 12),
        white: point_at(bytes, 16),
        max_content_light_level: u16_at(bytes, 20),
        max_frame_average_light_level: u16_at(bytes, 22),
    }
}

// The color space in the first four bytes, with this metadata.
fn color_with(hdr: Option<HdrMetadata>, bytes: &[u8]) -> Option<ColorSpace>
    requires { 4 ≤ length bytes.now }
    ensures { SomeIff result ((slice_index bytes.now 3 / 4 % 4 < 3) × (slice_index bytes.now 3 % 4 < 3))
        (color_with hdr bytes.now) }
{
    let sampling = bytes[3];
    let horizontal = siting_in(sampling >> 2 & 3)?;
    let vertical = siting_in(sampling & 3)?;
    Some(ColorSpace {
        primaries: bytes[0],
        transfer: bytes[1],
        matrix: bytes[2],
        range: range_in(sampling >> 4 & 3),
        horizontal,
        vertical,
        hdr,
    })
}

// The numbers of the metadata, in the order in which they are written.
fn hdr_numbers(hdr: HdrMetadata) -> [u16; 12]
    ensures numbers { result ≡ hdr_numbers hdr }
    ensures back { hdr_in (numbers_data (hdr_numbers hdr)) ≡ hdr }
{
    [
        hdr.luminance_max,
        hdr.luminance_min,
        hdr.red.x,
        hdr.red.y,
        hdr.green.x,
        hdr.green.y,
        hdr.blue.x,
        hdr.blue.y,
        hdr.white.x,
        hdr.white.y,
        hdr.max_content_light_level,
        hdr.max_frame_average_light_level,
    ]
}

// Puts each number in two bytes, one after the other from this offset on, and returns the offset
// after them.
fn put_numbers(buf: &mut [u8], at: usize, numbers: &[u16]) -> usize
    requires { at + 2 * length numbers.now ≤ length buf.old }
    ensures written { buf.new ≡ overwritten buf.old at (numbers_data numbers.now) }
    ensures end { result ≡ at + 2 * length numbers.now }
{
    let mut end = at;
    for number in numbers {
        end = put(buf, end, &u16_bytes(*number));
    }
    end
}

impl ColorSpace {
    /// Reads a color space. `Some` exactly when there are four bytes, or 28 with HDR metadata, and
    /// both sitings of the fourth byte are known ones, that is not 3. Its high two bits are ignored.
    ///
    /// ```
    /// // BT.709, full range, with samples that lie on the luma samples from left to right.
    /// let space = ColorSpace::parse(b"\x01\x01\x01\x24")?;
    /// assert_eq!(space.primaries, 1);
    /// assert_eq!(space.range, ColorRange::Full);
    /// assert_eq!(space.horizontal, ChromaSiting::Collocated);
    /// assert_eq!(space.hdr, None);
    /// ```
    pub fn parse(bytes: &[u8]) -> Option<Self>
        ensures { SomeIff result (((length bytes.now ≡ 4) ⊎ (length bytes.now ≡ 28))
            × (slice_index bytes.now 3 / 4 % 4 < 3) × (slice_index bytes.now 3 % 4 < 3)) (color_in bytes.now) }
    {
        match bytes.len() {
            4 => color_with(None, bytes),
            28 => color_with(Some(hdr_in(&bytes[4..])), bytes),
            _ => None,
        }
    }

    // The fourth byte.
    fn sampling(&self) -> u8
        ensures { result ≡ sampling_byte self.now }
    {
        self.range as u8 * 16 + self.horizontal as u8 * 4 + self.vertical as u8
    }

    /// Writes the color space to the front of the buffer and returns how many bytes it has: four, or
    /// 28 with HDR metadata. The bytes after the data stay as they were. It requires room for 28
    /// bytes.
    pub fn write_to(&self, buf: &mut [u8]) -> usize
        requires room { 28 ≤ length buf.old }
        ensures length { result ≡ length (color_data self.now) }
        ensures written { buf.new ≡ overwritten buf.old 0 (color_data self.now) }
        ensures back { color_in (color_data self.now) ≡ self.now }
    {
        let sampling = self.sampling();
        let end = put(
            buf,
            0,
            &[self.primaries, self.transfer, self.matrix, sampling],
        );
        match self.hdr {
            Some(hdr) => put_numbers(buf, end, &hdr_numbers(hdr)),
            None => end,
        }
    }
}
