//! Absolute capture time.

ghost use Rattle.std.specs.Prelude.{◌≡◌, ◌≤◌, length, Some};
ghost use Rattle.rtp_base.specs.Overwriting.{overwritten};
ghost use Rattle.rtp_values.specs.declared.kind.Extension.TheVariants.{AbsoluteCaptureTime};
ghost use Rattle.rtp_values.specs.KindBytes.{SetsFields, WritesData};
ghost use Rattle.rtp_values.specs.Values.{offset_of};
ghost use Rattle.rtp_values.specs.Spelling.{HasRoom, offset_bytes};

use super::front::{first_u64, put_u64};
use super::{GetValues, SetValues};

/// When a frame was captured, by the clock of its capturer.
#[derive(Clone, Copy, Debug, PartialEq, Eq)]
pub struct AbsCaptureTime {
    /// An NTP timestamp: 32 bits of seconds since 1900, and 32 fractional bits.
    pub capture_time: u64,
    /// How far the capturer's clock is ahead of the sender's, in seconds with 32 fractional bits,
    /// where it is known: capturer's NTP clock = sender's NTP clock + offset.
    pub clock_offset: Option<i64>,
}

// The clock offset in the first eight bytes, where they are there.
fn first_offset(bytes: &[u8]) -> Option<i64>
    ensures { result ≡ offset_of bytes.now }
{
    let number = first_u64(bytes)?;
    Some(number.cast_signed())
}

pub(super) fn read<V: SetValues>(buf: &[u8], ev: &mut V) -> Option<()>
    ensures { SetsFields V.shows AbsoluteCaptureTime buf.now ev.old ev.new result }
{
    let capture_time = first_u64(buf)?;
    let clock_offset = first_offset(&buf[8..]);
    ev.set_capture_time(AbsCaptureTime {
        capture_time,
        clock_offset,
    });
    Some(())
}

// Puts the clock offset in eight bytes at the front of the buffer.
fn put_offset(buf: &mut [u8], offset: i64)
    requires room { 8 ≤ length buf.old }
    ensures written { buf.new ≡ overwritten buf.old 0 (offset_bytes (Some offset)) }
    ensures back { offset_of (offset_bytes (Some offset)) ≡ Some offset }
{
    put_u64(buf, offset.cast_unsigned());
}

// It stays out of line, since few packets have it and the other kinds need the registers.
#[inline(never)]
pub(super) fn write<V: GetValues>(buf: &mut [u8], ev: &V) -> Option<usize>
    requires room { HasRoom AbsoluteCaptureTime (V.values ev.now) buf.old }
    ensures { WritesData AbsoluteCaptureTime (V.values ev.now) buf.old buf.new result }
{
    let time = ev.capture_time()?;
    let Some(offset) = time.clock_offset else {
        return Some(put_u64(buf, time.capture_time));
    };
    put_u64(buf, time.capture_time);
    put_offset(&mut buf[8..], offset);
    Some(16)
}
