//! NTP timestamps in header extensions (RFC 6051, 3.3): of 64 bits, and of the low 56.

ghost use Rattle.std.specs.Prelude.{◌≡◌, ◌^◌, length};
ghost use Rattle.rtp_values.specs.Values.{big_endian};
ghost use Rattle.rtp_values.specs.Spelling.{bytes_of_number};
ghost use Rattle.rtp_values.specs.StandardTimes.{IsNearestTime};
ghost use Rattle.rtp_c.specs.StandardData.{TellsValue, PutsBytes};

use super::putting::{put_data, tell};
use rtp_values::standard::{extend_ntp_56, ntp_56_bytes, ntp_64_bytes, parse_ntp_56, parse_ntp_64};

/// Reads an NTP timestamp of 64 bits (RFC 6051, 3.3). `OK`, or `BAD_FIELD` where there aren't eight
/// bytes, and then nothing is written.
#[unsafe(no_mangle)]
pub extern "C" fn rtpw_read_ntp_64(bytes: &[u8], time: &mut u64) -> i32
    ensures { TellsValue (λ value. value ≡ big_endian bytes.now)
        (length bytes.now ≡ 8) time.old time.new result }
{
    tell(parse_ntp_64(bytes), time)
}

/// Writes an NTP timestamp of 64 bits to the front of the buffer, and that it has eight bytes (RFC
/// 6051, 3.3). `OK`, or `SHORT_BUFFER` where there are fewer, and then nothing is written.
#[unsafe(no_mangle)]
pub extern "C" fn rtpw_write_ntp_64(time: u64, buf: &mut [u8], len: &mut usize) -> i32
    ensures { PutsBytes (bytes_of_number 8 time) buf.old buf.new len.old len.new result }
{
    put_data(&ntp_64_bytes(time), buf, len)
}

/// Reads an NTP timestamp of 56 bits, the low 24 of the seconds and 32 of fraction (RFC 6051, 3.3);
/// [`rtpw_extend_ntp_56`] finds the high eight bits. `OK`, or `BAD_FIELD` where there aren't seven
/// bytes, and then nothing is written.
#[unsafe(no_mangle)]
pub extern "C" fn rtpw_read_ntp_56(bytes: &[u8], time: &mut u64) -> i32
    ensures { TellsValue (λ value. value ≡ big_endian bytes.now)
        (length bytes.now ≡ 7) time.old time.new result }
{
    tell(parse_ntp_56(bytes), time)
}

/// Writes the low 56 bits of an NTP timestamp to the front of the buffer, and that they have seven
/// bytes (RFC 6051, 3.3). `OK`, or `SHORT_BUFFER` where there are fewer, and then nothing is
/// written.
#[unsafe(no_mangle)]
pub extern "C" fn rtpw_write_ntp_56(time: u64, buf: &mut [u8], len: &mut usize) -> i32
    ensures { PutsBytes (bytes_of_number 7 time) buf.old buf.new len.old len.new result }
{
    put_data(&ntp_56_bytes(time), buf, len)
}

/// The NTP timestamp of 64 bits that ends in the low 56 bits of `low` and is nearest to `near`,
/// modulo 2^64; of two that are equally near, the later one.
#[unsafe(no_mangle)]
pub extern "C" fn rtpw_extend_ntp_56(near: u64, low: u64) -> u64
    ensures { IsNearestTime (2 ^ 56) near low result }
{
    extend_ntp_56(near, low)
}
