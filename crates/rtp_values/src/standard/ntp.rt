//! NTP timestamps in header extensions (RFC 6051, 3.3): of 64 bits, and of the low 56.

ghost use Rattle.std.specs.Prelude.{◌≡◌, ◌^◌, ◌%◌, length};
ghost use Rattle.std.specs.Option.{SomeIff};
ghost use Rattle.rtp_values.specs.Values.{big_endian};
ghost use Rattle.rtp_values.specs.Spelling.{bytes_of_number};
ghost use Rattle.rtp_values.specs.StandardTimes.{IsNearestTime};

use super::nearest::nearest;
use crate::value::first_u64;

// How far apart two times with the same low 56 bits are, which is 2^24 seconds or 194 days.
const ROLLOVER: u64 = 1 << 56;

/// Reads an NTP timestamp of 64 bits, 32 of seconds since 1900 and 32 of fraction (RFC 6051, 3.3).
/// `Some` exactly when there are eight bytes.
pub fn parse_ntp_64(bytes: &[u8]) -> Option<u64>
    ensures { SomeIff result (length bytes.now ≡ 8) (big_endian bytes.now) }
{
    if bytes.len() != 8 {
        return None;
    }
    first_u64(bytes)
}

/// The data of an NTP timestamp of 64 bits (RFC 6051, 3.3).
pub fn ntp_64_bytes(time: u64) -> [u8; 8]
    ensures bytes { result ≡ bytes_of_number 8 time }
    ensures back { big_endian (bytes_of_number 8 time) ≡ time }
{
    time.to_be_bytes()
}

/// Reads an NTP timestamp of 56 bits, the low 24 of the seconds and 32 of fraction (RFC 6051, 3.3).
/// `Some` exactly when there are seven bytes. [`extend_ntp_56`] finds the high eight bits.
pub fn parse_ntp_56(bytes: &[u8]) -> Option<u64>
    ensures { SomeIff result (length bytes.now ≡ 7) (big_endian bytes.now) }
{
    let [a, b, c, d, e, f, g] = *bytes else {
        return None;
    };
    Some(u64::from_be_bytes([0, a, b, c, d, e, f, g]))
}

/// The data of the low 56 bits of an NTP timestamp (RFC 6051, 3.3).
pub fn ntp_56_bytes(time: u64) -> [u8; 7]
    ensures bytes { result ≡ bytes_of_number 7 time }
    ensures back { big_endian (bytes_of_number 7 time) ≡ time % 2 ^ 56 }
{
    let [_, a, b, c, d, e, f, g] = time.to_be_bytes();
    [a, b, c, d, e, f, g]
}

/// The NTP timestamp of 64 bits that ends in the low 56 bits of `low` and is nearest to `near`,
/// modulo 2^64; of two that are equally near, the later one. Where `near` is less than 97 days off,
/// as the time at which the packet arrives, it is the time that the sender meant.
///
/// ```
/// // Half a second before the 24 bits of the seconds begin again, and half a second after.
/// let near = 0x0100_0000_0000_0000 - 0x8000_0000;
/// assert_eq!(extend_ntp_56(near, 0x8000_0000), 0x0100_0000_8000_0000);
/// ```
pub fn extend_ntp_56(near: u64, low: u64) -> u64
    ensures { IsNearestTime (2 ^ 56) near low result }
{
    nearest(near, low, ROLLOVER)
}
