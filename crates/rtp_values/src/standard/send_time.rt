//! The absolute send time, as it lies: 24 bits, in units of 2^-18 seconds.

ghost use Rattle.std.specs.Prelude.{◌≡◌, ◌*◌, ◌^◌, ◌<◌, length, IfSome};
ghost use Rattle.std.specs.Option.{SomeIff};
ghost use Rattle.rtp_values.specs.Values.{big_endian};
ghost use Rattle.rtp_values.specs.Spelling.{bytes_of_number};
ghost use Rattle.rtp_values.specs.StandardTimes.{IsNearestTime};

use super::nearest::nearest;

// How many times 24 bits tell apart: 64 seconds of units.
const ROLLOVER: u32 = 1 << 24;

/// Reads an absolute send time in units of 2^-18 seconds, modulo 64 seconds. `Some` exactly when
/// there are three bytes. [`extend_send_time`] finds the whole time.
///
/// `ExtensionValues` have it in microseconds, which few of these times are: 2^24 units are 64
/// seconds.
///
/// ```
/// assert_eq!(parse_send_time(b"\x04\x00\x01"), Some(0x04_0001)); // a second and a unit
/// ```
pub fn parse_send_time(bytes: &[u8]) -> Option<u32>
    ensures read { SomeIff result (length bytes.now ≡ 3) (big_endian bytes.now) }
    ensures back { IfSome result (λ units. (units < 2 ^ 24) × (bytes_of_number 3 units ≡ bytes.now)) }
{
    let [a, b, c] = *bytes else {
        return None;
    };
    Some(u32::from_be_bytes([0, a, b, c]))
}

/// The data of an absolute send time in units of 2^-18 seconds, and `None` exactly where it doesn't
/// fit into 24 bits.
///
/// ```
/// assert_eq!(send_time_bytes(0x04_0001), Some([4, 0, 1]));
/// assert_eq!(send_time_bytes(0x100_0000), None);
/// ```
pub fn send_time_bytes(units: u32) -> Option<[u8; 3]>
    ensures bytes { SomeIff result (units < 2 ^ 24) (bytes_of_number 3 units) }
    ensures back { IfSome result (λ bytes. big_endian bytes ≡ units) }
{
    if units >= ROLLOVER {
        return None;
    }
    let [_, a, b, c] = units.to_be_bytes();
    Some([a, b, c])
}

/// The time in units of 2^-32 seconds that ends in the low 24 bits of `units` and 14 zeros, and is
/// nearest to `near`, modulo 2^64; of two that are equally near, the later one. Where `near` is less
/// than 32 seconds off, as the time at which the packet arrives, it is the time that the sender
/// meant.
///
/// ```
/// // Sent at 64 seconds less a unit, and there a second later.
/// let near = (65 << 32) - (1 << 14);
/// assert_eq!(extend_send_time(near, 0xFF_FFFF), (64 << 32) - (1 << 14));
/// ```
pub fn extend_send_time(near: u64, units: u32) -> u64
    ensures { IsNearestTime (2 ^ 38) near (units * 2 ^ 14) result }
{
    nearest(near, u64::from(units) << 14, 1 << 38)
}
