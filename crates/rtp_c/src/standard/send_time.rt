//! The absolute send time, as it lies: 24 bits, in units of 2^-18 seconds.

ghost use Rattle.std.specs.Prelude.{◌≡◌, ◌*◌, ◌^◌, length};
ghost use Rattle.rtp_values.specs.StandardTimes.{IsNearestTime};
ghost use Rattle.rtp_values.specs.Values.{big_endian};
ghost use Rattle.rtp_c.specs.StandardData.{TellsValue, WritesData};
ghost use Rattle.rtp_c.specs.StandardTimes.{AreSendTimeData};

use super::putting::{put_data, tell};
use crate::status::BAD_FIELD;
use rtp_values::standard::{extend_send_time, parse_send_time, send_time_bytes};

/// Reads an absolute send time, in units of 2^-18 seconds modulo 64 seconds;
/// [`rtpw_extend_send_time`] finds the whole time. `OK`, or `BAD_FIELD` where there aren't three
/// bytes, and then nothing is written.
#[unsafe(no_mangle)]
pub extern "C" fn rtpw_read_send_time(bytes: &[u8], units: &mut u32) -> i32
    ensures { TellsValue (λ value. value ≡ big_endian bytes.now)
        (length bytes.now ≡ 3) units.old units.new result }
{
    tell(parse_send_time(bytes), units)
}

/// Writes the three bytes of an absolute send time, in units of 2^-18 seconds, to the front of the
/// buffer. `OK`, and how many bytes they are is written too; `BAD_FIELD` where the units don't fit
/// into 24 bits; `SHORT_BUFFER` where only the room is short. Where it isn't `OK` nothing is
/// written.
#[unsafe(no_mangle)]
pub extern "C" fn rtpw_write_send_time(units: u32, buf: &mut [u8], len: &mut usize) -> i32
    ensures { WritesData (AreSendTimeData units) buf.old buf.new len.old len.new result }
{
    let Some(data) = send_time_bytes(units) else {
        return BAD_FIELD;
    };
    put_data(&data, buf, len)
}

/// The time in units of 2^-32 seconds that ends in the low 24 bits of `units` and 14 zeros, and is
/// nearest to `near`, modulo 2^64; of two that are equally near, the later one. Where `near` is less
/// than 32 seconds off, as the time at which the packet arrives, it is the time that the sender
/// meant.
#[unsafe(no_mangle)]
pub extern "C" fn rtpw_extend_send_time(near: u64, units: u32) -> u64
    ensures { IsNearestTime (2 ^ 38) near (units * 2 ^ 14) result }
{
    extend_send_time(near, units)
}
