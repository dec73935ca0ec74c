//! Transmission time offset (RFC 5450, 3).

ghost use Rattle.std.specs.Prelude.{◌≡◌, length};
ghost use Rattle.rtp_values.specs.Values.{big_endian};
ghost use Rattle.rtp_values.specs.StandardNumbers.{signed_24};
ghost use Rattle.rtp_c.specs.StandardData.{TellsValue, WritesData};
ghost use Rattle.rtp_c.specs.StandardOffset.{AreOffsetData};

use super::putting::{put_data, tell};
use crate::status::BAD_FIELD;
use rtp_values::standard::{parse_transmission_offset, transmission_offset_bytes};

/// Reads a transmission time offset, in ticks of the stream's clock (RFC 5450, 3). `OK`, or
/// `BAD_FIELD` where there aren't three bytes, and then nothing is written.
#[unsafe(no_mangle)]
pub extern "C" fn rtpw_read_transmission_offset(bytes: &[u8], offset: &mut i32) -> i32
    ensures { TellsValue (λ value. value ≡ signed_24 (big_endian bytes.now))
        (length bytes.now ≡ 3) offset.old offset.new result }
{
    tell(parse_transmission_offset(bytes), offset)
}

/// Writes the three bytes of a transmission time offset to the front of the buffer (RFC 5450, 3).
/// `OK`, and how many bytes they are is written too; `BAD_FIELD` where the offset doesn't fit into
/// 24 signed bits; `SHORT_BUFFER` where only the room is short. Where it isn't `OK` nothing is
/// written.
#[unsafe(no_mangle)]
pub extern "C" fn rtpw_write_transmission_offset(
    offset: i32,
    buf: &mut [u8],
    len: &mut usize,
) -> i32
    ensures { WritesData (AreOffsetData offset) buf.old buf.new len.old len.new result }
{
    let Some(data) = transmission_offset_bytes(offset) else {
        return BAD_FIELD;
    };
    put_data(&data, buf, len)
}
