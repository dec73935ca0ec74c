//! The original sequence number that the payload of a retransmission packet begins with (RFC 4588,
//! 4).

ghost use Rattle.std.specs.Prelude.{◌≡◌, ℕ, ◌%◌, ◌<◌, ◌≤◌, ◌++◌, List, length, drop};
ghost use Rattle.std.specs.Int.{w16, to_be_bytes};
ghost use Rattle.rtp_wire.specs.OriginalNumber.{HasOriginalNumber};

use rtp_base::{SeqNo, put};

/// Reads the original sequence number, 16 bits, from the front of the payload of a retransmission
/// packet into `seq`, and returns its length of two bytes: the original payload follows it (RFC
/// 4588, 4). Returns 0 and leaves `seq` as it was where there are fewer bytes.
///
/// From `01 02 03` it reads 258 and returns 2.
pub fn read_original_sequence_number(buf: &[u8], seq: &mut u16) -> usize
    ensures length { 2 ≤ length buf.now → result ≡ 2 }
    ensures number { 2 ≤ length buf.now → HasOriginalNumber buf.now seq.new }
    ensures short { length buf.now < 2 → result ≡ 0 }
    ensures same { length buf.now < 2 → seq.new ≡ seq.old }
{
    let Some(number) = buf.first_chunk::<2>() else {
        return 0;
    };
    *seq = u16::from_be_bytes(*number);
    2
}

/// Writes the low 16 bits of the original sequence number to the front of the payload of a
/// retransmission packet, the high byte first, and returns their length of two bytes: the original
/// payload follows them (RFC 4588, 4). All other bytes stay as they were. Requires room for
/// two bytes.
///
/// Of 65,538 it writes `00 02`.
pub fn write_original_sequence_number(buf: &mut [u8], original: SeqNo) -> usize
    requires { 2 ≤ length buf.old }
    ensures length { result ≡ 2 }
    ensures written { buf.new ≡ to_be_bytes w16 (original % 65536) ++ drop 2 buf.old }

    // What was written, followed by anything, is read as the number modulo 65,536.
    ensures read_back { (rest : List ℕ) →
        HasOriginalNumber (to_be_bytes w16 (original % 65536) ++ rest) (original % 65536) }
{
    put(buf, 0, &original.as_u16().to_be_bytes())
}
