//! The bytes of a datagram that its header takes, decoded without the payload.

ghost use Rattle.std.specs.Prelude.{◌≡◌, ◌≤◌, ℕ, List, length, take, IsOk, IfOk};
ghost use Rattle.std.specs.Vec.{vec_len};
ghost use Rattle.hex.specs.Hex.{decode_of};
ghost use Rattle.rtp_wire.specs.PartsAt.{header_end};
ghost use Rattle.rtp_listing.specs.HeaderBytes.{HoldsHeader};

use super::hex_line::decode_into;
use std::alloc::AllocError;

// How many bytes are decoded before the length of the header is known. The fixed part, fifteen
// contributing sources and the four bytes that a block begins with take 76 (RFC 3550, 5.1 and
// 5.3.1), and sixteen bytes are decoded at once.
const FRONT: usize = 80;

// How many bytes a header takes that begins like this. Requires `FRONT` bytes.
fn header_len(front: &[u8]) -> usize
    requires { FRONT ≤ length front.now }
    ensures { result ≡ header_end front.now }
{
    let block = 12 + 4 * usize::from(front[0] & 0x0F);
    if front[0] & 0x10 == 0 {
        return block;
    }
    let words = u16::from_be_bytes([front[block + 2], front[block + 3]]);
    block + 4 + 4 * usize::from(words)
}

/// Puts the bytes of the header that the datagram of this line begins with at the front of the
/// buffer, whatever that held, and returns how many bytes of the datagram are there. Where it
/// begins with no header they may be any number. Requires that the line is hexadecimal, and fails
/// as [`decode_into`] does.
pub(super) fn decode_header(line: &[u8], bytes: &mut Vec<u8>) -> Result<usize, AllocError>
    requires { IsOk (decode_of line.now) }
    ensures within { IfOk result (λ len. len ≤ vec_len bytes.new) }
    ensures header { (datagram : List ℕ) → decode_of line.now ≡ Ok datagram →
        IfOk result (λ len. HoldsHeader datagram (take len bytes.new.items)) }
{
    let all = line.len() / 2;
    if all <= FRONT {
        decode_into(line, 0, bytes)?;
        return Ok(all);
    }
    decode_into(&line[..2 * FRONT], 0, bytes)?;
    let len = header_len(&bytes[..FRONT]).min(all);
    if len > FRONT {
        decode_into(&line[..2 * len], FRONT, bytes)?;
    }
    Ok(len)
}
