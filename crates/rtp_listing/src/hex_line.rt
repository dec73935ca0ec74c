//! The lines that are datagrams in hexadecimal.

ghost use Rattle.std.specs.Prelude.{◌≡◌, ◌↔◌, ◌*◌, ◌/◌, ◌%◌, ◌<◌, ◌≤◌, List, ℕ, length, take, All, IfOk, IfSome, IsErr, IsOk, IsSomeAnd, IsTrue, OnOk};
ghost use Rattle.std.specs.Char.{IsAsciiHexdigit};
ghost use Rattle.std.specs.Vec.{vec_len};
ghost use Rattle.hex.specs.Hex.{decode_of, pair_value};

use std::alloc::{AllocError, Global};

// The byte of two hexadecimal digits. The low four bits of `0` to `9` are a digit's value, those
// of letters of either case count from 1. Both are valued in one word of 16 bits, the first in
// its low byte, so that eight such words make a vector; sixteen times the first is added to the
// second in the high byte. Requires digits.
#[inline(always)]
fn byte_of(high: u8, low: u8) -> u8
    requires high { IsAsciiHexdigit high }
    requires low { IsAsciiHexdigit low }
    ensures { (index : ℕ) → pair_value high low index ≡ Ok result }
{
    let digits = high as u16 + low as u16 * 256;
    let values = (digits & 0x0F0F) + (digits / 64 & 0x0101) * 9;
    (values.wrapping_mul(0x1001) / 256) as u8
}

// Writes the bytes of the digits at the front, two digits a byte, where the first `from` of them
// are already. Requires an even number of digits and room for their bytes.
fn write_bytes(digits: &[u8], from: usize, bytes: &mut [u8])
    requires digits { All IsAsciiHexdigit digits.now }
    requires even { length digits.now % 2 ≡ 0 }
    requires room { length digits.now ≤ 2 * length bytes.old }
    requires within { 2 * from ≤ length digits.now }
    requires before { decode_of (take (2 * from) digits.now) ≡ Ok (take from bytes.old) }
    ensures { decode_of digits.now ≡ Ok (take (length digits.now / 2) bytes.new) }
{
    for i in from..digits.len() / 2 {
        bytes[i] = byte_of(digits[2 * i], digits[2 * i + 1]);
    }
}

/// Whether all bytes are hexadecimal digits: how far each is past `0` to `9`, or past the letters of
/// either case, is 0. Each is looked at, so that many are at once.
#[inline(always)]
pub(super) fn are_digits(bytes: &[u8]) -> bool
    ensures { IsTrue result ↔ All IsAsciiHexdigit bytes.now }
{
    let mut past = 0;
    for byte in bytes {
        let past_9 = byte.wrapping_sub(b'0').saturating_sub(9);
        let past_f = (byte & 0xDF).wrapping_sub(b'A').saturating_sub(5);
        past |= past_9.min(past_f);
    }
    past == 0
}

/// Whether the line is hexadecimal: an even number of digits.
pub(super) fn is_hex(line: &[u8]) -> bool
    ensures { IsTrue result ↔ IsOk (decode_of line.now) }
{
    line.len() % 2 == 0 && are_digits(line)
}

/// Returns the bytes of a line of hexadecimal digits of either case, two digits a byte, and `None`
/// when the line has an odd length or another character in it. An empty line is an empty datagram.
///
/// Returns `AllocError` only when memory for the bytes is refused; a line that is not hexadecimal
/// needs none.
pub fn datagram(alloc: Global, line: &[u8]) -> Result<Option<Vec<u8>>, AllocError>
    ensures found { IfOk result (λ answer.
        IfSome answer (λ bytes. decode_of line.now ≡ Ok bytes.items)) }
    ensures only { (bytes : List ℕ) → decode_of line.now ≡ Ok bytes →
        IfOk result (λ answer. IsSomeAnd answer (λ found. found.items ≡ bytes)) }
    ensures none { IsErr (decode_of line.now) → result ≡ Ok None }
{
    if !is_hex(line) {
        return Ok(None);
    }
    let mut bytes = Vec::new(alloc);
    bytes.resize(line.len() / 2, 0)?;
    write_bytes(line, 0, bytes.as_mut_slice());
    Ok(Some(bytes))
}

/// Puts the bytes of the digits at the front of the buffer, which begins with the first `from` of
/// them.
///
/// Returns `AllocError` only when memory for a longer buffer is refused. Requires that the digits
/// are hexadecimal.
pub(super) fn decode_into(digits: &[u8], from: usize, bytes: &mut Vec<u8>) -> Result<(), AllocError>
    requires hex { IsOk (decode_of digits.now) }
    requires within { 2 * from ≤ length digits.now }
    requires held { from ≤ vec_len bytes.old }
    requires before { decode_of (take (2 * from) digits.now) ≡ Ok (take from bytes.old.items) }
    ensures within { OnOk result (length digits.now / 2 ≤ vec_len bytes.new) }
    ensures decoded { OnOk result
        (decode_of digits.now ≡ Ok (take (length digits.now / 2) bytes.new.items)) }
{
    let len = digits.len() / 2;
    if bytes.len() < len {
        bytes.resize(len, 0)?;
    }
    write_bytes(digits, from, bytes.as_mut_slice());
    Ok(())
}
