//! Rates as LEB128 numbers.

ghost use Rattle.std.specs.Prelude.{◌≡◌, ℕ, ◌+◌, ◌/◌, ◌%◌, ◌^◌, ◌<◌, ◌≤◌, ◌⊎◌, ◌∷◌, [], ◌++◌, List, length, drop, IfSome, IfNone};
ghost use Rattle.rtp_base.specs.Overwriting.{overwritten};
ghost use Rattle.rtp_vla.specs.Leb.{IsShortest, ReadsLeb, shortest_of};
ghost use Rattle.rtp_vla.specs.LebReading.{leb_number};

use rtp_base::put;

// The number at the front, and how many bytes spell it. It is apart, so that the numbers of one and
// two bytes are read where they are asked for.
#[inline(never)]
fn long_number_at(buf: &[u8]) -> Option<(u64, usize)>
    ensures read { result ≡ leb_number 9 buf.now }
    ensures within { IfSome result (λ read. read.1 ≤ length buf.now) }
{
    let mut value = 0;
    let mut weight: u64 = 1;
    for (i, byte) in buf.iter().enumerate() {
        value += u64::from(*byte & 0x7F) * weight;
        if *byte < 0x80 {
            return Some((value, i + 1));
        }
        if i == 8 {
            return Some((value, 9));
        }
        weight *= 128;
    }
    None
}

// The same. Most rates in use have two bytes.
#[inline(always)]
fn number_at(buf: &[u8]) -> Option<(u64, usize)>
    ensures read { result ≡ leb_number 9 buf.now }
    ensures within { IfSome result (λ read. read.1 ≤ length buf.now) }
{
    if let [first, second, ..] = buf {
        if *first >= 0x80 && *second < 0x80 {
            let value = u64::from(*first & 0x7F) + 128 * u64::from(*second);
            return Some((value, 2));
        }
    }
    long_number_at(buf)
}

/// Reads the number at the front of the bytes, and returns it with the bytes that follow it. Each
/// byte gives its low seven bits, the lowest first; a byte below 128 ends the number, and so does
/// the ninth, whose top bit is ignored. Where no number is spelled there, the result is 0 and all
/// bytes: `80 01 05` is 128 and the byte 5, `80 80` is 0 and both bytes.
#[inline]
pub fn parse_leb_u63(buf: &[u8]) -> (u64, &[u8])
    ensures reads { ReadsLeb buf.now result.0 result.1.now }
    ensures only { (value : ℕ) (rest : List ℕ) → ReadsLeb buf.now value rest →
        (result.0 ≡ value) × (result.1.now ≡ rest) }
    ensures in_range { result.0 < 2 ^ 63 }
{
    if let Some((first, after)) = buf.split_first() {
        if *first < 0x80 {
            return (u64::from(*first), after);
        }
        if let Some((value, len)) = number_at(buf) {
            return (value, &buf[len..]);
        }
    }
    (0, buf)
}

// How many bytes the shortest spelling of a number from 2^14 on has.
fn long_leb_len(value: u64) -> usize
    requires long { 16384 ≤ value }
    requires small { value < 2 ^ 63 }
    ensures { result ≡ length (shortest_of value) }
{
    let mut left = value >> 14;
    let mut len = 3;
    while left >= 0x80 {
        left >>= 7;
        len += 1;
    }
    len
}

// How many bytes the shortest spelling of any number below 2^63 has. Most rates in use have one or
// two.
#[inline(always)]
pub(super) fn checked_leb_len(value: u64) -> Option<usize>
    ensures fits { IfSome result (λ len. (value < 2 ^ 63) × (len ≡ length (shortest_of value))) }
    ensures unfit { IfNone result (2 ^ 63 ≤ value) }
{
    if value >= 0x4000 {
        if value >= 1 << 63 {
            return None;
        }
        return Some(long_leb_len(value));
    }
    if value < 0x80 {
        return Some(1);
    }
    Some(2)
}

// Puts the shortest spelling at an offset, and returns the offset after it. It is inlined, since a
// call would take the registers of the loop over the rates.
#[inline(always)]
fn put_long_leb(buf: &mut [u8], at: usize, value: u64) -> usize
    requires small { value < 2 ^ 63 }
    requires room { at + length (shortest_of value) ≤ length buf.old }
    ensures written { buf.new ≡ overwritten buf.old at (shortest_of value) }
    ensures end { result ≡ at + length (shortest_of value) }
{
    let mut left = value;
    let mut end = at;
    while left >= 0x80 {
        buf[end] = (left % 128) as u8 + 128;
        left >>= 7;
        end += 1;
    }
    buf[end] = left as u8;
    end + 1
}

// The two bytes of a number, the low one first.
fn low_and_high(number: u16) -> [u8; 2]
    ensures { result ≡ (number % 256) ∷ (number / 256) ∷ [] }
{
    number.to_le_bytes()
}

// The same. Most rates in use have one or two bytes. Two are put as one number of 16 bits, the low
// byte first: from its lowest bit on the rate's low seven bits, a 1 that says that a byte follows,
// and the rate's high seven bits.
#[inline(always)]
pub(super) fn put_leb(buf: &mut [u8], at: usize, value: u64) -> usize
    requires small { value < 2 ^ 63 }
    requires room { at + length (shortest_of value) ≤ length buf.old }
    ensures written { buf.new ≡ overwritten buf.old at (shortest_of value) }
    ensures end { result ≡ at + length (shortest_of value) }
{
    if value < 0x80 {
        buf[at] = value as u8;
        return at + 1;
    }
    if value < 0x4000 {
        let spread = value + value / 128 * 128 + 128;
        return put(buf, at, &low_and_high(spread as u16));
    }
    put_long_leb(buf, at, value)
}

/// Writes the shortest spelling of the number to the front of the buffer, and returns how many
/// bytes it has, 1 to 9; the bytes after it stay. It requires a number below 2^63 and room, for
/// which 9 bytes suffice: 300 is written as `AC 02`.
pub fn encode_leb_u63(value: u64, buf: &mut [u8]) -> usize
    requires small { value < 2 ^ 63 }
    requires room { (9 ≤ length buf.old) ⊎ (length (shortest_of value) ≤ length buf.old) }
    ensures written { buf.new ≡ shortest_of value ++ drop result buf.old }
    ensures length { result ≡ length (shortest_of value) }
    ensures shortest { IsShortest value (shortest_of value) }
{
    put_leb(buf, 0, value)
}
