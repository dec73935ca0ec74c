//! Pieces of text, put into a buffer behind the text that it begins with. Each is told where that
//! ends, and says where it ends then. There is room for all of them, so that none tests it.

ghost use Rattle.std.specs.Prelude.{◌≡◌, ◌+◌, ◌/◌, ◌%◌, ◌<◌, ◌≤◌, ◌++◌, ℕ, List, length, take};
ghost use Rattle.std.specs.Fmt.{decimal, signed_decimal};
ghost use Rattle.rtp_base.specs.Id.{before_padding};
ghost use Rattle.rtp_listing.specs.Digits.{two_digits, four_digits};
ghost use Rattle.rtp_listing.specs.Listing.{flag_text, value_text};

use rtp_base::{Mid, Rid};

/// Puts the bytes behind the text. Requires room for them.
#[inline(always)]
pub(super) fn put_bytes(text: &mut [u8], at: usize, bytes: &[u8]) -> usize
    requires { at + length bytes.now ≤ length text.old }
    ensures end { result ≡ at + length bytes.now }
    ensures written { take result text.new ≡ take at text.old ++ bytes.now }
{
    for i in 0..bytes.len() {
        text[at + i] = bytes[i];
    }
    at + bytes.len()
}

// The two digits of each number below 100, one after the other.
static TWO_DIGITS: [u8; 200] =
    *b"000102030405060708091011121314151617181920212223242526272829303132\
33343536373839404142434445464748495051525354555657585960616263646566676869707172737475767778798081\
828384858687888990919293949596979899";

// Puts two digits behind the text. Requires a number below 100, and room for them.
#[inline(always)]
fn put_two(text: &mut [u8], at: usize, number: u32)
    requires small { number < 100 }
    requires room { at + 2 ≤ length text.old }
    ensures { take (at + 2) text.new ≡ take at text.old ++ two_digits number }
{
    let pair = number as usize * 2;
    put_bytes(text, at, &TWO_DIGITS[pair..pair + 2]);
}

// Puts four digits behind the text. Requires a number below 10,000, and room for them.
#[inline(always)]
fn put_four(text: &mut [u8], at: usize, number: u32)
    requires small { number < 10000 }
    requires room { at + 4 ≤ length text.old }
    ensures { take (at + 4) text.new ≡ take at text.old ++ four_digits number }
{
    put_two(text, at, number / 100);
    put_two(text, at + 2, number % 100);
}

// Puts eight digits behind the text. Requires a number below 100,000,000, and room for them.
#[inline(always)]
fn put_eight(text: &mut [u8], at: usize, number: u32)
    requires small { number < 100000000 }
    requires room { at + 8 ≤ length text.old }
    ensures { take (at + 8) text.new
        ≡ take at text.old ++ (four_digits (number / 10000) ++ four_digits (number % 10000)) }
{
    put_four(text, at, number / 10_000);
    put_four(text, at + 4, number % 10_000);
}

// Puts a number of one or two digits behind the text. Requires room for two.
#[inline(always)]
fn put_below_100(text: &mut [u8], at: usize, number: u32) -> usize
    requires small { number < 100 }
    requires room { at + 2 ≤ length text.old }
    ensures end { result ≤ at + 2 }
    ensures written { take result text.new ≡ take at text.old ++ decimal number }
{
    if number < 10 {
        put_bytes(text, at, &[b'0' + number as u8])
    } else {
        put_two(text, at, number);
        at + 2
    }
}

// Puts a number of one to four digits behind the text. Requires room for four.
#[inline(always)]
fn put_below_10_000(text: &mut [u8], at: usize, number: u32) -> usize
    requires small { number < 10000 }
    requires room { at + 4 ≤ length text.old }
    ensures end { result ≤ at + 4 }
    ensures written { take result text.new ≡ take at text.old ++ decimal number }
{
    if number < 100 {
        put_below_100(text, at, number)
    } else {
        let end = put_below_100(text, at, number / 100);
        put_two(text, end, number % 100);
        end + 2
    }
}

// Puts a number of one to eight digits behind the text. Requires room for eight.
#[inline(always)]
fn put_below_100_000_000(text: &mut [u8], at: usize, number: u32) -> usize
    requires small { number < 100000000 }
    requires room { at + 8 ≤ length text.old }
    ensures end { result ≤ at + 8 }
    ensures written { take result text.new ≡ take at text.old ++ decimal number }
{
    if number < 10_000 {
        put_below_10_000(text, at, number)
    } else {
        let end = put_below_10_000(text, at, number / 10_000);
        put_four(text, end, number % 10_000);
        end + 4
    }
}

/// A value that is printed in at most twenty bytes.
pub(super) trait Value {
    // How it is printed.
    ghost printed: { Self → List ℕ };

    /// Puts it behind the text. Requires room for the longest value.
    fn put(self, text: &mut [u8], at: usize) -> usize
        requires { at + 20 ≤ length text.old }
        ensures end { result ≤ at + 20 }
        ensures written { take result text.new ≡ take at text.old ++ printed self };
}

impl Value for u64 {
    ghost printed = { decimal };

    #[inline(always)]
    fn put(self, text: &mut [u8], at: usize) -> usize {
        if self < 100_000_000 {
            put_below_100_000_000(text, at, self as u32)
        } else if self < 10_000_000_000_000_000 {
            let end = put_below_100_000_000(text, at, (self / 100_000_000) as u32);
            put_eight(text, end, (self % 100_000_000) as u32);
            end + 8
        } else {
            let end = put_below_10_000(text, at, (self / 10_000_000_000_000_000) as u32);
            put_eight(text, end, (self / 100_000_000 % 100_000_000) as u32);
            put_eight(text, end + 8, (self % 100_000_000) as u32);
            end + 16
        }
    }
}

impl Value for u16 {
    ghost printed = { decimal };

    fn put(self, text: &mut [u8], at: usize) -> usize {
        put_below_100_000_000(text, at, self as u32)
    }
}

impl Value for i8 {
    ghost printed = { signed_decimal };

    fn put(self, text: &mut [u8], at: usize) -> usize {
        let sign: &[u8] = if self < 0 { b"-" } else { b"" };
        let end = put_bytes(text, at, sign);
        put_below_10_000(text, end, self.unsigned_abs() as u32)
    }
}

impl Value for bool {
    ghost printed = { flag_text };

    fn put(self, text: &mut [u8], at: usize) -> usize {
        if self {
            put_bytes(text, at, b"yes")
        } else {
            put_bytes(text, at, b"no")
        }
    }
}

impl Value for Mid {
    ghost printed = { before_padding };

    fn put(self, text: &mut [u8], at: usize) -> usize {
        put_bytes(text, at, self.as_str().as_bytes())
    }
}

impl Value for Rid {
    ghost printed = { before_padding };

    fn put(self, text: &mut [u8], at: usize) -> usize {
        put_bytes(text, at, self.as_str().as_bytes())
    }
}

/// Room for the longest word and value.
pub(super) const FIELD: usize = 11 + 20;

/// Puts the word and the value behind the text. Requires a word of at most eleven bytes, and room.
#[inline(always)]
pub(super) fn put_field<T: Value>(text: &mut [u8], at: usize, word: &[u8], value: T) -> usize
    requires word { length word.now ≤ 11 }
    requires room { at + FIELD ≤ length text.old }
    ensures end { result ≤ at + FIELD }
    ensures written { take result text.new ≡ take at text.old ++ (word.now ++ T.printed value) }
{
    let end = put_bytes(text, at, word);
    value.put(text, end)
}

/// The same of a value that may not be there, and nothing where it isn't.
#[inline(always)]
pub(super) fn put_value<T: Value>(
    text: &mut [u8],
    at: usize,
    word: &[u8],
    value: Option<T>,
) -> usize
    requires word { length word.now ≤ 11 }
    requires room { at + FIELD ≤ length text.old }
    ensures end { result ≤ at + FIELD }
    ensures written { take result text.new
        ≡ take at text.old ++ value_text word.now T.printed value }
{
    match value {
        Some(value) => put_field(text, at, word, value),
        None => at,
    }
}
