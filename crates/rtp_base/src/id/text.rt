//! What `Mid` and `Rid` have in common: texts in a fixed number of bytes.

ghost use Rattle.std.specs.Prelude.{◌≡◌, not, IsUtf8, ◌≢◌, ℕ, ◌<◌, ◌≤◌, ◌||◌, ◌↔◌, length, take, drop, slice_index, nat_lt, nat_le, IsTrue, map, IsSome, IfSome, IfNone, All, ◌==◌, if◌then◌else◌};
ghost use Rattle.std.specs.List.{position_or_len, count_by};
ghost use Rattle.std.specs.Bool.{OnTrue};
ghost use Rattle.std.specs.Str.{IsAscii};
ghost use Rattle.rtp_base.specs.Id.{id_char, id_text, before_padding, zero_padded, IsIdOf, IsIdByte, IsIdArray};

use std::marker::Model;
use std::simd::prelude::*;
use std::str;

/// The text of an identifier: letters, digits and underscores, filled up with spaces to `N` bytes.
#[derive(Clone, Copy, PartialEq, Eq, Hash, PartialOrd, Ord)]
pub(super) struct IdText<const N: usize> {
    bytes: [u8; N],
}

impl<const N: usize> Model for IdText<N> {
    ghost use Rattle.std.specs.Prelude.{List, ℕ};
    ghost use Rattle.rtp_base.specs.Id.{IsIdArray};

    ghost Value = { List ℕ };

    ghost view = { λ t. t.bytes };

    ghost invariant = { λ t. IsIdArray t.bytes };

    ghost inverse = { λ bytes. record { bytes = bytes } };
}

// Whether a byte of UTF-8 begins a character.
fn begins_char(byte: u8) -> bool
    ensures { result ≡ (nat_lt byte 128 || nat_le 192 byte) }
{
    byte < 128 || byte >= 192
}

// What an identifier keeps, for each first byte of a character.
#[rattlefmt::skip]
static KEPT: [u8; 256] = *b"\
________________________________________________0123456789______\
_ABCDEFGHIJKLMNOPQRSTUVWXYZ______abcdefghijklmnopqrstuvwxyz_____\
________________________________________________________________\
________________________________________________________________";

// The byte that an identifier keeps for a character, by the first byte of the character.
fn id_byte(byte: u8) -> u8
    ensures { result ≡ id_char byte }
{
    KEPT[usize::from(byte)]
}

// Whether the byte is a letter, a digit or an underscore.
fn is_id_byte(byte: u8) -> bool
    ensures { IsTrue result ↔ IsIdByte byte }
{
    byte.is_ascii_alphanumeric() || byte == b'_'
}

// The byte, and 0 in place of a space.
fn without_space(byte: u8) -> u8
    ensures { result ≡ if byte == 32 then 0 else byte }
{
    if byte == b' ' { 0 } else { byte }
}

// The index of the first space, which begins the padding.
fn first_space(bytes: &[u8]) -> Option<usize>
    ensures found { IfSome result (λ index.
        (index < length bytes.now) × (slice_index bytes.now index ≡ 32) ×
        ((k : ℕ) → k < index → slice_index bytes.now k ≢ 32)) }
    ensures none { IfNone result ((k : ℕ) → k < length bytes.now → slice_index bytes.now k ≢ 32) }
{
    bytes.iter().position(|byte| *byte == b' ')
}

// The length of the text before the padding.
fn text_len(bytes: &[u8]) -> usize
    ensures index { result ≡ position_or_len (λ b. b == 32) bytes.now }
    ensures within { result ≤ length bytes.now }
{
    match first_space(bytes) {
        Some(index) => index,
        None => bytes.len(),
    }
}

// How many of sixteen bytes are no spaces: in an identifier, the length of its text.
#[inline(always)]
fn count_kept(bytes: &[u8]) -> usize
    requires { length bytes.now ≡ 16 }
    ensures { result ≡ count_by (λ b. not (b == 32)) bytes.now }
{
    let kept = u8x16::from_slice(bytes).simd_ne(u8x16::splat(b' '));
    kept.to_bitmask().count_ones() as usize
}

// Whether each byte is a letter, a digit or an underscore.
fn are_id_bytes(bytes: &[u8]) -> bool
    ensures { IsTrue result ↔ All IsIdByte bytes.now }
{
    bytes.iter().all(|byte| is_id_byte(*byte))
}

// Whether each byte is a space.
fn are_spaces(bytes: &[u8]) -> bool
    ensures { IsTrue result ↔ All (λ b. b ≡ 32) bytes.now }
{
    bytes.iter().all(|byte| *byte == b' ')
}

// Writes what an identifier keeps of the text to the front of the bytes. Returns its length.
fn put_text(text: &str, bytes: &mut [u8]) -> usize
    ensures text { take result bytes.new ≡ id_text (length bytes.old) text.now }
    ensures rest { drop result bytes.new ≡ drop result bytes.old }
    ensures within { result ≤ length bytes.old }
{
    let mut len = 0;
    for byte in text.as_bytes() {
        if len == bytes.len() {
            break;
        }
        if begins_char(*byte) {
            bytes[len] = id_byte(*byte);
            len += 1;
        }
    }
    len
}

// Puts the text of an id to the front of the bytes, where all of the text is ASCII, and returns
// whether it is.
fn put_ascii(text: &[u8], bytes: &mut [u8]) -> bool
    requires room { length text.now ≤ length bytes.old }
    ensures ascii { OnTrue result (IsAscii text.now) }
    ensures text { OnTrue result (take (length text.now) bytes.new ≡ map id_char text.now) }
    ensures rest { OnTrue result
        (drop (length text.now) bytes.new ≡ drop (length text.now) bytes.old) }
{
    for (index, byte) in text.iter().enumerate() {
        if *byte >= 128 {
            return false;
        }
        bytes[index] = id_byte(*byte);
    }
    true
}

impl<const N: usize> IdText<N> {
    // The identifier of a text.
    pub(super) fn of(text: &str) -> Self
        ensures { IsIdOf N text.now result }
    {
        let mut bytes = [b' '; N];
        put_text(text, &mut bytes);
        IdText { bytes }
    }

    // The identifier of a text in UTF-8.
    pub(super) fn from_utf8(bytes: &[u8]) -> Option<Self>
        ensures found { IfSome result (IsIdOf N bytes.now) }
        ensures some { IsSome result ↔ IsUtf8 bytes.now }
    {
        let mut id = [b' '; N];
        // Short ASCII text, which is UTF-8, is most of what comes.
        if bytes.len() <= N && put_ascii(bytes, &mut id) {
            return Some(IdText { bytes: id });
        }
        match str::from_utf8(bytes) {
            Ok(text) => Some(IdText::of(text)),
            Err(_) => None,
        }
    }

    // Whether the bytes are letters, digits and underscores, followed by spaces only.
    pub(super) fn is_id_array(bytes: &[u8; N]) -> bool
        ensures { IsTrue result ↔ IsIdArray bytes.now }
    {
        let (text, spaces) = bytes.split_at(text_len(bytes));
        are_id_bytes(text) && are_spaces(spaces)
    }

    // The identifier of these bytes.
    pub(super) fn from_array(bytes: [u8; N]) -> Self
        requires { IsIdArray bytes }
        ensures { result ≡ bytes.entry }
    {
        IdText { bytes }
    }

    // The length of the text before the padding. Sixteen bytes, as many as a mid has, are looked at
    // at once; in the eight of a stream id the first space is found as fast.
    #[inline(always)]
    fn len(&self) -> usize
        ensures index { result ≡ position_or_len (λ b. b == 32) self.now }
        ensures within { result ≤ length self.now }
    {
        if N == 16 {
            return count_kept(&self.bytes);
        }
        text_len(&self.bytes)
    }

    // Whether the text is empty: whether the padding begins at once.
    #[inline(always)]
    pub(super) fn is_empty(&self) -> bool
        ensures empty { result ≡ (length (before_padding self.now) == 0) }
        ensures few { length (before_padding self.now) ≤ N }
    {
        match self.bytes.first() {
            Some(byte) => *byte == b' ',
            None => true,
        }
    }

    // The text, filled up with zeros.
    #[inline(always)]
    pub(super) fn zero_padded(&self) -> [u8; N]
        ensures { result ≡ zero_padded N (before_padding self.now) }
    {
        let mut bytes = self.bytes;
        for i in 0..N {
            bytes[i] = without_space(bytes[i]);
        }
        bytes
    }

    // The text before the padding.
    pub(super) fn as_str(&self) -> &str
        ensures text { result.now ≡ before_padding self.now }
        ensures back { IsIdOf N result.now self.now }
    {
        let text = &self.bytes[..self.len()];
        // The bytes of an identifier are ASCII.
        unsafe { str::from_utf8_unchecked(text) }
    }
}
