//! The lines of a text.

ghost use Rattle.std.specs.Prelude.{◌≡◌, ◌↔◌, ◌<◌, ◌≤◌, ◌∷◌, ◌≢◌, ℕ, length, slice_index, false, IfSome, IfNone};
ghost use Rattle.std.specs.Str.Lines.{lines, strip_carriage_return};

use std::simd::prelude::*;

/// The index of the first byte of this value, `None` when there is none.
pub(super) fn position_of(text: &[u8], byte: u8) -> Option<usize>
    ensures found { IfSome result (λ at. (at < length text.now) × (slice_index text.now at ≡ byte)
        × ((k : ℕ) → k < at → slice_index text.now k ≢ byte)) }
    ensures none { IfNone result ((k : ℕ) → k < length text.now → slice_index text.now k ≢ byte) }
{
    text.iter().position(|other| *other == byte)
}

/// Whether one of the first 32 bytes is a line feed. Requires so many.
#[inline(always)]
pub(super) fn ends_soon(text: &[u8]) -> bool
    requires { 32 ≤ length text.now }
    ensures { (result ≡ false) ↔ ((k : ℕ) → k < 32 → slice_index text.now k ≢ 10) }
{
    let bytes = u8x32::from_slice(text);
    bytes.simd_eq(u8x32::splat(b'\n')).to_bitmask() != 0
}

// The length of the first line, whose line feed is looked for in 32 bytes at once.
fn line_len(text: &[u8]) -> usize
    ensures within { result ≤ length text.now }
    ensures none { (k : ℕ) → k < result → slice_index text.now k ≢ 10 }
    ensures feed { result < length text.now → slice_index text.now result ≡ 10 }
{
    let mut front = 0;
    while front + 32 <= text.len() {
        let bytes = u8x32::from_slice(&text[front..]);
        let feeds = bytes.simd_eq(u8x32::splat(b'\n')).to_bitmask();
        if feeds != 0 {
            return front + feeds.trailing_zeros() as usize;
        }
        front += 32;
    }
    match position_of(&text[front..], b'\n') {
        Some(before) => front + before,
        None => text.len(),
    }
}

// The line without the one CR that ends it, if any.
fn without_return(line: &[u8]) -> &[u8]
    ensures { result.now ≡ strip_carriage_return line.now }
{
    match line {
        [front @ .., b'\r'] => front,
        _ => line,
    }
}

/// The first line without its LF or CR LF, and the text after it. Requires that the text is not
/// empty.
pub(super) fn first_line(text: &[u8]) -> (&[u8], &[u8])
    requires { 0 < length text.now }
    ensures first { lines text.now ≡ result.0.now ∷ lines result.1.now }
    ensures shorter { length result.1.now < length text.now }
{
    let len = line_len(text);
    if len == text.len() {
        return (text, &[]);
    }
    (without_return(&text[..len]), &text[len + 1..])
}
