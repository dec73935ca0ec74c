//! What the input says: the extension map, and the datagrams.

ghost use Rattle.std.specs.Prelude.{◌≡◌, ◌+◌, ◌<◌, ◌^◌, ℕ, List, length, IfOk, IfErr, IfSome, IfNone};
ghost use Rattle.std.specs.Str.Lines.{lines};
ghost use Rattle.rtp_listing.specs.declared.input.InputError.TheVariants.{NoMemory};
ghost use Rattle.rtp_listing.specs.Input.{AreHex, Spells, IsFirstBadLine};
ghost use Rattle.rtp_listing.specs.Front.{MapsNoneFirst, IsFront, IsPastDigits, IsFirstNotHex, IsHexText};

use super::hex_line::{are_digits, is_hex};
use super::line::{ends_soon, first_line};
use super::map_line::map_line;
use rtp_wire::{Extension, ExtensionMap};
use std::alloc::{AllocError, Global};

/// What the lines of the input say.
#[derive(Drop)]
pub struct Input<'a> {
    /// The extension that each id is mapped to.
    pub exts: ExtensionMap,
    /// The lines after the map lines: the datagrams, one a line, two hexadecimal digits a byte.
    pub datagrams: &'a [u8],
}

/// Why the input could not be read.
#[derive(Clone, Copy, Debug, PartialEq, Eq)]
pub enum InputError {
    /// The line of this number, counted from 1, is the first that is neither a map line before all
    /// datagrams nor hexadecimal.
    BadLine(u64),
    /// Memory was refused.
    NoMemory,
}

impl From<AllocError> for InputError {
    ghost from_gives = { λ _ error. error ≡ NoMemory };

    fn from(_: AllocError) -> Self {
        InputError::NoMemory
    }
}

// The map that the map lines at the front make, the number of these lines, and the text after them.
fn map_lines(alloc: Global, text: &[u8]) -> Result<(ExtensionMap, u64, &[u8]), AllocError>
    ensures front { IfOk result (λ front. IsFront text.now front.0 front.1 front.2.now) }
    ensures all { IfOk result (λ front. MapsNoneFirst front.2.now) }
{
    let mut exts = ExtensionMap::empty();
    let mut count = 0u64;
    let mut rest = text;
    while !rest.is_empty() {
        let (line, after) = first_line(rest);
        let Some((id, uri)) = map_line(line) else {
            break;
        };
        exts.set(id, Extension::from_sdp_uri(alloc, uri)?);
        count += 1;
        rest = after;
    }
    Ok((exts, count, rest))
}

// The text behind an even number of digits at its front: where a line is long, those that are
// passed by 64 before its end is looked for.
#[inline(always)]
fn past_digits(text: &[u8]) -> &[u8]
    ensures { IsPastDigits text.now result.now }
{
    let mut rest = text;
    if rest.len() < 64 || ends_soon(rest) {
        return rest;
    }
    while rest.len() >= 64 && are_digits(&rest[..64]) {
        rest = &rest[64..];
    }
    rest
}

// The number of the first line that is not hexadecimal, where so many lines are before the text.
fn first_not_hex(text: &[u8], lines_before: u64) -> Option<u64>
    requires { lines_before + length text.now < 2 ^ 64 }
    ensures found { IfSome result (IsFirstNotHex (lines text.now) lines_before) }
    ensures none { IfNone result (IsHexText text.now) }
{
    let mut rest = past_digits(text);
    let mut number = lines_before;
    while !rest.is_empty() {
        let (line, after) = first_line(rest);
        number += 1;
        if !is_hex(line) {
            return Some(number);
        }
        rest = past_digits(after);
    }
    None
}

/// Reads the map lines at the front, and finds the lines of datagrams after them. Without any map
/// line the map is the standard one.
///
/// Returns `BadLine` with the first line that is neither, and `NoMemory` only when memory for the
/// map is refused: the lines of datagrams take none.
pub fn read_input(alloc: Global, text: &[u8]) -> Result<Input<'_>, InputError>
    // What the lines of datagrams decode to is what the text says.
    ensures spelled { IfOk result (λ input. (datagrams : List (List ℕ)) ×
        AreHex (lines input.datagrams.now) datagrams × Spells text.now input.exts datagrams) }
    ensures bad_line { IfErr result (λ error. (n : ℕ) → error ≡ InputError.BadLine n →
        IsFirstBadLine text.now n) }
{
    let (exts, count, datagrams) = map_lines(alloc, text)?;
    if let Some(number) = first_not_hex(datagrams, count) {
        return Err(InputError::BadLine(number));
    }
    let exts = if count == 0 {
        ExtensionMap::standard()
    } else {
        exts
    };
    Ok(Input { exts, datagrams })
}
