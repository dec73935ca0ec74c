//! The elements of a block, one after another.

ghost use Rattle.std.specs.Prelude.{◌≡◌, ◌≤◌, List, length, IfSome, MatchOption};
ghost use Rattle.std.specs.Bool.{OnTrue};
ghost use Rattle.std.specs.Iterator.{YieldsFirstBy, item_count};
ghost use Rattle.rtp_ext.specs.Elements.{Element, AreElements};
ghost use Rattle.rtp_ext.specs.ElementReading.{without_padding, BeginsWithElement, IsFirstElement};

use super::ExtensionsForm;
use std::marker::Model;

/// The elements of a block in order, as pairs of an id and its data, which are lent from the block
/// (RFC 8285, 4.2 and 4.3).
///
/// Ids are 0 to 14 with 1 to 16 bytes of data in the one-byte form, and 1 to 255 with 0 to 255
/// bytes in the two-byte form. Padding, each byte 0 where an element could begin, is passed over.
/// An element that is cut short ends the elements, and so does a byte of id 15 in the one-byte
/// form, whatever follows it; from then on `next` returns `None`. It takes no memory.
///
/// The body `10 AA 01 10 05 F0 00` (hexadecimal) in the one-byte form has the elements 1 with `AA`
/// and 0 with `10 05`; in the two-byte form `01 00 0F 01 2A` has 1 without data and 15 with `2A`.
#[derive(Debug, Drop)]
pub struct Elements<'a> {
    // The bytes that are left.
    left: &'a [u8],
    form: ExtensionsForm,
}

impl<'a> Model for Elements<'a> {
    ghost use Rattle.std.specs.Prelude.{List};
    ghost use Rattle.rtp_ext.specs.Elements.{Element};
    ghost use Rattle.rtp_ext.specs.ElementReading.{elements_left};

    ghost Value = { List Element };

    ghost view = { λ it. elements_left it.form it.left.now };
}

impl<'a> Elements<'a> {
    /// The elements of a block's body, in order.
    pub fn new(block: &'a [u8], form: ExtensionsForm) -> Self
        ensures found { AreElements form block.now result }

        // The body has no other elements.
        ensures only { (elements : List Element) → AreElements form block.now elements →
            elements ≡ result }
    {
        Elements { left: block, form }
    }

    // The elements that are left, to be gone through beside these.
    #[inline(always)]
    pub(super) fn rest(&self) -> Self
        ensures { result ≡ self.now }
    {
        Elements {
            left: self.left,
            form: self.form,
        }
    }
}

impl<'a> Iterator for Elements<'a> {
    type Item = (u8, &'a [u8]);

    ghost next_gives = { YieldsFirstBy (λ item. (item.0, item.1.now)) (λ left. left) };

    ghost remaining = { item_count (λ left. left) };

    #[tactic(auto, unfolding(crate::specs::ElementReading::elements_after))]
    fn next(&mut self) -> Option<(u8, &'a [u8])> {
        let Some((id, data, left)) = first_element(self.left, self.form) else {
            self.left = &[];
            return None;
        };
        self.left = left;
        Some((id, data))
    }
}

// The first element of bytes, and what follows it; None where reading ends before one. It is
// inlined, since each walk calls it for every element. An element is split off with its header, so
// that a walk counts what is left once an element.
#[inline(always)]
pub(super) fn first_element(bytes: &[u8], form: ExtensionsForm) -> Option<(u8, &[u8], &[u8])>
    ensures { IsFirstElement form bytes.now result }
{
    let unpadded = unpadded(bytes)?;
    match form {
        ExtensionsForm::OneByte => {
            let first = unpadded[0];
            if first >= 240 {
                return None;
            }
            let (element, left) = unpadded.split_at_checked(usize::from(first % 16) + 2)?;
            Some((first / 16, &element[1..], left))
        }
        ExtensionsForm::TwoByte => {
            if unpadded.len() < 2 {
                return None;
            }
            let (element, left) = unpadded.split_at_checked(usize::from(unpadded[1]) + 2)?;
            Some((unpadded[0], &element[2..], left))
        }
    }
}

// The first element of bytes, and what follows it, as `first_element` finds it. Most elements of
// the one-byte form have no padding before them, and are found in fewer steps by trying the front.
#[inline(always)]
pub(super) fn next_element(
    bytes: &[u8],
    form: ExtensionsForm,
    front_first: bool,
) -> Option<(u8, &[u8], &[u8])>
    ensures { IsFirstElement form bytes.now result }
{
    if !front_first {
        return first_element(bytes, form);
    }
    match element_at_front(bytes, form) {
        None => first_element(bytes, form),
        element => element,
    }
}

// The element of the one-byte form at the very front of bytes, and what follows it. None where that
// is padding or an element of the id 0, or where reading ends: one test of a byte tells these.
#[inline(always)]
fn element_at_front(bytes: &[u8], form: ExtensionsForm) -> Option<(u8, &[u8], &[u8])>
    ensures { IfSome result (λ first.
        BeginsWithElement form bytes.now (first.0, first.1.now) first.2.now) }
{
    match form {
        ExtensionsForm::OneByte => {
            if bytes.is_empty() {
                return None;
            }
            let first = bytes[0];
            if first < 16 || first >= 240 {
                return None;
            }
            let (element, left) = bytes.split_at_checked(usize::from(first % 16) + 2)?;
            Some((first / 16, &element[1..], left))
        }
        ExtensionsForm::TwoByte => None,
    }
}

// The bytes after the padding at the front of bytes, if there are any.
#[inline(always)]
fn unpadded(bytes: &[u8]) -> Option<&[u8]>
    ensures { MatchOption result (length (without_padding bytes.now) ≡ 0)
        (λ rest. (rest.now ≡ without_padding bytes.now) × (1 ≤ length rest.now)) }
{
    let (first, after) = bytes.split_first()?;
    if *first != 0 {
        return Some(bytes);
    }
    if ends_in_zeros(after) {
        return None;
    }
    match skip_zeros(after) {
        [] => None,
        rest => Some(rest),
    }
}

// Whether these bytes are at most two zeros: with one before them they are the padding of most
// blocks, which ends in a whole word.
#[inline(always)]
fn ends_in_zeros(bytes: &[u8]) -> bool
    ensures { OnTrue result (length (without_padding bytes.now) ≡ 0) }
{
    match bytes {
        [] => true,
        [second] => *second == 0,
        [second, third] => *second == 0 && *third == 0,
        _ => false,
    }
}

// The bytes after the padding at their front. It stays out of line, since few elements have padding
// before them.
#[cold]
#[inline(never)]
fn skip_zeros(bytes: &[u8]) -> &[u8]
    ensures { result.now ≡ without_padding bytes.now }
{
    let mut rest = skip_zero_words(bytes);
    while let Some((byte, after)) = rest.split_first() {
        if *byte != 0 {
            return rest;
        }
        rest = after;
    }
    rest
}

// The bytes after the words of 16 zeros at their front, in which more padding may be left.
fn skip_zero_words(bytes: &[u8]) -> &[u8]
    ensures { without_padding result.now ≡ without_padding bytes.now }
{
    let mut rest = bytes;
    while let Some((word, after)) = rest.split_first_chunk::<16>() {
        if u128::from_ne_bytes(*word) != 0 {
            return rest;
        }
        rest = after;
    }
    rest
}
