//! Elements as they are given, from their ids and data to bytes.

ghost use Rattle.std.specs.Prelude.{◌≡◌, ◌↔◌, ◌≤◌, ◌+◌, ◌-◌, ℕ, ◌++◌, length, take, drop, replicate, IsTrue, IsSome, IfSome, IfNone};
ghost use Rattle.rtp_base.specs.Overwriting.{overwritten};
ghost use Rattle.rtp_ext.specs.Elements.{AreElements, element_bytes, elements_bytes};
ghost use Rattle.rtp_ext.specs.ElementsInARow.{IsWritable, AreWritableIn};

use super::form::{element_header_len, write_header};
use super::{ElementList, ExtensionsForm};
use rtp_base::{put, put_few, put_zeros};

// How many bytes of the room are left after an element; `None` where it can't be written there.
fn room_after(room: usize, form: ExtensionsForm, id: u8, bytes: &[u8]) -> Option<usize>
    ensures some { IfSome result (λ left. IsWritable form (id, bytes.now)
        × (left + length (element_bytes form (id, bytes.now)) ≡ room)) }
    ensures none { IfNone result (IsWritable form (id, bytes.now) →
        length (element_bytes form (id, bytes.now)) ≤ room → ⊥) }
{
    if !form.can_carry(id, bytes) {
        return None;
    }
    room.checked_sub(element_header_len(form) + bytes.len())
}

// Whether the elements can be written in the form, and in the room.
fn fit<L: ElementList>(room: usize, form: ExtensionsForm, elements: L) -> bool
    ensures { IsTrue result ↔ AreWritableIn form (L.elements elements) room }
{
    let mut left = room;
    for index in 0..elements.count() {
        let (id, bytes) = elements.at(index);
        let Some(rest) = room_after(left, form, id, bytes) else {
            return false;
        };
        left = rest;
    }
    true
}

// Puts zeros at the offset. Up to four, as most elements and the rest of most words take, are put
// one by one, since a call that clears so few takes longer.
#[inline(always)]
pub(super) fn clear(buf: &mut [u8], at: usize, count: usize)
    requires { at + count ≤ length buf.old }
    ensures { buf.new ≡ overwritten buf.old at (replicate count 0) }
{
    match count {
        0 => {}
        1 => {
            put(buf, at, &[0]);
        }
        2 => {
            put(buf, at, &[0, 0]);
        }
        3 => {
            put(buf, at, &[0, 0, 0]);
        }
        4 => {
            put(buf, at, &[0, 0, 0, 0]);
        }
        _ => {
            put_zeros(buf, at, count);
        }
    }
}

// Puts zeros after the first so many bytes, if there are any.
#[inline(always)]
pub(super) fn clear_after(buf: &mut [u8], len: usize)
    requires { len ≤ length buf.old }
    ensures { buf.new ≡ overwritten buf.old len (replicate (length buf.old - len) 0) }
{
    if len < buf.len() {
        let left = buf.len() - len;
        clear(buf, len, left);
    }
}

/// Puts an element at the offset, and returns the offset after it; all other bytes stay as they were
/// (RFC 8285, 4.2 and 4.3).
///
/// Requires a form that can carry the element, and room for it from the offset on.
#[inline(always)]
pub fn put_element(buf: &mut [u8], at: usize, form: ExtensionsForm, id: u8, bytes: &[u8]) -> usize
    requires room { at + length (element_bytes form (id, bytes.now)) ≤ length buf.old }
    requires writable { IsWritable form (id, bytes.now) }
    ensures written { buf.new ≡ overwritten buf.old at (element_bytes form (id, bytes.now)) }
    ensures end { result ≡ at + length (element_bytes form (id, bytes.now)) }
{
    write_header(buf, at, form, id, bytes.len() as u8);
    let data_at = at + element_header_len(form);
    put_few(buf, data_at, bytes);
    data_at + bytes.len()
}

/// Writes the elements to the front of the buffer and returns the length that they take; the bytes
/// after them stay as they were (RFC 8285, 4.2 and 4.3).
/// [`Elements`](super::Elements) reads what was written, and any zeros after it, as these elements.
///
/// Requires a form that can carry every one of them, and a buffer of at least the length that they
/// take in it: [`ExtensionsForm::for_elements`] returns such a form.
pub fn put_elements<L: ElementList>(buf: &mut [u8], form: ExtensionsForm, elements: L) -> usize
    requires { AreWritableIn form (L.elements elements) (length buf.old) }
    ensures written { buf.new ≡ elements_bytes form (L.elements elements) ++ drop result buf.old }
    ensures length { result ≡ length (elements_bytes form (L.elements elements)) }

    // What was written, and any zeros that follow it, are a block's body with these elements.
    ensures elements { (zeros : ℕ) → AreElements form
        (elements_bytes form (L.elements elements) ++ replicate zeros 0)
        (L.elements elements) }
{
    let mut at = 0;
    for index in 0..elements.count() {
        let (id, bytes) = elements.at(index);
        at = put_element(buf, at, form, id, bytes);
    }
    at
}

/// Writes the elements to the front of the buffer and returns the length that they take; the bytes
/// after them stay as they were (RFC 8285, 4.2 and 4.3).
/// [`Elements`](super::Elements) reads what was written, and any zeros after it, as these elements.
///
/// `None` where the buffer is too short or the form can't carry one of them, and then nothing is
/// written. The one-byte form carries ids 1 to 14 with 1 to 16 bytes of data, the two-byte form ids
/// 1 to 255 with 0 to 255 bytes. It takes no memory.
///
/// The elements 1 with `AA` and 2 with `BB CC` are `10 AA 21 BB CC` (hexadecimal) in the one-byte
/// form, and `01 01 AA 02 02 BB CC` in the two-byte form.
pub fn write_elements<L: ElementList>(
    buf: &mut [u8],
    form: ExtensionsForm,
    elements: L,
) -> Option<usize>
    ensures fits { IsSome result ↔ AreWritableIn form (L.elements elements) (length buf.old) }
    ensures unchanged { IfNone result (buf.new ≡ buf.old) }
    ensures written { IfSome result (λ len. buf.new
        ≡ elements_bytes form (L.elements elements) ++ drop len buf.old) }
    ensures length { IfSome result (λ len.
        len ≡ length (elements_bytes form (L.elements elements))) }

    // What was written, and any zeros that follow it, are a block's body with these elements.
    ensures elements { IfSome result (λ len. (zeros : ℕ) →
        AreElements form (take len buf.new ++ replicate zeros 0)
        (L.elements elements)) }
{
    if !fit(buf.len(), form, elements) {
        return None;
    }
    Some(put_elements(buf, form, elements))
}
