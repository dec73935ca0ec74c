//! The body of a group's block, written while the packet's elements are read.

ghost use Rattle.std.specs.Prelude.{◌≡◌, ◌+◌, ◌%◌, ◌<◌, ◌≤◌, ◌∷◌, ◌++◌, ℕ, List, [], length, take, drop, replicate, All, IfSome, IfNone};
ghost use Rattle.std.specs.Bool.{OnTrue};
ghost use Rattle.rtp_base.specs.Overwriting.{overwritten};
ghost use Rattle.rtp_ext.specs.Elements.{Element, AreElements, element_bytes, elements_bytes};
ghost use Rattle.rtp_ext.specs.ElementsInARow.{IsWritable};
ghost use Rattle.rtp_ext.specs.ElementsInPlace.{HasNone};
ghost use Rattle.rtp_ext.specs.NewIds.{new_id};
ghost use Rattle.rtp_ext.specs.WrittenBlock.{filled};
ghost use Rattle.rtp_route.specs.Routing.{put_all};
ghost use Rattle.rtp_route.specs.Template.{AreSlots};
ghost use Rattle.rtp_route.specs.Walk.{no_slots, CanBePut, ArePlaced, AreWritten, AreKept, IsBodyFor};

use super::slots::{MAX_ELEMENTS, Slot};
use super::table::GroupTable;
use rtp_base::fill_word;
use rtp_ext::{Elements, ExtensionsForm, put_element};

// Writes an element behind the bytes before the offset, and returns where it ends; `None` where it
// may have no room.
#[inline(always)]
fn write_behind(
    buf: &mut [u8],
    at: usize,
    form: ExtensionsForm,
    id: u8,
    bytes: &[u8],
) -> Option<usize>
    requires room { at ≤ length buf.old }
    requires writable { IsWritable form (id, bytes.now) }
    ensures written { IfSome result (λ _.
        buf.new ≡ overwritten buf.old at (element_bytes form (id, bytes.now))) }
    ensures end { IfSome result (λ end. end ≡ at + length (element_bytes form (id, bytes.now))) }
    ensures within { IfSome result (λ end. end ≤ length buf.old) }
{
    // With the longer header of the two.
    if at + 2 + bytes.len() > buf.len() {
        return None;
    }
    Some(put_element(buf, at, form, id, bytes))
}

// Writes the group's element at the index, and keeps the place of its data.
#[inline(always)]
fn write_own<G: GroupTable>(
    buf: &mut [u8],
    at: usize,
    form: ExtensionsForm,
    group: G,
    index: usize,
    slots: &mut [Slot; MAX_ELEMENTS],
) -> Option<usize>
    requires index { index < length (G.elements group) }
    requires elements { CanBePut form (G.elements group) }
    requires room { at ≤ length buf.old }
    requires short { length buf.old ≤ 262140 }
    ensures written { IfSome result (λ end. (start : ℕ) (old : List ℕ) (written : List Element)
        (element : Element) →
        drop index (G.elements group) ≡ element ∷ drop (index + 1) (G.elements group) →
        AreWritten form start (G.elements group) old written slots.old buf.old at →
        HasNone written element.0 →
        AreWritten form start (G.elements group) old (written ++ element ∷ [])
        slots.new buf.new end) }
    ensures within { IfSome result (λ end. end ≤ length buf.old) }
{
    let (id, bytes) = group.at(index);
    let end = write_behind(buf, at, form, id, bytes)?;
    slots[index] = Slot {
        start: (end - bytes.len()) as u32,
        len: bytes.len() as u32,
    };
    Some(end)
}

// Writes an element of the packet under its new id, or in its place the group's element of that id;
// `None` where this one is written before it.
#[inline(always)]
fn write_next<G: GroupTable>(
    buf: &mut [u8],
    at: usize,
    form: ExtensionsForm,
    group: G,
    slots: &mut [Slot; MAX_ELEMENTS],
    id: u8,
    bytes: &[u8],
) -> Option<usize>
    requires table { G.is_table group }
    requires elements { CanBePut form (G.elements group) }
    requires room { at ≤ length buf.old }
    requires short { length buf.old ≤ 262140 }
    requires writable { IsWritable form (id, bytes.now) }
    ensures written { IfSome result (λ end. (start : ℕ) (old : List ℕ) (written : List Element) →
        1 ≤ start →
        AreWritten form start (G.elements group) old written slots.old buf.old
        at →
        (element : Element) × (element.0 ≡ id)
        × (HasNone (G.elements group) id → element ≡ (id, bytes.now))
        × AreWritten form start (G.elements group) old
        (written ++ element ∷ []) slots.new buf.new end) }
    ensures within { IfSome result (λ end. end ≤ length buf.old) }
{
    match group.index_of(id) {
        None => write_behind(buf, at, form, id, bytes),
        Some(index) => {
            if slots[index].start != 0 {
                return None;
            }
            write_own(buf, at, form, group, index, slots)
        }
    }
}

// Whether the form that the block gets carries the element. It stays out of line, so that the walk
// does nothing for it where the block's own form carries it.
#[cold]
#[inline(never)]
fn is_carried(form: ExtensionsForm, id: u8, bytes: &[u8]) -> bool
    ensures { OnTrue result (IsWritable form (id, bytes.now)) }
{
    form.can_carry(id, bytes)
}

// Whether the form that the block gets carries the element, where that form carries all that the
// block's own does: the own one is looked at first.
#[inline(always)]
fn carries(was: ExtensionsForm, form: ExtensionsForm, id: u8, bytes: &[u8]) -> bool
    requires { (element : Element) → IsWritable was element → IsWritable form element }
    ensures { OnTrue result (IsWritable form (id, bytes.now)) }
{
    if was.can_carry(id, bytes) {
        return true;
    }
    is_carried(form, id, bytes)
}

// Writes the elements of a block's body under their new ids, those without one left out, and the
// group's elements in the place of those of their ids; returns where they end. `None` where the form
// can't carry one, or two have the id of one of the group's elements.
#[inline(always)]
fn write_in_form<G: GroupTable>(
    buf: &mut [u8],
    at: usize,
    was: ExtensionsForm,
    form: ExtensionsForm,
    body: &[u8],
    group: G,
    slots: &mut [Slot; MAX_ELEMENTS],
) -> Option<usize>
    requires some { 1 ≤ at }
    requires table { G.is_table group }
    requires elements { CanBePut form (G.elements group) }
    requires room { at ≤ length buf.old }
    requires short { length buf.old ≤ 262140 }
    requires carries { (element : Element) → IsWritable was element → IsWritable form element }
    requires fresh { ArePlaced form at [] (G.elements group) slots.old }
    ensures kept { IfSome result (λ end. (elements : List Element) →
        AreElements was body.now elements →
        AreKept form (new_id (G.ids group)) (G.elements group) elements at buf.old slots.new
        buf.new end) }
    ensures within { IfSome result (λ end. end ≤ length buf.old) }
{
    let mut end = at;
    for (id, bytes) in Elements::new(body, was) {
        if let Some(new) = group.new_id(id) {
            if !carries(was, form, new, bytes) {
                return None;
            }
            end = write_next(buf, end, form, group, slots, new, bytes)?;
        }
    }
    Some(end)
}

// Writes the elements of a block's body as `write_in_form` does, by a loop of its own where both forms
// are the one-byte form, as they mostly are. It stays out of line, so that the walk has the registers
// to itself.
#[inline(never)]
fn write_kept<G: GroupTable>(
    buf: &mut [u8],
    at: usize,
    was: ExtensionsForm,
    form: ExtensionsForm,
    body: &[u8],
    group: G,
    slots: &mut [Slot; MAX_ELEMENTS],
) -> Option<usize>
    requires some { 1 ≤ at }
    requires table { G.is_table group }
    requires elements { CanBePut form (G.elements group) }
    requires room { at ≤ length buf.old }
    requires short { length buf.old ≤ 262140 }
    requires carries { (element : Element) → IsWritable was element → IsWritable form element }
    requires fresh { ArePlaced form at [] (G.elements group) slots.old }
    ensures kept { IfSome result (λ end. (elements : List Element) →
        AreElements was body.now elements →
        AreKept form (new_id (G.ids group)) (G.elements group) elements at buf.old slots.new
        buf.new end) }
    ensures within { IfSome result (λ end. end ≤ length buf.old) }
{
    let narrow = ExtensionsForm::OneByte;
    match (was, form) {
        (ExtensionsForm::OneByte, ExtensionsForm::OneByte) => {
            write_in_form(buf, at, narrow, narrow, body, group, slots)
        }
        _ => write_in_form(buf, at, was, form, body, group, slots),
    }
}

// Writes those of the group's elements that have no place yet, and returns where they end.
#[inline(always)]
fn write_lacking<G: GroupTable>(
    buf: &mut [u8],
    at: usize,
    form: ExtensionsForm,
    group: G,
    slots: &mut [Slot; MAX_ELEMENTS],
) -> Option<usize>
    requires elements { CanBePut form (G.elements group) }
    requires room { at ≤ length buf.old }
    requires short { length buf.old ≤ 262140 }
    ensures written { IfSome result (λ end. (start : ℕ) (old : List ℕ) (written : List Element) →
        1 ≤ start →
        AreWritten form start (G.elements group) old written slots.old buf.old at →
        AreWritten form start (G.elements group) old
        (put_all (G.elements group) written) slots.new buf.new end
        × AreSlots form start (put_all (G.elements group) written)
        (G.elements group) (take (length (G.elements group)) slots.new)) }
    ensures within { IfSome result (λ end. end ≤ length buf.old) }
{
    let mut end = at;
    for index in 0..group.count() {
        if slots[index].start == 0 {
            end = write_own(buf, end, form, group, index, slots)?;
        }
    }
    Some(end)
}

// Writes the body that a block's body becomes for the group at the offset, which is of whole words,
// and returns where it ends; the places are those of the group's elements. `None` where another way
// has to be taken.
#[inline(always)]
pub(super) fn write_body<G: GroupTable>(
    buf: &mut [u8],
    at: usize,
    was: ExtensionsForm,
    form: ExtensionsForm,
    body: &[u8],
    group: G,
    slots: &mut [Slot; MAX_ELEMENTS],
) -> Option<usize>
    requires some { 1 ≤ at }
    requires whole { at % 4 ≡ 0 }
    requires table { G.is_table group }
    requires elements { CanBePut form (G.elements group) }
    requires room { at ≤ length buf.old }
    requires short { length buf.old ≤ 262140 }
    requires carries { (element : Element) → IsWritable was element → IsWritable form element }
    requires fresh { slots.old ≡ no_slots }
    ensures written { IfSome result (λ end. (elements : List Element) →
        AreElements was body.now elements →
        IsBodyFor form (new_id (G.ids group)) (G.elements group)
        elements at (take (length (G.elements group)) slots.new)
        buf.new end) }
    ensures within { IfSome result (λ end. end ≤ length buf.old) }
{
    let kept = write_kept(buf, at, was, form, body, group, slots)?;
    let len = write_lacking(buf, kept, form, group, slots)?;
    let end = (len + 3) / 4 * 4;
    if end > buf.len() {
        return None;
    }
    fill_word(buf, len, end - len);
    Some(end)
}
