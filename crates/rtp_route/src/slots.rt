//! Where the data of elements lie in a header.

ghost use Rattle.std.specs.Prelude.{◌≡◌, ◌↔◌, ◌+◌, ◌<◌, ◌≤◌, ◌∷◌, ℕ, List, [], Some, length, map, take, drop, slice_get, All, IsTrue, IsSome, IfSome, IfNone};
ghost use Rattle.std.specs.Bool.{OnTrue, OnFalse};
ghost use Rattle.std.specs.List.{AllByRecursion};
ghost use Rattle.rtp_base.specs.Overwriting.{overwritten};
ghost use Rattle.rtp_ext.specs.declared.form.ExtensionsForm.{ExtensionsForm};
ghost use Rattle.rtp_ext.specs.Elements.{Element};
ghost use Rattle.rtp_wire.specs.PartsOf.{parts_of};
ghost use Rattle.rtp_route.specs.declared.slots.Slot.{Slot};
ghost use Rattle.rtp_route.specs.Template.{HaveOwnIds, HasOnly, HasRow, IsSlot, AreSlots, LiesInHeader, body_start_of, slot_lengths, total_of, pieces, filled_in};

use rtp_base::{put, put_few};
use rtp_ext::{ElementList, last_place};
use rtp_wire::RtpPacket;

/// The most elements that are put into a header for a group.
pub const MAX_ELEMENTS: usize = 16;

// As many places as there can be, of which none is known.
pub(super) const NO_SLOTS: [Slot; MAX_ELEMENTS] = [Slot { start: 0, len: 0 }; MAX_ELEMENTS];

/// Where the data of an element lie in a header. Both numbers have 32 bits, so that places are copied
/// many at once.
#[derive(Clone, Copy)]
pub struct Slot {
    /// How many bytes are before them, at most 262,216.
    pub start: u32,
    /// How many they are, at most 255.
    pub len: u32,
}

/// Places in a header, in order. A slice of places is such a list.
pub trait SlotList: Copy {
    ghost use Rattle.rtp_route.specs.declared.slots.Slot.{Slot};

    // The places of it, in order.
    ghost slots: { Self → List Slot };

    /// How many there are.
    fn count(&self) -> usize
        ensures { result ≡ length (slots self.now) };

    /// The place at the index, which is below the count.
    fn at(&self, index: usize) -> Slot
        requires { index < length (slots self.now) }
        ensures { slice_get (slots self.now) index ≡ Some result };
}

impl SlotList for &[Slot] {
    ghost slots = { λ slots. slots.now };

    fn count(&self) -> usize {
        (*self).len()
    }

    fn at(&self, index: usize) -> Slot {
        self[index]
    }
}

// The place of the last element of the id in the packet's header, and none without one.
fn slot_of(packet: &RtpPacket<'_>, id: u8) -> Option<Slot>
    ensures found { (form : ExtensionsForm) (elements : List Element) (new : Element) →
        HasRow (parts_of packet.now) form elements → HasOnly elements new → id ≡ new.0 →
        (slot : Slot) × (result ≡ Some slot)
        × IsSlot form (body_start_of (parts_of packet.now)) elements new slot }
    ensures within { IfSome result (LiesInHeader (parts_of packet.now)) }
{
    let (form, body) = packet.block()?;
    let place = last_place(form, body, id)?;
    Some(Slot {
        start: (packet.header_len() - body.len() + place.data_start) as u32,
        len: (place.end - place.data_start) as u32,
    })
}

// The places of the elements in the packet's header.
pub(super) fn slots_of<L: ElementList>(
    packet: &RtpPacket<'_>,
    elements: L,
) -> Option<[Slot; MAX_ELEMENTS]>
    requires { length (L.elements elements) ≤ 16 }
    ensures found { (form : ExtensionsForm) (row : List Element) →
        HasRow (parts_of packet.now) form row →
        AllByRecursion (HasOnly row) (L.elements elements) →
        (slots : List Slot) × (result ≡ Some slots)
        × AreSlots form (body_start_of (parts_of packet.now)) row (L.elements elements)
        (take (length (L.elements elements)) slots) }
    ensures long { IfSome result (λ slots. length slots ≡ 16) }
    ensures within { IfSome result (λ slots. All (LiesInHeader (parts_of packet.now))
        (take (length (L.elements elements)) slots)) }
    ensures none { L.elements elements ≡ [] → IsSome result }
{
    let mut slots = NO_SLOTS;
    for index in 0..elements.count() {
        let (id, _) = elements.at(index);
        slots[index] = slot_of(packet, id)?;
    }
    Some(slots)
}

// Whether there are as many data as places, each as long as its place.
#[inline(always)]
pub(super) fn have_lengths(slots: &[Slot], contents: &[&[u8]]) -> bool
    ensures { IsTrue result
        ↔ (map (λ bytes. length bytes.now) contents.now ≡ slot_lengths slots.now) }
{
    if contents.len() != slots.len() {
        return false;
    }
    for index in 0..slots.len() {
        if contents[index].len() != slots[index].len as usize {
            return false;
        }
    }
    true
}

// Puts the data at their places.
#[inline(always)]
pub(super) fn fill(buf: &mut [u8], slots: &[Slot], contents: &[&[u8]])
    requires lengths { map (λ bytes. length bytes.now) contents.now ≡ slot_lengths slots.now }
    requires within { All (λ slot. slot.start + slot.len ≤ length buf.old) slots.now }
    ensures { buf.new ≡ filled_in slots.now (map (λ bytes. bytes.now) contents.now) buf.old }
{
    for index in 0..slots.len() {
        put_few(buf, slots[index].start as usize, contents[index]);
    }
}

/// How many bytes of data the places have together. Requires at most [`MAX_ELEMENTS`] places.
pub fn total_len(slots: &[Slot]) -> usize
    requires { length slots.now ≤ 16 }
    ensures { result ≡ total_of slots.now }
{
    let mut total = 0;
    for slot in slots {
        total += slot.len as usize;
    }
    total
}

// Copies longer data. It stays out of line, so that the loop over the places keeps its registers.
#[inline(never)]
fn copy_long(buf: &mut [u8], piece: &[u8])
    requires { length buf.old ≡ length piece.now }
    ensures { buf.new ≡ piece.now }
{
    buf.copy_from_slice(piece);
}

// Puts data at the offset. Up to four bytes, as most elements have, are put by themselves, since a
// copy of so few takes longer.
#[inline(always)]
fn put_piece(buf: &mut [u8], at: usize, piece: &[u8])
    requires { at + length piece.now ≤ length buf.old }
    ensures { buf.new ≡ overwritten buf.old at piece.now }
{
    match piece {
        [first] => {
            put(buf, at, &[*first]);
        }
        [first, second] => {
            put(buf, at, &[*first, *second]);
        }
        [first, second, third] => {
            put(buf, at, &[*first, *second]);
            put(buf, at + 2, &[*third]);
        }
        [first, second, third, fourth] => {
            put(buf, at, &[*first, *second, *third, *fourth]);
        }
        _ => copy_long(&mut buf[at..at + piece.len()], piece),
    }
}

/// Puts the data of the group's elements, one after another in their order, at their places.
/// Requires as many as the places have, and places that lie in the buffer.
#[inline(always)]
pub fn fill_joined<S: SlotList>(buf: &mut [u8], slots: S, bytes: &[u8])
    requires lengths { length bytes.now ≡ total_of (S.slots slots) }
    requires within { All (λ slot. slot.start + slot.len ≤ length buf.old) (S.slots slots) }
    ensures { buf.new
        ≡ filled_in (S.slots slots) (pieces (slot_lengths (S.slots slots)) bytes.now) buf.old }
{
    let mut left = bytes;
    for index in 0..slots.count() {
        let slot = slots.at(index);
        let (first, after) = left.split_at(slot.len as usize);
        put_piece(buf, slot.start as usize, first);
        left = after;
    }
}

/// Whether each of the places lies in a header of so many bytes.
pub fn lie_within(slots: &[Slot], len: usize) -> bool
    ensures { IsTrue result ↔ All (λ slot. slot.start + slot.len ≤ len) slots.now }
{
    slots
        .iter()
        .all(|slot| slot.start as usize + slot.len as usize <= len)
}
