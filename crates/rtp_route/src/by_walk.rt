//! A packet's header for a group of receivers, made in one walk over its elements.

ghost use Rattle.std.specs.Prelude.{◌≡◌, ◌≢◌, ◌*◌, ◌≤◌, Some, length, take, drop, IfSome};
ghost use Rattle.rtp_ext.specs.declared.form.ExtensionsForm.TheVariants.{OneByte};
ghost use Rattle.rtp_ext.specs.NewIds.{new_id};
ghost use Rattle.rtp_wire.specs.PartsAt.{HasLayout};
ghost use Rattle.rtp_wire.specs.PartsOf.{parts_of};
ghost use Rattle.rtp_route.specs.Walk.{no_slots, IsFrontWith, IsStart, IsWalked};

use super::copying::put_header;
use super::in_place::{is_one_byte_only, set_fields};
use super::slots::{MAX_ELEMENTS, NO_SLOTS, Slot};
use super::table::{GroupTable, form_after};
use super::walk::write_body;
use rtp_base::put;
use rtp_ext::{ExtensionsForm, can_renumber};
use rtp_wire::{Fields, RtpPacket};

// A block with a longer body is left to the calls, which look for an id that can't be carried before
// they write: so a refusal takes long for no packet.
const LONG_BODY: usize = 256;

// The most bytes of a header that is made so: as many as the body of a block may have.
const MAX_LEN: usize = 4 * 65_535;

// Puts what stands before the body of a packet at the front: these bytes, of which the last four
// begin a block, with the word of the form where the block had another one, and the number of words
// of its body.
#[inline(always)]
fn put_front(
    buf: &mut [u8],
    front: &[u8],
    was: ExtensionsForm,
    form: ExtensionsForm,
    body_len: usize,
)
    requires some { 4 ≤ length front.now }
    requires few { body_len ≤ 4 * 65535 }
    requires room { length front.now ≤ length buf.old }
    ensures { IsFrontWith front.now was form body_len (drop (length front.now) buf.old) buf.new }
{
    let block_at = front.len() - 4;
    put_header(buf, front);
    if form != was {
        put(buf, block_at, &form.serialize());
    }
    put(buf, block_at + 2, &((body_len / 4) as u16).to_be_bytes());
}

// Writes the header that the packet gets with these fields for the group, as
// [`route_header`](super::route_header) does, in one walk over its elements: it returns how many
// bytes it has and the form of its block, and the places are those of the data of the group's elements.
// The block has the form `start` before they are put. `None` without a block of one of the two forms, and where the form
// can't carry a new id, an element can't be put, several have the id of one that is put, or there may
// be too little room. The buffer and the places then are any.
#[inline(always)]
fn write_from<G: GroupTable>(
    packet: &RtpPacket<'_>,
    start: ExtensionsForm,
    fields: &Fields,
    group: G,
    buf: &mut [u8],
    slots: &mut [Slot; MAX_ELEMENTS],
) -> Option<(usize, Option<ExtensionsForm>)>
    requires table { G.is_table group }
    requires start { IsStart (G.allows group) (new_id (G.ids group))
        (parts_of packet.now).block start }
    requires payload_type { IfSome fields.now.payload_type (λ pt. pt ≤ 127) }
    requires fresh { slots.old ≡ no_slots }
    ensures walked { IfSome result (λ made. IsWalked packet.now fields.now (new_id (G.ids group))
        (G.elements group) (G.allows group) (length buf.old) buf.new
        (take (length (G.elements group)) slots.new) made.0) }
    ensures held { IfSome result (λ made. HasLayout (take made.0 buf.new) made.0 made.1) }
{
    let (was, body) = packet.block()?;
    let header = packet.header_bytes();
    let most = buf.len().min(MAX_LEN);
    let room = most.checked_sub(2 * header.len() + 3)?;
    if group.two_byte_len() > room {
        return None;
    }
    let form = form_after(group, start)?;
    let front = &header[..header.len() - body.len()];
    let len = write_body(&mut buf[..most], front.len(), was, form, body, group, slots)?;
    put_front(buf, front, was, form, len - front.len());
    set_fields(&mut buf[..len], Some(form), fields);
    Some((len, Some(form)))
}

// The second try, in the two-byte form, where the block's own can't carry the new ids. It stays out
// of line, since few packets need it.
#[cold]
#[inline(never)]
fn write_in_two_byte_form<G: GroupTable>(
    packet: RtpPacket<'_>,
    fields: Fields,
    group: G,
    buf: &mut [u8],
    slots: &mut [Slot; MAX_ELEMENTS],
) -> Option<(usize, Option<ExtensionsForm>)>
    requires table { G.is_table group }
    requires allowed { G.allows group ≢ Some OneByte }
    requires payload_type { IfSome fields.payload_type (λ pt. pt ≤ 127) }
    ensures walked { IfSome result (λ made. IsWalked packet.entry fields (new_id (G.ids group))
        (G.elements group) (G.allows group) (length buf.old) buf.new
        (take (length (G.elements group)) slots.new) made.0) }
    ensures held { IfSome result (λ made. HasLayout (take made.0 buf.new) made.0 made.1) }
{
    let (was, body) = packet.block()?;
    if can_renumber(was, body, &group.new_ids()) {
        return None;
    }
    *slots = NO_SLOTS;
    let start = ExtensionsForm::TwoByte;
    write_from(&packet, start, &fields, group, buf, slots)
}

// Writes the header in one walk, in the two-byte form where the new ids need it and it is allowed;
// `None` where another way has to be taken. The first try, in the block's own form, looks at no id
// before it writes.
#[inline(always)]
pub(super) fn write_by_walk<G: GroupTable>(
    packet: &RtpPacket<'_>,
    fields: &Fields,
    group: G,
    buf: &mut [u8],
    slots: &mut [Slot; MAX_ELEMENTS],
) -> Option<(usize, Option<ExtensionsForm>)>
    requires table { G.is_table group }
    requires payload_type { IfSome fields.now.payload_type (λ pt. pt ≤ 127) }
    ensures walked { IfSome result (λ made. IsWalked packet.now fields.now (new_id (G.ids group))
        (G.elements group) (G.allows group) (length buf.old) buf.new
        (take (length (G.elements group)) slots.new) made.0) }
    ensures held { IfSome result (λ made. HasLayout (take made.0 buf.new) made.0 made.1) }
{
    *slots = NO_SLOTS;
    let (was, body) = packet.block()?;
    if body.len() > LONG_BODY {
        return None;
    }
    let made = write_from(packet, was, fields, group, buf, slots);
    if made.is_some() || is_one_byte_only(group.allowed()) {
        return made;
    }
    write_in_two_byte_form(*packet, *fields, group, buf, slots)
}
