//! The header of a group of receivers, made by the calls for one packet.

ghost use Rattle.std.specs.Prelude.{◌≡◌, ◌↔◌, ◌<◌, ◌≤◌, ℕ, List, Option, ◌++◌, length, take, slice_index, IsErr, IfOk, IfErr, IfSome};
ghost use Rattle.rtp_ext.specs.declared.form.ExtensionsForm.{ExtensionsForm};
ghost use Rattle.rtp_ext.specs.Elements.{Element};
ghost use Rattle.rtp_ext.specs.ElementsInPlace.{HasNone};
ghost use Rattle.rtp_ext.specs.NewIds.{new_id};
ghost use Rattle.rtp_wire.specs.declared.packet.fields.Fields.{Fields};
ghost use Rattle.rtp_wire.specs.declared.packet.not_put.NotPut.{NotPut};
ghost use Rattle.rtp_wire.specs.Packet.{PacketParts, IsPacket};
ghost use Rattle.rtp_wire.specs.PacketElements.{AreElementsOf};
ghost use Rattle.rtp_wire.specs.PartsAt.{HasLayout};
ghost use Rattle.rtp_wire.specs.PartsOf.{datagram_of};
ghost use Rattle.rtp_route.specs.declared.not_routed.NotRouted.{NotRouted};
ghost use Rattle.rtp_route.specs.Calls.{ArePut, IsRenumberedInForm, IsRoutedByCalls, header_in};
ghost use Rattle.rtp_route.specs.NotPutAmong.{IsNotPutAmong, HasSameElements};
ghost use Rattle.rtp_route.specs.NotRouted.{KeepsFromNewIds, KeepsFromRouting};
ghost use Rattle.rtp_route.specs.Routing.{IsRouted};

use super::NotRouted;
use super::by_walk::write_by_walk;
use super::in_place::{change_form, copy_header, is_one_byte_only, known_ids, renumber};
use super::numbers::{IDS, number_elements};
use super::slots::{MAX_ELEMENTS, NO_SLOTS};
use super::tabled::{TabledGroup, measured};
use rtp_ext::{ElementList, ExtensionsForm, NewIds};
use rtp_wire::{Fields, NotPut, RtpPacket, compact_copy, put_element_copy};

/// What receivers of a packet have in common, with the elements in any list.
#[derive(Clone, Copy)]
pub struct GroupOf<'a, L: ElementList> {
    /// The ids that the elements get (RFC 8285, 5).
    pub ids: &'a NewIds,
    /// The elements that are then put into the header one after another, each with its id and data.
    pub elements: L,
    /// The one form that the block may get, where it isn't any (RFC 8285, 4.1.2). One that gets no
    /// element, and no id that its form can't carry, keeps its form.
    pub allowed: Option<ExtensionsForm>,
}

/// What receivers of a packet have in common, with the elements in a slice.
pub type Group<'a> = GroupOf<'a, &'a [(u8, &'a [u8])]>;

// Puts the elements into the packet in the first bytes of the buffer one after another, and returns
// how many bytes it then has.
fn put_each<L: ElementList>(
    buf: &mut [u8],
    len: usize,
    group: &GroupOf<'_, L>,
) -> Result<usize, NotPut>
    requires { len ≤ length buf.old }
    ensures put { IfOk result (λ new_len. ArePut (take len buf.old)
        (L.elements group.now.elements) group.now.allowed (take new_len buf.new)) }
    ensures ids { IfOk result (λ _. HasNone (L.elements group.now.elements) 0) }
    ensures within { IfOk result (λ new_len. new_len ≤ length buf.old) }
    ensures length { length buf.new ≡ length buf.old }
    ensures cause { IfErr result (IsNotPutAmong (take len buf.old)
        (L.elements group.now.elements) group.now.allowed (length buf.old)) }

    // What keeps an element from another packet that says the same keeps one from this packet.
    ensures none_refused { IfOk result (λ _. (packet : List ℕ) (cause : NotPut) →
        HasSameElements packet (take len buf.old) →
        IsNotPutAmong packet (L.elements group.now.elements) group.now.allowed
        (length buf.old) cause → ⊥) }
{
    let mut len = len;
    let elements = group.elements;
    for index in 0..elements.count() {
        let (id, data) = elements.at(index);
        len = put_element_copy::<1>(buf, len, id, data, group.allowed)?;
    }
    Ok(len)
}

// Gives the elements of the packet in the first bytes of the buffer, which are a header alone with a
// block of this form, their new ids, in the two-byte form where its own can't carry them and that is
// allowed; returns how many bytes it then has.
fn renumber_in_form(
    buf: &mut [u8],
    len: usize,
    form: Option<ExtensionsForm>,
    ids: &NewIds,
    allowed: Option<ExtensionsForm>,
) -> Result<usize, NotRouted>
    requires within { len ≤ length buf.old }
    requires held { HasLayout (take len buf.old) len form }
    ensures renumbered { (parts : PacketParts) (elements : List Element) →
        IsPacket (take len buf.old) parts → AreElementsOf parts.block elements →
        IfOk result (λ new_len. IsRenumberedInForm allowed (new_id ids.now)
        elements (take len buf.old) parts (take new_len buf.new)) }
    ensures within { IfOk result (λ new_len. new_len ≤ length buf.old) }
    ensures cause { IfErr result (KeepsFromNewIds (take len buf.old) (new_id ids.now)
        allowed (length buf.old)) }
    ensures none_refused { IfOk result (λ _. (cause : NotRouted) →
        KeepsFromNewIds (take len buf.old) (new_id ids.now) allowed
        (length buf.old) cause → ⊥) }
{
    if renumber(&mut buf[..len], form, ids) {
        return Ok(len);
    }
    if is_one_byte_only(allowed) {
        return Err(NotRouted::LongId);
    }
    known_ids(ids);
    let new_len = change_form(buf, len)?;
    // The two-byte form carries each of them.
    let two_byte_form = Some(ExtensionsForm::TwoByte);
    renumber(&mut buf[..new_len], two_byte_form, ids);
    Ok(new_len)
}

// Makes the header that the packet gets with these fields for the group in the first bytes of the
// buffer, and returns how many bytes it has.
pub(super) fn make_header<L: ElementList>(
    packet: &RtpPacket<'_>,
    fields: &Fields,
    group: &GroupOf<'_, L>,
    buf: &mut [u8],
) -> Result<usize, NotRouted>
    requires { IfSome fields.now.payload_type (λ pt. pt ≤ 127) }
    ensures made { IfOk result (λ len. IsRoutedByCalls (header_in packet.now) fields.now
        (new_id group.now.ids.now) (L.elements group.now.elements) group.now.allowed
        buf.new len) }
    ensures ids { IfOk result (λ _. HasNone (L.elements group.now.elements) 0) }
    ensures within { IfOk result (λ len. len ≤ length buf.new) }
    ensures cause { IfErr result (KeepsFromRouting (header_in packet.now) fields.now
        (new_id group.now.ids.now) (L.elements group.now.elements) group.now.allowed
        (length buf.old)) }
    ensures none_refused { IfOk result (λ _. (cause : NotRouted) →
        KeepsFromRouting (header_in packet.now) fields.now (new_id group.now.ids.now)
        (L.elements group.now.elements) group.now.allowed (length buf.old) cause → ⊥) }
{
    let needed = packet.header_len();
    if buf.len() < needed {
        return Err(NotRouted::NotPut(NotPut::NoRoom { needed }));
    }
    copy_header(packet, fields, &mut buf[..needed]);
    let start = renumber_in_form(buf, needed, packet.form(), group.ids, group.allowed)?;
    let len = put_each(buf, start, group)?;
    // It is still a packet.
    Ok(compact_copy::<1>(&mut buf[..len]).unwrap())
}

/// Writes the header that the packet gets on its way to a receiver with these fields, as the calls
/// for one packet make it, and returns how many bytes it has: each element gets its new id, and one
/// without goes; a block of the one-byte form gets the two-byte form where a new id is above 14;
/// each of the group's elements is put among them; and the block is as short as they allow (RFC
/// 7667, 3.7; RFC 8285, 4.1.2 to 4.3 and 5). P is that of the packet, as in
/// [`HeaderTemplate::write_header`](super::HeaderTemplate::write_header). The buffer behind the
/// header may then have any bytes. Requires a payload type of at most 127.
///
/// The cause is the first of these, and the buffer then has any bytes:
/// - [`NotRouted::NotPut`] of [`NotPut::NoRoom`], where the buffer is shorter than the packet's own
///   header, whose length it says.
/// - [`NotRouted::LongId`], where the new id of one of the packet's elements is above 14, its block
///   has the one-byte form, and that alone is allowed.
/// - [`NotRouted::NotPut`] of the cause for which
///   [`change_form`](rtp_wire::RtpPacketBuf::change_form) refuses the two-byte form for such an id
///   in this buffer.
/// - [`NotRouted::NotPut`] of the cause for which [`put_element`](rtp_wire::put_element) refuses
///   one of the group's elements in this buffer, once those before it are put. The block becomes as
///   short as it can only then, so that each of them needs room.
///
/// Of the packet `90 60 00 05 00 00 00 64 00 00 00 2C BE DE 00 01 10 AA 00 00` (hexadecimal) the
/// number 9, the id 3 for 1 and the data `00 07` of the id 4 make
/// `90 60 00 09 00 00 00 64 00 00 00 2C BE DE 00 02 30 AA 41 00 07 00 00 00`, and 24 is returned.
pub fn route_header<L: ElementList>(
    packet: &RtpPacket<'_>,
    fields: &Fields,
    group: &GroupOf<'_, L>,
    buf: &mut [u8],
) -> Result<usize, NotRouted>
    requires { IfSome fields.now.payload_type (λ pt. pt ≤ 127) }
    ensures routed { IfOk result (λ len. IsRouted (datagram_of packet.now) fields.now
        (new_id group.now.ids.now) (L.elements group.now.elements) group.now.allowed
        (take len buf.new)) }

    // There is no other such header.
    ensures only { IfOk result (λ len. (header : List ℕ) →
        ((k : ℕ) → slice_index header k < 256) → IsRouted (datagram_of packet.now) fields.now
        (new_id group.now.ids.now) (L.elements group.now.elements) group.now.allowed header →
        header ≡ take len buf.new) }
    ensures within { IfOk result (λ len. len ≤ length buf.new) }
    ensures cause { IfErr result (KeepsFromRouting (header_in packet.now) fields.now
        (new_id group.now.ids.now) (L.elements group.now.elements) group.now.allowed
        (length buf.old)) }
    ensures refused { IsErr result ↔ ((cause : NotRouted)
        × KeepsFromRouting (header_in packet.now) fields.now (new_id group.now.ids.now)
        (L.elements group.now.elements) group.now.allowed (length buf.old) cause) }
{
    let mut numbers = [0; IDS];
    if group.elements.count() <= MAX_ELEMENTS && number_elements(group.elements, &mut numbers) {
        if let Some((two_byte_len, fits_one_byte)) = measured(group.elements) {
            let mut slots = NO_SLOTS;
            let tabled = TabledGroup {
                group,
                numbers: &numbers,
                two_byte_len,
                fits_one_byte,
            };
            if let Some((len, _)) = write_by_walk(packet, fields, tabled, buf, &mut slots) {
                return Ok(len);
            }
        }
    }
    make_header(packet, fields, group, buf)
}

/// The law: where the calls for one packet, one after another, don't refuse, they make the header
/// that [`route_header`] makes, and leave the payload behind it.
pub fn routes_as_the_calls_do()
    ensures { (old new : List ℕ) (len : ℕ) (fields : Fields) (ids : ℕ → Option ℕ)
        (news : List Element) (allowed : Option ExtensionsForm) →
        HasNone news 0 →
        (calls : IsRoutedByCalls old fields ids news allowed new len) →
        (header : List ℕ) × (take len new ≡ header ++ calls.start.parts.payload)
        × IsRouted old fields ids news allowed header }
{}
