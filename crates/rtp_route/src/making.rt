//! A header that is made once for a group of receivers, and kept by the caller.

ghost use Rattle.std.specs.Prelude.{◌≡◌, ◌↔◌, ◌+◌, ◌≤◌, length, take, All, IsErr, IfOk, IfErr};
ghost use Rattle.rtp_ext.specs.NewIds.{new_id};
ghost use Rattle.rtp_wire.specs.PartsAt.{HasLayout};
ghost use Rattle.rtp_wire.specs.PartsOf.{datagram_of};
ghost use Rattle.rtp_route.specs.declared.not_routed.NotRouted.{NotRouted};
ghost use Rattle.rtp_route.specs.Calls.{header_in, no_fields};
ghost use Rattle.rtp_route.specs.GroupHeader.{IsGroupHeader};
ghost use Rattle.rtp_route.specs.NotRouted.{KeepsFromRouting, KeepsFromTemplate};
ghost use Rattle.rtp_route.specs.Template.{HaveOwnIds};

use super::by_calls::make_header;
use super::by_walk::write_by_walk;
use super::numbers::{IDS, number_elements};
use super::slots::{MAX_ELEMENTS, Slot, slots_of};
use super::table::GroupTable;
use super::tabled::{TabledGroup, measured};
use super::{GroupOf, NotRouted};
use rtp_ext::{ElementList, ExtensionsForm};
use rtp_wire::{Fields, RtpPacket};

// Makes the header by the calls for one packet, one after another, and looks for the places in it.
// It stays out of line, since few headers are made so.
#[cold]
#[inline(never)]
fn make_by_calls<L: ElementList>(
    packet: RtpPacket<'_>,
    group: &GroupOf<'_, L>,
    buf: &mut [u8],
    slots: &mut [Slot; MAX_ELEMENTS],
) -> Result<(usize, Option<ExtensionsForm>), NotRouted>
    requires few { length (L.elements group.now.elements) ≤ 16 }
    requires own { HaveOwnIds (L.elements group.now.elements) }
    ensures made { IfOk result (λ header. IsGroupHeader (datagram_of packet.entry)
        (new_id group.now.ids.now) (L.elements group.now.elements) group.now.allowed
        (take header.0 buf.new) (take (length (L.elements group.now.elements)) slots.new)) }
    ensures room { IfOk result (λ header. header.0 ≤ length buf.new) }
    ensures short { IfOk result (λ header. header.0 ≤ 262216) }
    ensures held { IfOk result (λ header. HasLayout (take header.0 buf.new) header.0 header.1) }
    ensures within { IfOk result (λ header. All (λ slot. slot.start + slot.len ≤ header.0)
        (take (length (L.elements group.now.elements)) slots.new)) }
    ensures cause { IfErr result (KeepsFromRouting (header_in packet.entry) no_fields
        (new_id group.now.ids.now) (L.elements group.now.elements) group.now.allowed
        (length buf.old)) }
    ensures none_refused { IfOk result (λ _. (cause : NotRouted) →
        KeepsFromRouting (header_in packet.entry) no_fields (new_id group.now.ids.now)
        (L.elements group.now.elements) group.now.allowed (length buf.old) cause → ⊥) }
{
    let len = make_header(&packet, &Fields::default(), group, buf)?;
    // The calls made a packet, in which each element is.
    let header = RtpPacket::parse(&buf[..len]).unwrap();
    *slots = slots_of(&header, group.elements).unwrap();
    Ok((len, header.form()))
}

// Makes a group's header by the calls for one packet, as `make_by_calls` does, where a table holds
// the group.
#[cold]
#[inline(never)]
fn make_by_calls_of<G: GroupTable>(
    packet: RtpPacket<'_>,
    group: G,
    buf: &mut [u8],
    slots: &mut [Slot; MAX_ELEMENTS],
) -> Result<(usize, Option<ExtensionsForm>), NotRouted>
    requires { G.is_table group }
    ensures made { IfOk result (λ header. IsGroupHeader (datagram_of packet.entry)
        (new_id (G.ids group)) (G.elements group) (G.allows group) (take header.0 buf.new)
        (take (length (G.elements group)) slots.new)) }
    ensures room { IfOk result (λ header. header.0 ≤ length buf.new) }
    ensures short { IfOk result (λ header. header.0 ≤ 262216) }
    ensures held { IfOk result (λ header. HasLayout (take header.0 buf.new) header.0 header.1) }
    ensures within { IfOk result (λ header. All (λ slot. slot.start + slot.len ≤ header.0)
        (take (length (G.elements group)) slots.new)) }
    ensures cause { IfErr result (KeepsFromRouting (header_in packet.entry) no_fields
        (new_id (G.ids group)) (G.elements group) (G.allows group) (length buf.old)) }
    ensures none_refused { IfOk result (λ _. (cause : NotRouted) →
        KeepsFromRouting (header_in packet.entry) no_fields (new_id (G.ids group))
        (G.elements group) (G.allows group) (length buf.old) cause → ⊥) }
{
    let ids = group.new_ids();
    let given = GroupOf {
        ids: &ids,
        elements: group,
        allowed: group.allowed(),
    };
    make_by_calls(packet, &given, buf, slots)
}

/// Makes the header that the packet gets for the group at the front of the buffer, returns how many
/// bytes it has, at most 262,216, and the form of its block, and puts the places of the data in it at
/// the front of `slots`, in the order of the group's elements. The cause is that of
/// [`route_header`](super::route_header); the buffer and the places then are any, as are the buffer
/// behind the header and the places after those.
#[inline(always)]
pub fn make_from_table<G: GroupTable>(
    packet: &RtpPacket<'_>,
    group: G,
    buf: &mut [u8],
    slots: &mut [Slot; MAX_ELEMENTS],
) -> Result<(usize, Option<ExtensionsForm>), NotRouted>
    requires { G.is_table group }
    ensures made { IfOk result (λ header. IsGroupHeader (datagram_of packet.now)
        (new_id (G.ids group)) (G.elements group) (G.allows group) (take header.0 buf.new)
        (take (length (G.elements group)) slots.new)) }
    ensures few { IfOk result (λ _. length (G.elements group) ≤ 16) }
    ensures room { IfOk result (λ header. header.0 ≤ length buf.new) }
    ensures short { IfOk result (λ header. header.0 ≤ 262216) }
    ensures held { IfOk result (λ header. HasLayout (take header.0 buf.new) header.0 header.1) }
    ensures within { IfOk result (λ header. All (λ slot. slot.start + slot.len ≤ header.0)
        (take (length (G.elements group)) slots.new)) }
    ensures cause { IfErr result (KeepsFromRouting (header_in packet.now) no_fields
        (new_id (G.ids group)) (G.elements group) (G.allows group) (length buf.old)) }
    ensures none_refused { IfOk result (λ _. (cause : NotRouted) →
        KeepsFromRouting (header_in packet.now) no_fields (new_id (G.ids group))
        (G.elements group) (G.allows group) (length buf.old) cause → ⊥) }
{
    match write_by_walk(packet, &Fields::default(), group, buf, slots) {
        Some(made) => Ok(made),
        None => make_by_calls_of(*packet, group, buf, slots),
    }
}

/// Makes the header that the packet gets for the group at the front of the buffer, returns how many
/// bytes it has, at most 262,216, and the form of its block, and puts the places of the data in it at
/// the front of `slots`, in the order of the group's elements. It is refused as
/// [`HeaderTemplate::new`](super::HeaderTemplate::new) is, and the buffer and the places then are
/// any, as are the buffer behind the header and the places after those.
#[inline(always)]
pub fn make_template<L: ElementList>(
    packet: &RtpPacket<'_>,
    group: &GroupOf<'_, L>,
    buf: &mut [u8],
    slots: &mut [Slot; MAX_ELEMENTS],
) -> Result<(usize, Option<ExtensionsForm>), NotRouted>
    ensures made { IfOk result (λ header. IsGroupHeader (datagram_of packet.now)
        (new_id group.now.ids.now) (L.elements group.now.elements) group.now.allowed
        (take header.0 buf.new) (take (length (L.elements group.now.elements)) slots.new)) }
    ensures few { IfOk result (λ _. length (L.elements group.now.elements) ≤ 16) }
    ensures room { IfOk result (λ header. header.0 ≤ length buf.new) }
    ensures short { IfOk result (λ header. header.0 ≤ 262216) }
    ensures held { IfOk result (λ header. HasLayout (take header.0 buf.new) header.0 header.1) }
    ensures within { IfOk result (λ header. All (λ slot. slot.start + slot.len ≤ header.0)
        (take (length (L.elements group.now.elements)) slots.new)) }
    ensures cause { IfErr result (KeepsFromTemplate (header_in packet.now)
        (new_id group.now.ids.now) (L.elements group.now.elements) group.now.allowed
        (length buf.old)) }
    ensures refused { IsErr result ↔ ((cause : NotRouted)
        × KeepsFromTemplate (header_in packet.now) (new_id group.now.ids.now)
        (L.elements group.now.elements) group.now.allowed (length buf.old) cause) }
{
    if group.elements.count() > MAX_ELEMENTS {
        return Err(NotRouted::ManyElements);
    }
    let mut numbers = [0; IDS];
    if !number_elements(group.elements, &mut numbers) {
        return Err(NotRouted::RepeatedId);
    }
    let Some((two_byte_len, fits_one_byte)) = measured(group.elements) else {
        return make_by_calls(*packet, group, buf, slots);
    };
    let tabled = TabledGroup {
        group,
        numbers: &numbers,
        two_byte_len,
        fits_one_byte,
    };
    make_from_table(packet, tabled, buf, slots)
}
