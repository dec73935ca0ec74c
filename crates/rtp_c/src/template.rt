//! A packet's header, made once for a group of receivers.

ghost use Rattle.std.specs.Prelude.{◌≡◌, ◌≢◌, ◌↔◌, ◌≤◌, length, take, Option, All};
ghost use Rattle.rtp_ext.specs.declared.form.ExtensionsForm.{ExtensionsForm};
ghost use Rattle.rtp_ext.specs.NewIds.{new_id, ids_in_bytes};
ghost use Rattle.rtp_wire.specs.NotAHeader.{IsNoPacket};
ghost use Rattle.rtp_wire.specs.Packet.{PacketParts, IsPacket, header_len_of};
ghost use Rattle.rtp_route.specs.declared.not_routed.NotRouted.{NotRouted};
ghost use Rattle.rtp_route.specs.Calls.{no_fields};
ghost use Rattle.rtp_route.specs.NotRouted.{KeepsFromRouting, KeepsFromTemplate};
ghost use Rattle.rtp_route.specs.StoredGroup.{IsGroup, elements_in, ids_in, form_of};
ghost use Rattle.rtp_route.specs.GroupHeader.{IsGroupHeader};
ghost use Rattle.rtp_route.specs.Template.{total_of};
ghost use Rattle.rtp_c.specs.PacketView.{form_number};
ghost use Rattle.rtp_c.specs.Status.{ok, bad_field, IsCauseStatus};
ghost use Rattle.rtp_c.specs.RoutedStatus.{not_routed_status, IsNotRoutedStatus};
ghost use Rattle.rtp_c.specs.StoredTemplate.{slots_of, IsInRange, EndsInZeros, NamesGroup};
ghost use Rattle.rtp_c.specs.WrittenElements.{elements_in as named_elements};

use super::growing::put_status_of;
use super::map::StoredNewIds;
use super::named_elements::NamedElements;
use super::packet::{ElementView, allowed_of};
use super::status::{BAD_FIELD, LONG_ID, OK, status_of};
use rtp_ext::{ElementList, NewIds};
use rtp_route::{
    GroupOf, KnownGroup, MAX_ELEMENTS, NotRouted, Slot, StoredGroup, make_from_table, make_template,
};
use rtp_wire::RtpPacket;

/// How long a group's header is, and where in it the data of the group's elements lie:
/// `rtpw_template` in C, 88 bytes.
#[repr(C)]
#[derive(Clone, Copy)]
pub struct StoredTemplate {
    /// How many bytes the header has, 12 to 262,216.
    pub header_len: u32,
    /// Where the data of each element begin in the header; after the last made 0, and not looked at.
    pub data_at: [u32; MAX_ELEMENTS],
    /// How many bytes of data the elements have together.
    pub data_total: u16,
    /// How many elements there are, 0 to 16.
    pub count: u8,
    /// How many bytes of data each element has; after the last made 0, and not looked at.
    pub data_len: [u8; MAX_ELEMENTS],
}

impl StoredTemplate {
    // Keeps the length of a header and its places, and zeros after the last place.
    fn store(&mut self, header_len: u32, slots: &[Slot])
        requires few { length slots.now ≤ 16 }
        requires short { All (λ slot. slot.len ≤ 255) slots.now }
        ensures header_len { self.new.header_len ≡ header_len }
        ensures slots { slots_of self.new ≡ slots.now }
        ensures count { self.new.count ≡ length slots.now }
        ensures total { self.new.data_total ≡ total_of slots.now }
        ensures zeros { EndsInZeros self.new }
    {
        let mut total = 0;
        self.data_at = [0; MAX_ELEMENTS];
        self.data_len = [0; MAX_ELEMENTS];
        for index in 0..slots.len() {
            let slot = slots[index];
            self.data_at[index] = slot.start;
            self.data_len[index] = slot.len as u8;
            total += slot.len as u16;
        }
        self.header_len = header_len;
        self.data_total = total;
        self.count = slots.len() as u8;
    }
}

// The status of a cause for which no header is made for a group. It stays out of line, so that a
// call does nothing for it where one is made.
#[cold]
#[inline(never)]
pub fn not_routed_status(cause: NotRouted) -> i32
    ensures { result ≡ not_routed_status cause }
{
    match cause {
        NotRouted::ManyElements | NotRouted::RepeatedId => BAD_FIELD,
        NotRouted::LongId => LONG_ID,
        NotRouted::NotPut(cause) => put_status_of(cause),
    }
}

/// Makes the header that the packet gets for a group at the front of the buffer, and tells where
/// its parts lie (RFC 7667, 3.7; RFC 8285, 4.1.2 and 5): its elements get these new ids, in the
/// two-byte form where its own can't carry one and that is allowed, and then the elements are put
/// into it one after another, each with its id and the `data_len` bytes of `bytes` from its
/// `data_at` on. The number `allowed` is as in `rtpw_put_element`.
///
/// `OK`; `BAD_FIELD` where `allowed` is above 2, there are more than 16 elements, or `data_at +
/// data_len` of one is past `bytes`; the status of the first cause for which the bytes
/// are no packet; `BAD_FIELD` where two elements have one id; `SHORT_BUFFER` where the packet's
/// header has no room; `LONG_ID` where a new id is above 14, its block has the one-byte form, and
/// that alone is allowed; `LONG_BLOCK` or `SHORT_BUFFER` where the two-byte form is to carry such an
/// id, and `rtpw_change_form` returns that; and of each element in turn what `rtpw_put_element`
/// returns of it. Where it isn't `OK` the buffer may hold anything, and nothing else is written.
#[unsafe(no_mangle)]
pub extern "C" fn rtpw_make_template(
    datagram: &[u8],
    ids: &StoredNewIds,
    bytes: &[u8],
    elements: &[ElementView],
    allowed: u8,
    buf: &mut [u8],
    made: &mut StoredTemplate,
) -> i32
    ensures made { (form : Option ExtensionsForm) → form_number form ≡ allowed → result ≡ ok →
        IsGroupHeader datagram.now (new_id (ids_in_bytes ids.now.id))
        (named_elements bytes.now elements.now) form (take made.new.header_len buf.new)
        (slots_of made.new) }
    ensures in_range { result ≡ ok → IsInRange made.new (length buf.new) }
    ensures zeros { result ≡ ok → EndsInZeros made.new }
    ensures bad_group { ((form : Option ExtensionsForm) →
        NamesGroup bytes.now elements.now allowed form → ⊥) → result ≡ bad_field }
    ensures cause { (form : Option ExtensionsForm) →
        NamesGroup bytes.now elements.now allowed form → IsNoPacket datagram.now →
        IsCauseStatus datagram.now result }
    ensures refusal { (form : Option ExtensionsForm) →
        NamesGroup bytes.now elements.now allowed form → result ≢ ok →
        (parts : PacketParts) → IsPacket datagram.now parts →
        IsNotRoutedStatus (KeepsFromTemplate (take (header_len_of parts) datagram.now)
        (new_id (ids_in_bytes ids.now.id)) (named_elements bytes.now elements.now) form
        (length buf.old)) result }
    ensures refused { (form : Option ExtensionsForm) →
        NamesGroup bytes.now elements.now allowed form →
        (parts : PacketParts) → IsPacket datagram.now parts → result ≢ ok
        ↔ ((cause : NotRouted) × KeepsFromTemplate (take (header_len_of parts) datagram.now)
        (new_id (ids_in_bytes ids.now.id)) (named_elements bytes.now elements.now) form
        (length buf.old) cause) }
    ensures unchanged { result ≢ ok → made.new ≡ made.old }
{
    let Some(allowed) = allowed_of(allowed) else {
        return BAD_FIELD;
    };
    if elements.len() > MAX_ELEMENTS {
        return BAD_FIELD;
    }
    let Some(elements) = NamedElements::new(bytes, elements) else {
        return BAD_FIELD;
    };
    let packet = match RtpPacket::parse(datagram) {
        Ok(packet) => packet,
        Err(cause) => return status_of(cause),
    };
    let ids = NewIds::from_ids(&ids.id);
    let group = GroupOf {
        ids: &ids,
        elements,
        allowed,
    };
    let mut slots = [Slot { start: 0, len: 0 }; MAX_ELEMENTS];
    match make_template(&packet, &group, buf, &mut slots) {
        Ok((len, _)) => {
            made.store(len as u32, &slots[..elements.count()]);
            OK
        }
        Err(cause) => not_routed_status(cause),
    }
}

/// Makes the header that the packet gets for a group at the front of the buffer, and tells where its
/// parts lie, as [`rtpw_make_template`] does of the new ids, the elements and the form that
/// [`rtpw_prepare_group`](super::group::rtpw_prepare_group) was given, with zeros as the elements'
/// data.
///
/// `OK`; `BAD_FIELD` where these are not the numbers of a group; the status of the first cause for
/// which the bytes are no packet; and then as there. Where it isn't `OK` the buffer may hold anything,
/// and nothing else is written.
#[unsafe(no_mangle)]
pub extern "C" fn rtpw_make_from_group(
    group: &StoredGroup,
    datagram: &[u8],
    buf: &mut [u8],
    made: &mut StoredTemplate,
) -> i32
    ensures made { result ≡ ok → IsGroupHeader datagram.now (new_id (ids_in group.now))
        (elements_in group.now) (form_of group.now.allowed)
        (take made.new.header_len buf.new) (slots_of made.new) }
    ensures in_range { result ≡ ok → IsInRange made.new (length buf.new) }
    ensures zeros { result ≡ ok → EndsInZeros made.new }
    ensures bad_group { (IsGroup group.now → ⊥) → result ≡ bad_field }
    ensures cause { IsGroup group.now → IsNoPacket datagram.now →
        IsCauseStatus datagram.now result }
    ensures refusal { IsGroup group.now → result ≢ ok →
        (parts : PacketParts) → IsPacket datagram.now parts →
        IsNotRoutedStatus (KeepsFromRouting (take (header_len_of parts) datagram.now) no_fields
        (new_id (ids_in group.now)) (elements_in group.now) (form_of group.now.allowed)
        (length buf.old)) result }
    ensures refused { IsGroup group.now →
        (parts : PacketParts) → IsPacket datagram.now parts → result ≢ ok
        ↔ ((cause : NotRouted) × KeepsFromRouting (take (header_len_of parts) datagram.now)
        no_fields (new_id (ids_in group.now)) (elements_in group.now)
        (form_of group.now.allowed) (length buf.old) cause) }
    ensures unchanged { result ≢ ok → made.new ≡ made.old }
{
    let Some(group) = KnownGroup::new(group) else {
        return BAD_FIELD;
    };
    let packet = match RtpPacket::parse(datagram) {
        Ok(packet) => packet,
        Err(cause) => return status_of(cause),
    };
    let mut slots = [Slot { start: 0, len: 0 }; MAX_ELEMENTS];
    match make_from_table(&packet, group, buf, &mut slots) {
        Ok((len, _)) => {
            made.store(len as u32, &slots[..group.count()]);
            OK
        }
        Err(cause) => not_routed_status(cause),
    }
}
