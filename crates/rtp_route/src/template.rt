//! A header that is made once for a group of receivers.

ghost use Rattle.std.specs.Prelude.{◌≡◌, ◌↔◌, ◌+◌, ◌<◌, ◌≤◌, ℕ, List, Option, length, map, take, drop, slice_index, All, IsErr, IfOk, IfErr, IfSome, OnErr};
ghost use Rattle.rtp_ext.specs.declared.form.ExtensionsForm.{ExtensionsForm};
ghost use Rattle.rtp_route.specs.declared.not_written.NotWritten.{NotWritten};
ghost use Rattle.rtp_ext.specs.Elements.{Element};
ghost use Rattle.rtp_ext.specs.NewIds.{new_id};
ghost use Rattle.rtp_wire.specs.Packet.{header_len_of};
ghost use Rattle.rtp_wire.specs.PartsOf.{parts_of, datagram_of};
ghost use Rattle.rtp_route.specs.declared.not_routed.NotRouted.{NotRouted};
ghost use Rattle.rtp_route.specs.Calls.{header_in, no_fields};
ghost use Rattle.rtp_route.specs.GroupHeader.{IsGroupHeader, IsFilledIn};
ghost use Rattle.rtp_route.specs.NotRouted.{KeepsFromRouting, KeepsFromTemplate};
ghost use Rattle.rtp_route.specs.Retransmitted.{IsRoutedAgain};
ghost use Rattle.rtp_route.specs.Routing.{IsRouted};
ghost use Rattle.rtp_route.specs.Template.{with_data, data_lengths, slot_lengths, total_of, pieces, LiesInHeader};

use super::in_place::{copy_header, send_again};
use super::slots::{MAX_ELEMENTS, NO_SLOTS, Slot, SlotList, fill, fill_joined, have_lengths};
use super::table::GroupTable;
use super::{GroupOf, NotRouted, NotWritten, make_from_table, make_template};
use rtp_ext::ElementList;
use rtp_wire::{Fields, RtpPacket};

/// A packet's header for a group of receivers: what they have in common is made once, and each then
/// gets a copy with fields and data of its own.
#[derive(Clone, Copy)]
pub struct HeaderTemplate<'a> {
    // The header, as a packet without a payload.
    header: RtpPacket<'a>,
    // Where the data of the elements that were put lie.
    slots: [Slot; MAX_ELEMENTS],
    // How many they are.
    count: usize,
    ghost few: { count ≤ 16 },
    ghost long: { length slots ≡ 16 },
    ghost within: { All (LiesInHeader (parts_of header)) (take count slots) },
}

impl<'a> HeaderTemplate<'a> {
    ghost use Rattle.rtp_route.specs.TemplateOf.{IsTemplate, KeepsFromWriting, KeepsFromWritingAgain, KeepsFromWritingBytes, header_len_in};

    /// Makes the header that the packet gets for the group in the buffer, which is lent to the
    /// template. One of twice the packet's header and 264 bytes for each element has room.
    ///
    /// The cause is [`NotRouted::ManyElements`] for more than 16 elements, else
    /// [`NotRouted::RepeatedId`] for two of one id, and else that of
    /// [`route_header`](super::route_header). The buffer then has any bytes.
    #[inline(always)]
    pub fn new<L: ElementList>(
        packet: &RtpPacket<'_>,
        group: &GroupOf<'_, L>,
        buf: &'a mut [u8],
    ) -> Result<Self, NotRouted>
        ensures made { IfOk result (IsTemplate (datagram_of packet.now)
            (new_id group.now.ids.now) (L.elements group.now.elements) group.now.allowed) }
        ensures cause { IfErr result (KeepsFromTemplate (header_in packet.now)
            (new_id group.now.ids.now) (L.elements group.now.elements) group.now.allowed
            (length buf.old)) }
        ensures refused { IsErr result ↔ ((cause : NotRouted)
            × KeepsFromTemplate (header_in packet.now) (new_id group.now.ids.now)
            (L.elements group.now.elements) group.now.allowed (length buf.old) cause) }
    {
        let mut slots = NO_SLOTS;
        let (len, form) = make_template(packet, group, buf, &mut slots)?;
        Ok(HeaderTemplate {
            header: RtpPacket::with_layout(&buf[..len], len, form),
            slots,
            count: group.elements.count(),
        })
    }

    /// Makes the header as [`new`](Self::new) does, for a group that is tabled already, as
    /// [`prepare_group`](super::prepare_group) does once for all packets: each receiver brings the
    /// data of its elements. The cause is that of [`route_header`](super::route_header).
    #[inline(always)]
    pub fn from_table<G: GroupTable>(
        packet: &RtpPacket<'_>,
        group: G,
        buf: &'a mut [u8],
    ) -> Result<Self, NotRouted>
        requires { G.is_table group }
        ensures made { IfOk result (IsTemplate (datagram_of packet.now) (new_id (G.ids group))
            (G.elements group) (G.allows group)) }
        ensures cause { IfErr result (KeepsFromRouting (header_in packet.now) no_fields
            (new_id (G.ids group)) (G.elements group) (G.allows group) (length buf.old)) }
        ensures refused { IsErr result ↔ ((cause : NotRouted)
            × KeepsFromRouting (header_in packet.now) no_fields (new_id (G.ids group))
            (G.elements group) (G.allows group) (length buf.old) cause) }
    {
        let mut slots = NO_SLOTS;
        let (len, form) = make_from_table(packet, group, buf, &mut slots)?;
        Ok(HeaderTemplate {
            header: RtpPacket::with_layout(&buf[..len], len, form),
            slots,
            count: group.count(),
        })
    }

    /// How many bytes the header has.
    pub fn header_len(&self) -> usize
        ensures { result ≡ header_len_in self.now }
    {
        self.header.header_len()
    }

    /// Writes the header with these fields, and with these data of the group's elements in their
    /// order, each as long as the data in the group, and returns how many bytes it has. With the
    /// payload behind it, it is the packet that goes to the receiver. P is that of the packet: call
    /// [`clear_padding`](super::clear_padding) on the header where the payload is sent without its
    /// padding, which a receiver else takes off a second time. Where it is refused nothing changes.
    /// Requires a payload type of at most 127.
    pub fn write_header(
        &self,
        fields: &Fields,
        contents: &[&[u8]],
        buf: &mut [u8],
    ) -> Result<usize, NotWritten>
        requires { IfSome fields.now.payload_type (λ pt. pt ≤ 127) }
        ensures routed { (old : List ℕ) (ids : ℕ → Option ℕ) (news : List Element)
            (allowed : Option ExtensionsForm) → IsTemplate old ids news allowed self.now →
            IfOk result (λ len. IsRouted old fields.now ids
            (with_data news (map (λ bytes. bytes.now) contents.now)) allowed (take len buf.new)) }

        // There is no other such header.
        ensures only { (old : List ℕ) (ids : ℕ → Option ℕ) (news : List Element)
            (allowed : Option ExtensionsForm) → IsTemplate old ids news allowed self.now →
            IfOk result (λ len. (header : List ℕ) → ((k : ℕ) → slice_index header k < 256) →
            IsRouted old fields.now ids
            (with_data news (map (λ bytes. bytes.now) contents.now)) allowed header →
            header ≡ take len buf.new) }
        ensures length { IfOk result (λ len. len ≡ header_len_in self.now) }
        ensures behind { IfOk result (λ len. drop len buf.new ≡ drop len buf.old) }
        ensures cause { IfErr result (KeepsFromWriting self.now
            (map (λ bytes. length bytes.now) contents.now) (length buf.old)) }
        ensures refused { IsErr result ↔ ((cause : NotWritten) × KeepsFromWriting self.now
            (map (λ bytes. length bytes.now) contents.now) (length buf.old) cause) }
        ensures unchanged { OnErr result (buf.new ≡ buf.old) }
    {
        self.write_before(self.header_len(), fields, contents, buf)
    }

    /// Writes what [`write_header`](Self::write_header) does, for a retransmission (RFC 4588, 4), of
    /// which the fields say the number, the payload type and the SSRC, and M and the timestamp where
    /// the receiver got the packet with its own: P is clear, and behind the header stands the number
    /// with which the receiver got the packet, in two bytes, the high one first. They need room too.
    /// With the payload behind it, without its padding, it is the retransmission.
    pub fn write_retransmission(
        &self,
        fields: &Fields,
        original_number: u16,
        contents: &[&[u8]],
        buf: &mut [u8],
    ) -> Result<usize, NotWritten>
        requires { IfSome fields.now.payload_type (λ pt. pt ≤ 127) }
        ensures routed { (old : List ℕ) (ids : ℕ → Option ℕ) (news : List Element)
            (allowed : Option ExtensionsForm) → IsTemplate old ids news allowed self.now →
            IfOk result (λ len. IsRoutedAgain old fields.now original_number ids
            (with_data news (map (λ bytes. bytes.now) contents.now)) allowed (take len buf.new)) }

        // There is no other such header.
        ensures only { (old : List ℕ) (ids : ℕ → Option ℕ) (news : List Element)
            (allowed : Option ExtensionsForm) → IsTemplate old ids news allowed self.now →
            IfOk result (λ len. (header : List ℕ) → ((k : ℕ) → slice_index header k < 256) →
            IsRoutedAgain old fields.now original_number ids
            (with_data news (map (λ bytes. bytes.now) contents.now)) allowed header →
            header ≡ take len buf.new) }
        ensures length { IfOk result (λ len. len ≡ header_len_in self.now + 2) }
        ensures behind { IfOk result (λ len. drop len buf.new ≡ drop len buf.old) }
        ensures cause { IfErr result (KeepsFromWritingAgain self.now
            (map (λ bytes. length bytes.now) contents.now) (length buf.old)) }
        ensures refused { IsErr result ↔ ((cause : NotWritten) × KeepsFromWritingAgain self.now
            (map (λ bytes. length bytes.now) contents.now) (length buf.old) cause) }
        ensures unchanged { OnErr result (buf.new ≡ buf.old) }
    {
        let header_len = self.header_len();
        let len = self.write_before(header_len + 2, fields, contents, buf)?;
        send_again(&mut buf[..len], header_len, original_number);
        Ok(len)
    }

    // Writes the header with these fields and data at the front of the buffer, and returns the length
    // for which there is to be room, at least the header's.
    #[inline(always)]
    fn write_before(
        &self,
        len: usize,
        fields: &Fields,
        contents: &[&[u8]],
        buf: &mut [u8],
    ) -> Result<usize, NotWritten>
        requires payload_type { IfSome fields.now.payload_type (λ pt. pt ≤ 127) }
        requires whole { header_len_in self.now ≤ len }
        ensures routed { (old : List ℕ) (ids : ℕ → Option ℕ) (news : List Element)
            (allowed : Option ExtensionsForm) → IsTemplate old ids news allowed self.now →
            IfOk result (λ _. IsRouted old fields.now ids
            (with_data news (map (λ bytes. bytes.now) contents.now)) allowed
            (take (header_len_in self.now) buf.new)) }
        ensures length { IfOk result (λ written. (written ≡ len) × (len ≤ length buf.old)) }
        ensures behind { drop (header_len_in self.now) buf.new
            ≡ drop (header_len_in self.now) buf.old }
        ensures cause { IfErr result (KeepsFromWritingBytes len self.now
            (map (λ bytes. length bytes.now) contents.now) (length buf.old)) }
        ensures refused { IsErr result ↔ ((cause : NotWritten) × KeepsFromWritingBytes len self.now
            (map (λ bytes. length bytes.now) contents.now) (length buf.old) cause) }
        ensures unchanged { OnErr result (buf.new ≡ buf.old) }
    {
        let slots = &self.slots[..self.count];
        if !have_lengths(slots, contents) {
            return Err(NotWritten::OtherLengths);
        }
        if buf.len() < len {
            return Err(NotWritten::NoRoom { needed: len });
        }
        let own = &mut buf[..self.header.header_len()];
        copy_header(&self.header, fields, own);
        fill(own, slots, contents);
        Ok(len)
    }
}

/// Writes a header that [`make_template`](super::make_template) made, as a packet without a
/// payload, with these fields, and with these data of the group's elements, one after another in
/// their order, at the places, into a buffer of the header's length. P is that of the packet, as in
/// [`HeaderTemplate::write_header`]. Requires as many data as the places have, places that lie in
/// the header, and a payload type of at most 127.
#[inline(always)]
pub fn write_joined<S: SlotList>(
    header: &RtpPacket<'_>,
    slots: S,
    fields: &Fields,
    bytes: &[u8],
    buf: &mut [u8],
)
    requires payload_type { IfSome fields.now.payload_type (λ pt. pt ≤ 127) }
    requires lengths { length bytes.now ≡ total_of (S.slots slots) }
    requires within { All (LiesInHeader (parts_of header.now)) (S.slots slots) }
    requires room { length buf.old ≡ header_len_of (parts_of header.now) }
    ensures routed { (old : List ℕ) (ids : ℕ → Option ℕ) (news : List Element)
        (allowed : Option ExtensionsForm) →
        IsGroupHeader old ids news allowed (header_in header.now) (S.slots slots) →
        IsRouted old fields.now ids (with_data news (pieces (data_lengths news) bytes.now)) allowed
        buf.new }
    ensures filled { IsFilledIn (header_in header.now) (S.slots slots) fields.now
        (pieces (slot_lengths (S.slots slots)) bytes.now) buf.new }
{
    copy_header(header, fields, buf);
    fill_joined(buf, slots, bytes);
}
