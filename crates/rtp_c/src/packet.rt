//! A packet where it lies: its fields, and where its parts and its elements begin.

ghost use Rattle.std.specs.Prelude.{◌≡◌, ◌≢◌, ◌↔◌, ◌<◌, ◌≤◌, ◌⊎◌, ◌+◌, ℕ, List, length, drop, slice_index, unwrap_or, Option, Some, IfSome, IfNone};
ghost use Rattle.std.specs.Option.{option_map};
ghost use Rattle.rtp_ext.specs.declared.form.ExtensionsForm.{ExtensionsForm};
ghost use Rattle.rtp_ext.specs.Elements.{Element, AreElements};
ghost use Rattle.rtp_ext.specs.ElementReading.{BeginsWithNoElement};
ghost use Rattle.rtp_ext.specs.ElementsInPlace.{HasNone};
ghost use Rattle.rtp_wire.specs.Packet.{PacketParts, IsPacket, header_len_of};
ghost use Rattle.rtp_wire.specs.NotAHeader.{IsNoPacket};
ghost use Rattle.rtp_wire.specs.PartsAt.{profile_in};
ghost use Rattle.rtp_wire.specs.PartsOf.{parts_of, datagram_of};
ghost use Rattle.rtp_c.specs.ElementView.{IsNextElement, IsLastElement, LiesAsLast};
ghost use Rattle.rtp_c.specs.PacketView.{IsViewOf, IsPacketRead, IsUnpaddedLen, form_number, block_number, body_of_any};
ghost use Rattle.rtp_c.specs.Status.{ok, none, bad_field, IsCauseStatus};

use super::status::{BAD_FIELD, NONE, OK, refusal_status};
use super::values::flag_number;
use rtp_ext::{ExtensionsForm, Place, last_place, next_place};
use rtp_wire::RtpPacket;

/// What the header of a packet says, and where the parts of the packet lie, as offsets in the bytes
/// of its datagram: `rtpw_packet` in C, 64 bytes. The CSRC list begins at 12.
#[repr(C)]
#[derive(Clone, Copy)]
pub struct PacketView {
    /// Where the payload begins: how many bytes the header takes.
    pub payload_at: usize,
    /// How many bytes the payload has, with any padding.
    pub payload_len: usize,
    /// How many bytes the payload has without its padding, and 0 where `padding_fits` is 0.
    pub unpadded_len: usize,
    /// Where the body of the block begins, whose header is the four bytes before it: `body_len`
    /// before the payload, and so where that begins if X is clear.
    pub body_at: usize,
    /// How many bytes the body of the block has, and 0 where X is clear.
    pub body_len: usize,
    /// The moment of the payload's first byte, in ticks of the payload's own clock.
    pub timestamp: u32,
    /// The source whose stream this is.
    pub ssrc: u32,
    /// The low 16 bits of the packet's number.
    pub sequence_number: u16,
    /// What the payload is, 0 to 127.
    pub payload_type: u8,
    /// How many contributing sources there are, 0 to 15.
    pub csrc_count: u8,
    /// M, 0 or 1.
    pub marker: u8,
    /// P, 0 or 1.
    pub has_padding: u8,
    /// 1, and 0 where P is set and the payload's last byte counts more bytes than the payload has.
    /// A last byte of 0 takes nothing away, and neither does P of an empty payload.
    pub padding_fits: u8,
    /// The form of the block: 1 the one-byte form, 2 the two-byte form, 3 another one, and 0 where
    /// X is clear.
    pub block_form: u8,
    /// The 16 bits that the block begins with, and 0 where X is clear.
    pub block_profile: u16,
}

/// Where an element lies in the body of a block, as offsets from the body's first byte:
/// `rtpw_element` in C, 32 bytes.
#[repr(C)]
#[derive(Clone, Copy)]
pub struct ElementView {
    /// Where its data begin.
    pub data_at: usize,
    /// How many bytes of data it has, 0 to 255.
    pub data_len: usize,
    /// Where its data end: the next element is looked for from there on.
    pub end: usize,
    /// Its id, 0 to 14 in the one-byte form, and 1 to 255 in the two-byte form.
    pub id: u8,
}

// The form of this number.
pub fn form_of(number: u8) -> Option<ExtensionsForm>
    ensures found { IfSome result (λ form. form_number (Some form) ≡ number) }
    ensures none { IfNone result ((form : ExtensionsForm) → form_number (Some form) ≢ number) }
{
    match number {
        1 => Some(ExtensionsForm::OneByte),
        2 => Some(ExtensionsForm::TwoByte),
        _ => None,
    }
}

// The form that alone is allowed by this number, and none where both are.
pub fn allowed_of(number: u8) -> Option<Option<ExtensionsForm>>
    ensures found { IfSome result (λ allowed. form_number allowed ≡ number) }
    ensures none { IfNone result ((allowed : Option ExtensionsForm) →
        form_number allowed ≢ number) }
{
    if number == 0 {
        return Some(None);
    }
    let form = form_of(number)?;
    Some(Some(form))
}

// How many contributing sources the packet has.
fn csrc_count_of(packet: &RtpPacket<'_>) -> u8
    requires { length (parts_of packet.now).sources ≤ 15 }
    ensures { result ≡ length (parts_of packet.now).sources }
{
    packet.csrc().len() as u8
}

// Puts the number of the block's form, the 16 bits that it begins with, and where its body lies, and
// returns the form and the body where the form is one of the two.
#[inline(always)]
pub fn put_block<'a>(
    packet: &RtpPacket<'a>,
    number: &mut u8,
    profile: &mut u16,
    body_at: &mut usize,
    body_len: &mut usize,
) -> Option<(ExtensionsForm, &'a [u8])>
    requires { IsPacket (datagram_of packet.now) (parts_of packet.now) }
    ensures block { option_map (λ block. (block.0, block.1.now)) result
        ≡ (parts_of packet.now).block }
    ensures bytes { IfSome result (λ block. (i : ℕ) → slice_index block.1.now i < 256) }
    ensures number { number.new
        ≡ block_number (parts_of packet.now).block (parts_of packet.now).other_block }
    ensures profile { profile.new ≡ unwrap_or (profile_in (datagram_of packet.now)) 0 }
    ensures body { body_len.new
        ≡ length (body_of_any (parts_of packet.now).block (parts_of packet.now).other_block) }
    ensures ends { body_at.new + body_len.new ≡ header_len_of (parts_of packet.now) }
{
    let header_len = packet.header_len();
    let bits = packet.block_profile().unwrap_or(0);
    let Some(body) = packet.body() else {
        *number = 0;
        *profile = bits;
        *body_at = header_len;
        *body_len = 0;
        return None;
    };
    *profile = bits;
    *body_at = header_len - body.len();
    *body_len = body.len();
    let Some(form) = packet.form() else {
        *number = 3;
        return None;
    };
    *number = form as u8 + 1;
    Some((form, body))
}

// How many bytes the payload has without its padding, and whether the padding fits.
pub fn unpadded_len_of(packet: &RtpPacket<'_>) -> (usize, u8)
    ensures { IsUnpaddedLen (parts_of packet.now) result.1 result.0 }
{
    match packet.unpadded_payload() {
        None => (0, 0),
        Some(payload) => (payload.len(), 1),
    }
}

// Tells what the packet is. Each field is put as it is read, so that few registers are needed.
#[inline(always)]
fn put_view(packet: &RtpPacket<'_>, view: &mut PacketView)
    requires { IsPacket (datagram_of packet.now) (parts_of packet.now) }
    ensures { IsViewOf (datagram_of packet.now) (parts_of packet.now) view.new }
{
    let _ = put_block(
        packet,
        &mut view.block_form,
        &mut view.block_profile,
        &mut view.body_at,
        &mut view.body_len,
    );
    view.payload_at = packet.header_len();
    let (unpadded_len, padding_fits) = unpadded_len_of(packet);
    view.payload_len = packet.payload().len();
    view.unpadded_len = unpadded_len;
    view.padding_fits = padding_fits;
    view.timestamp = packet.timestamp();
    view.ssrc = packet.ssrc().get();
    view.sequence_number = packet.sequence_number();
    view.payload_type = packet.payload_type().get();
    view.csrc_count = csrc_count_of(packet);
    view.marker = flag_number(packet.marker());
    view.has_padding = flag_number(packet.has_padding());
}

// Tells what the packet is that the datagram is, and returns the status.
#[inline(always)]
pub fn read_packet(datagram: &[u8], packet: &mut PacketView) -> i32
    ensures { IsPacketRead datagram.now result packet.old packet.new }
{
    match RtpPacket::parse(datagram) {
        Ok(found) => {
            put_view(&found, packet);
            OK
        }
        Err(cause) => refusal_status(cause),
    }
}

/// Reads the header of the packet that the datagram is, with a block of any form; where RTCP comes
/// to the same port, after `rtpw_is_rtcp`. `OK`, or the status of the first cause for which it is
/// none, and then nothing is written.
#[unsafe(no_mangle)]
pub extern "C" fn rtpw_packet_parse(datagram: &[u8], packet: &mut PacketView) -> i32
    // Of a packet of these parts all of them are told, and bytes are a packet of such parts where
    // the status is OK.
    ensures parts { (parts : PacketParts) → IsPacket datagram.now parts →
        (result ≡ ok) × IsViewOf datagram.now parts packet.new }
    ensures found { result ≡ ok → (parts : PacketParts) × IsPacket datagram.now parts }
    ensures cause { result ≢ ok → IsCauseStatus datagram.now result }
    ensures refused { result ≢ ok ↔ IsNoPacket datagram.now }
    ensures unchanged { result ≢ ok → packet.new ≡ packet.old }
{
    read_packet(datagram, packet)
}

/// Finds the first element of a block's body from an offset on (RFC 8285, 4.2 and 4.3). A walk
/// begins at 0, and goes on at the `end` of the element before. `OK`; `NONE` where reading ends
/// before an element; `BAD_FIELD` where the form is neither of the two, or the offset is past the
/// body's end. Where it isn't `OK` nothing is written.
#[unsafe(no_mangle)]
pub extern "C" fn rtpw_next_element(
    body: &[u8],
    form: u8,
    at: usize,
    element: &mut ElementView,
) -> i32
    ensures found { result ≡ ok → (f : ExtensionsForm) × (form_number (Some f) ≡ form)
        × IsNextElement f body.now at element.new }
    ensures within { result ≡ ok → element.new.end ≤ length body.now }
    ensures none { result ≡ none → (f : ExtensionsForm) × (form_number (Some f) ≡ form)
        × BeginsWithNoElement f (drop at body.now) }
    ensures bad_field { (result ≡ bad_field) ↔
        ((length body.now < at) ⊎ ((f : ExtensionsForm) → form_number (Some f) ≢ form)) }
    ensures statuses { (result ≡ ok) ⊎ ((result ≡ none) ⊎ (result ≡ bad_field)) }
    ensures unchanged { result ≢ ok → element.new ≡ element.old }
{
    let Some(form) = form_of(form) else {
        return BAD_FIELD;
    };
    if at > body.len() {
        return BAD_FIELD;
    }
    let Some(place) = next_place(form, body, at) else {
        return NONE;
    };
    let Place {
        id,
        data_start,
        end,
        ..
    } = place;
    *element = ElementView {
        data_at: data_start,
        data_len: end - data_start,
        end,
        id,
    };
    OK
}

/// Finds the last element of this id in a block's body (RFC 8285, 4.2 and 4.3), which is the one
/// whose value counts. `OK`; `NONE` where no element has the id; `BAD_FIELD` where the form is
/// neither of the two. Where it isn't `OK` nothing is written.
#[unsafe(no_mangle)]
pub extern "C" fn rtpw_last_element(body: &[u8], form: u8, id: u8, element: &mut ElementView) -> i32
    ensures found { result ≡ ok → (f : ExtensionsForm) × (form_number (Some f) ≡ form)
        × IsLastElement f body.now id element.new }
    ensures place { result ≡ ok → (f : ExtensionsForm) × (form_number (Some f) ≡ form)
        × LiesAsLast f body.now id element.new }
    ensures within { result ≡ ok → element.new.end ≤ length body.now }
    ensures none { result ≡ none → (f : ExtensionsForm) × (form_number (Some f) ≡ form)
        × ((elements : List Element) → AreElements f body.now elements → HasNone elements id) }
    ensures bad_field { (result ≡ bad_field) ↔
        ((f : ExtensionsForm) → form_number (Some f) ≢ form) }
    ensures statuses { (result ≡ ok) ⊎ ((result ≡ none) ⊎ (result ≡ bad_field)) }
    ensures unchanged { result ≢ ok → element.new ≡ element.old }
{
    let Some(form) = form_of(form) else {
        return BAD_FIELD;
    };
    let Some(last) = last_place(form, body, id) else {
        return NONE;
    };
    let Place {
        data_start,
        end,
        ..
    } = last;
    *element = ElementView {
        data_at: data_start,
        data_len: end - data_start,
        end,
        id,
    };
    OK
}
