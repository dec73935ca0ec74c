//! A packet, changed in its buffer.

ghost use Rattle.std.specs.Prelude.{◌≡◌, ◌≢◌, ◌↔◌, ◌+◌, ◌*◌, ◌≤◌, ◌<◌, List, length, slice_set, IfOk, IfErr, IfSome, IsErr, IsOkAnd};
ghost use Rattle.rtp_ext.specs.Elements.{Element};
ghost use Rattle.rtp_ext.specs.ElementsInPlace.{HasNone, HasLastOf, SetsLast, ChangesIds, all_but};
ghost use Rattle.rtp_ext.specs.ElementPlaces.{WritesLast};
ghost use Rattle.rtp_wire.specs.Packet.{PacketParts, IsPacket, header_len_of};
ghost use Rattle.rtp_wire.specs.ChangedPacket.{ChangesOnly, ChangesOnlyBody};
ghost use Rattle.rtp_wire.specs.GivenFields.{with_header_fields};
ghost use Rattle.rtp_wire.specs.NotAHeader.{IsNoPacket};
ghost use Rattle.rtp_wire.specs.PacketElements.{AreElementsOf};
ghost use Rattle.rtp_wire.specs.PartsAt.{HasLayout};
ghost use Rattle.rtp_c.specs.Status.{ok, none, bad_field, IsCauseStatus};
ghost use Rattle.rtp_c.specs.ChangedElements.{BecomesPacket};
ghost use Rattle.rtp_c.specs.SetFields.{fields_given, CanBeSet, SetsParts, ChangesOnlyFields};

use super::given::given;
use super::status::{BAD_FIELD, NONE, OK, refusal_status};
use rtp_base::{Pt, Ssrc};
use rtp_wire::{ExtensionsForm, Fields, RtpPacket, RtpPacketMut};

/// Fields that are set together: `rtpw_fields` in C, 20 bytes. Each is set where its `has_` isn't
/// 0, and else not looked at.
#[repr(C)]
#[derive(Clone, Copy)]
pub struct FieldsView {
    /// The moment of the payload's first byte, in ticks of the payload's own clock.
    pub timestamp: u32,
    /// The source whose stream this is.
    pub ssrc: u32,
    /// The low 16 bits of the packet's number.
    pub sequence_number: u16,
    /// What the payload is, 0 to 127.
    pub payload_type: u8,
    /// M, which counts as set where it isn't 0.
    pub marker: u8,
    /// Whether the timestamp is given, and so for each other field.
    pub has_timestamp: u8,
    pub has_ssrc: u8,
    pub has_sequence_number: u8,
    pub has_payload_type: u8,
    pub has_marker: u8,
}

// No field.
pub(super) const NO_FIELDS: Fields = Fields {
    marker: None,
    payload_type: None,
    sequence_number: None,
    timestamp: None,
    ssrc: None,
};

// The fields that are given.
pub(super) fn given_fields(view: &FieldsView) -> Fields
    ensures { result ≡ fields_given view.now }
{
    Fields {
        marker: given(view.has_marker, view.marker != 0),
        payload_type: given(view.has_payload_type, Pt::from(view.payload_type)),
        sequence_number: given(view.has_sequence_number, view.sequence_number),
        timestamp: given(view.has_timestamp, view.timestamp),
        ssrc: given(view.has_ssrc, Ssrc::from(view.ssrc)),
    }
}

// How many bytes the header of the packet in the buffer takes, and the form of its block; the
// status of the first cause for which the buffer holds no packet.
pub fn layout_of(datagram: &[u8]) -> Result<(usize, Option<ExtensionsForm>), i32>
    ensures found { IfOk result (λ layout. HasLayout datagram.now layout.0 layout.1) }
    ensures only { (parts : PacketParts) → IsPacket datagram.now parts →
        IsOkAnd result (λ layout. layout.0 ≡ header_len_of parts) }
    ensures cause { IfErr result (IsCauseStatus datagram.now) }
    ensures refused { IsErr result ↔ IsNoPacket datagram.now }
{
    match RtpPacket::parse(datagram) {
        Ok(packet) => Ok((packet.header_len(), packet.form())),
        Err(cause) => Err(refusal_status(cause)),
    }
}

// Sets the fields that are given, after one look at the packet in the buffer; the status of the
// first cause for which it holds none, and then nothing changes.
#[inline(always)]
fn set(datagram: &mut [u8], fields: &Fields) -> i32
    requires { IfSome fields.now.payload_type (λ pt. pt ≤ 127) }
    ensures { SetsParts (with_header_fields fields.now) (ChangesOnlyFields fields.now)
        datagram.old datagram.new result }
{
    match layout_of(datagram) {
        Err(status) => status,
        Ok((header_len, form)) => {
            RtpPacketMut::new(datagram, header_len, form).set_fields(fields);
            OK
        }
    }
}

/// Sets M of the packet in the buffer. `OK`, or the status of the first cause for which the buffer
/// holds no packet, and then nothing changes.
#[unsafe(no_mangle)]
pub extern "C" fn rtpw_set_marker(datagram: &mut [u8], marker: bool) -> i32
    ensures { SetsParts (λ parts. record parts { marker = marker })
        (ChangesOnly 1 2) datagram.old datagram.new result }
{
    let fields = Fields {
        marker: Some(marker),
        ..NO_FIELDS
    };
    set(datagram, &fields)
}

/// Sets the payload type, 0 to 127, of the packet in the buffer. `OK`; `BAD_FIELD` where it is
/// above 127; or the status of the first cause for which the buffer holds no packet. Where it isn't
/// `OK` nothing changes.
#[unsafe(no_mangle)]
pub extern "C" fn rtpw_set_payload_type(datagram: &mut [u8], payload_type: u8) -> i32
    ensures set { payload_type ≤ 127 →
        SetsParts (λ parts. record parts { payload_type = payload_type })
        (ChangesOnly 1 2) datagram.old datagram.new result }
    ensures too_high { 127 < payload_type →
        (result ≡ bad_field) × (datagram.new ≡ datagram.old) }
{
    if payload_type > 127 {
        return BAD_FIELD;
    }
    let fields = Fields {
        payload_type: Some(Pt::from(payload_type)),
        ..NO_FIELDS
    };
    set(datagram, &fields)
}

/// Sets the sequence number of the packet in the buffer. `OK`, or the status of the first cause for
/// which the buffer holds no packet, and then nothing changes.
#[unsafe(no_mangle)]
pub extern "C" fn rtpw_set_sequence_number(datagram: &mut [u8], number: u16) -> i32
    ensures { SetsParts (λ parts. record parts { sequence_number = number })
        (ChangesOnly 2 4) datagram.old datagram.new result }
{
    let fields = Fields {
        sequence_number: Some(number),
        ..NO_FIELDS
    };
    set(datagram, &fields)
}

/// Sets the timestamp of the packet in the buffer. `OK`, or the status of the first cause for which
/// the buffer holds no packet, and then nothing changes.
#[unsafe(no_mangle)]
pub extern "C" fn rtpw_set_timestamp(datagram: &mut [u8], timestamp: u32) -> i32
    ensures { SetsParts (λ parts. record parts { timestamp = timestamp })
        (ChangesOnly 4 8) datagram.old datagram.new result }
{
    let fields = Fields {
        timestamp: Some(timestamp),
        ..NO_FIELDS
    };
    set(datagram, &fields)
}

/// Sets the SSRC of the packet in the buffer. `OK`, or the status of the first cause for which the
/// buffer holds no packet, and then nothing changes.
#[unsafe(no_mangle)]
pub extern "C" fn rtpw_set_ssrc(datagram: &mut [u8], ssrc: u32) -> i32
    ensures { SetsParts (λ parts. record parts { ssrc = ssrc })
        (ChangesOnly 8 12) datagram.old datagram.new result }
{
    let fields = Fields {
        ssrc: Some(Ssrc::from(ssrc)),
        ..NO_FIELDS
    };
    set(datagram, &fields)
}

/// Sets the fields that are given, and no others, after one look at the packet in the buffer. `OK`;
/// `BAD_FIELD` where a payload type is given that is above 127; or the status of the first cause
/// for which the buffer holds no packet. Where it isn't `OK` nothing changes.
#[unsafe(no_mangle)]
pub extern "C" fn rtpw_set_fields(datagram: &mut [u8], fields: &FieldsView) -> i32
    ensures set { CanBeSet fields.now →
        SetsParts (with_header_fields (fields_given fields.now))
        (ChangesOnlyFields (fields_given fields.now)) datagram.old datagram.new result }
    ensures too_high { 0 < fields.now.has_payload_type → 127 < fields.now.payload_type →
        (result ≡ bad_field) × (datagram.new ≡ datagram.old) }
{
    if fields.has_payload_type != 0 && fields.payload_type > 127 {
        return BAD_FIELD;
    }
    set(datagram, &given_fields(fields))
}

/// Sets the contributing source at this place of the CSRC list of the packet in the buffer, counted
/// from 0. `OK`; `NONE` where the list has no such place; or the status of the first cause for
/// which the buffer holds no packet. Where it isn't `OK` nothing changes.
#[unsafe(no_mangle)]
pub extern "C" fn rtpw_set_csrc(datagram: &mut [u8], index: usize, source: u32) -> i32
    ensures done { (parts : PacketParts) → IsPacket datagram.old parts →
        index < length parts.sources → result ≡ ok }
    ensures set { (parts : PacketParts) → IsPacket datagram.old parts → result ≡ ok →
        IsPacket datagram.new (record parts { sources = slice_set parts.sources index source }) }
    ensures otherwise { (parts : PacketParts) → IsPacket datagram.old parts →
        length parts.sources ≤ index → result ≡ none }
    ensures cause { IsNoPacket datagram.old → IsCauseStatus datagram.old result }
    ensures bytes { ChangesOnly (12 + 4 * index) (16 + 4 * index) datagram.old datagram.new }
    ensures unchanged { result ≢ ok → datagram.new ≡ datagram.old }
{
    match layout_of(datagram) {
        Err(status) => status,
        Ok((header_len, form)) => {
            if RtpPacketMut::new(datagram, header_len, form).set_csrc(index, source) {
                OK
            } else {
                NONE
            }
        }
    }
}

/// Gives the last element of this id in the packet in the buffer these data. `OK`; `NONE` where it
/// has no element of this id, or its last one has another number of bytes; or the status of the
/// first cause for which the buffer holds no packet. Where it isn't `OK` nothing changes.
#[unsafe(no_mangle)]
pub extern "C" fn rtpw_set_element(datagram: &mut [u8], id: u8, data: &[u8]) -> i32
    ensures set { (parts : PacketParts) → IsPacket datagram.old parts → result ≡ ok →
        BecomesPacket (λ form. SetsLast form id «data».now) parts datagram.new }
    ensures written { (parts : PacketParts) → IsPacket datagram.old parts → result ≡ ok →
        BecomesPacket (λ form. WritesLast form id «data».now) parts datagram.new }
    ensures answer { (parts : PacketParts) (elements : List Element) → IsPacket datagram.old parts →
        AreElementsOf parts.block elements →
        (result ≡ ok) ↔ HasLastOf elements id (length «data».now) }
    ensures otherwise { (parts : PacketParts) → IsPacket datagram.old parts → result ≢ ok →
        result ≡ none }
    ensures cause { IsNoPacket datagram.old → IsCauseStatus datagram.old result }
    ensures bytes { ChangesOnlyBody datagram.old datagram.new }
    ensures unchanged { result ≢ ok → datagram.new ≡ datagram.old }
{
    match layout_of(datagram) {
        Err(status) => status,
        Ok((header_len, form)) => {
            if RtpPacketMut::new(datagram, header_len, form).set_element(id, data) {
                OK
            } else {
                NONE
            }
        }
    }
}

/// Makes each element of this id in the packet in the buffer zeros, which are padding. `OK`; `NONE`
/// where it has no element of this id; or the status of the first cause for which the buffer holds
/// no packet. Where it isn't `OK` nothing changes.
#[unsafe(no_mangle)]
pub extern "C" fn rtpw_remove_element(datagram: &mut [u8], id: u8) -> i32
    ensures removed { (parts : PacketParts) → IsPacket datagram.old parts → result ≡ ok →
        BecomesPacket (λ form. ChangesIds form (all_but id)) parts datagram.new }
    ensures answer { (parts : PacketParts) (elements : List Element) → IsPacket datagram.old parts →
        AreElementsOf parts.block elements →
        (result ≡ ok) ↔ (HasNone elements id → ⊥) }
    ensures otherwise { (parts : PacketParts) → IsPacket datagram.old parts → result ≢ ok →
        result ≡ none }
    ensures cause { IsNoPacket datagram.old → IsCauseStatus datagram.old result }
    ensures bytes { ChangesOnlyBody datagram.old datagram.new }
    ensures unchanged { result ≢ ok → datagram.new ≡ datagram.old }
{
    match layout_of(datagram) {
        Err(status) => status,
        Ok((header_len, form)) => {
            let mut packet = RtpPacketMut::new(datagram, header_len, form);
            if packet.remove_element(id) { OK } else { NONE }
        }
    }
}
