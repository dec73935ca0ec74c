//! One packet to all its receivers: a header for each, in one call.

ghost use Rattle.std.specs.Prelude.{◌≡◌, ◌≢◌, ◌↔◌, ◌+◌, ◌<◌, ◌≤◌, length, All, IsOk, IfOk, IfErr, IfSome, IfNone, OnErr};
ghost use Rattle.rtp_wire.specs.ChangedPacket.{ChangesOnly};
ghost use Rattle.rtp_wire.specs.GivenFields.{with_header_fields};
ghost use Rattle.rtp_wire.specs.Packet.{PacketParts, IsPacket, header_len_of};
ghost use Rattle.rtp_wire.specs.PartsAt.{HasLayout};
ghost use Rattle.rtp_wire.specs.PartsOf.{parts_of};
ghost use Rattle.rtp_route.specs.Calls as calls;
ghost use Rattle.rtp_route.specs.Retransmitted.{without_padding};
ghost use Rattle.rtp_route.specs.Template.{total_of, LiesInHeader};
ghost use Rattle.rtp_c.specs.RoutedHeaders.{header_in, IsWholeTemplate, IsTemplateStatus, IsWrittenAgain, IsWrittenAt, IsRefusedAt, IsHeaderWritten, AreHeadersWritten, AreApart, EndsWithin};
ghost use Rattle.rtp_c.specs.SetFields.{fields_given, CanBeSet};
ghost use Rattle.rtp_c.specs.Status.{ok};
ghost use Rattle.rtp_c.specs.StoredTemplate.{slots_of, IsInRange};

use super::changing::{FieldsView, NO_FIELDS, given_fields};
use super::datagrams::slice_in;
use super::given::given;
use super::status::{BAD_FIELD, OK, SHORT_BUFFER, status_of};
use super::stored_slots::StoredSlots;
use super::template::StoredTemplate;
use rtp_base::{Pt, Ssrc};
use rtp_ext::ExtensionsForm;
use rtp_route::{clear_padding, fill_joined, put_header, write_retransmission};
use rtp_wire::{Fields, RtpPacket, RtpPacketMut};

/// One of the receivers of a group, and the header that it gets: `rtpw_routed_header` in C, 48
/// bytes.
#[repr(C)]
#[derive(Clone, Copy)]
pub struct RoutedHeader {
    /// Given: where its data begin, those of the group's elements one after another.
    pub data_at: usize,
    /// Where its header begins in the buffer: behind that of the receiver before it.
    pub at: usize,
    /// Given: its fields; the others are the packet's.
    pub fields: FieldsView,
    /// Given, where it is a retransmission: the number with which the receiver got the packet.
    pub original_number: u16,
    /// Given: where it isn't 0 its header is that of a retransmission (RFC 4588, 4), whose number,
    /// payload type and SSRC the fields are. P is clear, and two bytes behind the header are the
    /// original number.
    pub is_retransmission: u8,
    /// Given: where it isn't 0 P is clear, for a payload that is sent without its padding.
    pub clears_padding: u8,
    /// `OK`; `BAD_FIELD` where a payload type is given that is above 127, or its data reach past
    /// the data; `SHORT_BUFFER` where its header would reach past the buffer, with the original
    /// number where it is a retransmission.
    pub status: i32,
    /// How many bytes its header has, with the original number where it is a retransmission; 0
    /// where the status isn't `OK`.
    pub len: u32,
}

// The header of the template at the front of these bytes, or the status of why it is none.
fn header_of<'a>(made: &StoredTemplate, bytes: &'a [u8]) -> Result<RtpPacket<'a>, i32>
    requires { IsInRange made.now (length bytes.now) }
    ensures header { IfOk result (λ header. calls.header_in header ≡ header_in made.now bytes.now) }
    ensures within { IfOk result (λ header.
        All (LiesInHeader (parts_of header)) (slots_of made.now)) }
    ensures whole { IsOk result ↔ IsWholeTemplate made.now bytes.now }
    ensures status { IfErr result (IsTemplateStatus made.now bytes.now) }
{
    let len = made.header_len as usize;
    let header = match RtpPacket::parse(&bytes[..len]) {
        Ok(header) => header,
        Err(cause) => return Err(status_of(cause)),
    };
    if header.header_len() != len {
        return Err(BAD_FIELD);
    }
    Ok(header)
}

// Writes the header of a retransmission at this place for a receiver that can be served, and returns
// how many bytes it has with the number behind it; `None` where they have no room. It stays out of
// line, since few packets are sent again.
#[cold]
#[inline(never)]
fn write_again(
    header: &RtpPacket<'_>,
    slots: StoredSlots<'_>,
    own: &[u8],
    receiver: &RoutedHeader,
    at: usize,
    buf: &mut [u8],
) -> Option<usize>
    requires payload_type { CanBeSet receiver.now.fields }
    requires lengths { length own.now ≡ total_of (slots_of slots.made.now) }
    requires within { All (LiesInHeader (parts_of header.now)) (slots_of slots.made.now) }
    requires place { at ≤ length buf.old }
    ensures written { IfSome result (λ len. IsWrittenAgain (calls.header_in header.now)
        (slots_of slots.entry.made.now) own.now receiver.now at len buf.old buf.new) }
    ensures short { IfNone result
        (length buf.old < at + header_len_of (parts_of header.now) + 2) }
    ensures unchanged { IfNone result (buf.new ≡ buf.old) }
{
    let len = header.header_len() + 2;
    if buf.len() - at < len {
        return None;
    }
    let fields = given_fields(&receiver.fields);
    let number = receiver.original_number;
    write_retransmission(header, slots, &fields, number, own, &mut buf[at..at + len]);
    Some(len)
}

// Copies a header.
#[inline(always)]
fn copy_header(buf: &mut [u8], header: &[u8])
    requires { length buf.old ≡ length header.now }
    ensures { buf.new ≡ header.now }
{
    put_header(buf, header);
}

// Sets the fields that are given in a header alone, one by one: each is read when it is set, so that
// few are held at once.
#[inline(always)]
fn set_given(buf: &mut [u8], form: Option<ExtensionsForm>, view: &FieldsView)
    requires held { HasLayout buf.old (length buf.old) form }
    requires payload_type { CanBeSet view.now }
    ensures set { (parts : PacketParts) → IsPacket buf.old parts →
        IsPacket buf.new (with_header_fields (fields_given view.now) parts) }
    ensures fixed { ChangesOnly 1 12 buf.old buf.new }
{
    let len = buf.len();
    let mut packet = RtpPacketMut::new(buf, len, form);
    packet.set_fields(&Fields {
        marker: given(view.has_marker, view.marker != 0),
        ..NO_FIELDS
    });
    packet.set_fields(&Fields {
        payload_type: given(view.has_payload_type, Pt::from(view.payload_type)),
        ..NO_FIELDS
    });
    packet.set_fields(&Fields {
        sequence_number: given(view.has_sequence_number, view.sequence_number),
        ..NO_FIELDS
    });
    packet.set_fields(&Fields {
        timestamp: given(view.has_timestamp, view.timestamp),
        ..NO_FIELDS
    });
    packet.set_fields(&Fields {
        ssrc: given(view.has_ssrc, Ssrc::from(view.ssrc)),
        ..NO_FIELDS
    });
}

// Clears P of a header where its receiver asks for that.
#[inline(always)]
fn clear_where_asked(buf: &mut [u8], clears_padding: u8)
    requires { 1 ≤ length buf.old }
    ensures unpadded { 0 < clears_padding → buf.new ≡ without_padding buf.old }
    ensures unchanged { clears_padding ≡ 0 → buf.new ≡ buf.old }
{
    if clears_padding != 0 {
        clear_padding(buf);
    }
}

// Writes what a receiver gets at this place, and returns how many bytes it has, or the status of why
// it gets none.
#[inline(always)]
fn write_at(
    header: &RtpPacket<'_>,
    slots: StoredSlots<'_>,
    data_len: usize,
    bytes: &[u8],
    receiver: &RoutedHeader,
    at: usize,
    buf: &mut [u8],
) -> Result<usize, i32>
    requires total { data_len ≡ total_of (slots_of slots.made.now) }
    requires within { All (LiesInHeader (parts_of header.now)) (slots_of slots.made.now) }
    requires place { at ≤ length buf.old }
    ensures written { IfOk result (λ len. IsWrittenAt (calls.header_in header.now)
        (slots_of slots.entry.made.now) bytes.now receiver.now at len buf.old buf.new) }
    ensures refused { IfErr result (IsRefusedAt (calls.header_in header.now)
        (slots_of slots.entry.made.now) bytes.now receiver.now at (length buf.old)) }
    ensures unchanged { OnErr result (buf.new ≡ buf.old) }
{
    if receiver.fields.has_payload_type != 0 && receiver.fields.payload_type > 127 {
        return Err(BAD_FIELD);
    }
    let Some(own) = slice_in(bytes, receiver.data_at, data_len) else {
        return Err(BAD_FIELD);
    };
    if receiver.is_retransmission != 0 {
        let Some(len) = write_again(header, slots, own, receiver, at, buf) else {
            return Err(SHORT_BUFFER);
        };
        return Ok(len);
    }
    let len = header.header_len();
    if len > buf.len() - at {
        return Err(SHORT_BUFFER);
    }
    let copy = &mut buf[at..at + len];
    copy_header(copy, header.header_bytes());
    set_given(copy, header.form(), &receiver.fields);
    fill_joined(copy, slots, own);
    clear_where_asked(copy, receiver.clears_padding);
    Ok(len)
}

// Tells a receiver that it gets nothing, and why, and returns where the next one begins. It stays out
// of line, so that the loop over the receivers does nothing for it where each gets its header.
#[cold]
#[inline(never)]
fn refuse(receiver: &mut RoutedHeader, at: usize, status: i32) -> usize
    ensures others { receiver.new ≡ record receiver.old {
      at = at;
      status = receiver.new.status;
      len = receiver.new.len;
    } }
    ensures status { receiver.new.status ≡ status }
    ensures none { receiver.new.len ≡ 0 }
    ensures next { result ≡ at }
{
    receiver.at = at;
    receiver.status = status;
    receiver.len = 0;
    at
}

// Writes what a receiver gets at this place and tells of it, and returns where the next one begins.
#[inline(always)]
fn write_one(
    header: &RtpPacket<'_>,
    slots: StoredSlots<'_>,
    data_len: usize,
    bytes: &[u8],
    receiver: &mut RoutedHeader,
    at: usize,
    buf: &mut [u8],
) -> usize
    requires total { data_len ≡ total_of (slots_of slots.made.now) }
    requires within { All (LiesInHeader (parts_of header.now)) (slots_of slots.made.now) }
    requires place { at ≤ length buf.old }
    ensures written { IsHeaderWritten (calls.header_in header.now) (slots_of slots.entry.made.now)
        bytes.now at receiver.old receiver.new buf.old buf.new }
    ensures next { result ≡ at + receiver.new.len }
    ensures place { result ≤ length buf.new }
{
    match write_at(header, slots, data_len, bytes, receiver, at, buf) {
        Ok(len) => {
            receiver.at = at;
            receiver.status = OK;
            receiver.len = len as u32;
            at + len
        }
        Err(status) => refuse(receiver, at, status),
    }
}

/// Writes the header of each of these receivers of a group, one after another from the buffer's
/// first byte on (RFC 7667, 3.7; RFC 8285, 5), from what
/// [`rtpw_make_template`](super::template::rtpw_make_template) made: the struct, and the header at
/// the front of `header`. Each is that header with the receiver's fields, and with its data as those
/// of the group's elements; with P clear where that is asked for. For a retransmission (RFC 4588, 4)
/// P is clear too, and the original number stands behind it. Each begins where the one before it
/// ends, and one that can't be served takes no bytes and has no effect on any other.
///
/// `OK`, whatever the statuses of the receivers are. `BAD_FIELD` where the struct names more than
/// 16 elements, more bytes than `header` has, data that reach past the header, or another number of
/// them than they have; the status of the first cause for which the header is no packet;
/// `BAD_FIELD` where it has a payload. Where it isn't `OK` nothing is written.
#[unsafe(no_mangle)]
pub extern "C" fn rtpw_write_headers(
    made: &StoredTemplate,
    header: &[u8],
    bytes: &[u8],
    receivers: &mut [RoutedHeader],
    buf: &mut [u8],
) -> i32
    ensures written { result ≡ ok → AreHeadersWritten (header_in made.now header.now)
        (slots_of made.now) bytes.now 0 receivers.old receivers.new buf.old buf.new }
    ensures apart { result ≡ ok → AreApart receivers.new }
    ensures within { result ≡ ok → All (EndsWithin (length buf.new)) receivers.new }
    ensures whole { (result ≡ ok) ↔ IsWholeTemplate made.now header.now }
    ensures status { result ≢ ok → IsTemplateStatus made.now header.now result }
    ensures unchanged { result ≢ ok → (receivers.new ≡ receivers.old) × (buf.new ≡ buf.old) }
{
    let Some(slots) = StoredSlots::new(made, header.len()) else {
        return BAD_FIELD;
    };
    let template = match header_of(made, header) {
        Ok(template) => template,
        Err(status) => return status,
    };
    let data_len = made.data_total as usize;
    let mut at = 0;
    for receiver in receivers {
        at = write_one(&template, slots, data_len, bytes, receiver, at, buf);
    }
    OK
}
