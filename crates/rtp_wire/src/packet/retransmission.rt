//! Retransmissions, which are made of packets where these lie, and become them again (RFC 4588, 4).

ghost use Rattle.std.specs.Prelude.{◌≡◌, ◌↔◌, ℕ, ◌<◌, ◌≤◌, Option, length, take, IsErr, OnErr, IfOk, IfErr, IfSome};
ghost use Rattle.std.specs.Bool.{OnTrue, OnFalse};
ghost use Rattle.rtp_ext.specs.NewIds.{new_id};
ghost use Rattle.rtp_wire.specs.Packet.{PacketParts, IsPacket};
ghost use Rattle.rtp_wire.specs.PartsAt.{HasLayout};
ghost use Rattle.rtp_wire.specs.declared.packet.not_retransmitted.NotRetransmitted.{NotRetransmitted};
ghost use Rattle.rtp_wire.specs.declared.packet.retransmission.RetransmissionFields.{RetransmissionFields};
ghost use Rattle.rtp_wire.specs.Retransmission.{IsRetransmissionOf, IsRestored, IsPacketWith, HasHighId, Sends, Restores, KeepsBlockHeader, KeepsFromSending, KeepsFromRestoring, IsFirstOf};
ghost use Rattle.rtp_wire.specs.RetransmissionParts.{IsLaidOut, HasNoLayout, IsChangedHeader};

use super::{Fields, NotRetransmitted, RtpPacket, RtpPacketMut};
use crate::payload::read_original_sequence_number;
use rtp_base::{Pt, Ssrc, put};
use rtp_ext::{ExtensionsForm, NewIds, can_renumber};

/// What the header of a retransmission says of its own stream (RFC 4588, 4).
#[derive(Clone, Copy, Debug)]
pub struct RetransmissionFields {
    /// The source whose stream the retransmissions are.
    pub ssrc: Ssrc,
    /// The payload type of the retransmissions, at most 127.
    pub payload_type: Pt,
    /// The low 16 bits of the retransmission's own number, which rises by one from one to the next.
    pub sequence_number: u16,
}

/// What the header of a packet that was retransmitted said of its stream, and the retransmission
/// doesn't (RFC 4588, 4).
#[derive(Clone, Copy, Debug)]
pub struct OriginalFields {
    /// The source whose stream the packets are.
    pub ssrc: Ssrc,
    /// The payload type of the packet, at most 127.
    pub payload_type: Pt,
}

// Where the parts of a packet lie.
#[derive(Clone, Copy)]
struct Layout {
    // How many bytes the header takes.
    header_len: usize,
    // The form of the block, where it is one of the two.
    form: Option<ExtensionsForm>,
    // Where the payload ends, without its padding.
    end: usize,
    // The low 16 bits of the packet's number.
    sequence_number: u16,
}

// Where the parts of the packet lie that the first bytes of the buffer are.
fn layout_of(buf: &[u8], len: usize) -> Result<Layout, NotRetransmitted>
    ensures found { IfOk result (IsLaidOut buf.now len) }
    ensures cause { IfErr result (HasNoLayout buf.now len) }
{
    if buf.len() < len {
        return Err(NotRetransmitted::CutPacket);
    }
    let packet = match RtpPacket::parse(&buf[..len]) {
        Ok(packet) => packet,
        Err(cause) => return Err(NotRetransmitted::NotAPacket(cause)),
    };
    let Some(payload) = packet.unpadded_payload() else {
        return Err(NotRetransmitted::PaddingTooLong);
    };
    let header_len = packet.header_len();
    Ok(Layout {
        header_len,
        form: packet.form(),
        end: header_len + payload.len(),
        sequence_number: packet.sequence_number(),
    })
}

// Gives the elements of a header their new ids, clears P and sets the fields that are given.
// Returns `false`, and changes nothing, where the form of the block can't carry a new id.
fn change_header(
    header: &mut [u8],
    form: Option<ExtensionsForm>,
    ids: &NewIds,
    fields: &Fields,
) -> bool
    requires header { HasLayout header.old (length header.old) form }
    requires payload_type { IfSome fields.now.payload_type (λ pt. pt ≤ 127) }
    ensures changed { (parts : PacketParts) → IsPacket header.old parts → OnTrue result
        (IsPacketWith (IsChangedHeader (new_id ids.now) fields.now parts) header.new) }
    ensures block_header { OnTrue result (KeepsBlockHeader header.old header.new) }
    ensures unchanged { OnFalse result (header.new ≡ header.old) }
    ensures carried { (parts : PacketParts) → IsPacket header.old parts →
        OnTrue result (HasHighId (new_id ids.now) parts → ⊥) }
    ensures high { (parts : PacketParts) → IsPacket header.old parts →
        OnFalse result (HasHighId (new_id ids.now) parts) }
{
    let header_len = header.len();
    let mut packet = RtpPacketMut::new(header, header_len, form);
    if !packet.renumber(ids) {
        return false;
    }
    packet.set_padding(false);
    packet.set_fields(fields);
    true
}

// Whether the form of a header's block can carry the new ids of its elements.
fn carries_ids(header: &[u8], form: Option<ExtensionsForm>, ids: &NewIds) -> bool
    requires { HasLayout header.now (length header.now) form }
    ensures carried { (parts : PacketParts) → IsPacket header.now parts →
        OnTrue result (HasHighId (new_id ids.now) parts → ⊥) }
    ensures high { (parts : PacketParts) → IsPacket header.now parts →
        OnFalse result (HasHighId (new_id ids.now) parts) }
{
    match RtpPacket::new(header, header.len(), form).block() {
        Some((form, body)) => can_renumber(form, body, ids),
        None => true,
    }
}

/// Makes the packet in the first `len` bytes of the buffer a retransmission, in place, and returns
/// the length of that (RFC 4588, 4): it has the SSRC, the payload type and the sequence number of
/// the retransmission stream, the elements have their new ids, as those of
/// [`NewIds::to_retransmission`], and the payload is the original sequence number in two bytes, the
/// high one first, and the original payload without its padding. M, the timestamp, the contributing
/// sources and the data of the elements stay, and so does a block of another form than 0xBEDE and
/// 0x1000 to 0x100F. Requires a payload type of at most 127.
///
/// Returns the first cause for which it can't, and then nothing changes. The retransmission is two
/// bytes longer than the packet without its padding; the bytes of the buffer behind it stay.
///
/// In the first fourteen bytes of a buffer of sixteen, `80 60 00 05 00 00 00 01 00 00 00 2C AA BB`
/// (hexadecimal), with the SSRC 45, the payload type 97 and the number 7 this makes
/// `80 61 00 07 00 00 00 01 00 00 00 2D 00 05 AA BB`, and returns 16.
pub fn to_retransmission(
    buf: &mut [u8],
    len: usize,
    stream: &RetransmissionFields,
    ids: &NewIds,
) -> Result<usize, NotRetransmitted>
    requires { stream.now.payload_type ≤ 127 }
    ensures sent { IfOk result (Sends stream.now (new_id ids.now) buf.old len buf.new) }
    ensures cause { IfErr result (IsFirstOf (KeepsFromSending (new_id ids.now) buf.old len)) }
    ensures refused { IsErr result
        ↔ ((cause : NotRetransmitted) × KeepsFromSending (new_id ids.now) buf.old len cause) }
    ensures unchanged { OnErr result (buf.new ≡ buf.old) }
{
    let layout = layout_of(buf, len)?;
    let Layout {
        header_len,
        end,
        ..
    } = layout;
    if buf.len() - end < 2 {
        if carries_ids(&buf[..header_len], layout.form, ids) {
            return Err(NotRetransmitted::NoRoom);
        }
        return Err(NotRetransmitted::NewIdTooHigh);
    }
    let fields = Fields {
        payload_type: Some(stream.payload_type),
        sequence_number: Some(stream.sequence_number),
        ssrc: Some(stream.ssrc),
        ..Fields::default()
    };
    if !change_header(&mut buf[..header_len], layout.form, ids, &fields) {
        return Err(NotRetransmitted::NewIdTooHigh);
    }
    buf.copy_within(header_len..end, header_len + 2);
    put(buf, header_len, &layout.sequence_number.to_be_bytes());
    Ok(end + 2)
}

/// Makes the retransmission in the first `len` bytes of the buffer the packet that it repeats, in
/// place, and returns the length of that (RFC 4588, 4): it has the SSRC and the payload type of the
/// original stream and the original sequence number, the elements have their new ids, as those of
/// [`NewIds::from_retransmission`], and the payload is what follows that number, without any
/// padding. M, the timestamp, the contributing sources and the data of the elements stay, and so
/// does a block of another form. Requires a payload type of at most 127.
///
/// Returns the first cause for which it can't, and then nothing changes. The packet is two bytes
/// shorter than the retransmission without its padding; the bytes of the buffer behind it stay.
///
/// Of the retransmission in the example of [`to_retransmission`] the SSRC 44 and the payload type
/// 96 make `80 60 00 05 00 00 00 01 00 00 00 2C AA BB` again, and this returns 14.
pub fn from_retransmission(
    buf: &mut [u8],
    len: usize,
    stream: &OriginalFields,
    ids: &NewIds,
) -> Result<usize, NotRetransmitted>
    requires { stream.now.payload_type ≤ 127 }
    ensures restored { IfOk result (Restores stream.now (new_id ids.now) buf.old len buf.new) }
    ensures cause { IfErr result (IsFirstOf (KeepsFromRestoring (new_id ids.now) buf.old len)) }
    ensures refused { IsErr result
        ↔ ((cause : NotRetransmitted) × KeepsFromRestoring (new_id ids.now) buf.old len cause) }
    ensures unchanged { OnErr result (buf.new ≡ buf.old) }

    // What `to_retransmission` made of a packet is that packet again, without its padding.
    ensures undone { (original sent : PacketParts) (fields : RetransmissionFields)
        (there : ℕ → Option ℕ) → original.sequence_number < 65536 →
        IsRetransmissionOf original fields there sent →
        IsPacket (take len buf.old) sent → IfOk result (λ end.
        IsPacketWith (IsRestored original stream.now there (new_id ids.now)) (take end buf.new)) }
{
    let layout = layout_of(buf, len)?;
    let Layout {
        header_len,
        end,
        ..
    } = layout;
    let mut number = 0;
    if read_original_sequence_number(&buf[header_len..end], &mut number) == 0 {
        return Err(NotRetransmitted::NoOriginalNumber);
    }
    let fields = Fields {
        payload_type: Some(stream.payload_type),
        sequence_number: Some(number),
        ssrc: Some(stream.ssrc),
        ..Fields::default()
    };
    if !change_header(&mut buf[..header_len], layout.form, ids, &fields) {
        return Err(NotRetransmitted::NewIdTooHigh);
    }
    buf.copy_within(header_len + 2..end, header_len);
    Ok(end - 2)
}
