//! The header of a retransmission for a receiver of a group (RFC 4588, 4).

ghost use Rattle.std.specs.Prelude.{◌≡◌, ◌+◌, ◌≤◌, ℕ, List, Option, length, All, IfSome};
ghost use Rattle.rtp_ext.specs.declared.form.ExtensionsForm.{ExtensionsForm};
ghost use Rattle.rtp_ext.specs.Elements.{Element};
ghost use Rattle.rtp_wire.specs.declared.packet.fields.Fields.{Fields};
ghost use Rattle.rtp_wire.specs.declared.packet.retransmission.RetransmissionFields.{RetransmissionFields};
ghost use Rattle.rtp_wire.specs.Packet.{header_len_of};
ghost use Rattle.rtp_wire.specs.PartsOf.{parts_of};
ghost use Rattle.rtp_route.specs.Calls.{header_in};
ghost use Rattle.rtp_route.specs.GroupHeader.{IsGroupHeader};
ghost use Rattle.rtp_route.specs.Retransmitted.{IsRoutedAgain, IsFilledInAgain, AreFieldsAgain, RepeatsPacketWith};
ghost use Rattle.rtp_route.specs.Template.{with_data, data_lengths, slot_lengths, total_of, pieces, LiesInHeader};

use super::in_place::send_again;
use super::slots::SlotList;
use super::template::write_joined;
use rtp_wire::{Fields, RtpPacket};

/// What [`write_joined`](super::write_joined) writes, for a retransmission (RFC 4588, 4), of which
/// the fields say the number, the payload type and the SSRC, and M and the timestamp where the
/// receiver got the packet with its own: P is clear, and behind the header stands the number with
/// which the receiver got the packet, in two bytes, the high one first. The payload without its
/// padding, put behind that, makes it the retransmission. Requires a buffer of two bytes more than
/// the header, and else the same.
pub fn write_retransmission<S: SlotList>(
    header: &RtpPacket<'_>,
    slots: S,
    fields: &Fields,
    original_number: u16,
    bytes: &[u8],
    buf: &mut [u8],
)
    requires payload_type { IfSome fields.now.payload_type (λ pt. pt ≤ 127) }
    requires lengths { length bytes.now ≡ total_of (S.slots slots) }
    requires within { All (LiesInHeader (parts_of header.now)) (S.slots slots) }
    requires room { length buf.old ≡ header_len_of (parts_of header.now) + 2 }
    ensures routed { (old : List ℕ) (ids : ℕ → Option ℕ) (news : List Element)
        (allowed : Option ExtensionsForm) →
        IsGroupHeader old ids news allowed (header_in header.now) (S.slots slots) →
        IsRoutedAgain old fields.now original_number ids
        (with_data news (pieces (data_lengths news) bytes.now)) allowed buf.new }
    ensures filled { IsFilledInAgain (header_in header.now) (S.slots slots) fields.now original_number
        (pieces (slot_lengths (S.slots slots)) bytes.now) buf.new }
{
    let header_len = header.header_len();
    write_joined(header, slots, fields, bytes, &mut buf[..header_len]);
    send_again(buf, header_len, original_number);
}

/// The law: what is written for a retransmission, with a payload behind it that is without its
/// padding, is the retransmission of the packet that a receiver gets with that payload (RFC 4588,
/// 4): both have the data, M and the timestamp in common, and the number is that of the packet.
pub fn repeats_the_packet()
    ensures { (old new : List ℕ) (got fields : Fields) (number : ℕ) (stream : RetransmissionFields)
        (ids : ℕ → Option ℕ) (news : List Element) (allowed : Option ExtensionsForm) →
        AreFieldsAgain got number stream fields →
        IsRoutedAgain old fields number ids news allowed new →
        RepeatsPacketWith old got stream ids news allowed new }
{}
