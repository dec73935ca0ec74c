//! P and the padding of the packet in a buffer.

ghost use Rattle.std.specs.Prelude.{◌≡◌, ◌≢◌, ◌↔◌, ◌≤◌, ◌<◌, length, true};
ghost use Rattle.rtp_wire.specs.ChangedPacket.{ChangesOnly, HasUnpadded};
ghost use Rattle.rtp_wire.specs.NotAHeader.{IsNoPacket};
ghost use Rattle.rtp_wire.specs.Packet.{PacketParts, IsPacket};
ghost use Rattle.rtp_wire.specs.Padding.{padding_count};
ghost use Rattle.rtp_c.specs.Status.{ok, bad_field, IsCauseStatus};
ghost use Rattle.rtp_c.specs.SetFields.{SetsParts};

use super::changing::layout_of;
use super::status::{BAD_FIELD, OK};
use rtp_wire::RtpPacketMut;

/// Sets or clears P of the packet in the buffer, and no other bit: the padding itself is the
/// caller's to write, or to keep. `OK`, or the status of the first cause for which the buffer holds
/// no packet, and then nothing changes.
#[unsafe(no_mangle)]
pub extern "C" fn rtpw_set_padding(datagram: &mut [u8], has_padding: bool) -> i32
    ensures { SetsParts (λ parts. record parts { has_padding = has_padding })
        (ChangesOnly 0 1) datagram.old datagram.new result }
{
    match layout_of(datagram) {
        Err(status) => status,
        Ok((header_len, form)) => {
            let mut packet = RtpPacketMut::new(datagram, header_len, form);
            packet.set_padding(has_padding);
            OK
        }
    }
}

/// Takes the padding off the packet in the buffer: clears P, and writes how many bytes the packet
/// then has, which are the first ones of the buffer. Where P is clear nothing changes, and they are
/// all of them. `OK`; `BAD_FIELD` where the padding's last byte counts more bytes than the payload
/// has; or the status of the first cause for which the buffer holds no packet. Where it isn't `OK`
/// nothing changes.
#[unsafe(no_mangle)]
pub extern "C" fn rtpw_remove_padding(datagram: &mut [u8], len: &mut usize) -> i32
    ensures unpadded { (parts : PacketParts) → IsPacket datagram.old parts → result ≡ ok →
        HasUnpadded parts datagram.new len.new }
    ensures within { result ≡ ok → len.new ≤ length datagram.old }
    ensures too_long { (parts : PacketParts) → IsPacket datagram.old parts →
        (result ≡ bad_field) ↔ ((parts.has_padding ≡ true)
        × (length parts.payload < padding_count parts.payload)) }
    ensures otherwise { (parts : PacketParts) → IsPacket datagram.old parts → result ≢ ok →
        result ≡ bad_field }
    ensures cause { IsNoPacket datagram.old → IsCauseStatus datagram.old result }
    ensures bytes { ChangesOnly 0 1 datagram.old datagram.new }
    ensures unchanged { result ≢ ok → (datagram.new ≡ datagram.old) × (len.new ≡ len.old) }
{
    match layout_of(datagram) {
        Err(status) => status,
        Ok((header_len, form)) => {
            let mut packet = RtpPacketMut::new(datagram, header_len, form);
            let Some(left) = packet.remove_padding() else {
                return BAD_FIELD;
            };
            *len = left;
            OK
        }
    }
}
