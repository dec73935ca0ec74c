//! A whole packet by one call: its header, its values, and where its parts lie.

ghost use Rattle.std.specs.Prelude.{◌≡◌, ◌≢◌, ◌↔◌, ◌⊎◌, length};
ghost use Rattle.rtp_wire.specs.NotAHeader.{IsNoPacket};
ghost use Rattle.rtp_wire.specs.Packet.{PacketParts, IsPacket};
ghost use Rattle.rtp_wire.specs.PartsOf.{parts_of, datagram_of};
ghost use Rattle.rtp_wire.specs.Rtcp.{IsRtcp};
ghost use Rattle.rtp_c.specs.Status.{ok, rtcp, cause_status, IsCauseStatus};
ghost use Rattle.rtp_c.specs.WholePacket.{IsWhole, IsWholeRead};

use super::header::{HeaderView, put_fields, put_values_of};
use super::kinds::StoredMap;
use super::packet::{put_block, unpadded_len_of};
use super::status::{OK, RTCP, status_of};
use rtp_wire::{NotAPacket, RtpPacket, is_rtcp};

/// The header of a packet with its values, and where the parts of the packet lie, as offsets in the
/// bytes of its datagram: `rtpw_whole_packet` in C, 256 bytes. The payload begins at the header's
/// `header_len`, and with its padding it is the rest of the datagram.
#[repr(C)]
#[derive(Clone, Copy)]
pub struct WholePacket {
    /// The header, with the values of the block: none where the block has another form.
    pub header: HeaderView,
    /// How many bytes the payload has without its padding, and 0 where `padding_fits` is 0.
    pub unpadded_len: usize,
    /// Where the body of the block begins, whose header is the four bytes before it: `body_len`
    /// before the payload, and so where that begins if X is clear.
    pub body_at: usize,
    /// How many bytes the body of the block has, and 0 where X is clear.
    pub body_len: usize,
    /// The 16 bits that the block begins with, and 0 where X is clear.
    pub block_profile: u16,
    /// The form of the block: 1 the one-byte form, 2 the two-byte form, 3 another one, and 0 where
    /// X is clear.
    pub block_form: u8,
    /// 1, and 0 where P is set and the payload's last byte counts more bytes than the payload has.
    /// A last byte of 0 takes nothing away, and neither does P of an empty payload.
    pub padding_fits: u8,
}

// Tells the header of the packet, the values that its block gives under the map, and where its
// parts lie.
#[inline(always)]
fn put_whole(packet: &RtpPacket<'_>, map: &StoredMap, whole: &mut WholePacket)
    requires { IsPacket (datagram_of packet.now) (parts_of packet.now) }
    ensures { IsWhole map.now.kind (datagram_of packet.now) (parts_of packet.now) whole.new }
{
    put_fields(packet, &mut whole.header);
    let (unpadded_len, padding_fits) = unpadded_len_of(packet);
    whole.unpadded_len = unpadded_len;
    whole.padding_fits = padding_fits;
    let block = put_block(
        packet,
        &mut whole.block_form,
        &mut whole.block_profile,
        &mut whole.body_at,
        &mut whole.body_len,
    );
    put_values_of(block, map, &mut whole.header.values);
}

// The status of a datagram that is no packet for this cause: it may be RTCP, which is shorter. It
// stays out of line, since few are none.
#[cold]
#[inline(never)]
fn status_of_no_packet(datagram: &[u8], cause: NotAPacket) -> i32
    ensures rtcp { IsRtcp datagram.now → result ≡ rtcp }
    ensures cause { (IsRtcp datagram.now → ⊥) → result ≡ cause_status cause }
{
    if is_rtcp(datagram) {
        return RTCP;
    }
    status_of(cause)
}

// Tells the whole packet that the datagram is, where it isn't RTCP, and returns the status.
#[inline(always)]
pub fn read_whole(datagram: &[u8], map: &StoredMap, packet: &mut WholePacket) -> i32
    ensures { IsWholeRead map.now.kind datagram.now result packet.old packet.new }
{
    match RtpPacket::parse(datagram) {
        Ok(_) if is_rtcp(datagram) => RTCP,
        Ok(found) => {
            put_whole(&found, map, packet);
            OK
        }
        Err(cause) => status_of_no_packet(datagram, cause),
    }
}

/// Reads the packet of RTP that the datagram is: its header with the values that its block gives
/// under the map, and where its parts lie (RFC 3550, 5.1 and 5.3.1; RFC 8285, 4.2 and 4.3). A block
/// may have any form. `OK`; `RTCP` where the datagram is RTCP (RFC 5761, 4), however short it is; or
/// the status of the first cause for which it is no packet. Where it isn't `OK` nothing is written.
#[unsafe(no_mangle)]
pub extern "C" fn rtpw_read(datagram: &[u8], map: &StoredMap, packet: &mut WholePacket) -> i32
    ensures rtcp { (result ≡ rtcp) ↔ IsRtcp datagram.now }

    // Of a packet of these parts that isn't RTCP all of them are told, and such bytes are a packet
    // where the status is OK.
    ensures parts { (parts : PacketParts) → IsPacket datagram.now parts →
        (IsRtcp datagram.now → ⊥) →
        (result ≡ ok) × IsWhole map.now.kind datagram.now parts packet.new }
    ensures found { result ≡ ok → (parts : PacketParts) × IsPacket datagram.now parts }

    // The causes for which the datagram is none, and there are no others.
    ensures refused { IsCauseStatus datagram.now result
        ↔ (IsNoPacket datagram.now × (IsRtcp datagram.now → ⊥)) }
    ensures statuses { (result ≡ ok) ⊎ ((result ≡ rtcp) ⊎ IsCauseStatus datagram.now result) }
    ensures unchanged { result ≢ ok → packet.new ≡ packet.old }
{
    read_whole(datagram, map, packet)
}
