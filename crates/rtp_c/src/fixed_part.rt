//! The fixed part of a header in a struct of its own: read, and written by itself.

ghost use Rattle.std.specs.Prelude.{◌≡◌, ◌≢◌, ◌↔◌, ◌⊎◌, ◌≤◌, ◌<◌, ◌++◌, length, drop, false};
ghost use Rattle.rtp_wire.specs.Packet.{PacketParts, IsPacket};
ghost use Rattle.rtp_wire.specs.NotAHeader.{IsNoPacket};
ghost use Rattle.rtp_wire.specs.Written.{fixed_bytes};
ghost use Rattle.rtp_c.specs.FixedPart.{fixed_in, AreOfView, IsFixedPartRead};
ghost use Rattle.rtp_c.specs.PacketView.{IsViewOf};
ghost use Rattle.rtp_c.specs.Status.{ok, short_buffer, bad_field, IsCauseStatus};

use super::packet::{PacketView, read_packet};
use super::status::{BAD_FIELD, OK, SHORT_BUFFER};
use rtp_base::{Pt, Ssrc, put};
use rtp_wire::{FixedFields, GetFields, fixed_bytes};

// How many bytes the fixed part has (RFC 3550, 5.1).
const FIXED_LEN: usize = 12;

/// The fixed part of a header (RFC 3550, 5.1) but for how many contributing sources there are:
/// `rtpw_fixed_part` in C, 16 bytes. A flag is written as 0 or 1, and counts as set where it isn't 0.
#[repr(C)]
#[derive(Clone, Copy)]
pub struct FixedView {
    /// 2 as it is read, and not looked at where it is written.
    pub version: u8,
    /// P.
    pub has_padding: u8,
    /// X as it is read, and not looked at where it is written.
    pub has_extension: u8,
    /// M.
    pub marker: u8,
    /// What the payload is, 0 to 127.
    pub payload_type: u8,
    /// The low 16 bits of the packet's number.
    pub sequence_number: u16,
    /// The moment of the payload's first byte, in ticks of the payload's own clock.
    pub timestamp: u32,
    /// The source whose stream this is.
    pub ssrc: u32,
}

/// Where the parts of a packet lie that stand behind the fixed part: `rtpw_layout` in C, 32 bytes.
/// Each field is as that of [`PacketView`] is.
#[repr(C)]
#[derive(Clone, Copy)]
pub struct LayoutView {
    /// Where the payload begins: how many bytes the header takes.
    pub payload_at: usize,
    /// How many bytes the payload has without its padding, and 0 where `padding_fits` is 0.
    pub unpadded_len: usize,
    /// Where the body of the block begins, which ends where the payload begins.
    pub body_at: usize,
    /// The 16 bits that the block begins with, and 0 where X is clear.
    pub block_profile: u16,
    /// The form of the block: 1 the one-byte form, 2 the two-byte form, 3 another one, and 0 where
    /// X is clear.
    pub block_form: u8,
    /// How many contributing sources there are, 0 to 15.
    pub csrc_count: u8,
    /// 1, and 0 where the payload has fewer bytes than its padding counts.
    pub padding_fits: u8,
}

// What is told of a packet before any is read.
const NO_PACKET: PacketView = PacketView {
    payload_at: 0,
    payload_len: 0,
    unpadded_len: 0,
    body_at: 0,
    body_len: 0,
    timestamp: 0,
    ssrc: 0,
    sequence_number: 0,
    payload_type: 0,
    csrc_count: 0,
    marker: 0,
    has_padding: 0,
    padding_fits: 0,
    block_form: 0,
    block_profile: 0,
};

// Puts what is told of a packet into the two structs, field by field, since a whole struct would
// have the bytes between its fields written too.
#[inline(always)]
fn put_parts(packet: &PacketView, fixed: &mut FixedView, layout: &mut LayoutView)
    ensures { AreOfView packet.now fixed.new layout.new }
{
    fixed.version = 2;
    fixed.has_padding = packet.has_padding;
    fixed.has_extension = u8::from(packet.block_form != 0);
    fixed.marker = packet.marker;
    fixed.payload_type = packet.payload_type;
    fixed.sequence_number = packet.sequence_number;
    fixed.timestamp = packet.timestamp;
    fixed.ssrc = packet.ssrc;
    layout.payload_at = packet.payload_at;
    layout.unpadded_len = packet.unpadded_len;
    layout.body_at = packet.body_at;
    layout.block_profile = packet.block_profile;
    layout.block_form = packet.block_form;
    layout.csrc_count = packet.csrc_count;
    layout.padding_fits = packet.padding_fits;
}

/// Reads the fixed part of the packet that the datagram is, with a block of any form, and where its
/// parts lie, as `rtpw_packet_parse` does. `OK`, or the status of the first cause for which the
/// datagram is none, and then nothing is written.
#[unsafe(no_mangle)]
pub extern "C" fn rtpw_read_fixed_part(
    datagram: &[u8],
    fixed: &mut FixedView,
    layout: &mut LayoutView,
) -> i32
    // Of a packet of these parts all of them are told, and bytes are a packet of such parts where
    // the status is OK.
    ensures parts { (parts : PacketParts) → IsPacket datagram.now parts → (result ≡ ok)
        × IsFixedPartRead datagram.now parts fixed.new layout.new }
    ensures found { result ≡ ok → (parts : PacketParts) × IsPacket datagram.now parts }
    ensures cause { result ≢ ok → IsCauseStatus datagram.now result }
    ensures refused { result ≢ ok ↔ IsNoPacket datagram.now }
    ensures unchanged { result ≢ ok → (fixed.new ≡ fixed.old) × (layout.new ≡ layout.old) }
{
    let mut packet = NO_PACKET;
    let status = read_packet(datagram, &mut packet);
    if status == OK {
        put_parts(&packet, fixed, layout);
    }
    status
}

impl GetFields for FixedView {
    ghost header = { λ fields. fixed_in fields };

    #[inline(always)]
    fn fixed(&self) -> FixedFields {
        FixedFields {
            has_padding: self.has_padding != 0,
            has_extension: false,
            csrc_count: 0,
            marker: self.marker != 0,
            payload_type: Pt::from(self.payload_type),
            sequence_number: self.sequence_number,
            timestamp: self.timestamp,
            ssrc: Ssrc::from(self.ssrc),
        }
    }

    #[inline(always)]
    fn csrc(&self) -> [u32; 15] {
        [0; 15]
    }
}

/// Writes the header that is this fixed part alone, without contributing sources and block, to the
/// front of the buffer: 12 bytes (RFC 3550, 5.1). `OK`; `BAD_FIELD` where the payload type is above
/// 127, and else `SHORT_BUFFER` where the buffer has fewer bytes, and then nothing is written.
#[unsafe(no_mangle)]
pub extern "C" fn rtpw_write_fixed_part(fixed: &FixedView, buf: &mut [u8]) -> i32
    ensures written { result ≡ ok →
        buf.new ≡ fixed_bytes (fixed_in fixed.now) ++ drop 12 buf.old }
    ensures short { (result ≡ short_buffer)
        ↔ ((fixed.now.payload_type ≤ 127) × (length buf.old < 12)) }
    ensures bad_field { (result ≡ bad_field) ↔ (127 < fixed.now.payload_type) }
    ensures statuses { (result ≡ ok) ⊎ ((result ≡ short_buffer) ⊎ (result ≡ bad_field)) }
    ensures unchanged { result ≢ ok → buf.new ≡ buf.old }
{
    if fixed.payload_type > 127 {
        return BAD_FIELD;
    }
    if buf.len() < FIXED_LEN {
        return SHORT_BUFFER;
    }
    put(buf, 0, &fixed_bytes(fixed, false));
    OK
}
