//! Fields of a header's fixed part that are set at once.

use super::RtpPacketMut;
use rtp_base::{Pt, Ssrc};

/// Fields of a header's fixed part (RFC 3550, 5.1) that are set at once by
/// [`set_fields`](RtpPacketMut::set_fields); one that is `None` stays as it is.
#[derive(Clone, Copy, Debug, Default)]
pub struct Fields {
    /// M, whose meaning the payload's profile gives.
    pub marker: Option<bool>,
    /// What the payload is, at most 127.
    pub payload_type: Option<Pt>,
    /// The low 16 bits of the packet's number.
    pub sequence_number: Option<u16>,
    /// The moment of the payload's first byte, in ticks of the payload's own clock.
    pub timestamp: Option<u32>,
    /// The source whose stream this is.
    pub ssrc: Option<Ssrc>,
}

impl<'a> RtpPacketMut<'a> {
    ghost use Rattle.std.specs.Prelude.{◌≡◌, ◌≤◌, ℕ, IfSome};
    ghost use Rattle.rtp_wire.specs.ChangedPacket.{ChangesOnly};
    ghost use Rattle.rtp_wire.specs.GivenFields.{with_header_fields, LieBetween};
    ghost use Rattle.rtp_wire.specs.PartsOf.{parts_in, buffer_of};

    /// Sets the fields that are given, and leaves the others, after one look at the packet (RFC
    /// 3550, 5.1). Requires that a payload type is at most 127.
    ///
    /// In a packet that begins with `80 E0 00 05` (hexadecimal) the payload type 8 and the number 6
    /// make these bytes `80 88 00 06`: M stays.
    #[inline(always)]
    pub fn set_fields(&mut self, fields: &Fields)
        requires { IfSome fields.now.payload_type (λ pt. pt ≤ 127) }
        ensures parts { parts_in self.new ≡ with_header_fields fields.now (parts_in self.old) }
        ensures bytes { (start end : ℕ) → LieBetween fields.now start end →
            ChangesOnly start end (buffer_of self.old).now (buffer_of self.new).now }
        ensures same_buffer { (buffer_of self.new).ghost_name ≡ (buffer_of self.old).ghost_name }
    {
        if let Some(marker) = fields.marker {
            self.set_marker(marker);
        }
        if let Some(pt) = fields.payload_type {
            self.set_payload_type(pt);
        }
        if let Some(number) = fields.sequence_number {
            self.set_sequence_number(number);
        }
        if let Some(timestamp) = fields.timestamp {
            self.set_timestamp(timestamp);
        }
        if let Some(ssrc) = fields.ssrc {
            self.set_ssrc(ssrc);
        }
    }
}
