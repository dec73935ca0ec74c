//! RTP and RTCP on one port (RFC 5761).

ghost use Rattle.std.specs.Prelude.{◌≡◌, ◌↔◌, ◌≤◌, true, IsTrue};
ghost use Rattle.rtp_wire.specs.Packet.{PacketParts, IsPacket};
ghost use Rattle.rtp_wire.specs.Rtcp.{IsRtcp};

/// Whether a datagram on a port that carries both RTP and RTCP is RTCP (RFC 5761, 4): it has
/// version 2, and its second byte, the RTCP packet type, is 192 to 223. It comes before
/// [`RtpPacket::parse`](crate::RtpPacket::parse), which a receiver report passes too: to RTP that
/// byte is M and a payload type of 64 to 95, which a stream on such a port must not have. A
/// datagram of fewer than two bytes isn't RTCP; how long it is doesn't matter otherwise.
///
/// `80 C9 00 01 00 00 00 2C`, a receiver report without a block, is RTCP (201), and a datagram that
/// begins with `80 60` or `80 E0`, payload type 96 without M and with it, is not.
pub fn is_rtcp(datagram: &[u8]) -> bool
    ensures found { IsTrue result ↔ IsRtcp datagram.now }

    // Of what is an RTP packet too, it is all that has M and a payload type of 64 to 95.
    ensures as_rtp { (parts : PacketParts) → IsPacket datagram.now parts → IsTrue result ↔
        ((parts.marker ≡ true) × (64 ≤ parts.payload_type) × (parts.payload_type ≤ 95)) }
{
    let Some(front) = datagram.first_chunk::<2>() else {
        return false;
    };
    let [first, packet_type] = *front;
    first >> 6 == 2 && (192..=223).contains(&packet_type)
}
