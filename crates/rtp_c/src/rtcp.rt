//! RTP and RTCP on one port.

ghost use Rattle.std.specs.Prelude.{◌↔◌, IsTrue};
ghost use Rattle.rtp_wire.specs.Rtcp.{IsRtcp};

use rtp_wire::is_rtcp;

/// Whether a datagram on a port that carries both RTP and RTCP is RTCP (RFC 5761, 4): it has
/// version 2, and its second byte, the RTCP packet type, is 192 to 223. As RTP that byte is M and a
/// payload type of 64 to 95, which a stream on such a port must not have: so this comes before
/// `rtpw_parse` and `rtpw_packet_parse`, which a receiver report passes too.
#[unsafe(no_mangle)]
pub extern "C" fn rtpw_is_rtcp(datagram: &[u8]) -> bool
    ensures { IsTrue result ↔ IsRtcp datagram.now }
{
    is_rtcp(datagram)
}
