//! Several datagrams of one buffer, read in one call.

ghost use Rattle.std.specs.Prelude.{◌≡◌, IfSome, IfNone};
ghost use Rattle.std.specs.List.{AllZip};
ghost use Rattle.rtp_c.specs.PacketView.{slice_at};
ghost use Rattle.rtp_c.specs.Datagrams.{IsWithin, IsRtcpNumber, IsDatagramRead, IsDatagramHeaderRead, IsWholeDatagramRead};

use super::header::{HeaderView, read_header};
use super::kinds::StoredMap;
use super::packet::{PacketView, read_packet};
use super::status::BAD_FIELD;
use super::values::flag_number;
use super::whole_packet::{WholePacket, read_whole};
use rtp_wire::is_rtcp;

/// One of several datagrams in a buffer: where it lies is given, and what it says is written.
/// `rtpw_datagram` in C, 88 bytes.
#[repr(C)]
#[derive(Clone, Copy)]
pub struct Datagram {
    /// Given: where it begins in the buffer, in bytes.
    pub at: usize,
    /// Given: how many bytes it has.
    pub len: usize,
    /// What `rtpw_packet_parse` writes of it, counted from its own first byte, and else as it
    /// was.
    pub packet: PacketView,
    /// What `rtpw_packet_parse` returns of it, and `BAD_FIELD` where it isn't within the buffer.
    pub status: i32,
    /// What `rtpw_is_rtcp` returns of it, 0 or 1, and 0 where it isn't within the buffer.
    pub is_rtcp: u8,
}

/// A datagram in a buffer, and what is told of its whole header and of its values:
/// `rtpw_datagram_header` in C, 248 bytes.
#[repr(C)]
#[derive(Clone, Copy)]
pub struct DatagramHeader {
    /// Given: where it begins in the buffer, in bytes.
    pub at: usize,
    /// Given: how many bytes it has.
    pub len: usize,
    /// What `rtpw_parse` writes of it, and else as it was.
    pub header: HeaderView,
    /// What `rtpw_parse` returns of it, and `BAD_FIELD` where it isn't within the buffer.
    pub status: i32,
    /// What `rtpw_is_rtcp` returns of it, 0 or 1, and 0 where it isn't within the buffer.
    pub is_rtcp: u8,
}

/// A datagram in a buffer, and what is told of the whole packet: `rtpw_whole_datagram` in C, 280
/// bytes.
#[repr(C)]
#[derive(Clone, Copy)]
pub struct WholeDatagram {
    /// Given: where it begins in the buffer, in bytes.
    pub at: usize,
    /// Given: how many bytes it has.
    pub len: usize,
    /// What `rtpw_read` writes of it, counted from its own first byte, and else as it was.
    pub packet: WholePacket,
    /// What `rtpw_read` returns of it, and `BAD_FIELD` where it isn't within the buffer.
    pub status: i32,
}

// The bytes at this place, of this length, where they are within the buffer.
pub(super) fn slice_in(buf: &[u8], at: usize, len: usize) -> Option<&[u8]>
    ensures found { IfSome result (λ slice.
        IsWithin buf.now at len × (slice.now ≡ slice_at buf.now at len)) }
    ensures none { IfNone result (IsWithin buf.now at len → ⊥) }
{
    buf.get(at..)?.get(..len)
}

// 1 where the bytes are RTCP, and else 0.
fn rtcp_number(bytes: &[u8]) -> u8
    ensures { IsRtcpNumber bytes.now result }
{
    flag_number(is_rtcp(bytes))
}

// Tells what the packet is that the datagram is, and whether it is RTCP.
fn read_datagram(buf: &[u8], datagram: &mut Datagram)
    ensures { IsDatagramRead buf.now datagram.old datagram.new }
{
    let Some(bytes) = slice_in(buf, datagram.at, datagram.len) else {
        datagram.status = BAD_FIELD;
        datagram.is_rtcp = 0;
        return;
    };
    datagram.status = read_packet(bytes, &mut datagram.packet);
    datagram.is_rtcp = rtcp_number(bytes);
}

// Tells the header that the datagram begins with, and whether it is RTCP.
fn read_datagram_header(buf: &[u8], map: &StoredMap, datagram: &mut DatagramHeader)
    ensures { IsDatagramHeaderRead map.now.kind buf.now datagram.old datagram.new }
{
    let Some(bytes) = slice_in(buf, datagram.at, datagram.len) else {
        datagram.status = BAD_FIELD;
        datagram.is_rtcp = 0;
        return;
    };
    datagram.status = read_header(bytes, map, &mut datagram.header);
    datagram.is_rtcp = rtcp_number(bytes);
}

// Tells the whole packet that the datagram is.
fn read_whole_datagram(buf: &[u8], map: &StoredMap, datagram: &mut WholeDatagram)
    ensures { IsWholeDatagramRead map.now.kind buf.now datagram.old datagram.new }
{
    let Some(bytes) = slice_in(buf, datagram.at, datagram.len) else {
        datagram.status = BAD_FIELD;
        return;
    };
    datagram.status = read_whole(bytes, map, &mut datagram.packet);
}

/// Reads each of these datagrams of the buffer as `rtpw_packet_parse` and `rtpw_is_rtcp` do: one
/// that is no packet, or isn't within the buffer, spoils no other. They may be in any order, and
/// overlap one another.
#[unsafe(no_mangle)]
pub extern "C" fn rtpw_packet_parse_many(buf: &[u8], datagrams: &mut [Datagram])
    ensures { AllZip (IsDatagramRead buf.now) datagrams.old datagrams.new }
{
    for datagram in datagrams {
        read_datagram(buf, datagram);
    }
}

/// Reads each of these datagrams of the buffer as `rtpw_parse` and `rtpw_is_rtcp` do: one that
/// begins with no header, or isn't within the buffer, spoils no other. They may be in any order,
/// and overlap one another.
#[unsafe(no_mangle)]
pub extern "C" fn rtpw_parse_many(buf: &[u8], map: &StoredMap, datagrams: &mut [DatagramHeader])
    ensures { AllZip (IsDatagramHeaderRead map.now.kind buf.now) datagrams.old datagrams.new }
{
    for datagram in datagrams {
        read_datagram_header(buf, map, datagram);
    }
}

/// Reads each of these datagrams of the buffer as `rtpw_read` does: one that is no packet, or RTCP,
/// or isn't within the buffer, spoils no other. They may be in any order, and overlap one another.
#[unsafe(no_mangle)]
pub extern "C" fn rtpw_read_many(buf: &[u8], map: &StoredMap, datagrams: &mut [WholeDatagram])
    ensures { AllZip (IsWholeDatagramRead map.now.kind buf.now) datagrams.old datagrams.new }
{
    for datagram in datagrams {
        read_whole_datagram(buf, map, datagram);
    }
}
