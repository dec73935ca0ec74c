//! A packet that is made as short as its elements allow.

ghost use Rattle.std.specs.Prelude.{◌≡◌, ◌↔◌, ◌≤◌, length, IsErr, IfOk, IfErr, OnErr};
ghost use Rattle.rtp_wire.specs.NotAHeader.{IsNoPacket};
ghost use Rattle.rtp_wire.specs.NotAPacket.{IsFirstCause};
ghost use Rattle.rtp_wire.specs.PutIntoPacket.{Compacts};

use super::resizing::resize;
use super::rtp_packet::sources_end;
use super::{NotAPacket, RtpPacket};
use crate::header::{BLOCK_HEADER_LEN, in_words};
use rtp_ext::compact_body;

/// Makes the packet in the buffer as short as its elements allow, and returns how many bytes it then has,
/// which are the first ones of the buffer (RFC 3550, 5.3.1; RFC 8285, 4.2 and 4.3). The elements stand in a
/// row in the same order, those of one id too, the body is filled up to whole words, and the payload moves
/// to the front; X and the form stay. Those of the id 0, which is padding's, go, and so does what stands
/// where reading ends, which is no element. Behind the new end any bytes may stand. Where the buffer holds
/// no packet nothing changes, and neither does a packet whose block has another form than 0xBEDE and 0x1000
/// to 0x100F.
///
/// After [`remove_element`](super::RtpPacketMut::remove_element), which leaves padding, this gives the
/// bytes back. Before [`put_element`](super::put_element) it isn't needed.
///
/// The packet `90 60 00 05 00 00 00 64 00 00 00 2C BE DE 00 02 00 00 21 BB CC 00 00 00 01` (hexadecimal)
/// becomes `90 60 00 05 00 00 00 64 00 00 00 2C BE DE 00 01 21 BB CC 00 01`, and 21 is returned.
pub fn compact(datagram: &mut [u8]) -> Result<usize, NotAPacket>
    ensures compacted { IfOk result (Compacts datagram.old datagram.new) }
    ensures within { IfOk result (λ len. len ≤ length datagram.old) }
    ensures cause { IfErr result (IsFirstCause datagram.old) }
    ensures refused { IsErr result ↔ IsNoPacket datagram.old }
    ensures unchanged { OnErr result (datagram.new ≡ datagram.old) }
{
    compact_copy::<0>(datagram)
}

/// Makes a packet as short as [`compact`] does, compiled anew for each `COPY`, as
/// [`put_element_copy`](super::put_element_copy) is.
pub fn compact_copy<const COPY: usize>(datagram: &mut [u8]) -> Result<usize, NotAPacket>
    ensures compacted { IfOk result (Compacts datagram.old datagram.new) }
    ensures within { IfOk result (λ len. len ≤ length datagram.old) }
    ensures cause { IfErr result (IsFirstCause datagram.old) }
    ensures refused { IsErr result ↔ IsNoPacket datagram.old }
    ensures unchanged { OnErr result (datagram.new ≡ datagram.old) }
{
    let packet = RtpPacket::parse(datagram)?;
    let payload_at = packet.header_len();
    let form = packet.form();
    let len = datagram.len();
    let Some(form) = form else {
        return Ok(len);
    };
    let block_at = sources_end(datagram[0]);
    let body = &mut datagram[block_at + BLOCK_HEADER_LEN..payload_at];
    let elements_len = compact_body(form, body);
    let body_len = in_words(elements_len);
    resize(datagram, len, block_at, payload_at, body_len);
    Ok(block_at + BLOCK_HEADER_LEN + body_len + (len - payload_at))
}
