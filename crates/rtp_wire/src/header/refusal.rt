//! Why no header begins a datagram, for callers that were told that none does.

ghost use Rattle.std.specs.Prelude.{◌≡◌, ◌↔◌, ◌⊎◌, ◌+◌, ◌≤◌, ◌/◌, ◌%◌, length, slice_index, IfSome, IsSome, IsTrue};
ghost use Rattle.rtp_wire.specs.NoHeaderCause.{IsFirstHeaderCause};
ghost use Rattle.rtp_wire.specs.NotAHeader.{sources_end, IsNoPacket, HasUnknownForm, HasNoHeader};
ghost use Rattle.rtp_wire.specs.Packet.{HasOtherForm};

use super::{NotAHeader, RtpHeader};
use crate::packet::{NotAPacket, RtpPacket, sources_end};
use rtp_ext::ExtensionsForm;

impl RtpHeader {
    /// The first cause for which no header begins there, in the order of the bytes, and `None`
    /// exactly where [`parse`](Self::parse) finds one (RFC 3550, 5.1; RFC 8285, 4).
    ///
    /// The sixteen bytes `90 21 B7 98 00 00 27 10 00 00 00 2C AB AC 00 00` are a packet, and no
    /// header begins there: 0xABAC is the word of neither form.
    pub fn refusal(buf: &[u8]) -> Option<NotAHeader>
        ensures cause { IfSome result (IsFirstHeaderCause buf.now) }
        ensures refused { IsSome result ↔ HasNoHeader buf.now }

        // No header begins exactly where the bytes are no packet, or one whose block is of another
        // form than the two.
        ensures either { HasNoHeader buf.now ↔ (IsNoPacket buf.now ⊎ HasOtherForm buf.now) }
    {
        match RtpPacket::parse(buf) {
            Ok(packet) => packet.has_other_form().then_some(NotAHeader::UnknownForm),
            Err(NotAPacket::CutBlock) if has_unknown_form(buf) => Some(NotAHeader::UnknownForm),
            Err(cause) => Some(NotAHeader::NotAPacket(cause)),
        }
    }
}

// Whether the four bytes before the body of the block begin with the word of neither form.
fn has_unknown_form(datagram: &[u8]) -> bool
    requires block { slice_index datagram.now 0 / 16 % 2 ≡ 1 }
    requires header { sources_end datagram.now + 4 ≤ length datagram.now }
    ensures { IsTrue result ↔ HasUnknownForm datagram.now }
{
    let start = sources_end(datagram[0]);
    ExtensionsForm::parse([datagram[start], datagram[start + 1]]).is_none()
}
