//! Why no header begins a datagram.

ghost use Rattle.std.specs.Prelude.{◌≡◌};
ghost use Rattle.rtp_wire.specs.declared.header.not_a_header.NotAHeader.TheVariants.{NotAPacket};

use crate::packet::NotAPacket;
use thiserror::Error;

/// Why no header begins a datagram (RFC 3550, 5.1; RFC 8285, 4): the first cause in the order of
/// its bytes. An unknown form comes after a block whose first four bytes are cut short, and before
/// one that is longer than what is left.
#[derive(Clone, Copy, Debug, PartialEq, Eq, Error)]
pub enum NotAHeader {
    /// The datagram is no packet.
    #[error("{0}")]
    NotAPacket(NotAPacket),
    /// The block's form is neither 0xBEDE nor 0x1000 to 0x100F. [`RtpPacket`](crate::RtpPacket)
    /// reads such a packet, without its elements.
    #[error("a header extension of an unknown form")]
    UnknownForm,
}

impl From<NotAPacket> for NotAHeader {
    ghost from_gives = { λ cause not_a_header. not_a_header ≡ NotAPacket cause };

    fn from(cause: NotAPacket) -> Self {
        NotAHeader::NotAPacket(cause)
    }
}
