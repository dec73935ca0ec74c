//! Why a buffer doesn't begin with a packet.

ghost use Rattle.std.specs.Prelude.{◌≡◌};
ghost use Rattle.rtp_wire.specs.declared.packet.not_in_buffer.NotInBuffer.TheVariants.{NotAPacket};

use super::NotAPacket;
use thiserror::Error;

/// Why a buffer doesn't begin with a packet of so many bytes (RFC 3550, 5.1 and 5.3.1): the first
/// cause in this order.
#[derive(Clone, Copy, Debug, PartialEq, Eq, Error)]
pub enum NotInBuffer {
    /// The buffer has fewer bytes than the packet is said to have.
    #[error("the buffer ends before the packet")]
    CutPacket,
    /// The bytes are no packet.
    #[error("no packet: {0}")]
    NotAPacket(NotAPacket),
}

impl From<NotAPacket> for NotInBuffer {
    ghost from_gives = { λ cause not_in_buffer. not_in_buffer ≡ NotAPacket cause };

    fn from(cause: NotAPacket) -> Self {
        NotInBuffer::NotAPacket(cause)
    }
}
