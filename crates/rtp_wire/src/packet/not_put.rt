//! Why an element can't be put into a packet.

ghost use Rattle.std.specs.Prelude.{◌≡◌};
ghost use Rattle.rtp_wire.specs.declared.packet.not_put.NotPut.TheVariants.{NotAPacket};

use super::NotAPacket;
use thiserror::Error;

/// Why an element can't be put into a packet where it lies (RFC 3550, 5.3.1; RFC 8285, 4.1.2 to
/// 4.3): the first cause in this order.
#[derive(Clone, Copy, Debug, PartialEq, Eq, Error)]
pub enum NotPut {
    /// The buffer has fewer bytes than the packet is said to have.
    #[error("the buffer ends before the packet")]
    CutPacket,
    /// The id is 0, which is padding's.
    #[error("the id 0")]
    ZeroId,
    /// The data have more than 255 bytes.
    #[error("more than 255 bytes of data")]
    LongData,
    /// The bytes are no packet.
    #[error("no packet: {0}")]
    NotAPacket(NotAPacket),
    /// The block has another form than the two, and carries no elements.
    #[error("an extension block of another form, which carries no elements")]
    OtherForm,
    /// The id is above 14, which the one-byte form can't carry, and only that is allowed; or one of
    /// the block's elements has such an id, and the block is to get that form (RFC 8285, 4.2).
    #[error("an id above 14, which the one-byte form can't carry")]
    LongId,
    /// The block needs the two-byte form, and only the one-byte form is allowed.
    #[error("the two-byte form is needed, and only the one-byte form is allowed")]
    OneByteOnly,
    /// The block would have more than 65,535 words.
    #[error("an extension block of more than 65,535 words")]
    LongBlock,
    /// The buffer has no room for the packet, which would have this many bytes.
    #[error("no room for a packet of {needed} bytes")]
    NoRoom { needed: usize },
}

impl From<NotAPacket> for NotPut {
    ghost from_gives = { λ cause not_put. not_put ≡ NotAPacket cause };

    fn from(cause: NotAPacket) -> Self {
        NotPut::NotAPacket(cause)
    }
}
