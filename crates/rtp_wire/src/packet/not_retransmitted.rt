//! Why a packet doesn't become a retransmission, or a retransmission the packet that it repeats.

use super::NotAPacket;
use thiserror::Error;

/// Why a packet doesn't become a retransmission, or a retransmission the packet that it repeats
/// (RFC 4588, 4): the first cause in this order.
#[derive(Clone, Copy, Debug, PartialEq, Eq, Error)]
pub enum NotRetransmitted {
    /// The buffer has fewer bytes than the packet is said to have.
    #[error("the buffer ends before the packet")]
    CutPacket,
    /// The bytes are no packet, for this cause.
    #[error("no packet: {0}")]
    NotAPacket(NotAPacket),
    /// The padding's last byte counts more bytes than the payload has (RFC 3550, 5.1).
    #[error("the padding counts more bytes than the payload has")]
    PaddingTooLong,
    /// The payload of a retransmission has fewer than the two bytes of the original number.
    #[error("the payload has no original sequence number")]
    NoOriginalNumber,
    /// The form of the extension block can't carry the new id of an element: one above 14 in the
    /// one-byte form (RFC 8285, 4.2).
    #[error("the form of the extension block can't carry a new id")]
    NewIdTooHigh,
    /// The buffer has no room for the two bytes of the original number.
    #[error("no room for the original sequence number")]
    NoRoom,
}
