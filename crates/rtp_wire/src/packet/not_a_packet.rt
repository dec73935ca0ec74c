//! Why a datagram is no packet.

use thiserror::Error;

/// Why a datagram is no RTP packet (RFC 3550, 5.1 and 5.3.1): the first cause in the order of its
/// bytes. The form of the block is no cause: a receiver may ignore a block of a form that it
/// doesn't know. Against a header it is one,
/// [`NotAHeader::UnknownForm`](crate::NotAHeader::UnknownForm).
#[derive(Clone, Copy, Debug, PartialEq, Eq, Error)]
pub enum NotAPacket {
    /// It has fewer than the twelve bytes that every header has.
    #[error("fewer than twelve bytes")]
    CutFixedPart,
    /// Its version is another than 2.
    #[error("another version than 2")]
    OtherVersion,
    /// Its CSRC list is cut short.
    #[error("the CSRC list is cut short")]
    CutSources,
    /// X is set, and the first four bytes of the block are cut short.
    #[error("the header of the extension block is cut short")]
    CutBlockHeader,
    /// The block is longer than what is left.
    #[error("the extension block is cut short")]
    CutBlock,
}
