//! Why a block can't be put into a packet.

use thiserror::Error;

/// Why a block can't be put into a packet where it lies (RFC 3550, 5.3.1): the first cause in this
/// order.
#[derive(Clone, Copy, Debug, PartialEq, Eq, Error)]
pub enum BlockNotPut {
    /// The body is no whole number of 32-bit words.
    #[error("a body that ends within a word")]
    CutWord,
    /// The body has more than 65,535 words.
    #[error("an extension block of more than 65,535 words")]
    LongBlock,
    /// The buffer has no room for the packet, which would have this many bytes.
    #[error("no room for a packet of {needed} bytes")]
    NoRoom { needed: usize },
}
