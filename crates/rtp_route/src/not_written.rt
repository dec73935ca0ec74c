//! Why a header isn't written for a receiver.

ghost use Rattle.std.specs.Prelude.{◌≡◌};

use thiserror::Error;

/// Why a header isn't written for a receiver of a group.
#[derive(Clone, Copy, Debug, PartialEq, Eq, Error)]
pub enum NotWritten {
    /// There are not as many data as elements that were put, or some are not as long as the
    /// element's.
    #[error("data of other lengths than those that were put")]
    OtherLengths,
    /// The buffer has no room for the header, which has this many bytes, with the two of the
    /// original number where it is that of a retransmission.
    #[error("no room for a header of {needed} bytes")]
    NoRoom { needed: usize },
}
