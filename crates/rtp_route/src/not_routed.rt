//! Why no header is made.

ghost use Rattle.std.specs.Prelude.{◌≡◌};
ghost use Rattle.rtp_route.specs.declared.not_routed.NotRouted.TheVariants.{NotPut};

use rtp_wire::NotPut;
use thiserror::Error;

/// Why no header is made for a group of receivers.
#[derive(Clone, Copy, Debug, PartialEq, Eq, Error)]
pub enum NotRouted {
    /// More elements than [`MAX_ELEMENTS`](super::MAX_ELEMENTS) are put.
    #[error("more than 16 elements")]
    ManyElements,
    /// Two elements of one id are put.
    #[error("two elements of one id")]
    RepeatedId,
    /// An element would get an id above 14 in the one-byte form (RFC 8285, 4.2), and that alone is
    /// allowed.
    #[error("a new id above 14 in the one-byte form")]
    LongId,
    /// An element can't be put, or the buffer has no room.
    #[error("an element can't be put: {0}")]
    NotPut(NotPut),
}

impl From<NotPut> for NotRouted {
    ghost from_gives = { λ cause not_routed. not_routed ≡ NotPut cause };

    fn from(cause: NotPut) -> Self {
        NotRouted::NotPut(cause)
    }
}
