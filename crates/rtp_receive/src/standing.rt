//! What a receiver knows of a number.

/// What a receiver knows of a number, as [`StreamReceiver::standing_of`] returns it.
///
/// [`StreamReceiver::standing_of`]: crate::StreamReceiver::standing_of
#[derive(Clone, Copy, Debug, PartialEq, Eq)]
pub enum Standing {
    /// It may be taken: it is above the highest number taken, or in the window and not taken.
    New,
    /// It is in the window and was taken: its packet is a replay.
    Taken,
    /// It is behind the window, which doesn't tell any more whether it was taken.
    TooOld,
}
