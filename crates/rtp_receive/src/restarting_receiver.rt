//! The receive state of one stream whose sender may start again, with a replay window of a size
//! that the caller chooses.

ghost use Rattle.std.specs.Prelude.{◌≡◌, ◌*◌, ◌<◌, []};
ghost use Rattle.rtp_receive.specs.RestartingState.{bounds_of, Remembers};

use super::restarting::RestartingStreamReceiver;
use super::wide_receiver::WideReceiver;
use rtp_base::WideWindow;

/// The receive state of one stream whose sender may start again, as [`RestartingStreamReceiver`]
/// says, with a replay window of N words: of 64 * N numbers. N is at least 1.
///
/// Choose N as for a [`WideReceiver`]: packets that were asked for again come late, and where they
/// are behind the window, two in a row are a restart.
///
/// ```
/// let mut receiver = RestartingReceiver::<16>::new();
/// assert_eq!(receiver.receive(2000), RestartingVerdict::Taken(SeqNo::from(67_536)));
/// assert_eq!(receiver.receive(977), RestartingVerdict::Taken(SeqNo::from(66_513)));
/// assert_eq!(receiver.receive(975), RestartingVerdict::Refused);
/// assert_eq!(receiver.receive(976), RestartingVerdict::Restarted(SeqNo::from(197_584)));
/// ```
pub type RestartingReceiver<const N: usize> = RestartingStreamReceiver<WideWindow<N>>;

impl<const N: usize> RestartingReceiver<N> {
    /// A receiver that has taken nothing yet, with RFC 3550's `MAX_DROPOUT` of 3,000, that takes
    /// the first packet of a source. Precondition: N is at least 1.
    pub fn new() -> Self
        requires { 0 < N }
        ensures bounds { bounds_of N result
            ≡ record {
              max_dropout = 3000;
              max_misorder = 64 * N;
              size = 64 * N;
              min_sequential = 1;
            } }
        ensures empty { Remembers N result [] }
    {
        Self::with_bounds(3000, 1)
    }

    /// A receiver that has taken nothing yet, with these bounds in place of RFC 3550's. A packet of
    /// the stream is less than `max_dropout` above the highest number taken; 32,768 or more is as
    /// far as 16 bits tell. A source is valid, and its first packet is taken, with the last of
    /// `min_sequential` packets in a row, each with the number after that of the one before; 0 is
    /// the same as 1. Precondition: N is at least 1.
    pub fn with_bounds(max_dropout: u16, min_sequential: u8) -> Self
        requires { 0 < N }
        ensures bounds { bounds_of N result ≡ record {
          max_dropout = max_dropout;
          max_misorder = 64 * N;
          size = 64 * N;
          min_sequential = min_sequential;
        } }
        ensures empty { Remembers N result [] }
    {
        let epoch = WideReceiver::starting_at(1);
        Self::from_parts(epoch, max_dropout, min_sequential, (0, 0))
    }
}
