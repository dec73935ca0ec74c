//! The receive state of one stream, with a replay window of a size that the caller chooses.

ghost use Rattle.std.specs.Prelude.{◌≡◌, ◌^◌, ◌<◌, ℕ, Some, None, option_copied};
ghost use Rattle.rtp_base.specs.Window.{WindowState};
ghost use Rattle.rtp_receive.specs.declared.receiver.ReceiverState.TheVariants.{Start, Window};

use super::receiver::ReceiverState;
use super::stream_receiver::StreamReceiver;
use rtp_base::WideWindow;
use std::fmt;

/// The receive state of one stream, as [`Receiver`](crate::Receiver), with a replay window of N
/// words: of 64 * N numbers in place of 128. N is at least 1, and 512 words are as many as can be
/// told apart by the 16 bits of a header.
///
/// Choose N so that the window is longer than a packet can be late: at 30 Mbit/s 128 numbers are 43
/// ms, and a packet that was asked for again and sent under its own SSRC comes later. libwebrtc has
/// 1,024 numbers, which are 16 words.
///
/// ```
/// let mut receiver = WideReceiver::<16>::starting_at(1); // 1, as no packet is authenticated
/// assert_eq!(receiver.receive(5000), Verdict::Taken(SeqNo::from(70_536)));
/// assert_eq!(receiver.receive(3977), Verdict::Taken(SeqNo::from(69_513)));
/// assert_eq!(receiver.receive(3977), Verdict::Refused);
/// assert_eq!(receiver.receive(3976), Verdict::Refused);
/// ```
pub type WideReceiver<const N: usize> = StreamReceiver<WideWindow<N>>;

// The text has this name, and not that of the type for any window.
impl<const N: usize> fmt::Debug for WideReceiver<N> {
    fn fmt<W: fmt::Write>(&self, f: &mut fmt::Formatter<W>) -> fmt::Result {
        f.debug_struct("WideReceiver")
            .field("state", &self.state)
            .finish()
    }
}

impl<const N: usize> WideReceiver<N> {
    /// A receiver that has taken nothing yet. The first packet's number is the 16 bits of its
    /// header: the rollover count is 0 (RFC 3711, 3.3.1). Precondition: N is at least 1.
    pub fn new() -> Self
        requires { 0 < N }
        ensures { result ≡ Start 0 }
    {
        Self::starting_at(0)
    }

    /// A receiver that has taken nothing yet, whose first packet has this rollover count: its
    /// number is 65,536 times the count, and the 16 bits of its header. Under a count of 1 or more
    /// a packet that was sent before the first one has a number too. Preconditions: N is at least
    /// 1, and the count is below 2^48.
    pub fn starting_at(rollover_count: u64) -> Self
        requires some { 0 < N }
        requires low { rollover_count < 2 ^ 48 }
        ensures { result ≡ Start rollover_count }
    {
        StreamReceiver {
            state: ReceiverState::Start(rollover_count),
        }
    }

    /// A receiver that goes on from this window. Precondition: N is at least 1.
    pub fn from_window(window: WideWindow<N>) -> Self
        requires { 0 < N }
        ensures { result ≡ Window window.entry }
    {
        StreamReceiver {
            state: ReceiverState::Window(window),
        }
    }

    /// The replay window, and `None` where nothing is taken yet. With
    /// [`rollover_count`](Self::rollover_count) it is all that a receiver holds, so that one can be
    /// stored and made again, by [`from_window`](Self::from_window) or by
    /// [`starting_at`](Self::starting_at).
    pub fn window(&self) -> Option<&WideWindow<N>>
        ensures started { (window : WindowState) → self.now ≡ Window window →
            option_copied result ≡ Some window }
        ensures empty { (count : ℕ) → self.now ≡ Start count → option_copied result ≡ None }
    {
        match &self.state {
            ReceiverState::Start(_) => None,
            ReceiverState::Window(window) => Some(window),
        }
    }
}
