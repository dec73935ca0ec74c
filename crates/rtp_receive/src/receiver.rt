//! The receive state of one stream with a replay window of 128 numbers, and what it says of a
//! packet.

ghost use Rattle.std.specs.Prelude.{◌≡◌, ◌^◌, ◌<◌, ℕ, Some, None, option_copied};
ghost use Rattle.rtp_base.specs.Window.{WindowState};
ghost use Rattle.rtp_receive.specs.declared.receiver.ReceiverState.TheVariants.{Start, Window};

use super::stream_receiver::StreamReceiver;
use rtp_base::{SeqNo, SeqNoWindow};
use std::fmt;

/// What a receiver says of a datagram.
#[derive(Clone, Copy, Debug, PartialEq, Eq)]
pub enum Verdict {
    /// It begins with no RTP header.
    Unreadable,
    /// Its packet has this extended sequence number, and is taken.
    Taken(SeqNo),
    /// Its packet is a replay, or too old to tell: its number was taken before, or is 128 or more
    /// below the highest one taken; 64 * N or more with a [`WideReceiver`](crate::WideReceiver).
    Refused,
}

// What a receiver holds.
#[derive(Debug, Drop)]
pub(super) enum ReceiverState<W> {
    // Nothing is taken yet, and this is the first packet's rollover count: the 48 bits of its
    // number above the 16 of its header.
    Start(u64),
    // The numbers taken are those of the replay window.
    Window(W),
}

/// The receive state of one stream, with a replay window of 128 numbers (RFC 3711, 3.3.2, asks for
/// 64 or more). [`StreamReceiver`] says how it is used, with authentication and without.
///
/// With the packets 65,534, 65,535 and 0 of a stream `receive` takes 65,534, 65,535 and 65,536; the
/// same packets again are refused. After a first packet 5 the packet 65,533, which was sent before
/// it, has no number: under `new` it is taken as 2^64 - 3, and then the packet 6 is refused.
/// `starting_at` 1 it is taken as 65,533, between 0 and the first number 65,541, and so is 6 as
/// 65,542.
pub type Receiver = StreamReceiver<SeqNoWindow>;

// The text has this name, and not that of the type for any window.
impl fmt::Debug for Receiver {
    fn fmt<W: fmt::Write>(&self, f: &mut fmt::Formatter<W>) -> fmt::Result {
        f.debug_struct("Receiver")
            .field("state", &self.state)
            .finish()
    }
}

impl From<SeqNoWindow> for Receiver {
    ghost use Rattle.std.specs.Prelude.{◌≡◌};
    ghost use Rattle.rtp_receive.specs.declared.receiver.ReceiverState.TheVariants.{Window};

    ghost from_gives = { λ window receiver. receiver ≡ Window window };

    /// A receiver that goes on from this window.
    fn from(window: SeqNoWindow) -> Self {
        StreamReceiver {
            state: ReceiverState::Window(window),
        }
    }
}

impl Receiver {
    /// A receiver that has taken nothing yet. The first packet's number is the 16 bits of its
    /// header: the rollover count is 0 (RFC 3711, 3.3.1).
    pub fn new() -> Self
        ensures { result ≡ Start 0 }
    {
        Self::starting_at(0)
    }

    /// A receiver that has taken nothing yet, whose first packet has this rollover count: its
    /// number is 65,536 times the count, and the 16 bits of its header. Under a count of 1 or more
    /// a packet that was sent before the first one has a number too. Precondition: the count is
    /// below 2^48.
    pub fn starting_at(rollover_count: u64) -> Self
        requires { rollover_count < 2 ^ 48 }
        ensures { result ≡ Start rollover_count }
    {
        StreamReceiver {
            state: ReceiverState::Start(rollover_count),
        }
    }

    /// The replay window, and `None` where nothing is taken yet. With
    /// [`rollover_count`](Self::rollover_count) it is all that a receiver holds, so that one can be
    /// stored and made again, by `Receiver::from` of the window or by
    /// [`starting_at`](Self::starting_at).
    pub fn window(&self) -> Option<&SeqNoWindow>
        ensures started { (window : WindowState) → self.now ≡ Window window →
            option_copied result ≡ Some window }
        ensures empty { (count : ℕ) → self.now ≡ Start count → option_copied result ≡ None }
    {
        match &self.state {
            ReceiverState::Start(_) => None,
            ReceiverState::Window(window) => Some(window),
        }
    }
}
