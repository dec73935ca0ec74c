//! Which packets are of a stream whose sender may start again.

ghost use Rattle.std.specs.Prelude.{◌≡◌, ◌↔◌, ◌+◌, ◌<◌, ℕ, IsTrue, Some, None};
ghost use Rattle.rtp_base.specs.Window.{Numbers};
ghost use Rattle.rtp_receive.specs.Receiver.{IsHighest};
ghost use Rattle.rtp_receive.specs.Restarting.{IsOfStream, IsOutside};
ghost use Rattle.rtp_receive.specs.RestartingState.{bounds_at};

use super::widening::extend_u16;
use rtp_base::SeqNo;

/// What is chosen for a stream whose sender may start again (RFC 3550, appendix A.1).
#[derive(Clone, Copy, Debug)]
pub struct RestartingBounds {
    /// A packet of the stream is less than this above the highest number taken.
    pub max_dropout: u16,
    /// A packet of the stream is less than this below the highest number taken.
    pub max_misorder: u128,
    /// A new source is valid with so many packets in a row, each with the number after that of the
    /// one before; 0 is the same as 1.
    pub min_sequential: u8,
}

impl RestartingBounds {
    // Whether a number is as near to the highest one as those of the stream are.
    fn reach(&self, highest: u64, number: u64) -> bool
        ensures { IsTrue result ↔ ((number < highest + self.now.max_dropout)
            × (highest < number + self.now.max_misorder)) }
    {
        let is_ahead = number < highest || number - highest < u64::from(self.max_dropout);
        let is_behind = highest < number || u128::from(highest - number) < self.max_misorder;
        is_ahead && is_behind
    }

    // The number of a packet of the stream, where this is the highest one taken.
    pub(super) fn number_of(&self, sequence_number: u16, highest: Option<SeqNo>) -> Option<SeqNo>
        ensures some { (size : ℕ) → (taken : Numbers) → IsHighest taken highest →
            (number : ℕ) → result ≡ Some number →
            IsOfStream (bounds_at size self.now) taken sequence_number number }
        ensures none { (size : ℕ) → (taken : Numbers) → IsHighest taken highest →
            result ≡ None → IsOutside (bounds_at size self.now) taken sequence_number }
    {
        let highest = highest?.get();
        let number = extend_u16(Some(highest), sequence_number);
        if self.reach(highest, number) {
            Some(SeqNo::from(number))
        } else {
            None
        }
    }
}
