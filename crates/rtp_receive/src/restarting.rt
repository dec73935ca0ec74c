//! The receive state of one stream whose sender may start again, with a replay window of any size.

ghost use Rattle.std.specs.Prelude.{◌≡◌, ℕ, List, [], Some, None};
ghost use Rattle.rtp_base.specs.Window.{Numbers, window_size};
ghost use Rattle.rtp_receive.specs.Receiver.{IsHighest, StaysBelowZeroInOf};
ghost use Rattle.rtp_receive.specs.Restarting.{IsRestartingVerdict, Arrival, epoch_after};
ghost use Rattle.rtp_receive.specs.RestartingState.{bounds_at, bounds_of_size, HoldsEpochOf, RowLeadsOf, RowGrowsOf, RemembersOf, FollowsOf};
ghost use Rattle.rtp_receive.specs.declared.restarting_verdict.RestartingVerdict.{RestartingVerdict};
ghost use Rattle.rtp_receive.specs.declared.restarting_verdict.RestartingVerdict.TheVariants.{Taken, Restarted, Refused};
ghost use Rattle.rtp_receive.specs.declared.receiver.ReceiverState.TheVariants.{Start};

use super::epoch::RestartingRow;
use super::receiver::Receiver;
use super::replay_window::ReplayWindow;
use super::restarting_bounds::RestartingBounds;
use super::restarting_verdict::RestartingVerdict;
use super::stream_receiver::StreamReceiver;
use rtp_base::{SeqNo, SeqNoWindow};
use std::fmt;

/// The receive state of one stream that isn't authenticated and whose sender may start again under
/// the same SSRC (RFC 3550, appendix A.1), with a replay window W.
///
/// It is what [`NarrowRestartingReceiver`], whose window has 128 numbers, and
/// [`RestartingReceiver`](crate::RestartingReceiver), whose window has 64 * N, are names of.
///
/// A packet is of the stream where its number is less than `max_dropout` above the highest number
/// taken, or less than `max_misorder` below it: it is taken or refused as by [`StreamReceiver`].
/// Any other is outside of the stream, and is refused; but where the very next packet has the
/// number after it and is outside of the stream too, the sender has started again. That second
/// packet is then taken as the first one of a new epoch, with a new window.
///
/// `max_misorder` is the size of the window, unless [`with_max_misorder`](Self::with_max_misorder)
/// sets it. Two late packets in a row, as retransmissions are, that are behind it look as if the
/// sender had started again, and what was taken before may then be taken again: so choose it, and
/// the window, longer than a packet can be late.
///
/// Don't use it for SRTP: there a packet that isn't authentic must change nothing, and a sender
/// that starts again would use the numbers of its key anew.
///
/// The first epoch has the rollover count 1 at its first packet, and each later one 2 more than the
/// highest number before it: so a packet from before the first one of an epoch has a number, and
/// each number of an epoch is above all of those before it.
///
/// ```
/// let mut receiver = NarrowRestartingReceiver::new();
/// assert_eq!(receiver.receive(60_000), RestartingVerdict::Taken(SeqNo::from(125_536)));
/// assert_eq!(receiver.receive(7), RestartingVerdict::Refused);
/// assert_eq!(receiver.receive(8), RestartingVerdict::Restarted(SeqNo::from(196_616)));
/// assert_eq!(receiver.receive(7), RestartingVerdict::Taken(SeqNo::from(196_615)));
/// ```
#[derive(Drop)]
pub struct RestartingStreamReceiver<W: ReplayWindow> {
    receiver: StreamReceiver<W>,
    max_dropout: u16,
    // `None` where it is the size of the window.
    max_misorder: Option<u16>,
    min_sequential: u8,
    row: RestartingRow,
}

// The text has the shorter name, whatever the window.
impl<W: ReplayWindow> fmt::Debug for RestartingStreamReceiver<W>
where
    StreamReceiver<W>: fmt::Debug,
{
    fn fmt<O: fmt::Write>(&self, f: &mut fmt::Formatter<O>) -> fmt::Result {
        f.debug_struct("RestartingReceiver")
            .field("receiver", &self.receiver)
            .field("max_dropout", &self.max_dropout)
            .field("max_misorder", &self.max_misorder)
            .field("min_sequential", &self.min_sequential)
            .field("in_row", &self.row.len)
            .field("next", &self.row.next)
            .finish()
    }
}

impl<W: ReplayWindow> RestartingStreamReceiver<W> {
    /// The receiver that goes on from these parts: with the same bounds, what
    /// [`epoch`](Self::epoch) lent, and what [`row`](Self::row) returned. An epoch that has taken
    /// nothing yet may start at any rollover count. `max_misorder` is the size of the window.
    pub fn from_parts(
        epoch: StreamReceiver<W>,
        max_dropout: u16,
        min_sequential: u8,
        row: (u8, u16),
    ) -> Self
        ensures { result ≡ record {
          receiver = epoch;
          max_dropout = max_dropout;
          max_misorder = None;
          min_sequential = min_sequential;
          row = record { len = row.0; next = row.1 };
        } }
    {
        let (len, next) = row;
        RestartingStreamReceiver {
            receiver: epoch,
            max_dropout,
            max_misorder: None,
            min_sequential,
            row: RestartingRow { len, next },
        }
    }

    /// The same receiver with this bound in place of the size of its window: 100 is RFC 3550's
    /// `MAX_MISORDER`. A packet of the stream is less than `max_misorder` below the highest number
    /// taken; 32,769 or more is as far as 16 bits tell, and with 0 not even a copy of the highest
    /// one is of the stream. It may be more than the size of the window: what is then too old to
    /// tell is refused, and leads up to no new epoch.
    ///
    /// ```
    /// let mut receiver = NarrowRestartingReceiver::new().with_max_misorder(3000);
    /// assert_eq!(receiver.receive(1999), RestartingVerdict::Taken(SeqNo::from(67_535)));
    /// assert_eq!(receiver.receive(1800), RestartingVerdict::Refused);
    /// assert_eq!(receiver.receive(1801), RestartingVerdict::Refused);
    /// assert_eq!(receiver.receive(2000), RestartingVerdict::Taken(SeqNo::from(67_536)));
    /// ```
    pub fn with_max_misorder(self, max_misorder: u16) -> Self
        ensures same { result ≡ record self { max_misorder = Some max_misorder } }
        ensures empty { RemembersOf W.size self [] → RemembersOf W.size result [] }
    {
        RestartingStreamReceiver {
            max_misorder: Some(max_misorder),
            ..self
        }
    }

    /// What is taken in the epoch. Where nothing is taken yet it starts at the rollover count 1, or
    /// at the one that [`from_parts`](Self::from_parts) was given.
    pub fn epoch(&self) -> &StreamReceiver<W>
        ensures { result.now ≡ self.now.receiver }
    {
        &self.receiver
    }

    /// How many packets outside of the stream came last in a row, each with the number after that of
    /// the one before, at most 255, and the 16 bits of the number after the last of them.
    pub fn row(&self) -> (u8, u16)
        ensures { (result.0 ≡ self.now.row.len) × (result.1 ≡ self.now.row.next) }
    {
        (self.row.len, self.row.next)
    }

    /// The highest number taken in the epoch, and `None` where nothing is taken yet.
    pub fn highest(&self) -> Option<SeqNo>
        ensures highest { (count : ℕ) → (taken : Numbers) →
            HoldsEpochOf W.size self.now count taken → IsHighest taken result }

        // Each receiver holds some set, so the clauses here always speak of something.
        ensures some { (count : ℕ) × (taken : Numbers) × HoldsEpochOf W.size self.now count taken }
    {
        self.receiver.highest()
    }

    /// The verdict on the next packet of the source, by its sequence number.
    pub fn receive(&mut self, sequence_number: u16) -> RestartingVerdict
        ensures verdict { (count : ℕ) → (taken : Numbers) →
            HoldsEpochOf W.size self.old count taken →
            IsRestartingVerdict (bounds_of_size W.size self.old) count taken
            (RowLeadsOf self.old sequence_number) sequence_number result }
        ensures epoch { (count : ℕ) → (taken : Numbers) → HoldsEpochOf W.size self.old count taken →
            HoldsEpochOf W.size self.new count (epoch_after taken result) }
        ensures row { (count : ℕ) → (taken : Numbers) → HoldsEpochOf W.size self.old count taken →
            RowGrowsOf W.size self.old taken sequence_number result self.new }
        ensures bounds { bounds_of_size W.size self.new ≡ bounds_of_size W.size self.old }

        // A refused packet leaves the window as it is, and a new epoch has a new one.
        ensures refused { result ≡ Refused → self.new.receiver ≡ self.old.receiver }
        ensures below_zero { (number : ℕ) → result ≡ Taken number →
            StaysBelowZeroInOf W.size self.old.receiver self.new.receiver }
        ensures restarted { (number : ℕ) → result ≡ Restarted number →
            StaysBelowZeroInOf W.size (Start 0) self.new.receiver }

        // The same by all packets that came before, where the first epoch starts at the rollover
        // count 1, as in `new`.
        ensures follows { (before : List Arrival) → RemembersOf W.size self.old before →
            FollowsOf W.size self.old self.new before
            (record { low = sequence_number; verdict = result }) }
    {
        let bounds = self.bounds();
        let highest = self.receiver.highest();
        let rollover_count = self.receiver.rollover_count();
        let verdict = self
            .row
            .judge(sequence_number, &bounds, highest, rollover_count);
        self.receiver.settle(verdict)
    }

    // What its caller chose.
    fn bounds(&self) -> RestartingBounds
        ensures { bounds_at W.size result ≡ bounds_of_size W.size self.now }
    {
        RestartingBounds {
            max_dropout: self.max_dropout,
            max_misorder: match self.max_misorder {
                None => W::span(),
                Some(max_misorder) => u128::from(max_misorder),
            },
            min_sequential: self.min_sequential,
        }
    }
}

/// The receive state of one stream whose sender may start again, as [`RestartingStreamReceiver`]
/// says, with the replay window of a [`Receiver`], of 128 numbers.
pub type NarrowRestartingReceiver = RestartingStreamReceiver<SeqNoWindow>;

impl NarrowRestartingReceiver {
    /// A receiver that has taken nothing yet, with RFC 3550's `MAX_DROPOUT` of 3,000, that takes
    /// the first packet of a source.
    pub fn new() -> Self
        ensures bounds { bounds_of_size window_size result
            ≡ record {
              max_dropout = 3000;
              max_misorder = window_size;
              size = window_size;
              min_sequential = 1;
            } }
        ensures empty { RemembersOf window_size result [] }
    {
        Self::with_bounds(3000, 1)
    }

    /// A receiver that has taken nothing yet, with these bounds in place of RFC 3550's. A packet of
    /// the stream is less than `max_dropout` above the highest number taken; 32,768 or more is as
    /// far as 16 bits tell. A source is valid, and its first packet is taken, with the last of
    /// `min_sequential` packets in a row, each with the number after that of the one before; 0 is
    /// the same as 1.
    pub fn with_bounds(max_dropout: u16, min_sequential: u8) -> Self
        ensures bounds { bounds_of_size window_size result ≡ record {
          max_dropout = max_dropout;
          max_misorder = window_size;
          size = window_size;
          min_sequential = min_sequential;
        } }
        ensures empty { RemembersOf window_size result [] }
    {
        let epoch = Receiver::starting_at(1);
        Self::from_parts(epoch, max_dropout, min_sequential, (0, 0))
    }
}
