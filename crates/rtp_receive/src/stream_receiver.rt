//! The receive state of one stream, with a replay window of any size.

ghost use Rattle.std.specs.Prelude.{◌≡◌, ◌↔◌, ◌^◌, ◌<◌, ◌/◌, ℕ, IsTrue, false, if◌then◌else◌};
ghost use Rattle.rtp_base.specs.Window.{Numbers, WindowState, including};
ghost use Rattle.rtp_receive.specs.Receiver.{HoldsOf, IsHighest, IsNumberOf, IsFreshOf, HasStandingOf, IsJudgedOf, taken_after, StaysBelowZeroInOf};
ghost use Rattle.rtp_receive.specs.declared.receiver.ReceiverState.TheVariants.{Start, Window};
ghost use Rattle.rtp_receive.specs.declared.receiver.Verdict.TheVariants.{Refused};
ghost use Rattle.rtp_receive.specs.declared.restarting_verdict.RestartingVerdict.TheVariants as restarting;
ghost use Rattle.rtp_receive.specs.Restarting.{IsSettled, epoch_after};
ghost use Rattle.rtp_receive.specs.TrueNumbers.{IsTrueNumber};

use super::receiver::{ReceiverState, Verdict};
use super::replay_window::ReplayWindow;
use super::restarting_verdict::RestartingVerdict;
use super::standing::Standing;
use super::widening::extend_u16;
use rtp_base::SeqNo;
use std::marker::Model;

/// The receive state of one stream: the rollover count at which it starts, and then a replay window
/// W (RFC 3711, 3.3.2).
///
/// It is what [`Receiver`](crate::Receiver), whose window has 128 numbers, and
/// [`WideReceiver`](crate::WideReceiver), whose window has 64 * N, are names of: they make it, and
/// code that takes a `&mut StreamReceiver<W>` serves with either.
///
/// For SRTP the three steps are apart, so that a forged packet changes nothing: estimate the
/// extended sequence number with [`number_of`](Self::number_of), test it with
/// [`accepts`](Self::accepts), authenticate the packet, and then [`record`](Self::record) it. Where
/// nothing is authenticated [`receive`](Self::receive) does all of it.
#[derive(Drop)]
pub struct StreamReceiver<W: ReplayWindow> {
    pub(super) state: ReceiverState<W>,
}

impl<W: ReplayWindow> Model for StreamReceiver<W> {
    ghost use Rattle.std.specs.Prelude.{◌<◌};
    ghost use Rattle.rtp_receive.specs.StreamState.{ReceiverState, held_by, StartsInRange};

    ghost Value = { ReceiverState };

    ghost view = { λ receiver. held_by W.state receiver.state };

    ghost invariant = { λ receiver. (0 < W.size) × StartsInRange (held_by W.state receiver.state) };
}

impl<W: ReplayWindow> StreamReceiver<W> {
    /// The rollover count: that of the highest number taken, and where nothing is taken yet that of
    /// the first packet.
    pub fn rollover_count(&self) -> u64
        ensures started { (window : WindowState) → self.now ≡ Window window →
            result ≡ window.greatest / 65536 }
        ensures empty { (count : ℕ) → self.now ≡ Start count → result ≡ count }
        ensures fits { result < 2 ^ 48 }
    {
        match &self.state {
            ReceiverState::Start(count) => *count,
            ReceiverState::Window(window) => window.max_seq().roc(),
        }
    }

    /// The highest number taken, and `None` where nothing is taken yet.
    pub fn highest(&self) -> Option<SeqNo>
        ensures highest { (count : ℕ) → (taken : Numbers) → HoldsOf W.size self.now count taken →
            IsHighest taken result }

        // Each receiver holds some set, so the clauses here always speak of something.
        ensures some { (count : ℕ) × (taken : Numbers) × HoldsOf W.size self.now count taken }
    {
        match &self.state {
            ReceiverState::Start(_) => None,
            ReceiverState::Window(window) => Some(window.max_seq()),
        }
    }

    /// The extended sequence number of a packet of this sequence number: the one nearest to the
    /// highest number taken (RFC 3711, 3.3.1). Where nothing is taken yet, it is the one with the
    /// rollover count at which the receiver starts.
    pub fn number_of(&self, sequence_number: u16) -> SeqNo
        ensures nearest { (count : ℕ) → (taken : Numbers) → HoldsOf W.size self.now count taken →
            IsNumberOf count taken sequence_number result }

        // It is the number that the sender gave the packet, where that is in reach: of the rollover
        // count at which the receiver starts for the first packet, and for each later one less than
        // 32,768 away from the highest of the packets before it, whether these were taken or not.
        // Under `new` a first packet of number 70,000 is taken as 4,464.
        ensures true_number { (count : ℕ) → (numbers : Numbers) → (number : ℕ) →
            HoldsOf W.size self.now count numbers →
            IsTrueNumber count numbers sequence_number number → result ≡ number }
    {
        match &self.state {
            ReceiverState::Start(count) => {
                SeqNo::from(count * 65_536 + u64::from(sequence_number))
            }
            ReceiverState::Window(window) => {
                let highest = window.max_seq().get();
                SeqNo::from(extend_u16(Some(highest), sequence_number))
            }
        }
    }

    /// Whether the number may be taken: nothing is taken yet, or it is above the highest number
    /// taken, or less than the size of the window below it and not taken.
    pub fn accepts(&self, number: SeqNo) -> bool
        ensures { (count : ℕ) → (taken : Numbers) → HoldsOf W.size self.now count taken →
            (IsTrue result ↔ IsFreshOf W.size taken number) }
    {
        match &self.state {
            ReceiverState::Start(_) => true,
            ReceiverState::Window(window) => window.accepts(number),
        }
    }

    /// What is known of the number: why [`accepts`](Self::accepts) is false for it, where it is.
    ///
    /// ```
    /// let mut receiver = Receiver::starting_at(1);
    /// receiver.receive(1000);
    /// assert_eq!(receiver.standing_of(SeqNo::from(66_536)), Standing::Taken);
    /// assert_eq!(receiver.standing_of(SeqNo::from(66_409)), Standing::New);
    /// assert_eq!(receiver.standing_of(SeqNo::from(66_408)), Standing::TooOld);
    /// ```
    pub fn standing_of(&self, number: SeqNo) -> Standing
        ensures { (count : ℕ) → (taken : Numbers) → HoldsOf W.size self.now count taken →
            HasStandingOf W.size taken number result }
    {
        let Some(highest) = self.highest() else {
            return Standing::New;
        };
        if self.accepts(number) {
            Standing::New
        } else if u128::from(highest.get().saturating_sub(number.get())) < W::span() {
            Standing::Taken
        } else {
            Standing::TooOld
        }
    }

    /// Records that the number is taken, once its packet is known to be authentic. A number that
    /// [`accepts`](Self::accepts) refuses changes nothing.
    pub fn record(&mut self, number: SeqNo)
        ensures recorded { (count : ℕ) → (taken : Numbers) →
            HoldsOf W.size self.old count taken →
            HoldsOf W.size self.new count (including taken number) }
        ensures unchanged { (count : ℕ) → (taken : Numbers) →
            HoldsOf W.size self.old count taken →
            (IsFreshOf W.size taken number → ⊥) → self.new ≡ self.old }
        ensures below_zero { StaysBelowZeroInOf W.size self.old self.new }
    {
        self.take(number);
    }

    /// The verdict on a packet of this sequence number: taken, and then recorded, exactly when its
    /// extended sequence number may be taken; refused, and then nothing changes, where not. It is
    /// [`number_of`](Self::number_of), [`accepts`](Self::accepts) and [`record`](Self::record) in
    /// one, where nothing is authenticated.
    pub fn receive(&mut self, sequence_number: u16) -> Verdict
        ensures verdict { (count : ℕ) → (taken : Numbers) →
            HoldsOf W.size self.old count taken →
            (number : ℕ) × IsNumberOf count taken sequence_number number
            × IsJudgedOf W.size taken number result }
        ensures after { (count : ℕ) → (taken : Numbers) → HoldsOf W.size self.old count taken →
            HoldsOf W.size self.new count (taken_after taken result) }
        ensures refused { result ≡ Refused → self.new ≡ self.old }

        // The same by the numbers that the sender gave the packets, where those of all packets
        // before this one count: so the verdicts on a run follow from its numbers alone.
        ensures true_number { (count : ℕ) → (numbers : Numbers) → (number : ℕ) →
            HoldsOf W.size self.old count numbers →
            IsTrueNumber count numbers sequence_number number →
            IsJudgedOf W.size numbers number result }
        ensures true_numbers { (count : ℕ) → (numbers : Numbers) → (number : ℕ) →
            HoldsOf W.size self.old count numbers →
            IsTrueNumber count numbers sequence_number number →
            HoldsOf W.size self.new count (including numbers number) }
        ensures below_zero { StaysBelowZeroInOf W.size self.old self.new }
    {
        let number = self.number_of(sequence_number);
        if self.take(number) {
            Verdict::Taken(number)
        } else {
            Verdict::Refused
        }
    }

    /// Records the number where it may be taken, and returns whether it may: what
    /// [`accepts`](Self::accepts) returns for it. It is for a number whose packet is known to be
    /// authentic.
    pub fn take(&mut self, number: SeqNo) -> bool
        ensures accepts { (count : ℕ) → (taken : Numbers) → HoldsOf W.size self.old count taken →
            (IsTrue result ↔ IsFreshOf W.size taken number) }
        ensures taken { (count : ℕ) → (taken : Numbers) → HoldsOf W.size self.old count taken →
            HoldsOf W.size self.new count (if result then including taken number else taken) }
        ensures refused { result ≡ false → self.new ≡ self.old }
        ensures below_zero { StaysBelowZeroInOf W.size self.old self.new }
    {
        match &mut self.state {
            ReceiverState::Start(_) => {
                self.state = ReceiverState::Window(W::new(number));
                true
            }
            ReceiverState::Window(window) => window.take(number),
        }
    }

    // The verdict on a packet of a sender that may start again, once the window is asked.
    pub(super) fn settle(&mut self, verdict: RestartingVerdict) -> RestartingVerdict
        ensures settled { (count : ℕ) → (taken : Numbers) → HoldsOf W.size self.old count taken →
            IsSettled W.size taken verdict result }
        ensures epoch { (count : ℕ) → (taken : Numbers) → HoldsOf W.size self.old count taken →
            HoldsOf W.size self.new count (epoch_after taken result) }
        ensures refused { result ≡ restarting.Refused → self.new ≡ self.old }
        ensures below_zero { (number : ℕ) → result ≡ restarting.Taken number →
            StaysBelowZeroInOf W.size self.old self.new }
        ensures restarted { (number : ℕ) → result ≡ restarting.Restarted number →
            StaysBelowZeroInOf W.size (Start 0) self.new }
    {
        match verdict {
            RestartingVerdict::Taken(number) if !self.take(number) => RestartingVerdict::Refused,
            RestartingVerdict::Restarted(number) => {
                let state = &mut self.state;
                *state = ReceiverState::Window(W::new(number));
                verdict
            }
            _ => verdict,
        }
    }
}
