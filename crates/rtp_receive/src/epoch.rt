//! What begins an epoch of a stream whose sender may start again.

ghost use Rattle.std.specs.Prelude.{◌≡◌, ◌↔◌, ◌+◌, ◌*◌, ◌%◌, ◌^◌, ◌<◌, ◌≤◌, ℕ, suc, Some, None};
ghost use Rattle.rtp_base.specs.Window.{Numbers};
ghost use Rattle.rtp_receive.specs.Receiver.{IsNothing, IsHighest};
ghost use Rattle.rtp_receive.specs.Restarting.{leading_after, first_number, BeginsAt, IsPlaced};
ghost use Rattle.rtp_receive.specs.RestartingState.{bounds_at, Leads, Grows};

use super::restarting_bounds::RestartingBounds;
use super::restarting_verdict::RestartingVerdict;
use rtp_base::SeqNo;

/// The packets outside of a stream that came last, each with the number after the one before it:
/// what tells that a sender has started again (RFC 3550, appendix A.1), whatever window the stream
/// is judged by.
#[derive(Clone, Copy, Debug)]
pub struct RestartingRow {
    /// How many they are, at most 255.
    pub len: u8,
    /// The 16 bits of the number after the last of them.
    pub next: u16,
}

// How many packets in a row lead up to the first one of an epoch, and the rollover count of that.
fn first_after(highest: Option<SeqNo>, rollover_count: u64, min_sequential: u8) -> (u8, u64)
    requires { rollover_count < 2 ^ 48 }
    ensures leading { result.0 ≡ leading_after min_sequential highest }
    ensures count { (low : ℕ) →
        first_number rollover_count highest low ≡ 65536 * result.1 + low % 65536 }
    ensures fits { result.1 < 2 ^ 48 + 2 }
{
    match highest {
        None => (min_sequential.saturating_sub(1), rollover_count),
        Some(highest) => (1, highest.roc() + 2),
    }
}

impl RestartingRow {
    // How many packets lead up to one of these 16 bits.
    fn before(&self, sequence_number: u16) -> u8
        ensures { (k : ℕ) → Leads self.now.len self.now.next sequence_number k ↔ k ≤ result }
    {
        if sequence_number == self.next {
            self.len
        } else {
            0
        }
    }

    // The number of the packet as the first one of an epoch, where as many lead up to it as must
    // and it has one.
    fn first(
        &self,
        sequence_number: u16,
        min_sequential: u8,
        highest: Option<SeqNo>,
        rollover_count: u64,
    ) -> Option<SeqNo>
        requires { rollover_count < 2 ^ 48 }
        ensures begins { (number : ℕ) → result ≡ Some number →
            BeginsAt min_sequential rollover_count highest
            (Leads self.now.len self.now.next sequence_number) sequence_number number }
        ensures none { result ≡ None → (number : ℕ) →
            BeginsAt min_sequential rollover_count highest
            (Leads self.now.len self.now.next sequence_number) sequence_number number → ⊥ }
    {
        let (leading, first_count) = first_after(highest, rollover_count, min_sequential);
        if self.before(sequence_number) < leading || first_count >= 1 << 48 {
            return None;
        }
        Some(SeqNo::from(first_count * 65_536 + u64::from(sequence_number)))
    }

    // The number with which a packet outside of the stream begins an epoch, and then the row ends;
    // or `None` where it begins none, and is one more of the row.
    fn begin(
        &mut self,
        sequence_number: u16,
        min_sequential: u8,
        highest: Option<SeqNo>,
        rollover_count: u64,
    ) -> Option<SeqNo>
        requires { rollover_count < 2 ^ 48 }
        ensures begins { (number : ℕ) → result ≡ Some number →
            BeginsAt min_sequential rollover_count highest
            (Leads self.old.len self.old.next sequence_number) sequence_number number }
        ensures none { result ≡ None → (number : ℕ) →
            BeginsAt min_sequential rollover_count highest
            (Leads self.old.len self.old.next sequence_number) sequence_number number → ⊥ }
        ensures row { (later k : ℕ) → suc k ≤ 255 → Leads self.new.len self.new.next later (suc k)
            ↔ ((result ≡ None) × (later ≡ (sequence_number + 1) % 65536)
            × Leads self.old.len self.old.next sequence_number k) }
    {
        match self.first(sequence_number, min_sequential, highest, rollover_count) {
            Some(number) => {
                self.len = 0;
                Some(number)
            }
            None => {
                self.len = self.before(sequence_number).saturating_add(1);
                self.next = sequence_number.wrapping_add(1);
                None
            }
        }
    }

    /// The verdict on a packet by the highest number taken, before the window is asked: where it is
    /// `Taken` the window may still refuse the number.
    ///
    /// A packet of the stream ends the row, and any other is one more of it, or begins an epoch: as
    /// the last of `min_sequential` packets in a row, or after a highest number the second one, and
    /// where a number of 64 bits is left for it. The first epoch starts at the rollover count that
    /// is given, and each later one 2 above the highest number. Precondition: the count is below
    /// 2^48.
    pub fn judge(
        &mut self,
        sequence_number: u16,
        bounds: &RestartingBounds,
        highest: Option<SeqNo>,
        rollover_count: u64,
    ) -> RestartingVerdict
        requires { rollover_count < 2 ^ 48 }
        ensures placed { (size count : ℕ) → (taken : Numbers) → IsHighest taken highest →
            (IsNothing taken → count ≡ rollover_count) →
            IsPlaced (bounds_at size bounds.now) count taken
            (Leads self.old.len self.old.next sequence_number) sequence_number result }
        ensures row { (size : ℕ) → (taken : Numbers) → IsHighest taken highest →
            Grows (bounds_at size bounds.now) taken sequence_number result
            self.old.len self.old.next self.new.len self.new.next }
    {
        if let Some(number) = bounds.number_of(sequence_number, highest) {
            self.len = 0;
            return RestartingVerdict::Taken(number);
        }
        let is_new = highest.is_none();
        match self.begin(
            sequence_number,
            bounds.min_sequential,
            highest,
            rollover_count,
        ) {
            None => RestartingVerdict::Refused,
            Some(number) if is_new => RestartingVerdict::Taken(number),
            Some(number) => RestartingVerdict::Restarted(number),
        }
    }
}
