//! The numbers of one stream whose sender may start again, judged by a replay window of another size.

ghost use Rattle.std.specs.Prelude.{◌≡◌, ◌≢◌, ◌<◌, ◌≤◌, ◌⊎◌, ℕ, List, length};
ghost use Rattle.rtp_base.specs.Ring.{ring_size};
ghost use Rattle.rtp_base.specs.Window.{Numbers};
ghost use Rattle.rtp_receive.specs.Receiver.{IsHighest};
ghost use Rattle.rtp_receive.specs.Restarting.{IsSettled, epoch_after};
ghost use Rattle.rtp_receive.specs.RestartingState.{bounds_at};
ghost use Rattle.rtp_receive.specs.declared.restarting_verdict.RestartingVerdict.TheVariants.{Taken, Restarted, Refused};
ghost use Rattle.rtp_c.specs.Status.{ok, bad_field, refused, restarted};
ghost use Rattle.rtp_c.specs.StoredWideReceiver.{IsWindowLen, HoldsIn, IsStartedIn, MovesBelowZeroIn, unstarted};
ghost use Rattle.rtp_c.specs.StoredWideRestarting.{bounds_with, HoldsWith, IsStartedWith, epoch_in, HasTheSameBounds, IsAnsweredWith};

use super::restarting::{MAX_DROPOUT, tell};
use super::status::BAD_FIELD;
use super::wide_receiver::{StoredWideReceiver, is_window, take};
use rtp_base::SeqNo;
use rtp_wire::{RestartingBounds, RestartingRow, RestartingVerdict};

// How many numbers have their bits in one word.
const WORD: u64 = 64;

/// The receive state of one stream: `rtpw_wide_restarting_receiver` in C, 24 bytes, beside the
/// words of its window. Each value is one; all zeros have taken nothing yet, with RFC 3550's
/// `MAX_DROPOUT` of 3,000, a `MAX_MISORDER` of 3,000, or of the window's size where that is more,
/// and take the first packet of a source.
///
/// Each `started` but 0 counts as 1, and the highest number as taken whatever its bit says. Where
/// nothing is taken yet neither `highest` nor the words are looked at.
#[repr(C)]
#[derive(Clone, Copy)]
pub struct StoredWideRestarting {
    /// The highest number taken in the epoch.
    pub highest: u64,
    /// A packet of the stream is less than this above the highest number taken; 0 stands for 3,000.
    pub max_dropout: u16,
    /// A packet of the stream is less than this below the highest number taken; 0 stands for 3,000,
    /// or for the size of the window where that is more.
    pub max_misorder: u16,
    /// The 16 bits of the number after the last packet outside of the stream.
    pub next: u16,
    /// With how many packets in a row, each with the number after that of the one before, a new
    /// source is valid; 0 is the same as 1.
    pub min_sequential: u8,
    /// How many packets outside of the stream came last in such a row, at most 255.
    pub in_row: u8,
    /// 0 where nothing is taken yet, and 1 afterwards.
    pub started: u8,
}

// What its caller chose, with a window of these words.
fn bounds_of(stored: &StoredWideRestarting, words: &[u64]) -> RestartingBounds
    requires { length words.now ≤ 512 }
    ensures { bounds_at (ring_size words.now) result ≡ bounds_with stored.now words.now }
{
    let max_dropout = if stored.max_dropout == 0 {
        MAX_DROPOUT
    } else {
        stored.max_dropout
    };
    let max_misorder = if stored.max_misorder == 0 {
        u64::from(MAX_DROPOUT).max(WORD * words.len() as u64)
    } else {
        u64::from(stored.max_misorder)
    };
    RestartingBounds {
        max_dropout,
        max_misorder: u128::from(max_misorder),
        min_sequential: stored.min_sequential,
    }
}

// The highest number taken.
fn highest_of(receiver: &StoredWideReceiver) -> Option<SeqNo>
    ensures { (words : List ℕ) (count : ℕ) (taken : Numbers) →
        HoldsIn receiver.now words count taken → IsHighest taken result }
{
    if receiver.started == 0 {
        return None;
    }
    Some(SeqNo::from(receiver.highest))
}

// The verdict on a packet of a sender that may start again, once the window is asked.
fn settle(
    receiver: &mut StoredWideReceiver,
    words: &mut [u64],
    verdict: RestartingVerdict,
) -> RestartingVerdict
    requires { 0 < length words.old }
    ensures settled { (count : ℕ) (taken : Numbers) → HoldsIn receiver.old words.old count taken →
        IsSettled (ring_size words.old) taken verdict result }
    ensures epoch { (count : ℕ) (taken : Numbers) → HoldsIn receiver.old words.old count taken →
        HoldsIn receiver.new words.new count (epoch_after taken result) }
    ensures started { result ≢ Refused → IsStartedIn receiver.new words.new }
    ensures refused { result ≡ Refused →
        (receiver.new ≡ receiver.old) × (words.new ≡ words.old) }
    ensures below_zero { (n : ℕ) → result ≡ Taken n →
        MovesBelowZeroIn receiver.old words.old receiver.new words.new }
    ensures again { (n : ℕ) → result ≡ Restarted n →
        MovesBelowZeroIn (unstarted 1) words.old receiver.new words.new }
{
    match verdict {
        RestartingVerdict::Taken(number) => {
            if take(receiver, words, number.get()) {
                verdict
            } else {
                RestartingVerdict::Refused
            }
        }
        RestartingVerdict::Restarted(number) => {
            receiver.started = 0;
            take(receiver, words, number.get());
            verdict
        }
        RestartingVerdict::Refused => verdict,
    }
}

/// The verdict on the next packet of the source, by its sequence number, where nothing is
/// authenticated (RFC 3550, appendix A.1), with a window of these words: 1 to 512. `OK`: it is of
/// the stream and is taken, or it is the first one of the source. `RESTARTED`: the sender has
/// started again, and it is taken as the first one of a new epoch. In both cases its extended
/// number is written. `REFUSED`: it is a replay, too old to tell, or outside of the stream; neither
/// the number is written nor the words. `BAD_FIELD` where the words are none or more than 512, and
/// then nothing is written.
#[unsafe(no_mangle)]
#[tactic(auto, using(crate::proofs::WideRestartingLemmas::holds_some))]
pub extern "C" fn rtpw_wide_restarting_receive(
    receiver: &mut StoredWideRestarting,
    words: &mut [u64],
    sequence_number: u16,
    number: &mut u64,
) -> i32
    ensures answered { IsWindowLen words.old → (taken : Numbers) →
        HoldsWith receiver.old words.old taken →
        IsAnsweredWith receiver.old words.old taken sequence_number result number.new
        receiver.new words.new }

    // With any words each value of the struct holds some set, so the clauses always speak of
    // something.
    ensures some { 0 < length words.old → ((taken : Numbers) × HoldsWith receiver.old words.old taken) }
    ensures other { (IsWindowLen words.old → ⊥) → (result ≡ bad_field)
        × (receiver.new ≡ receiver.old) × (words.new ≡ words.old) × (number.new ≡ number.old) }
    ensures refused { result ≡ refused → (words.new ≡ words.old) × (number.new ≡ number.old)
        × (epoch_in receiver.new ≡ epoch_in receiver.old) }
    ensures started { (result ≡ ok) ⊎ (result ≡ restarted) → IsStartedWith receiver.new words.new }
    ensures below_zero { result ≡ ok →
        MovesBelowZeroIn (epoch_in receiver.old) words.old (epoch_in receiver.new) words.new }
    ensures again { result ≡ restarted →
        MovesBelowZeroIn (unstarted 1) words.old (epoch_in receiver.new) words.new }

    // What the caller chose stays as it is stored, a 0 too.
    ensures chosen { HasTheSameBounds receiver.old receiver.new }
{
    if !is_window(words) {
        return BAD_FIELD;
    }
    let bounds = bounds_of(receiver, words);
    let mut row = RestartingRow {
        len: receiver.in_row,
        next: receiver.next,
    };
    let mut epoch = StoredWideReceiver {
        highest: receiver.highest,
        started: receiver.started,
    };
    let placed = row.judge(sequence_number, &bounds, highest_of(&epoch), 1);
    let verdict = settle(&mut epoch, words, placed);
    receiver.in_row = row.len;
    receiver.next = row.next;
    receiver.highest = epoch.highest;
    receiver.started = epoch.started;
    tell(verdict, number)
}
