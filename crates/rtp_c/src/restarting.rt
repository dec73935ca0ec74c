//! The numbers of one stream whose sender may start again.

ghost use Rattle.std.specs.Prelude.{◌≡◌, ◌<◌, ℕ};
ghost use Rattle.rtp_base.specs.Window.{Numbers};
ghost use Rattle.rtp_receive.specs.RestartingState.{bounds_of, HoldsEpoch};
ghost use Rattle.rtp_receive.specs.declared.restarting_verdict.RestartingVerdict.TheVariants.{Taken, Restarted, Refused};
ghost use Rattle.rtp_c.specs.Status.{ok, refused, restarted};
ghost use Rattle.rtp_c.specs.StoredRestarting.{bounds_in, HoldsIn, IsStartedIn, IsTold, IsAnsweredIn};

use super::status::{OK, REFUSED, RESTARTED};
use rtp_base::{SeqNo, WideWindow};
use rtp_wire::{RestartingReceiver, RestartingVerdict, WideReceiver};

// RFC 3550's MAX_DROPOUT.
pub const MAX_DROPOUT: u16 = 3000;

/// The receive state of one stream: `rtpw_restarting_receiver` in C, 32 bytes. Each value is one;
/// all zeros have taken nothing yet, with RFC 3550's `MAX_DROPOUT` of 3,000, and take the first
/// packet of a source, where the RFC's `MIN_SEQUENTIAL` is 2.
///
/// Each `started` but 0 counts as 1, and the highest number as taken whatever its bit says. Where
/// nothing is taken yet neither `highest` nor the words are looked at.
#[repr(C)]
#[derive(Clone, Copy)]
pub struct StoredRestarting {
    /// The highest number taken in the epoch.
    pub highest: u64,
    /// Bit n % 64 of word n / 64 % 2 says whether the number n is taken, for the highest one and
    /// each of the 127 below it.
    pub words: [u64; 2],
    /// A packet of the stream is less than this above the highest number taken; 0 stands for 3,000.
    pub max_dropout: u16,
    /// The 16 bits of the number after the last packet outside of the stream.
    pub next: u16,
    /// With how many packets in a row, each with the number after that of the one before, a new
    /// source is valid; 0 is the same as 1.
    pub min_sequential: u8,
    /// How many packets outside of the stream came last in such a row, at most 255.
    pub in_row: u8,
    /// 0 where nothing is taken yet, and 1 afterwards.
    pub started: u8,
}

// The receiver that is stored there.
fn receiver_of(stored: &StoredRestarting) -> RestartingReceiver<2>
    ensures bounds { bounds_of 2 result ≡ bounds_in stored.now }
    ensures held { (taken : Numbers) → HoldsIn stored.now taken → HoldsEpoch 2 result 1 taken }
    ensures row { (result.row.len ≡ stored.now.in_row) × (result.row.next ≡ stored.now.next) }
{
    let epoch = if stored.started == 0 {
        WideReceiver::starting_at(1)
    } else {
        let highest = SeqNo::from(stored.highest);
        WideReceiver::from_window(WideWindow::from_parts(highest, stored.words))
    };
    let max_dropout = if stored.max_dropout == 0 {
        MAX_DROPOUT
    } else {
        stored.max_dropout
    };
    let row = (stored.in_row, stored.next);
    RestartingReceiver::from_parts(epoch, max_dropout, stored.min_sequential, row)
}

// Stores what the receiver holds of the packets that came.
fn store(receiver: &RestartingReceiver<2>, stored: &mut StoredRestarting)
    ensures held { (taken : Numbers) → HoldsEpoch 2 receiver.now 1 taken →
        HoldsIn stored.new taken }
    ensures started { 0 < stored.new.started → IsStartedIn stored.new }
    ensures row { (stored.new.in_row ≡ receiver.now.row.len)
        × (stored.new.next ≡ receiver.now.row.next) }
    ensures bounds { (stored.new.max_dropout ≡ stored.old.max_dropout)
        × (stored.new.min_sequential ≡ stored.old.min_sequential) }
{
    match receiver.epoch().window() {
        None => stored.started = 0,
        Some(window) => {
            let (highest, words) = window.parts();
            stored.highest = highest.get();
            stored.words = *words;
            stored.started = 1;
        }
    }
    (stored.in_row, stored.next) = receiver.row();
}

// The status that tells a verdict, with its number written.
pub fn tell(verdict: RestartingVerdict, number: &mut u64) -> i32
    ensures told { IsTold verdict result number.new }
    ensures refused { result ≡ refused → (verdict ≡ Refused) × (number.new ≡ number.old) }
    ensures taken { result ≡ ok → (n : ℕ) × (verdict ≡ Taken n) }
    ensures again { result ≡ restarted → (n : ℕ) × (verdict ≡ Restarted n) }
{
    match verdict {
        RestartingVerdict::Taken(taken) => {
            *number = taken.get();
            OK
        }
        RestartingVerdict::Restarted(first) => {
            *number = first.get();
            RESTARTED
        }
        RestartingVerdict::Refused => REFUSED,
    }
}

/// The verdict on the next packet of the source, by its sequence number, where nothing is
/// authenticated (RFC 3550, appendix A.1). `OK`: it is of the stream and is taken, or it is the
/// first one of the source. `RESTARTED`: the sender has started again, and it is taken as the first
/// one of a new epoch. In both cases its extended number is written. `REFUSED`: it is a replay, or
/// outside of the stream; the number isn't written.
#[unsafe(no_mangle)]
#[tactic(auto, using(crate::proofs::RestartingLemmas::holds_some))]
pub extern "C" fn rtpw_restarting_receive(
    receiver: &mut StoredRestarting,
    sequence_number: u16,
    number: &mut u64,
) -> i32
    ensures answered { (taken : Numbers) → HoldsIn receiver.old taken →
        IsAnsweredIn receiver.old taken sequence_number result number.new receiver.new }

    // Each value of the struct holds some set, so the clauses here always speak of something.
    ensures some { (taken : Numbers) × HoldsIn receiver.old taken }
    ensures started { 0 < receiver.new.started → IsStartedIn receiver.new }
    // What the caller chose stays as it is stored, a 0 too.
    ensures chosen { (receiver.new.max_dropout ≡ receiver.old.max_dropout)
        × (receiver.new.min_sequential ≡ receiver.old.min_sequential) }
    ensures unchanged { result ≡ refused → number.new ≡ number.old }
{
    let mut changed = receiver_of(receiver);
    let verdict = changed.receive(sequence_number);
    store(&changed, receiver);
    tell(verdict, number)
}
