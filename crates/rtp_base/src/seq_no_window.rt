//! The replay window: which packets of a stream were recorded, near the greatest number.

ghost use Rattle.std.specs.Prelude.{◌≡◌, ℕ, ◌-◌, ◌<◌, ◌≤◌, ◌↔◌, Bool, true, false, ◌||◌, ◌==◌, slice_index_or, IsTrue};
ghost use Rattle.rtp_base.specs.Window.{Numbers, WindowState, only, up_to, including, IsGreatest, Keeps, ShowsBelowZero, StaysBelowZero, Accepts};
ghost use Rattle.rtp_base.specs.Bitmap.{bits_of};

use crate::id::SeqNo;
use std::marker::Model;

// How many numbers a window tells apart: the greatest, and those before it.
const SIZE: u64 = 128;

/// The replay window of a stream (RFC 3711, 3.3.2): the greatest recorded number, and which of the
/// 127 numbers below it are recorded. Each number further below counts as recorded.
///
/// The numbers are extended sequence numbers, as SRTP's packet index, which has 48 bits of them.
/// That a number is accepted says nothing about who sent the packet: where packets are
/// authenticated, call [`accepts`](Self::accepts) before and [`update`](Self::update) after the
/// authentication; where they aren't, [`take`](Self::take) is both in one.
///
/// ```
/// let mut window = SeqNoWindow::new(SeqNo::from(1000));
/// assert!(window.accepts(SeqNo::from(873)));
/// assert!(!window.accepts(SeqNo::from(872)));
/// window.update(SeqNo::from(1001));
/// assert!(!window.accepts(SeqNo::from(873)));
/// assert!(window.take(SeqNo::from(999)));
/// assert!(!window.take(SeqNo::from(999)));
/// ```
#[derive(Debug, Drop)]
pub struct SeqNoWindow {
    greatest: u64,
    // Bit i says whether the greatest minus i is recorded.
    recorded: u128,
}

impl Model for SeqNoWindow {
    ghost use Rattle.std.specs.Prelude.{◌≡◌, true, false, slice_index_or};
    ghost use Rattle.rtp_base.specs.Window.{WindowState};
    ghost use Rattle.rtp_base.specs.Bitmap.{bits_of};

    ghost Value = { WindowState };

    ghost view = { λ w. record { greatest = w.greatest; recorded = bits_of w.recorded } };

    ghost invariant = { λ w. slice_index_or (bits_of w.recorded) 0 false ≡ true };
}

// Whether the bit is set.
fn is_set(bits: u128, index: u64) -> bool
    requires { index < 128 }
    ensures { result ≡ slice_index_or (bits_of bits) index false }
{
    bits >> index & 1 == 1
}

// Sets the bit. Returns whether it was clear.
fn set(bits: &mut u128, index: u64) -> bool
    requires { index < 128 }
    ensures clear { IsTrue result ↔ (slice_index_or (bits_of bits.old) index false ≡ false) }
    ensures same { result ≡ false → bits.new ≡ bits.old }
    ensures after { (k : ℕ) → k < 128 →
        slice_index_or (bits_of bits.new) k false
        ≡ (slice_index_or (bits_of bits.old) k false || k == index) }
{
    let bit = 1 << index;
    if *bits & bit != 0 {
        return false;
    }
    *bits |= bit;
    true
}

// The bits of a window whose greatest number grew by this much and is recorded.
fn advanced(bits: u128, by: u64) -> u128
    requires { 0 < by }
    ensures first { slice_index_or (bits_of result) 0 false ≡ true }
    ensures between { (k : ℕ) → 0 < k → k < by → k < 128 →
        slice_index_or (bits_of result) k false ≡ false }
    ensures before { (k : ℕ) → by ≤ k → k < 128 →
        slice_index_or (bits_of result) k false ≡ slice_index_or (bits_of bits) (k - by) false }
{
    // Mostly the next number comes, and a shift by one is much cheaper than by a variable.
    if by == 1 {
        return bits << 1 | 1;
    }
    if by < SIZE {
        return bits << by | 1;
    }
    1
}

impl SeqNoWindow {
    /// Returns a window in which this number alone is recorded. The numbers before it may still
    /// come.
    pub fn new(seq: SeqNo) -> Self
        ensures kept { Keeps result (only seq) }
        ensures below_zero { ShowsBelowZero result false }
    {
        SeqNoWindow {
            greatest: seq.get(),
            recorded: 1,
        }
    }

    /// Returns a window in which this number and every number below it are recorded: only greater
    /// ones are accepted. It is for a receiver that goes on from a remembered number.
    pub fn new_after(seq: SeqNo) -> Self
        ensures kept { Keeps result (up_to seq) }
        ensures below_zero { ShowsBelowZero result true }
    {
        SeqNoWindow {
            greatest: seq.get(),
            recorded: u128::MAX,
        }
    }

    /// Returns the window that [`parts`](Self::parts) took apart. Any two numbers are the parts of
    /// a window: the greatest number is recorded, whatever its bit says.
    ///
    /// ```
    /// let window = SeqNoWindow::from_parts(SeqNo::from(1000), 0b1010);
    /// assert!(window.accepts(SeqNo::from(998)));
    /// assert!(!window.accepts(SeqNo::from(999)));
    /// assert_eq!(window.parts(), (SeqNo::from(1000), 0b1011));
    /// ```
    pub fn from_parts(greatest: SeqNo, recorded: u128) -> Self
        ensures greatest { result.greatest ≡ greatest }
        ensures recorded { (k : ℕ) → k < 128 →
            slice_index_or result.recorded k false
            ≡ (slice_index_or (bits_of recorded) k false || k == 0) }

        // The parts of a window give that window again.
        ensures restored { (window : WindowState) → greatest ≡ window.greatest →
            bits_of recorded ≡ window.recorded →
            slice_index_or window.recorded 0 false ≡ true → result ≡ window }
    {
        let mut recorded = recorded;
        set(&mut recorded, 0);
        SeqNoWindow {
            greatest: greatest.get(),
            recorded,
        }
    }

    /// Returns the window taken apart, so that it can be stored and put together again by
    /// [`from_parts`](Self::from_parts): the greatest recorded number, and for each i from 0 to 127
    /// in bit i of the other number, from the lowest up, whether the greatest minus i is recorded.
    /// Where the greatest is less than i, bit i stands for no number: it is clear in a window of
    /// [`new`](Self::new), set in one of [`new_after`](Self::new_after), and moves with the others.
    pub fn parts(&self) -> (SeqNo, u128)
        ensures greatest { result.0 ≡ self.now.greatest }
        ensures recorded { bits_of result.1 ≡ self.now.recorded }
    {
        (SeqNo::from(self.greatest), self.recorded)
    }

    /// Returns the greatest recorded number.
    pub fn max_seq(&self) -> SeqNo
        ensures greatest { (taken : Numbers) → Keeps self.now taken → IsGreatest taken result }

        // Each window keeps some set, so no clause on the sets that it keeps is empty.
        ensures some { (taken : Numbers) × Keeps self.now taken }
    {
        SeqNo::from(self.greatest)
    }

    /// Returns whether the number is new to the window: it is above the greatest, or less than 128
    /// below it and not recorded.
    pub fn accepts(&self, seq: SeqNo) -> bool
        ensures { (taken : Numbers) → Keeps self.now taken → (IsTrue result ↔ Accepts taken seq) }
    {
        let number = seq.get();
        if number > self.greatest {
            return true;
        }
        let below = self.greatest - number;
        below < SIZE && !is_set(self.recorded, below)
    }

    /// Records the number. One that [`accepts`](Self::accepts) refuses changes nothing: it is
    /// recorded, or 128 or more below the greatest and so counts as recorded.
    pub fn update(&mut self, seq: SeqNo)
        ensures recorded { (taken : Numbers) → Keeps self.old taken →
            Keeps self.new (including taken seq) }
        ensures unchanged { (taken : Numbers) → Keeps self.old taken →
            (Accepts taken seq → ⊥) → self.new ≡ self.old }
        ensures below_zero { StaysBelowZero self.old self.new }
    {
        self.take(seq);
    }

    /// Records the number if the window accepts it. Returns what [`accepts`](Self::accepts) returns
    /// for it; where that is false, nothing changes.
    pub fn take(&mut self, seq: SeqNo) -> bool
        ensures accepts { (taken : Numbers) → Keeps self.old taken →
            (IsTrue result ↔ Accepts taken seq) }
        ensures recorded { (taken : Numbers) → Keeps self.old taken →
            IsTrue result → Keeps self.new (including taken seq) }
        ensures refused { result ≡ false → self.new ≡ self.old }
        ensures below_zero { StaysBelowZero self.old self.new }
    {
        let number = seq.get();
        if number > self.greatest {
            self.recorded = advanced(self.recorded, number - self.greatest);
            self.greatest = number;
            return true;
        }
        let below = self.greatest - number;
        if below >= SIZE {
            return false;
        }
        set(&mut self.recorded, below)
    }
}
