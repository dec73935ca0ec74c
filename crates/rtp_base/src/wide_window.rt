//! The replay window of a size that the caller chooses.

ghost use Rattle.std.specs.Prelude.{◌≡◌, ℕ, ◌*◌, ◌<◌, ◌↔◌, Bool, true, false, ◌||◌, ◌==◌, slice_index_or, IsTrue};
ghost use Rattle.rtp_base.specs.Window.{Numbers, WindowState, only, up_to, including, IsGreatest, KeepsOf, ShowsBelowZeroOf, StaysBelowZeroOf, AcceptsOf};
ghost use Rattle.rtp_base.specs.Ring.{ring_bits, ring_window};

use crate::id::SeqNo;
use crate::ring::{ring_accepts, ring_restore, ring_start, ring_start_after, ring_take};
use std::marker::Model;

/// The replay window of a stream (RFC 3711, 3.3.2) in N words, at least one: the greatest recorded
/// number, and which of the 64 * N - 1 numbers below it are recorded. Each number further below
/// counts as recorded.
///
/// It answers as [`SeqNoWindow`](crate::SeqNoWindow) does with 64 * N in place of 128. Choose N so
/// that the window is longer than a packet can be late: libwebrtc has 1,024 numbers, which are 16
/// words. A greater number costs the words that it passes, and the next number one word, whatever N
/// is.
///
/// ```
/// let mut window = WideWindow::<16>::new(SeqNo::from(5000));
/// assert!(window.accepts(SeqNo::from(3977)));
/// assert!(!window.accepts(SeqNo::from(3976)));
/// assert!(window.take(SeqNo::from(5001)));
/// assert!(!window.accepts(SeqNo::from(3977)));
/// assert!(!window.take(SeqNo::from(5001)));
/// ```
#[derive(Debug, Drop)]
pub struct WideWindow<const N: usize> {
    greatest: SeqNo,
    words: [u64; N],
}

impl<const N: usize> Model for WideWindow<N> {
    ghost use Rattle.std.specs.Prelude.{◌≡◌, ◌<◌, true, false, slice_index_or, length};
    ghost use Rattle.rtp_base.specs.Window.{WindowState};
    ghost use Rattle.rtp_base.specs.Ring.{ring_bits, ring_window};

    ghost Value = { WindowState };

    ghost view = { λ w. ring_window w.words w.greatest };

    ghost invariant = { λ w. (0 < N) × (length w.words ≡ N) ×
        (slice_index_or (ring_bits w.words w.greatest) 0 false ≡ true) };
}

impl<const N: usize> WideWindow<N> {
    /// Returns a window in which this number alone is recorded. The numbers before it may still
    /// come.
    pub fn new(seq: SeqNo) -> Self
        requires { 0 < N }
        ensures kept { KeepsOf (64 * N) result (only seq) }
        ensures below_zero { ShowsBelowZeroOf (64 * N) result false }
    {
        let mut words = [0; N];
        ring_start(&mut words, seq);
        WideWindow {
            greatest: seq,
            words,
        }
    }

    /// Returns a window in which this number and every number below it are recorded: only greater
    /// ones are accepted. It is for a receiver that goes on from a remembered number.
    pub fn new_after(seq: SeqNo) -> Self
        requires { 0 < N }
        ensures kept { KeepsOf (64 * N) result (up_to seq) }
        ensures below_zero { ShowsBelowZeroOf (64 * N) result true }
    {
        let mut words = [0; N];
        ring_start_after(&mut words, seq);
        WideWindow {
            greatest: seq,
            words,
        }
    }

    /// Returns the window that [`parts`](Self::parts) took apart. Any number and words are the
    /// parts of a window: the greatest number is recorded, whatever its bit says.
    ///
    /// ```
    /// let window = WideWindow::from_parts(SeqNo::from(70), [0b1000, 0b10]);
    /// assert!(window.accepts(SeqNo::from(64)));
    /// assert!(!window.accepts(SeqNo::from(65)));
    /// assert!(!window.accepts(SeqNo::from(3)));
    /// assert_eq!(window.parts(), (SeqNo::from(70), &[0b1000, 0b100_0010]));
    /// ```
    pub fn from_parts(greatest: SeqNo, words: [u64; N]) -> Self
        requires { 0 < N }
        ensures greatest { result.greatest ≡ greatest }
        ensures recorded { (k : ℕ) → k < 64 * N →
            slice_index_or result.recorded k false
            ≡ (slice_index_or (ring_bits words.entry greatest) k false || k == 0) }

        // The parts of a window give that window again.
        ensures restored { slice_index_or (ring_bits words.entry greatest) 0 false ≡ true →
            result ≡ ring_window words.entry greatest }
    {
        let mut words = words;
        ring_restore(&mut words, greatest);
        WideWindow { greatest, words }
    }

    /// Returns the window taken apart, so that it can be stored and put together again by
    /// [`from_parts`](Self::from_parts): the greatest recorded number, and the words, in which
    /// number n has bit n % 64 of word n / 64 % N. Where the greatest is less than 64 * N - 1, the
    /// bits that no number up to it has stand for no number: they are clear in a window of
    /// [`new`](Self::new), and set in one of [`new_after`](Self::new_after).
    pub fn parts(&self) -> (SeqNo, &[u64; N])
        ensures whole { ring_window result.1.now result.0 ≡ self.now }
        ensures recorded { slice_index_or self.now.recorded 0 false ≡ true }
    {
        (self.greatest, &self.words)
    }

    /// Returns the greatest recorded number.
    pub fn max_seq(&self) -> SeqNo
        ensures greatest { (taken : Numbers) → KeepsOf (64 * N) self.now taken →
            IsGreatest taken result }

        // Each window keeps some set, so no clause on the sets that it keeps is empty.
        ensures some { (taken : Numbers) × KeepsOf (64 * N) self.now taken }
    {
        self.greatest
    }

    /// Returns whether the number is new to the window: it is above the greatest, or less than
    /// 64 * N below it and not recorded.
    pub fn accepts(&self, seq: SeqNo) -> bool
        ensures { (taken : Numbers) → KeepsOf (64 * N) self.now taken →
            (IsTrue result ↔ AcceptsOf (64 * N) taken seq) }
    {
        ring_accepts(&self.words, self.greatest, seq)
    }

    /// Records the number. One that [`accepts`](Self::accepts) refuses changes nothing: it is
    /// recorded, or 64 * N or more below the greatest and so counts as recorded.
    pub fn update(&mut self, seq: SeqNo)
        ensures recorded { (taken : Numbers) → KeepsOf (64 * N) self.old taken →
            KeepsOf (64 * N) self.new (including taken seq) }
        ensures unchanged { (taken : Numbers) → KeepsOf (64 * N) self.old taken →
            (AcceptsOf (64 * N) taken seq → ⊥) → self.new ≡ self.old }
        ensures below_zero { StaysBelowZeroOf (64 * N) self.old self.new }
    {
        self.take(seq);
    }

    /// Records the number if the window accepts it. Returns what [`accepts`](Self::accepts) returns
    /// for it; where that is false, nothing changes.
    pub fn take(&mut self, seq: SeqNo) -> bool
        ensures accepts { (taken : Numbers) → KeepsOf (64 * N) self.old taken →
            (IsTrue result ↔ AcceptsOf (64 * N) taken seq) }
        ensures recorded { (taken : Numbers) → KeepsOf (64 * N) self.old taken →
            IsTrue result → KeepsOf (64 * N) self.new (including taken seq) }
        ensures refused { result ≡ false → self.new ≡ self.old }
        ensures below_zero { StaysBelowZeroOf (64 * N) self.old self.new }
    {
        ring_take(&mut self.words, &mut self.greatest, seq)
    }
}
