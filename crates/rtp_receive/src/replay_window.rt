//! A replay window of any size.

ghost use Rattle.std.specs.Prelude.{◌≡◌, ◌↔◌, ◌*◌, ◌<◌, ℕ, IsTrue, false};
ghost use Rattle.rtp_base.specs.Window.{Numbers, WindowState, window_size, only, including, IsGreatest, KeepsOf, ShowsBelowZeroOf, StaysBelowZeroOf, AcceptsOf};

use rtp_base::{SeqNo, SeqNoWindow, WideWindow};

/// A replay window (RFC 3711, 3.3.2) of some size: the greatest recorded number, and which of the
/// numbers less than the size below it are recorded. Each number further below counts as recorded.
/// The numbers are extended sequence numbers, of 64 bits.
///
/// [`SeqNoWindow`] has a size of 128 numbers, and [`WideWindow`] one of 64 * N; the methods here do
/// what theirs of the same names do. The trait is for code that serves with either, as
/// [`StreamReceiver`](crate::StreamReceiver) does.
pub trait ReplayWindow: Drop {
    // The size: how many numbers there are from the greatest down to the last that is told apart.
    ghost size: { ℕ };

    // The greatest number, and which of those less than the size below it are recorded.
    ghost state: { Self → WindowState };

    /// Returns a window in which this number alone is recorded. The numbers before it may still
    /// come. Precondition: the size is at least 1.
    fn new(number: SeqNo) -> Self
        requires { 0 < size }
        ensures kept { KeepsOf size (state result) (only number) }
        ensures below_zero { ShowsBelowZeroOf size (state result) false };

    /// Returns the size: numbers less than it below the greatest are told apart.
    fn span() -> u128
        ensures { result ≡ size };

    /// Returns the greatest recorded number.
    fn max_seq(&self) -> SeqNo
        ensures is { result ≡ (state self.now).greatest }
        ensures greatest { (taken : Numbers) → KeepsOf size (state self.now) taken →
            IsGreatest taken result }

        // Each window keeps some set, so no clause on the sets that it keeps is empty.
        ensures some { (taken : Numbers) × KeepsOf size (state self.now) taken };

    /// Returns whether the number is new to the window: it is above the greatest, or less than the
    /// size below it and not recorded.
    fn accepts(&self, number: SeqNo) -> bool
        ensures { (taken : Numbers) → KeepsOf size (state self.now) taken →
            (IsTrue result ↔ AcceptsOf size taken number) };

    /// Records the number if the window accepts it. Returns what [`accepts`](Self::accepts) returns
    /// for it; where that is false, nothing changes.
    fn take(&mut self, number: SeqNo) -> bool
        ensures accepts { (taken : Numbers) → KeepsOf size (state self.old) taken →
            (IsTrue result ↔ AcceptsOf size taken number) }
        ensures recorded { (taken : Numbers) → KeepsOf size (state self.old) taken →
            IsTrue result → KeepsOf size (state self.new) (including taken number) }
        ensures refused { result ≡ false → state self.new ≡ state self.old }
        ensures below_zero { StaysBelowZeroOf size (state self.old) (state self.new) };
}

// How many numbers a `SeqNoWindow` tells apart, and how many have their bits in one word of a
// `WideWindow`.
const SEQ_NO_WINDOW_SIZE: u128 = 128;

const WORD: u128 = 64;

impl ReplayWindow for SeqNoWindow {
    ghost size = { window_size };

    ghost state = { λ window. window };

    #[inline(always)]
    fn new(number: SeqNo) -> Self {
        SeqNoWindow::new(number)
    }

    #[inline(always)]
    fn span() -> u128 {
        SEQ_NO_WINDOW_SIZE
    }

    #[inline(always)]
    fn max_seq(&self) -> SeqNo {
        SeqNoWindow::max_seq(self)
    }

    #[inline(always)]
    fn accepts(&self, number: SeqNo) -> bool {
        SeqNoWindow::accepts(self, number)
    }

    #[inline(always)]
    fn take(&mut self, number: SeqNo) -> bool {
        SeqNoWindow::take(self, number)
    }
}

impl<const N: usize> ReplayWindow for WideWindow<N> {
    ghost size = { 64 * N };

    ghost state = { λ window. window };

    #[inline(always)]
    fn new(number: SeqNo) -> Self {
        WideWindow::new(number)
    }

    #[inline(always)]
    fn span() -> u128 {
        WORD * N as u128
    }

    #[inline(always)]
    fn max_seq(&self) -> SeqNo {
        WideWindow::max_seq(self)
    }

    #[inline(always)]
    fn accepts(&self, number: SeqNo) -> bool {
        WideWindow::accepts(self, number)
    }

    #[inline(always)]
    fn take(&mut self, number: SeqNo) -> bool {
        WideWindow::take(self, number)
    }
}
