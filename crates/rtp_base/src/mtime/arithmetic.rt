//! Sums and differences of media times, at the greater of their frequencies.

ghost use Rattle.std.specs.Prelude.{◌≡◌, ◌≤◌, ◌↔◌, IsNone, IfSome};
ghost use Rattle.std.specs.Option.{SomeIff};
ghost use Rattle.rtp_base.specs.MediaTime.{common_frequency, whole_ticks, in_ticks, IsLess, IsAtMost, BothFit, SumFits, sum_of, IsDifference};

use super::media_time::MediaTime;
use std::ops::{Add, AddAssign, Sub, SubAssign};

// Both times in whole ticks of the greater frequency, where these fit 64 bits.
fn at_common(left: MediaTime, right: MediaTime) -> Option<(MediaTime, MediaTime)>
    ensures fits { SomeIff result (BothFit left right) (
      in_ticks left (common_frequency left right),
      in_ticks right (common_frequency left right),
    ) }

    // A time that is at most the other is so in whole ticks too.
    ensures in_order { IsAtMost right left → whole_ticks right (common_frequency left right)
        ≤ whole_ticks left (common_frequency left right) }
{
    let frequency = if left.denom() < right.denom() {
        right.frequency()
    } else {
        left.frequency()
    };
    let left = left.checked_rebase(frequency)?;
    let right = right.checked_rebase(frequency)?;
    Some((left, right))
}

impl MediaTime {
    /// Returns the sum as `+` does, or `None` where its ticks do not fit 64 bits: `Some` exactly
    /// where the precondition of `+` holds.
    pub fn checked_add(self, rhs: MediaTime) -> Option<MediaTime>
        ensures { SomeIff result (SumFits self rhs) (sum_of self rhs) }
    {
        let (left, right) = at_common(self, rhs)?;
        let numer = left.numer().checked_add(right.numer())?;
        Some(MediaTime::new(numer, left.frequency()))
    }

    /// Returns the difference in ticks of the greater of the two frequencies, both times rounded
    /// down to whole ticks of it, or `None` exactly where this time is less than `rhs` as a
    /// fraction. Precondition: the ticks of each time at that frequency fit 64 bits;
    /// [`checked_rebase`](Self::checked_rebase) of each to the greater frequency tests it.
    pub fn checked_sub(self, rhs: MediaTime) -> Option<MediaTime>
        requires { BothFit self rhs }
        ensures none { IsNone result ↔ IsLess self rhs }
        ensures found { IfSome result (IsDifference self rhs) }
    {
        if self < rhs {
            return None;
        }
        let (left, right) = at_common(self, rhs).unwrap();
        let numer = left.numer() - right.numer();
        Some(MediaTime::new(numer, left.frequency()))
    }

    /// Returns the difference as [`checked_sub`](Self::checked_sub) does, under the same
    /// precondition, and [`ZERO`](Self::ZERO) where this time is less than `rhs`.
    pub fn saturating_sub(self, rhs: MediaTime) -> MediaTime
        requires { BothFit self rhs }
        ensures zero { IsLess self rhs → result ≡ record { numer = 0; denom = 1 } }
        ensures found { IsAtMost rhs self → IsDifference self rhs result }
    {
        self.checked_sub(rhs).unwrap_or(MediaTime::ZERO)
    }
}

impl Add for MediaTime {
    type Output = MediaTime;

    ghost can_add = { SumFits };

    ghost add_gives = { λ a b sum. sum ≡ sum_of a b };

    /// Returns the sum in ticks of the greater of the two frequencies: both times are rounded down
    /// to whole ticks of it and added. Precondition: the sum of the ticks fits 64 bits;
    /// [`checked_add`](Self::checked_add) tests it.
    fn add(self, rhs: MediaTime) -> MediaTime {
        self.checked_add(rhs).unwrap()
    }
}

impl AddAssign for MediaTime {
    ghost can_add_assign = { SumFits };

    ghost add_assign_gives = { λ a b sum. sum ≡ sum_of a b };

    /// Adds `rhs`, under the precondition of `+`.
    fn add_assign(&mut self, rhs: MediaTime) {
        *self = *self + rhs;
    }
}

impl Sub for MediaTime {
    type Output = MediaTime;

    ghost can_sub = { λ a b. BothFit a b × IsAtMost b a };

    ghost sub_gives = { IsDifference };

    /// Returns the difference as [`checked_sub`](Self::checked_sub) does. Preconditions: that of
    /// `checked_sub`, and this time is not less than `rhs`, which `<` tests.
    fn sub(self, rhs: MediaTime) -> MediaTime {
        self.checked_sub(rhs).unwrap()
    }
}

impl SubAssign for MediaTime {
    ghost can_sub_assign = { λ a b. BothFit a b × IsAtMost b a };

    ghost sub_assign_gives = { IsDifference };

    /// Subtracts `rhs`, under the preconditions of `-`.
    fn sub_assign(&mut self, rhs: MediaTime) {
        *self = *self - rhs;
    }
}
