//! The order of media times, as fractions.

ghost use Rattle.std.specs.Prelude.{◌≡◌, ◌*◌, ◌↔◌, IsTrue, refl};
ghost use Rattle.std.specs.Cmp.{partial_equiv_from_equiv};
ghost use Rattle.std.specs.Ordering.{nat_cmp, as_partial_cmp};
ghost use Rattle.rtp_base.specs.MediaTime.{per_second, fraction_eq, fraction_cmp};
ghost use Rattle.rtp_base.specs.OrderLaws.{fraction_total, fraction_ties, fraction_eq_equiv, fraction_po};

use super::media_time::{MediaTime, product};
use std::cmp::Ordering;

// The numerators of the two times over their common denominator.
fn across(left: MediaTime, right: MediaTime) -> (u128, u128)
    ensures plain { result ≡ (left.numer * right.denom, right.numer * left.denom) }
    ensures total { result ≡ (left.numer * per_second right, right.numer * per_second left) }
{
    (
        product(left.numer(), right.denom()),
        product(right.numer(), left.denom()),
    )
}

impl PartialEq for MediaTime {
    ghost eq = { fraction_eq };

    ghost laws = { partial_equiv_from_equiv fraction_eq_equiv };

    /// Returns whether the two times are equal as fractions: 250 at 1000 equals 1 at 4.
    fn eq(&self, other: &MediaTime) -> bool
        ensures answer { result ≡ fraction_eq self.now other.now }
        ensures plain { IsTrue result
            ↔ (self.now.numer * other.now.denom ≡ other.now.numer * self.now.denom) }
    {
        let (left, right) = across(*self, *other);
        left == right
    }
}

impl Eq for MediaTime {
    ghost laws = { fraction_eq_equiv };
}

impl PartialOrd for MediaTime {
    ghost partial_cmp = { as_partial_cmp fraction_cmp };

    ghost laws = { fraction_po };

    /// Returns the order of the two times as fractions, which is never `None`.
    fn partial_cmp(&self, other: &MediaTime) -> Option<Ordering> {
        Some(self.cmp(other))
    }
}

impl Ord for MediaTime {
    ghost cmp = { fraction_cmp };

    ghost total = { fraction_total };

    ghost matches_partial_cmp = { λ a b. refl };

    ghost matches_eq = { fraction_ties };

    /// Returns the order of the two times as fractions, by their products across in 128 bits.
    fn cmp(&self, other: &MediaTime) -> Ordering
        ensures answer { result ≡ fraction_cmp self.now other.now }
        ensures plain { result ≡ nat_cmp (self.now.numer * other.now.denom)
            (other.now.numer * self.now.denom) }
    {
        let (left, right) = across(*self, *other);
        left.cmp(&right)
    }
}
