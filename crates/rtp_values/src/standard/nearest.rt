//! Times of which an element has the low bits.

ghost use Rattle.std.specs.Prelude.{◌≡◌, ◌⊎◌, ◌^◌};
ghost use Rattle.rtp_values.specs.StandardTimes.{IsNearestTime};

// The number of 64 bits that is `low` modulo the rollover and is nearest to `near`, modulo 2^64; of
// two that are equally near, the later one.
#[inline(always)]
pub(super) fn nearest(near: u64, low: u64, rollover: u64) -> u64
    requires { (rollover ≡ 2 ^ 38) ⊎ (rollover ≡ 2 ^ 56) }
    ensures { IsNearestTime rollover near low result }
{
    let ahead = low.wrapping_sub(near) % rollover;
    let later = near.wrapping_add(ahead);
    if ahead <= rollover / 2 {
        later
    } else {
        later.wrapping_sub(rollover)
    }
}
