//! Media times.

ghost use Rattle.std.specs.Prelude.{◌≡◌, ◌<◌};

use crate::checks::same;
use rtp_base::{Frequency, MediaTime};
use std::cmp::Ordering;
use std::process::Abort;

pub(crate) const MOST: u64 = 18446744073709551615;

// The time of this many ticks at a frequency above 0.
pub(crate) fn at(numer: u64, hertz: u32) -> MediaTime
    ensures { 0 < hertz → result ≡ record { numer = numer; denom = hertz } }
{
    MediaTime::new(numer, Frequency::new(hertz).unwrap_or(Frequency::SECONDS))
}

// The ticks and the frequency, since two times at different frequencies may be equal.
pub(crate) fn parts(time: MediaTime) -> (u64, u32) {
    (time.numer(), time.denom())
}

// The same, where there is a time.
pub(crate) fn parts_of(time: Option<MediaTime>) -> Option<(u64, u32)> {
    Some(parts(time?))
}

// The time has these ticks at this frequency.
pub(crate) fn has_parts(rt: &impl Abort, at: &str, time: MediaTime, ticks: (u64, u32)) {
    same(rt, at, parts(time), ticks);
}

// There is a time of these ticks at this frequency, or none.
pub(crate) fn may_have_parts(
    rt: &impl Abort,
    at: &str,
    time: Option<MediaTime>,
    ticks: Option<(u64, u32)>,
) {
    same(rt, at, parts_of(time), ticks);
}

// Two times, each in ticks at a frequency, and how the first is to the second.
const PAIRS: [((u64, u32), (u64, u32), Ordering); 11] = [
    ((1, 3), (1, 4), Ordering::Greater),
    ((250, 1000), (1, 4), Ordering::Equal),
    ((1, 3), (333_333, 1_000_000), Ordering::Greater),
    ((0, 1), (0, 90_000), Ordering::Equal),
    ((MOST, 1), (MOST, 2), Ordering::Greater),
    ((MOST, 2), (MOST, 4_294_967_295), Ordering::Greater),
    ((MOST, 4_294_967_295), (MOST, 4_294_967_294), Ordering::Less),
    // At 2, the low 64 bits of the first's ticks are the second's.
    (
        (MOST, 1),
        (18_446_744_073_709_551_614, 2),
        Ordering::Greater,
    ),
    ((9_223_372_036_854_775_807, 1), (MOST, 2), Ordering::Less),
    ((MOST, 90_000), (MOST, 90_000), Ordering::Equal),
    ((6_148_914_691_236_517_205, 1), (MOST, 3), Ordering::Equal),
];

// The first time is to the second as the order says.
fn is_ordered(rt: &impl Abort, left: MediaTime, right: MediaTime, order: Ordering) {
    let at = left.numer();
    same(rt, at, left.cmp(&right), order);
    same(rt, at, right.cmp(&left), order.reverse());
    same(rt, at, left.partial_cmp(&right), Some(order));
    same(rt, at, left == right, order == Ordering::Equal);
    same(rt, at, left < right, order == Ordering::Less);
}

#[test]
fn order_of_times(rt: HostRuntime) {
    for &((numer, hertz), (other_numer, other_hertz), order) in &PAIRS {
        is_ordered(&rt, at(numer, hertz), at(other_numer, other_hertz), order);
    }
}

// A time, another frequency, and the time's whole ticks there, if 64 bits hold them.
const REBASED: [((u64, u32), u32, Option<(u64, u32)>); 8] = [
    ((MOST, 1), 2, None),
    ((MOST, 2), 1, Some((9_223_372_036_854_775_807, 1))),
    ((10, 1), 90_000, Some((900_000, 90_000))),
    ((MOST, 90_000), 90_000, Some((MOST, 90_000))),
    ((2, 3), 1, Some((0, 1))),
    ((1, 90_000), 1_000_000, Some((11, 1_000_000))),
    // One tick past 64 bits, and the last that fits.
    ((9_223_372_036_854_775_808, 1), 2, None),
    (
        (9_223_372_036_854_775_807, 1),
        2,
        Some((18_446_744_073_709_551_614, 2)),
    ),
];

#[test]
fn times_at_another_frequency(rt: HostRuntime) {
    for &((numer, hertz), target, ticks) in &REBASED {
        let found = at(numer, hertz).checked_rebase(at(0, target).frequency());
        same(&rt, numer, parts_of(found), ticks);
    }
}

#[test]
fn rebased_times(rt: HostRuntime) {
    let ten = at(10, 1).rebase(Frequency::NINETY_KHZ);
    has_parts(&rt, "10 s", ten, (900_000, 90_000));
    same(&rt, "a tick", MediaTime::from_90khz(1).as_micros(), 11);
    same(&rt, "3 s", MediaTime::from_secs(3).as_micros(), 3_000_000);
}

#[test]
fn times_added_and_subtracted(rt: HostRuntime) {
    let (third, quarter) = (at(1, 3), at(1, 4));
    has_parts(&rt, "the sum", third + quarter, (2, 4));
    has_parts(&rt, "the difference", third - quarter, (0, 4));
    let mut time = MediaTime::from_secs(1);
    time += MediaTime::from_millis(500);
    has_parts(&rt, "added", time, (1_500, 1_000));
    time -= MediaTime::from_secs(1);
    has_parts(&rt, "subtracted", time, (500, 1_000));
}

#[test]
fn checked_differences(rt: HostRuntime) {
    let (five, ten) = (MediaTime::from_micros(5), MediaTime::from_micros(10));
    may_have_parts(&rt, "5 - 10", five.checked_sub(ten), None);
    has_parts(&rt, "5 - 10", five.saturating_sub(ten), (0, 1));
    may_have_parts(&rt, "10 - 5", ten.checked_sub(five), Some((5, 1_000_000)));
    has_parts(&rt, "10 - 5", ten.saturating_sub(five), (5, 1_000_000));
}

#[test]
fn differences_by_the_fractions(rt: HostRuntime) {
    let (third, quarter) = (at(1, 3), at(1, 4));
    // Both are 1 at 4 once they are cut, and still the first is less.
    may_have_parts(&rt, "1/4 - 1/3", quarter.checked_sub(third), None);
    may_have_parts(&rt, "1/3 - 1/4", third.checked_sub(quarter), Some((0, 4)));
}
