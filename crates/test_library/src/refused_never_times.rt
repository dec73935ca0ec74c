//! Calls on times and directions, which ask for no memory. `.ci/run` sees that a test of this file
//! asks for none.

use crate::checks::{holds, same};
use rtp_base::{Direction, Frequency, MediaTime};

#[test]
fn compared(rt: HostRuntime) {
    let quarter = MediaTime::from_millis(250);
    holds(&rt, "equal", quarter == MediaTime::from_90khz(22_500));
    holds(&rt, "less", quarter < MediaTime::from_secs(1));
    holds(&rt, "zero", MediaTime::ZERO.is_zero());
}

#[test]
fn added_and_subtracted(rt: HostRuntime) {
    let frame = MediaTime::from_millis(20);
    let sum = frame + MediaTime::from_90khz(1_800);
    same(&rt, "the sum", (sum.numer(), sum.denom()), (3_600, 90_000));
    let late = frame.checked_add(MediaTime::from_secs(u64::MAX));
    holds(&rt, "a sum past 64 bits", late.is_none());
    let none = MediaTime::from_secs(1).saturating_sub(MediaTime::from_secs(2));
    holds(&rt, "the difference", none.is_zero());
    let left = MediaTime::from_secs(3) - MediaTime::from_secs(1);
    same(&rt, "what is left", left.numer(), 2);
}

#[test]
fn at_other_frequencies(rt: HostRuntime) {
    let frame = MediaTime::from_millis(20);
    let at_48_khz = frame.rebase(Frequency::FORTY_EIGHT_KHZ);
    same(&rt, "48 kHz", at_48_khz.numer(), 960);
    same(&rt, "microseconds", frame.as_micros(), 20_000);
    let long = MediaTime::from_secs(u64::MAX);
    let rebased = long.checked_rebase(Frequency::MILLIS);
    holds(&rt, "past 64 bits", rebased.is_none());
}

#[test]
fn read_from_texts(rt: HostRuntime) {
    let found = "90000".parse::<Frequency>();
    same(&rt, "90 kHz", found, Ok(Frequency::NINETY_KHZ));
    holds(&rt, "0 Hz", "0".parse::<Frequency>().is_err());
    let direction = Direction::from("sendonly");
    same(&rt, "inverted", direction.invert(), Direction::RecvOnly);
}
