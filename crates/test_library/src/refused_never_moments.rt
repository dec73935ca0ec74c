//! The moments of absolute send times that were read. No call asks for memory: `.ci/run` sees that
//! a test of this file asks for none.

use crate::checks::holds;
use crate::fixtures::full;
use rtp_values::ExtensionValues;
use std::process::Abort;

// The values with every field set, and this send time.
pub(crate) fn sent(send_time: Option<u64>) -> ExtensionValues {
    ExtensionValues {
        abs_send_time: send_time,
        ..full()
    }
}

// The same with a send time of 64 seconds at most, once it is updated at `now`.
pub(crate) fn updated(send_time: Option<u64>, now: u64) -> ExtensionValues {
    let mut values = full();
    values.abs_send_time = match send_time {
        Some(micros) => Some(micros.min(64_000_000)),
        None => None,
    };
    values.update_absolute_send_time(now);
    values
}

// What was read, when it arrived, and the moment.
const MOMENTS: [(u64, u64, u64); 6] = [
    (63_000_000, 64_500_000, 63_000_000),
    (40_000_000, 1_000_050_000, 1_000_000_000),
    // There is no moment up to 10 that is equal to 20 modulo 64 seconds.
    (20, 10, 20),
    // 64 seconds are equal to 0 modulo 64 seconds.
    (64_000_000, 5, 0),
    // 2^64 - 1 microseconds are 45.551615 seconds above a multiple of 64 seconds.
    (45_551_615, 18446744073709551615, 18446744073709551615),
    (45_551_616, 18446744073709551615, 18446744073645551616),
];

// Once updated at `now` the values have this send time, and all other fields stay.
pub(crate) fn becomes(rt: &impl Abort, send_time: Option<u64>, now: u64, wanted: Option<u64>) {
    holds(rt, now, updated(send_time, now) == sent(wanted));
}

#[test]
fn moments(rt: HostRuntime) {
    for &(micros, now, moment) in &MOMENTS {
        becomes(&rt, Some(micros), now, Some(moment));
    }
}
