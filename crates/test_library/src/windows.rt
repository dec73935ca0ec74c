//! The replay window.

use crate::checks::same;
use rtp_base::{SeqNo, SeqNoWindow};
use std::process::Abort;

// Each number is accepted or not, as it says.
pub(crate) fn check(rt: &impl Abort, window: &SeqNoWindow, numbers: &[(u64, bool)]) {
    for (number, wanted) in numbers {
        let number = *number;
        same(rt, number, window.accepts(SeqNo::from(number)), *wanted);
    }
}

// The first number that a window records, those that it records after it, numbers that it then
// accepts or not, and the highest that it has recorded.
const WINDOWS: [(u64, &[u64], &[(u64, bool)], u64); 13] = [
    // One number.
    (
        100,
        &[],
        &[(100, false), (99, true), (0, true), (101, true)],
        100,
    ),
    (0, &[], &[(0, false), (1, true)], 0),
    // A gap is filled once.
    (65535, &[65537], &[(65536, true), (65536, true)], 65537),
    (
        65535,
        &[65537, 65536, 65536],
        &[
            (65535, false),
            (65536, false),
            (65537, false),
            (65538, true),
        ],
        65537,
    ),
    // The end of the window.
    (
        138,
        &[137, 266],
        &[(138, false), (266, false), (265, true), (139, true)],
        266,
    ),
    (
        138,
        &[137, 267],
        &[
            (138, false),
            (139, false),
            (267, false),
            (266, true),
            (140, true),
        ],
        267,
    ),
    (
        138,
        &[137, 4294967434],
        &[
            (138, false),
            (4294967306, false),
            (4294967434, false),
            (4294967433, true),
            (4294967307, true),
        ],
        4294967434,
    ),
    // What falls out stays refused.
    (10, &[137], &[(10, false), (11, true)], 137),
    (10, &[137, 138], &[(10, false), (11, true)], 138),
    (10, &[137, 138, 11], &[(11, false)], 138),
    // 10 is 128 below the highest, and changes nothing.
    (10, &[137, 138, 11, 10], &[(12, true), (138, false)], 138),
    // At the greatest number.
    (5, &[132, 5], &[(5, false), (4, false), (6, true)], 132),
    (
        5,
        &[132, 5, 18446744073709551615],
        &[
            (18446744073709551488, true),
            (18446744073709551487, false),
            (18446744073709551615, false),
        ],
        18446744073709551615,
    ),
];

// Once the window has recorded these numbers too, it accepts numbers or not, as it says, and this
// is the highest.
fn records(
    rt: &impl Abort,
    mut window: SeqNoWindow,
    later: &[u64],
    numbers: &[(u64, bool)],
    highest: u64,
) {
    for number in later {
        window.update(SeqNo::from(*number));
    }
    check(rt, &window, numbers);
    same(rt, "the highest", window.max_seq().get(), highest);
}

#[test]
fn recorded_numbers(rt: HostRuntime) {
    for &(first, later, numbers, highest) in &WINDOWS {
        let window = SeqNoWindow::new(SeqNo::from(first));
        records(&rt, window, later, numbers, highest);
    }
}

// The same of windows in which every number up to 200 is recorded.
const AFTER_200: [(&[u64], &[(u64, bool)], u64); 3] = [
    (
        &[],
        &[(200, false), (199, false), (0, false), (201, true)],
        200,
    ),
    (
        &[203],
        &[(200, false), (201, true), (202, true), (203, false)],
        203,
    ),
    (&[203, 201], &[(201, false), (202, true)], 203),
];

#[test]
fn every_number_up_to_one(rt: HostRuntime) {
    for &(later, numbers, highest) in &AFTER_200 {
        let window = SeqNoWindow::new_after(SeqNo::from(200));
        records(&rt, window, later, numbers, highest);
    }
}
