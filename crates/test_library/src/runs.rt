//! Runs of datagrams, and what a receiver takes of them.

use crate::checks::{same, verdict};
use rtp_wire::{ExtensionMap, Verdict, receive_run, receive_run_one};
use std::alloc::Global;
use std::process::Abort;

// A packet's number, and as what it is taken: none where it is refused.
pub(crate) type Arrival = (u16, Option<u64>);

// The packets of a stream in the order in which they come.
pub(crate) const RUNS: [&[Arrival]; 11] = [
    &[],
    &[
        (65534, Some(65534)),
        (65535, Some(65535)),
        (0, Some(65536)),
        (65534, None),
        (65535, None),
        (0, None),
    ],
    // Back past number 0.
    &[(2, Some(2)), (65535, Some(18446744073709551615)), (3, None)],
    // 127 and 128 below the highest number taken.
    &[
        (1000, Some(1000)),
        (873, Some(873)),
        (872, None),
        (873, None),
    ],
    &[
        (5, Some(5)),
        (132, Some(132)),
        (5, None),
        (4, None),
        (6, Some(6)),
    ],
    // A number is widened after the highest one taken, whatever came last.
    &[
        (0, Some(0)),
        (32768, Some(32768)),
        (0, None),
        (65535, Some(65535)),
        (32767, None),
        (32766, Some(98302)),
    ],
    &[
        (0, Some(0)),
        (30000, Some(30000)),
        (60000, Some(60000)),
        (24464, Some(90000)),
    ],
    // One number again and again.
    &[(0, Some(0)), (0, None)],
    &[
        (7, Some(7)),
        (7, None),
        (7, None),
        (8, Some(8)),
        (7, None),
        (8, None),
    ],
    &[
        (65535, Some(65535)),
        (65535, None),
        (0, Some(65536)),
        (0, None),
    ],
    // In any order, each number is taken once.
    &[
        (102, Some(102)),
        (100, Some(100)),
        (101, Some(101)),
        (100, None),
        (102, None),
        (101, None),
    ],
];

// A plain header of this number, and nothing where there is no number.
fn datagram(rt: &impl Abort, alloc: Global, number: Option<u16>) -> Vec<u8> {
    let Some(number) = number else {
        return Vec::new(alloc);
    };
    let [high, low] = number.to_be_bytes();
    let bytes = [0x80, 1, high, low, 0, 0, 0, 0, 0, 0, 0, 0];
    Vec::from_slice(alloc, &bytes).expect(rt, "memory")
}

fn datagrams(rt: &impl Abort, alloc: Global, numbers: &[Option<u16>]) -> Vec<Vec<u8>> {
    let mut datagrams = Vec::new(alloc);
    for number in numbers {
        let datagram = datagram(rt, alloc, *number);
        datagrams.push(datagram).expect(rt, "memory");
    }
    datagrams
}

// Runs plain packets of one source, and a datagram that is none where there is no number: with a
// receiver for each source, and with one for all.
pub(crate) fn check(rt: &impl Abort, alloc: Global, numbers: &[Option<u16>], wanted: &[Verdict]) {
    let datagrams = datagrams(rt, alloc, numbers);
    let exts = ExtensionMap::standard();
    let verdicts = receive_run(alloc, &datagrams, &exts).expect(rt, "memory");
    same(rt, numbers.len(), verdicts.as_slice(), wanted);
    let verdicts = receive_run_one(alloc, &datagrams, &exts).expect(rt, "memory");
    same(rt, numbers.len(), verdicts.as_slice(), wanted);
}

// Runs the plain headers of one stream.
fn check_stream(rt: &impl Abort, alloc: Global, run: &[Arrival]) {
    let mut numbers = Vec::new(alloc);
    let mut wanted = Vec::new(alloc);
    for &(number, taken) in run {
        numbers.push(Some(number)).expect(rt, "memory");
        wanted.push(verdict(taken)).expect(rt, "memory");
    }
    check(rt, alloc, &numbers, &wanted);
}

#[test]
fn runs_of_one_stream(rt: HostRuntime) {
    for &run in &RUNS {
        check_stream(&rt, rt.alloc(), run);
    }
}

// A datagram that is no packet changes nothing.
#[test]
fn unreadable_datagrams(rt: HostRuntime) {
    check(&rt, rt.alloc(), &[None], &[Verdict::Unreadable]);
    let numbers = [Some(65535), Some(0), Some(65535), None, Some(1)];
    let wanted = [
        verdict(Some(65535)),
        verdict(Some(65536)),
        Verdict::Refused,
        Verdict::Unreadable,
        verdict(Some(65537)),
    ];
    check(&rt, rt.alloc(), &numbers, &wanted);
}
