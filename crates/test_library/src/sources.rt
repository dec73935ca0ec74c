//! Packets of several sources, under a receiver for each of them and under one for all.

use crate::checks::{same, verdict};
use rtp_wire::{ExtensionMap, Verdict, receive_run, receive_run_one};
use std::alloc::Global;
use std::process::Abort;

// A plain header of this source and number.
pub(crate) fn datagram(rt: &impl Abort, alloc: Global, source: u32, number: u16) -> Vec<u8> {
    let [high, low] = number.to_be_bytes();
    let [a, b, c, d] = source.to_be_bytes();
    let bytes = [0x80, 1, high, low, 0, 0, 0, 0, a, b, c, d];
    Vec::from_slice(alloc, &bytes).expect(rt, "memory")
}

// Runs the datagrams with a receiver for each source, and with one for all.
fn check(rt: &impl Abort, alloc: Global, run: &[Vec<u8>], by_source: &[Verdict], one: &[Verdict]) {
    let exts = ExtensionMap::standard();
    let found = receive_run(alloc, run, &exts).expect(rt, "memory");
    same(rt, "by source", found.as_slice(), by_source);
    let found = receive_run_one(alloc, run, &exts).expect(rt, "memory");
    same(rt, "one for all", found.as_slice(), one);
}

// The packets of two sources, and as what each is taken with a receiver for each source, and with
// one for all.
const TWO_SOURCES: [(u32, u16, Option<u64>, Option<u64>); 5] = [
    (1, 65535, Some(65535), Some(65535)),
    (2, 10, Some(10), Some(65546)),
    (1, 0, Some(65536), Some(65536)),
    (2, 10, None, None),
    (1, 65535, None, None),
];

#[test]
fn two_sources(rt: HostRuntime) {
    let mut run = Vec::new(rt.alloc());
    let mut by_source = Vec::new(rt.alloc());
    let mut one = Vec::new(rt.alloc());
    for &(source, number, taken, taken_as_one) in &TWO_SOURCES {
        let datagram = datagram(&rt, rt.alloc(), source, number);
        run.push(datagram).expect(&rt, "memory");
        by_source.push(verdict(taken)).expect(&rt, "memory");
        one.push(verdict(taken_as_one)).expect(&rt, "memory");
    }
    check(&rt, rt.alloc(), &run, &by_source, &one);
}

// The number 5 of source 1, of source 2, a datagram that is no packet, and that of source 1 again.
fn with_an_unreadable(rt: &impl Abort, alloc: Global) -> Vec<Vec<u8>> {
    let mut run = Vec::new(alloc);
    for &source in &[1, 2] {
        let datagram = datagram(rt, alloc, source, 5);
        run.push(datagram).expect(rt, "memory");
    }
    run.push(Vec::new(alloc)).expect(rt, "memory");
    let again = datagram(rt, alloc, 1, 5);
    run.push(again).expect(rt, "memory");
    run
}

#[test]
fn an_unreadable_datagram_is_of_no_source(rt: HostRuntime) {
    let run = with_an_unreadable(&rt, rt.alloc());
    let by_source = [
        verdict(Some(5)),
        verdict(Some(5)),
        Verdict::Unreadable,
        Verdict::Refused,
    ];
    let one = [
        verdict(Some(5)),
        Verdict::Refused,
        Verdict::Unreadable,
        Verdict::Refused,
    ];
    check(&rt, rt.alloc(), &run, &by_source, &one);
}
