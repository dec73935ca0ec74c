//! Blocks with layer allocations where memory may be refused once: what stands then, and that the
//! same call with memory gives all of it. `.ci/run` refuses each growth in turn.

use crate::checks::{are_values, holds, parsed, same, verdict};
use crate::fixtures::{WITH_ALLOCATION, is_written, level};
use crate::refused_samples::{datagrams, have_verdicts};
use rtp_wire::{Extension, ExtensionMap, ExtensionValues, ExtensionsForm, RtpHeader, Verdict};
use std::alloc::{AllocError, Global};
use std::process::Abort;

// The body of a one-byte block: a level of -42 with voice, one stream of one layer of rate 5, and
// transport number 7.
const BODY: [u8; 9] = [0x10, 0xAA, 0x22, 1, 0, 5, 0x31, 0, 7];

// The same with a second allocation after the first one, of rate 6.
pub(crate) const TWO: [u8; 13] = [0x10, 0xAA, 0x22, 1, 0, 5, 0x22, 1, 0, 6, 0x31, 0, 7];

// The same with three, of the rates 5, 4 and 6.
pub(crate) const THREE: [u8; 17] = [
    0x10, 0xAA, 0x22, 1, 0, 5, 0x22, 1, 0, 4, 0x22, 1, 0, 6, 0x31, 0, 7,
];

// The same with a first one that takes no memory.
pub(crate) const NONE_AND_ONE: [u8; 11] = [0x10, 0xAA, 0x20, 0, 0x22, 1, 0, 6, 0x31, 0, 7];

// The same behind two bytes of data that mean no allocation, and so take no memory.
const MALFORMED_AND_ONE: [u8; 12] = [0x21, 0x30, 0x11, 0x10, 0xAA, 0x22, 1, 0, 6, 0x31, 0, 7];

// The map under which all of them are values.
pub(crate) fn map() -> ExtensionMap {
    let mut map = ExtensionMap::empty();
    map.set(1, Extension::AudioLevel);
    map.set(2, Extension::VideoLayersAllocation);
    map.set(3, Extension::TransportSequenceNumber);
    map
}

// Reads the body into the values.
pub(crate) fn read(
    alloc: Global,
    body: &[u8],
    values: &mut ExtensionValues,
) -> Result<(), AllocError> {
    map().parse(alloc, body, ExtensionsForm::OneByte, values)
}

// Whether the allocation is one stream of one layer of this rate.
fn has_rate(values: &ExtensionValues, rate: u8) -> bool {
    is_written(&Extension::VideoLayersAllocation, values, &[1, 0, rate])
}

// Whether the values are the level, an allocation of this rate and the transport number.
pub(crate) fn is_whole(values: &ExtensionValues, rate: u8) -> bool {
    is_written(&Extension::AudioLevel, values, &[0xAA])
        && has_rate(values, rate)
        && values.transport_cc == Some(7)
}

// Reads the body into the values, with memory.
fn read_again(rt: &impl Abort, alloc: Global, body: &[u8], values: &mut ExtensionValues) {
    read(alloc, body, values).expect(rt, "memory");
}

#[test]
fn one_allocation(rt: HostRuntime) {
    let mut values = ExtensionValues::default();
    if read(rt.alloc(), &BODY, &mut values).is_err() {
        // The level and nothing else.
        are_values(&rt, "the refusal", &values, &level(-42, true));
        read_again(&rt, rt.alloc(), &BODY, &mut values);
    }
    holds(&rt, "the end", is_whole(&values, 5));
}

// There is a level of -42 and no transport number.
pub(crate) fn is_cut(rt: &impl Abort, values: &ExtensionValues) {
    same(rt, "the level", values.audio_level, Some(-42));
    same(rt, "the number", values.transport_cc, None);
}

// Where the memory of the second one is refused, the first one stands.
#[test]
fn two_allocations(rt: HostRuntime) {
    let mut values = ExtensionValues::default();
    if read(rt.alloc(), &TWO, &mut values).is_err() {
        let is_first = values == level(-42, true) || has_rate(&values, 5);
        holds(&rt, "the first", is_first);
        is_cut(&rt, &values);
        read_again(&rt, rt.alloc(), &TWO, &mut values);
    }
    holds(&rt, "the end", is_whole(&values, 6));
}

// Of two in a row the last one alone takes memory, and where it is refused the level stands.
#[test]
fn two_in_a_row(rt: HostRuntime) {
    let mut values = ExtensionValues::default();
    if read(rt.alloc(), &TWO, &mut values).is_err() {
        are_values(&rt, "the refusal", &values, &level(-42, true));
        read_again(&rt, rt.alloc(), &TWO, &mut values);
    }
    holds(&rt, "the end", is_whole(&values, 6));
}

#[test]
fn three_allocations(rt: HostRuntime) {
    let mut values = ExtensionValues::default();
    if read(rt.alloc(), &THREE, &mut values).is_err() {
        are_values(&rt, "the refusal", &values, &level(-42, true));
        read_again(&rt, rt.alloc(), &THREE, &mut values);
    }
    holds(&rt, "the end", is_whole(&values, 6));
}

#[test]
fn the_second_allocation(rt: HostRuntime) {
    let mut values = ExtensionValues::default();
    if read(rt.alloc(), &NONE_AND_ONE, &mut values).is_err() {
        let kind = Extension::VideoLayersAllocation;
        holds(&rt, "the first", is_written(&kind, &values, &[0]));
        is_cut(&rt, &values);
        read_again(&rt, rt.alloc(), &NONE_AND_ONE, &mut values);
    }
    holds(&rt, "the end", is_whole(&values, 6));
}

#[test]
fn behind_a_malformed_one(rt: HostRuntime) {
    let mut values = ExtensionValues::default();
    if read(rt.alloc(), &MALFORMED_AND_ONE, &mut values).is_err() {
        // The level, which is before the allocation.
        are_values(&rt, "the refusal", &values, &level(-42, true));
        read_again(&rt, rt.alloc(), &MALFORMED_AND_ONE, &mut values);
    }
    holds(&rt, "the end", is_whole(&values, 6));
}

// The two elements in two blocks, each of which is read again where its memory is refused.
#[test]
fn one_block_after_another(rt: HostRuntime) {
    let mut values = ExtensionValues::default();
    if read(rt.alloc(), &TWO[..6], &mut values).is_err() {
        read_again(&rt, rt.alloc(), &TWO[..6], &mut values);
    }
    if read(rt.alloc(), &TWO[6..], &mut values).is_err() {
        holds(&rt, "the first", has_rate(&values, 5));
        same(&rt, "the number", values.transport_cc, None);
        read_again(&rt, rt.alloc(), &TWO[6..], &mut values);
    }
    holds(&rt, "the end", is_whole(&values, 6));
}

// The packet's header, with memory at the second try.
fn packet(rt: &impl Abort, alloc: Global) -> RtpHeader {
    let read = match RtpHeader::parse(alloc, &WITH_ALLOCATION, &map()) {
        Ok(read) => read,
        Err(_) => parsed(rt, alloc, &WITH_ALLOCATION, &map()),
    };
    read.expect(rt, "a header")
}

#[test]
fn a_header(rt: HostRuntime) {
    let header = packet(&rt, rt.alloc());
    same(&rt, "the length", header.header_len, 28);
    same(&rt, "the number", header.sequence_number, 47000);
    holds(&rt, "the values", is_whole(&header.ext_vals, 5));
}

// A plain packet of number 46,999.
const PLAIN: [u8; 12] = [0x80, 33, 0xB7, 0x97, 0, 0, 0, 0, 0, 0, 0, 44];

// The plain packet, the packet twice, and one that is cut short.
fn made(rt: &impl Abort, alloc: Global) -> Vec<Vec<u8>> {
    let whole = WITH_ALLOCATION.as_slice();
    datagrams(rt, alloc, &[&PLAIN, whole, whole, &WITH_ALLOCATION[..27]])
}

// What is said of the four.
fn due() -> [Verdict; 4] {
    [
        verdict(Some(46_999)),
        verdict(Some(47_000)),
        Verdict::Refused,
        Verdict::Unreadable,
    ]
}

#[test]
fn a_run(rt: HostRuntime) {
    let datagrams = made(&rt, rt.alloc());
    have_verdicts(&rt, rt.alloc(), &datagrams, &map(), &due());
}

// Two packets of one source, each with an allocation: beside them memory is asked for the list of
// the verdicts, and in the run by source for the receiver of their source.
#[test]
fn a_run_of_two_packets(rt: HostRuntime) {
    let packets = datagrams(&rt, rt.alloc(), &[&WITH_ALLOCATION, &WITH_ALLOCATION]);
    let wanted = [verdict(Some(47_000)), Verdict::Refused];
    have_verdicts(&rt, rt.alloc(), &packets, &map(), &wanted);
}
