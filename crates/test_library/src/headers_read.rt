//! Headers, read from bytes.

use crate::checks::{bytes_of, header, holds, parsed, same};
use crate::fixtures::{PACKET, TWO_BYTE_FORM, spoken};
use crate::headers_written::is_read;
use rtp_base::Pt;
use rtp_wire::{ExtensionMap, RtpHeader};
use std::alloc::Global;
use std::process::Abort;

// The same with other values, and with the elements of the first in the two-byte form.
const OTHER_VALUES: &str = "b06fb79900002ee02e5715f9bede0004\
10ab22fe86d03100024278596a000000\
0102030400000000000000000000000c";

// The header that the bytes begin with, where nothing is mapped.
pub(crate) fn parse(rt: &impl Abort, alloc: Global, bytes: &[u8]) -> Option<RtpHeader> {
    parsed(rt, alloc, bytes, &ExtensionMap::empty())
}

// The bytes begin with no header.
pub(crate) fn is_refused(rt: &impl Abort, alloc: Global, bytes: &[u8]) {
    holds(rt, bytes.len(), parse(rt, alloc, bytes).is_none());
}

// The text's bytes are read as this header under the standard map.
fn is_packet(rt: &impl Abort, alloc: Global, text: &str, wanted: RtpHeader) {
    let bytes = bytes_of(rt, alloc, text);
    is_read(rt, alloc, &ExtensionMap::standard(), &bytes, &wanted);
}

#[test]
fn packets(rt: HostRuntime) {
    let a = rt.alloc();
    let wanted = header(47000, 10000, spoken(-42, 63_531_654, 0), 32);
    is_packet(&rt, a, PACKET, wanted);
    let wanted = header(47001, 12000, spoken(-43, 63_631_652, 2), 32);
    is_packet(&rt, a, OTHER_VALUES, wanted);
    let wanted = header(47000, 10000, spoken(-42, 63_531_654, 0), 36);
    is_packet(&rt, a, TWO_BYTE_FORM, wanted);
}

// The bytes begin with a header of this length, which has version 2 and payload type 0.
fn is_accepted(rt: &impl Abort, alloc: Global, bytes: &[u8], len: usize) {
    let header = parse(rt, alloc, bytes).expect(rt, "a header");
    same(rt, len, header.header_len, len);
    same(rt, len, header.version, 2);
    holds(rt, len, header.payload_type == Pt::from(0));
}

#[test]
fn largest_block(rt: HostRuntime) {
    let mut bytes = bytes_of(&rt, rt.alloc(), "900000000000000000000000BEDEFFFF");
    bytes.resize(16 + 4 * 65535, 0).expect(&rt, "memory");
    is_accepted(&rt, rt.alloc(), &bytes, 262156);
    bytes.pop();
    let read = parse(&rt, rt.alloc(), &bytes);
    holds(&rt, "a byte less", read.is_none());
}

// Bytes that begin with no header.
const REFUSED: [&str; 17] = [
    // Under twelve bytes.
    "",
    "80",
    "0000000000000000000000",
    // Another version.
    "400000000000000000000000",
    "C00000000000000000000000",
    "000000000000000000000000",
    // A source is missing, or a byte of it.
    "810000000000000000000000",
    "81000000000000000000000000FFFF",
    // The head of the block is cut short.
    "900000000000000000000000",
    "900000000000000000000000BEDE00",
    // An unknown form.
    "90000000000000000000000020000000",
    "900000000000000000000000BEDD0000",
    "900000000000000000000000BEDF0000",
    "9000000000000000000000000FFF0000",
    "90000000000000000000000010100000",
    // The block is longer than what is left.
    "900000000000000000000000BEDE000110AA00",
    "900000000000000000000000BEDE0001",
];

#[test]
fn refusals(rt: HostRuntime) {
    for text in &REFUSED {
        let bytes = bytes_of(&rt, rt.alloc(), text);
        is_refused(&rt, rt.alloc(), &bytes);
    }
}

// Bytes that begin with a header, and its length.
const ACCEPTED: [(&str, usize); 8] = [
    ("800000000000000000000000", 12),
    ("A00000000000000000000000", 12),
    ("81000000000000000000000000FFFF00", 16),
    ("900000000000000000000000BEDE0000", 16),
    // Any application bits.
    ("90000000000000000000000010000000", 16),
    ("900000000000000000000000100F0000", 16),
    ("90000000000000000000000010070001AABBCCDD", 20),
    // Bytes after the header.
    ("900000000000000000000000BEDE000110AA0000FF", 20),
];

#[test]
fn accepted(rt: HostRuntime) {
    for &(text, len) in &ACCEPTED {
        let bytes = bytes_of(&rt, rt.alloc(), text);
        is_accepted(&rt, rt.alloc(), &bytes, len);
    }
}
