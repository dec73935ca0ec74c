//! Headers, written as bytes and read back.

use crate::checks::{bytes_of, header_of, holds, is_in_front_of_ones, same};
use crate::fixtures::{level, one};
use rtp_base::{Pt, Ssrc};
use rtp_wire::{Extension, ExtensionMap, ExtensionValues, RtpHeader};
use std::alloc::Global;
use std::process::Abort;

// What is written of the header into a buffer of ones, and the three bytes after it.
pub(crate) fn written(
    rt: &impl Abort,
    alloc: Global,
    header: &RtpHeader,
    exts: &ExtensionMap,
) -> Vec<u8> {
    assert!(rt; header.payload_type.get() <= 127);
    assert!(rt; header.csrc_count <= 15);
    let len = header.wire_len(exts);
    let mut buf = vec![in alloc; 255u8; len + 3].expect(rt, "memory");
    let end = header.write_to(&mut buf, exts);
    same(rt, "the end", end, len);
    buf
}

// The bytes are read as this header.
pub(crate) fn is_read(
    rt: &impl Abort,
    alloc: Global,
    exts: &ExtensionMap,
    bytes: &[u8],
    wanted: &RtpHeader,
) {
    let read = header_of(rt, alloc, bytes, exts);
    holds(rt, bytes.len(), read == *wanted);
}

// The header is written as these bytes, the ones after them stay, and all of them are read as the
// other header.
pub(crate) fn check(
    rt: &impl Abort,
    alloc: Global,
    exts: ExtensionMap,
    header: RtpHeader,
    bytes: &[u8],
    image: RtpHeader,
) {
    let written = written(rt, alloc, &header, &exts);
    is_in_front_of_ones(rt, "what is written", &written, bytes);
    is_read(rt, alloc, &exts, bytes, &image);
    is_read(rt, alloc, &exts, &written, &image);
}

// The same of bytes in hexadecimal.
pub(crate) fn check_text(
    rt: &impl Abort,
    alloc: Global,
    exts: ExtensionMap,
    header: RtpHeader,
    text: &str,
    image: RtpHeader,
) {
    check(rt, alloc, exts, header, &bytes_of(rt, alloc, text), image);
}

// A header with these values, default except for its type, number, timestamp, and source.
pub(crate) fn header(ext_vals: ExtensionValues, header_len: usize) -> RtpHeader {
    RtpHeader {
        payload_type: Pt::from(33),
        sequence_number: 47000,
        timestamp: 10000,
        ssrc: Ssrc::from(44),
        ext_vals,
        header_len,
        ..RtpHeader::default()
    }
}

// The same without a block.
fn without_block(ext_vals: ExtensionValues, header_len: usize) -> RtpHeader {
    RtpHeader {
        has_extension: false,
        ..header(ext_vals, header_len)
    }
}

// The next packet's header, with a marker.
fn marked(ext_vals: ExtensionValues, header_len: usize) -> RtpHeader {
    RtpHeader {
        marker: true,
        sequence_number: 47001,
        timestamp: 12000,
        ..header(ext_vals, header_len)
    }
}

// The map of id 3 to the level.
pub(crate) fn levels_of_id_3() -> ExtensionMap {
    one(3, Extension::AudioLevel)
}

// A level, the byte that it is written as, and the level that is read back.
const LEVELS: [(i8, u8, i8); 3] = [(-42, 42, -42), (-128, 0, 0), (5, 5, -5)];

#[test]
fn levels(rt: HostRuntime) {
    for &(audio_level, byte, again) in &LEVELS {
        let bytes = [
            144, 33, 183, 152, 0, 0, 39, 16, 0, 0, 0, 44, 190, 222, 0, 1, 48, byte, 0, 0,
        ];
        let image = header(level(again, false), 20);
        let header = header(level(audio_level, false), 16);
        check(&rt, rt.alloc(), levels_of_id_3(), header, &bytes, image);
    }
}

// The id of a level, and the bytes of a header with a marker.
const MARKERS: [(u8, &str); 3] = [
    (3, "90a1b79900002ee00000002cbede0001302b0000"),
    // The one-byte form has no id of 15.
    (15, "90a1b79900002ee00000002c100000010f012b00"),
    (255, "90a1b79900002ee00000002c10000001ff012b00"),
];

#[test]
fn markers(rt: HostRuntime) {
    for &(id, text) in &MARKERS {
        let header = marked(level(-43, false), 16);
        let image = marked(level(-43, false), 20);
        let map = one(id, Extension::AudioLevel);
        check_text(&rt, rt.alloc(), map, header, text, image);
    }
}

#[test]
fn sources(rt: HostRuntime) {
    // Of 15 numbers the first three are written, and the others are read back as zeros.
    let mut image = header(level(-42, true), 32);
    image.csrc_count = 3;
    image.csrc = [
        100, 305419896, 4294967295, 0, 0, 0, 0, 0, 0, 0, 0, 0, 0, 0, 0,
    ];
    let mut header = header(level(-42, true), 16);
    header.version = 0;
    header.csrc_count = 3;
    header.csrc = [
        100, 305419896, 4294967295, 7, 7, 7, 7, 7, 7, 7, 7, 7, 7, 7, 7,
    ];
    let text = "9321b798000027100000002c0000006412345678ffffffffbede000130aa0000";
    check_text(&rt, rt.alloc(), levels_of_id_3(), header, text, image);
}

// A packet of 15 sources, whose numbers are 1 to 15, and a level.
pub(crate) const MOST_SOURCES: &str = "9f21b798000027100000002c\
0000000100000002000000030000000400000005000000060000000700000008\
000000090000000a0000000b0000000c0000000d0000000e0000000f\
bede000130aa0000";

// Its header, of this length.
fn most(header_len: usize) -> RtpHeader {
    RtpHeader {
        csrc_count: 15,
        csrc: [1, 2, 3, 4, 5, 6, 7, 8, 9, 10, 11, 12, 13, 14, 15],
        ..header(level(-42, true), header_len)
    }
}

// What is written of the header has this length.
fn has_len(rt: &impl Abort, header: &RtpHeader, exts: &ExtensionMap, wanted: usize) {
    assert!(rt; header.csrc_count <= 15);
    same(rt, "the length", header.wire_len(exts), wanted);
}

#[test]
fn most_sources(rt: HostRuntime) {
    let map = levels_of_id_3();
    check_text(&rt, rt.alloc(), map, most(16), MOST_SOURCES, most(80));
    has_len(&rt, &most(16), &ExtensionMap::empty(), 76);
}

#[test]
fn no_block(rt: HostRuntime) {
    let plain = || without_block(ExtensionValues::default(), 12);
    let text = "8021b798000027100000002c";
    let header = without_block(level(-42, false), 16);
    check_text(&rt, rt.alloc(), levels_of_id_3(), header, text, plain());
    // A plain header is read as itself under any map.
    for map in [ExtensionMap::empty(), ExtensionMap::standard()] {
        check_text(&rt, rt.alloc(), map, plain(), text, plain());
    }
}

// The default header without a block.
fn shortest() -> RtpHeader {
    RtpHeader {
        has_extension: false,
        header_len: 12,
        ..RtpHeader::default()
    }
}

#[test]
fn shortest_header(rt: HostRuntime) {
    let map = ExtensionMap::empty();
    let text = "800100000000000000000000";
    check_text(&rt, rt.alloc(), map, shortest(), text, shortest());
}
