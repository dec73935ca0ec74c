//! Video layers allocations, read and written.

use crate::checks::{holds, same};
use crate::fixtures::{Row, allocation};
use rtp_vla::vla::{
    URI, VideoLayersAllocation, checked_wire_len, is_writable, parse, wire_len, write_to,
};
use std::alloc::Global;
use std::process::Abort;

// The bytes mean the allocation.
pub(crate) fn mean(rt: &impl Abort, alloc: Global, bytes: &[u8], wanted: VideoLayersAllocation) {
    let found = parse(alloc, bytes).expect(rt, "memory");
    holds(rt, bytes.len(), found == Some(wanted));
}

// The bytes mean the allocation of these streams.
pub(crate) fn reads(rt: &impl Abort, alloc: Global, bytes: &[u8], index: u8, rows: &[&[Row]]) {
    mean(rt, alloc, bytes, allocation(rt, alloc, index, rows));
}

// The allocation is written as the bytes, after which the buffer stays as it was.
fn is_written(rt: &impl Abort, v: &VideoLayersAllocation, bytes: &[u8]) {
    assert!(rt; is_writable(v));
    let len = wire_len(v);
    assert!(rt; len <= 299);
    let mut buf = [7u8; 300];
    let end = write_to(v, &mut buf);
    same(rt, "the length", len, bytes.len());
    same(rt, "the checked length", checked_wire_len(v), Some(len));
    same(rt, "the end", end, len);
    same(rt, "the bytes", buf.get(..end), Some(bytes));
    same(rt, "the byte after them", buf.get(end).copied(), Some(7));
}

// The allocation of these streams is written as the bytes.
fn writes(rt: &impl Abort, alloc: Global, bytes: &[u8], index: u8, rows: &[&[Row]]) {
    is_written(rt, &allocation(rt, alloc, index, rows), bytes);
}

// The bytes mean nothing.
pub(crate) fn refuses(rt: &impl Abort, alloc: Global, bytes: &[u8]) {
    let found = parse(alloc, bytes).expect(rt, "memory");
    holds(rt, bytes.len(), found.is_none());
}

#[test]
fn uri(rt: HostRuntime) {
    let uri = "http://www.webrtc.org/experiments/rtp-hdrext/video-layers-allocation00";
    same(&rt, "the URI", URI, uri);
}

// Bytes, and the index and the streams of the allocation that they mean.
type Meaning<'a> = (&'a [u8], u8, &'a [&'a [Row<'a>]]);

// Bytes and allocations that go both ways.
const ALIKE: [Meaning<'static>; 13] = [
    // Streams of one layer.
    (
        &[0x61, 0x54, 1, 2, 4, 8, 0x10, 0x20],
        1,
        &[&[(&[1, 2], None)], &[(&[4, 8], None)], &[(&[16, 32], None)]],
    ),
    (
        &[
            0x61, 0x54, 0x64, 0x65, 0x6E, 0x6F, 0x78, 0x79, 0x01, 0x3F, 0x00, 0xB3, 0x0F, 0x02,
            0x7F, 0x01, 0x67, 0x1E, 0x04, 0xFF, 0x02, 0xCF, 0x3C,
        ],
        1,
        &[
            &[(&[100, 101], Some((320, 180, 15)))],
            &[(&[110, 111], Some((640, 360, 30)))],
            &[(&[120, 121], Some((1280, 720, 60)))],
        ],
    ),
    (
        &[
            0x31, 0x55, 0x64, 0x65, 0x6E, 0x6F, 0x82, 0x01, 0x83, 0x01, 0xC8, 0x01, 0xC9, 0x01,
        ],
        0,
        &[
            &[(&[100, 101], None)],
            &[(&[110, 111], None)],
            &[(&[130, 131], None)],
            &[(&[200, 201], None)],
        ],
    ),
    // Streams of several layers.
    (
        &[0x07, 0x54, 0x64, 0x65, 0x6E, 0x6F, 0x78, 0x79],
        0,
        &[&[
            (&[100, 101], None),
            (&[110, 111], None),
            (&[120, 121], None),
        ]],
    ),
    (
        &[0x0B, 0x54, 0x64, 0x65, 0x6E, 0x6F, 0x78, 0x79],
        0,
        &[&[
            (&[100, 101], None),
            (&[110, 111], None),
            (&[], None),
            (&[120, 121], None),
        ]],
    ),
    // Two streams of several layers.
    (
        &[
            0x17, 0x55, 0x50, 0x64, 0x65, 0x6E, 0x6F, 0x78, 0x79, 0xC8, 0x01, 0xC9, 0x01, 0xD2,
            0x01, 0xD3, 0x01, 0xDC, 0x01, 0xDD, 0x01,
        ],
        0,
        &[
            &[
                (&[100, 101], None),
                (&[110, 111], None),
                (&[120, 121], None),
            ],
            &[
                (&[200, 201], None),
                (&[210, 211], None),
                (&[220, 221], None),
            ],
        ],
    ),
    // Masks of each stream.
    (
        &[
            0x20, 0x10, 0x0F, 0x40, 0x64, 0x65, 0x01, 0x3F, 0x00, 0xB3, 0x0F,
        ],
        0,
        &[&[(&[100, 101], Some((320, 180, 15)))], &[], &[]],
    ),
    (
        &[0x60, 0x11, 0x3F, 0x00, 1, 2, 3, 4],
        1,
        &[
            &[(&[1], None)],
            &[(&[2], None)],
            &[(&[3], None), (&[4], None)],
        ],
    ),
    // Streams without rates.
    (&[0x40, 0x00], 1, &[&[]]),
    (&[0x60, 0x00, 0x0F], 1, &[&[], &[], &[]]),
    (&[0x00, 0x00], 0, &[&[]]),
    (&[0x00], 0, &[]),
    (&[0x01, 0x00, 0x00], 0, &[&[(&[0], None)]]),
];

#[test]
fn read_and_written(rt: HostRuntime) {
    for &(bytes, index, rows) in &ALIKE {
        reads(&rt, rt.alloc(), bytes, index, rows);
        writes(&rt, rt.alloc(), bytes, index, rows);
    }
}

// Bytes that are read, and that are written otherwise or not at all.
const READ: [Meaning<'static>; 5] = [
    // What is written where the trailing layers are dropped.
    (&[0x01, 0x00, 0x05], 0, &[&[(&[5], None)]]),
    (
        &[0x01, 0x00, 0x80, 0x80, 0x80, 0x80, 0x80],
        0,
        &[&[(&[0], Some((32897, 32897, 128)))]],
    ),
    (
        &[17, 111, 7, 0, 15, 92, 4, 255, 2, 207, 30, 7, 127, 4, 55, 30],
        0,
        &[
            &[(&[7, 0], Some((65283, 53023, 7)))],
            &[(&[15, 92, 4], None)],
        ],
    ),
    // Hostile rates.
    (
        &[1, 0, 255, 255, 255, 255, 255, 255, 255, 255, 255],
        0,
        &[&[(&[9223372036854775807], None)]],
    ),
    (
        &[1, 0, 128, 128, 128, 128, 128, 128, 128, 128, 128],
        0,
        &[&[(&[0], None)]],
    ),
];

#[test]
fn read_only(rt: HostRuntime) {
    for &(bytes, index, rows) in &READ {
        reads(&rt, rt.alloc(), bytes, index, rows);
    }
}

#[test]
fn trailing_layers_are_dropped(rt: HostRuntime) {
    let rows: &[Row] = &[(&[5], None), (&[], None), (&[], None)];
    writes(&rt, rt.alloc(), &[0x01, 0x00, 0x05], 0, &[rows]);
}

// Bytes that mean nothing.
const REFUSED: [&[u8]; 6] = [
    &[],
    &[0x60],
    &[0x60, 0x11],
    &[0x01],
    &[0x01, 0x00, 0x05, 0xFF, 0xFF, 0, 0, 0x1E],
    // A hostile rate.
    &[1, 0, 255, 255, 255, 255, 255, 255, 255, 255],
];

#[test]
fn refused(rt: HostRuntime) {
    for bytes in &REFUSED {
        refuses(&rt, rt.alloc(), bytes);
    }
}
