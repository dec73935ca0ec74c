//! What the tests of refused memory read, and how they compare it without memory.

use crate::checks::same;
use rtp_wire::vla::VideoLayersAllocation;
use rtp_wire::{
    Extension, ExtensionMap, ExtensionValues, Verdict, receive_run, receive_run_one, vla,
};
use std::alloc::{AllocError, Global};
use std::process::Abort;

// Two streams of one layer each, of two rates and of one, and the first one's resolution.
pub(crate) const ALLOCATION: [u8; 11] = [
    0x51, 0x40, 0x64, 0xAC, 0x02, 0x78, 0x01, 0x3F, 0x00, 0xB3, 0x0F,
];

// A packet whose two-byte block has a level of -43 with voice, that allocation, and a content type
// of 1.
pub(crate) const PACKET: [u8; 36] = [
    0x90, 33, 0xB7, 0x98, 0, 0, 0x27, 0x10, 0, 0, 0, 44, 0x10, 0, 0, 5, 2, 1, 0xAB, 1, 11, 0x51,
    0x40, 0x64, 0xAC, 0x02, 0x78, 0x01, 0x3F, 0x00, 0xB3, 0x0F, 3, 1, 1, 0,
];

// The map under which all of them are values.
pub(crate) fn map() -> ExtensionMap {
    let mut map = ExtensionMap::empty();
    map.set(1, Extension::VideoLayersAllocation);
    map.set(2, Extension::AudioLevel);
    map.set(3, Extension::VideoContentType);
    map
}

// Whether it is the allocation of those bytes, which takes no memory to tell.
pub(crate) fn is_whole(allocation: &VideoLayersAllocation) -> bool {
    let mut buf = [0; 11];
    vla::checked_wire_len(allocation) == Some(11)
        && vla::write_to(allocation, &mut buf) == 11
        && buf == ALLOCATION
}

// Whether the values have the whole allocation.
pub(crate) fn has_whole(values: &ExtensionValues) -> bool {
    match &values.video_layers_allocation {
        Some(allocation) => is_whole(allocation),
        None => false,
    }
}

// The extension of this URI, at once or at the second time, which has it.
pub(crate) fn named(rt: &impl Abort, alloc: Global, uri: &str) -> Extension {
    let ext = match Extension::from_sdp_uri(alloc, uri) {
        Ok(ext) => ext,
        Err(_) => Extension::from_sdp_uri(alloc, uri).expect(rt, "memory"),
    };
    same(rt, uri, ext.as_uri(), uri);
    ext
}

fn datagrams_of(alloc: Global, rows: &[&[u8]]) -> Result<Vec<Vec<u8>>, AllocError> {
    let mut datagrams = Vec::new(alloc);
    for bytes in rows {
        datagrams.push(Vec::from_slice(alloc, bytes)?)?;
    }
    Ok(datagrams)
}

// Datagrams of these bytes, with memory at the second try.
pub(crate) fn datagrams(rt: &impl Abort, alloc: Global, rows: &[&[u8]]) -> Vec<Vec<u8>> {
    match datagrams_of(alloc, rows) {
        Ok(datagrams) => datagrams,
        Err(_) => datagrams_of(alloc, rows).expect(rt, "memory"),
    }
}

// The verdicts are these, with memory at the second try and a receiver for each source.
fn have_verdicts_by_source(
    rt: &impl Abort,
    alloc: Global,
    datagrams: &[Vec<u8>],
    exts: &ExtensionMap,
    wanted: &[Verdict],
) {
    let verdicts = match receive_run(alloc, datagrams, exts) {
        Ok(verdicts) => verdicts,
        Err(_) => receive_run(alloc, datagrams, exts).expect(rt, "memory"),
    };
    same(rt, "by source", verdicts.as_slice(), wanted);
}

// The same with one receiver for all.
fn have_verdicts_by_one(
    rt: &impl Abort,
    alloc: Global,
    datagrams: &[Vec<u8>],
    exts: &ExtensionMap,
    wanted: &[Verdict],
) {
    let verdicts = match receive_run_one(alloc, datagrams, exts) {
        Ok(verdicts) => verdicts,
        Err(_) => receive_run_one(alloc, datagrams, exts).expect(rt, "memory"),
    };
    same(rt, "by one", verdicts.as_slice(), wanted);
}

// The verdicts are these by both runs.
pub(crate) fn have_verdicts(
    rt: &impl Abort,
    alloc: Global,
    datagrams: &[Vec<u8>],
    exts: &ExtensionMap,
    wanted: &[Verdict],
) {
    have_verdicts_by_source(rt, alloc, datagrams, exts, wanted);
    have_verdicts_by_one(rt, alloc, datagrams, exts, wanted);
}
