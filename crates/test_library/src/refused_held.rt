//! Calls that put something else in place of what owns memory, or drop it. `.ci/run` counts what is
//! held at the end of each test here: nothing, whatever growth was refused.

use crate::checks::{holds, same};
use crate::refused_copies::{allocation, header};
use crate::refused_samples::{ALLOCATION, PACKET, has_whole, map, named};
use rtp_wire::{Extension, ExtensionMap, ExtensionValues, ExtensionsForm, RtpHeader};
use std::alloc::Global;
use std::process::Abort;

// A packet without a block.
const PLAIN: [u8; 12] = [0x80, 33, 0, 7, 0, 0, 0, 8, 0, 0, 0, 44];

// The header reads the packet, at once or at the second time.
fn reads(rt: &impl Abort, alloc: Global, header: &mut RtpHeader, packet: &[u8]) {
    let read = match header.parse_into(alloc, packet, &map()) {
        Ok(read) => read,
        Err(_) => header
            .parse_into(alloc, packet, &map())
            .expect(rt, "memory"),
    };
    holds(rt, "a header", read);
}

#[test]
fn a_header_with_another_allocation(rt: HostRuntime) {
    let mut old = header(&rt, rt.alloc());
    reads(&rt, rt.alloc(), &mut old, &PACKET);
    holds(&rt, "the allocation", has_whole(&old.ext_vals));
}

#[test]
fn a_header_without_its_allocation(rt: HostRuntime) {
    let mut old = header(&rt, rt.alloc());
    reads(&rt, rt.alloc(), &mut old, &PLAIN);
    let left = &old.ext_vals.video_layers_allocation;
    holds(&rt, "no allocation", left.is_none());
}

// Values with an allocation that owns memory.
fn with_allocation(rt: &impl Abort, alloc: Global) -> ExtensionValues {
    ExtensionValues {
        video_layers_allocation: Some(allocation(rt, alloc)),
        ..ExtensionValues::default()
    }
}

#[test]
fn a_value(rt: HostRuntime) {
    let kind = Extension::VideoLayersAllocation;
    let mut values = with_allocation(&rt, rt.alloc());
    if kind
        .parse_value(rt.alloc(), &ALLOCATION, &mut values)
        .is_err()
    {
        let again = kind.parse_value(rt.alloc(), &ALLOCATION, &mut values);
        same(&rt, "again", again.expect(&rt, "memory"), Some(()));
    }
    holds(&rt, "the allocation", has_whole(&values));
}

// The map reads the packet's block into the values, at once or at the second time.
fn reads_block(rt: &impl Abort, alloc: Global, exts: &ExtensionMap, values: &mut ExtensionValues) {
    let (body, form) = (&PACKET[16..], ExtensionsForm::TwoByte);
    if exts.parse(alloc, body, form, values).is_err() {
        let again = exts.parse(alloc, body, form, values);
        again.expect(rt, "memory");
    }
}

#[test]
fn a_block(rt: HostRuntime) {
    let mut values = with_allocation(&rt, rt.alloc());
    reads_block(&rt, rt.alloc(), &map(), &mut values);
    holds(&rt, "the allocation", has_whole(&values));
}

// A map with an unknown text on 5 and on 6.
fn with_texts(rt: &impl Abort, alloc: Global) -> ExtensionMap {
    let mut exts = ExtensionMap::standard();
    exts.set(5, named(rt, alloc, "urn:example:five"));
    exts.set(6, named(rt, alloc, "urn:example:six"));
    exts
}

#[test]
fn a_map_cleared(rt: HostRuntime) {
    let mut exts = with_texts(&rt, rt.alloc());
    same(&rt, "before", exts.len(), 9);
    exts.clear();
    same(&rt, "after", exts.len(), 0);
}

#[test]
fn a_map_set(rt: HostRuntime) {
    let mut exts = with_texts(&rt, rt.alloc());
    exts.set(5, Extension::RtpMid);
    exts.set(6, named(&rt, rt.alloc(), "urn:example:another"));
    // The map has no such id.
    exts.set(0, named(&rt, rt.alloc(), "urn:example:zero"));
    same(&rt, "after", exts.len(), 9);
}

#[test]
fn a_map_remapped(rt: HostRuntime) {
    let mut exts = with_texts(&rt, rt.alloc());
    let five = named(&rt, rt.alloc(), "urn:example:five");
    let other = named(&rt, rt.alloc(), "urn:example:other");
    exts.remap(&[(6, &five), (7, &other), (1, &five), (0, &five)]);
    same(&rt, "moved", exts.id_of(five), Some(6));
    same(&rt, "not there", exts.id_of(other), None);
}

#[test]
fn a_map_of_a_medium(rt: HostRuntime) {
    let exts = with_texts(&rt, rt.alloc());
    let mut audio = exts.cloned_with_type(true);
    audio.set(5, named(&rt, rt.alloc(), "urn:example:five"));
    audio = exts.cloned_with_type(true);
    holds(&rt, "no text", audio.lookup(5).is_none());
}
