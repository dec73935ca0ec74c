//! Blocks with several layer allocations where memory may be refused twice in a row: what stands
//! each time, and that a call with memory gives all of it. `.ci/run` refuses each growth in turn,
//! and each two in a row.

use crate::checks::{holds, same};
use crate::fixtures::{is_written, level};
use crate::refused_blocks::{NONE_AND_ONE, THREE, TWO, is_cut, is_whole, read};
use rtp_wire::{Extension, ExtensionValues};
use std::alloc::Global;
use std::process::Abort;

// Reads the body, and returns whether memory was there. Where it wasn't, the level stands alone, or
// beside the allocation of these data.
fn is_read(rt: &impl Abort, alloc: Global, body: &[u8], before: Option<&[u8]>) -> bool {
    let mut values = ExtensionValues::default();
    if read(alloc, body, &mut values).is_ok() {
        holds(rt, "the end", is_whole(&values, 6));
        return true;
    }
    is_cut(rt, &values);
    match before {
        None => same(rt, "the level alone", values == level(-42, true), true),
        Some(data) => {
            let kind = Extension::VideoLayersAllocation;
            holds(rt, "the one before", is_written(&kind, &values, data));
        }
    }
    false
}

// Reads the body until memory is there, the third time at the latest.
fn read_at_last(rt: &impl Abort, alloc: Global, body: &[u8], before: Option<&[u8]>) {
    for _ in 0..2 {
        if is_read(rt, alloc, body, before) {
            return;
        }
    }
    holds(rt, "memory", is_read(rt, alloc, body, before));
}

#[test]
fn two_allocations(rt: HostRuntime) {
    read_at_last(&rt, rt.alloc(), &TWO, None);
}

#[test]
fn three_allocations(rt: HostRuntime) {
    read_at_last(&rt, rt.alloc(), &THREE, None);
}

#[test]
fn behind_one_that_takes_no_memory(rt: HostRuntime) {
    read_at_last(&rt, rt.alloc(), &NONE_AND_ONE, Some(&[0]));
}
