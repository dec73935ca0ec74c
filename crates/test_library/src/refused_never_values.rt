//! Calls on values that ask for no memory, so that none can be refused to them. `.ci/run` sees that
//! a test of this file asks for none.

use crate::checks::{are_values, holds, same};
use crate::fixtures::{full, is_written};
use crate::values::{is_read_into, is_refused};
use rtp_values::{Extension, ExtensionValues};
use rtp_vla::vla;
use std::alloc::Global;
use std::process::Abort;

// Whether the bytes mean an allocation.
fn means_one(rt: &impl Abort, alloc: Global, bytes: &[u8]) -> bool {
    let read = vla::parse(alloc, bytes);
    read.expect(rt, "no memory is needed").is_some()
}

// One byte is read into the values exactly if it is 0.
fn is_read_if_zero(rt: &impl Abort, alloc: Global, byte: u8) {
    let kind = Extension::VideoLayersAllocation;
    let mut values = full();
    let is_read = is_read_into(rt, alloc, &kind, &[byte], &mut values);
    same(rt, byte, is_read, byte == 0);
    same(rt, byte, is_written(&kind, &values, &[0]), byte == 0);
}

#[test]
fn allocations_of_one_byte_or_none(rt: HostRuntime) {
    holds(&rt, "no byte", !means_one(&rt, rt.alloc(), &[]));
    for byte in 0..=255u8 {
        same(&rt, byte, means_one(&rt, rt.alloc(), &[byte]), byte == 0);
        is_read_if_zero(&rt, rt.alloc(), byte);
    }
    is_refused(&rt, rt.alloc(), &Extension::VideoLayersAllocation, &[]);
}

fn are_values_copied(rt: &impl Abort, alloc: Global, values: &ExtensionValues) {
    let copy = values.clone(alloc).expect(rt, "no memory is needed");
    are_values(rt, "a copy", &copy, values);
}

// An allocation without streams has no list.
#[test]
fn copied_values(rt: HostRuntime) {
    are_values_copied(&rt, rt.alloc(), &full());
    let kind = Extension::VideoLayersAllocation;
    let mut values = full();
    is_read_into(&rt, rt.alloc(), &kind, &[0], &mut values);
    are_values_copied(&rt, rt.alloc(), &values);
}
