//! The limits of a video layers allocation: what can't be written, and the longest.

use crate::allocations::mean;
use crate::checks::{holds, same};
use crate::fixtures::{Row, allocation, largest};
use rtp_vla::vla::{VideoLayersAllocation, checked_wire_len, is_writable, wire_len, write_to};
use std::alloc::Global;
use std::process::Abort;

// The allocation of a row can't be written, and is copied.
fn unwritable(rt: &impl Abort, alloc: Global, row: usize, index: u8, rows: &[&[Row]]) {
    let v = allocation(rt, alloc, index, rows);
    holds(rt, row, !is_writable(&v));
    holds(rt, row, checked_wire_len(&v).is_none());
    let copy = v.clone(alloc).expect(rt, "memory");
    holds(rt, row, copy == v);
}

const ONE: Row<'static> = (&[5], None);

// An index and streams that can't be written.
const NOT_WRITABLE: [(u8, &[&[Row<'static>]]); 10] = [
    (4, &[&[ONE]]),
    (1, &[]),
    (0, &[&[ONE], &[ONE], &[ONE], &[ONE], &[ONE]]),
    (0, &[&[ONE, ONE, ONE, ONE, ONE]]),
    (0, &[&[(&[1, 2, 3, 4, 5], None)]]),
    // Layers that are not writable.
    (0, &[&[(&[1 << 63], None)]]),
    (0, &[&[ONE, (&[], Some((1, 1, 1)))]]),
    (0, &[&[ONE, (&[6], Some((1, 1, 1)))]]),
    (0, &[&[(&[5], Some((0, 1, 1)))]]),
    (0, &[&[(&[5], Some((1, 0, 1)))]]),
];

#[test]
fn not_writable(rt: HostRuntime) {
    for (row, &(index, rows)) in NOT_WRITABLE.iter().enumerate() {
        unwritable(&rt, rt.alloc(), row, index, rows);
    }
}

#[test]
fn lengths(rt: HostRuntime) {
    let v = largest(&rt, rt.alloc(), 34359738368);
    assert!(rt; is_writable(&v));
    assert!(rt; wire_len(&v) == 255);
    let mut buf = [0; 255];
    same(&rt, "written", write_to(&v, &mut buf), 255);
    holds(
        &rt,
        "the front",
        buf.starts_with(&[0x3F, 0xFF, 0xFF, 0xFF, 0xFF]),
    );
    mean(&rt, rt.alloc(), &buf, v);
}

#[test]
fn a_byte_longer(rt: HostRuntime) {
    let longer = largest(&rt, rt.alloc(), 4398046511104);
    assert!(rt; is_writable(&longer));
    same(&rt, "the length", wire_len(&longer), 256);
}
