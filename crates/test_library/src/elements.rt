//! The elements of header extension blocks, lent one by one.

use crate::checks::same;
use ExtensionsForm::{OneByte, TwoByte};
use rtp_ext::{Elements, ExtensionsForm};
use std::process::Abort;

// The block has these elements in order, and none once they have ended.
pub(crate) fn check(rt: &impl Abort, form: ExtensionsForm, block: &[u8], wanted: &[(u8, &[u8])]) {
    let mut elements = Elements::new(block, form);
    for (id, bytes) in wanted {
        same(rt, *id, elements.next(), Some((*id, *bytes)));
    }
    for _ in 0..3 {
        same(rt, "the end", elements.next(), None);
    }
}

// A block, and its elements.
const BLOCKS: [(ExtensionsForm, &[u8], &[(u8, &[u8])]); 15] = [
    // One-byte headers.
    (OneByte, &[], &[]),
    (
        OneByte,
        &[0x10, 0xAA, 0x01, 0x10, 0x05, 0xF0, 0x00],
        &[(1, &[0xAA]), (0, &[0x10, 0x05])],
    ),
    (OneByte, &[0x00, 0x00, 0x37, 0x00], &[]),
    (OneByte, &[0x10], &[]),
    (
        OneByte,
        &[0x10, 0xAA, 0x10, 0x05],
        &[(1, &[0xAA]), (1, &[0x05])],
    ),
    (
        OneByte,
        &[0xE2, 0x00, 0x00, 0x64],
        &[(14, &[0x00, 0x00, 0x64])],
    ),
    (
        OneByte,
        &[0xE3, 0x00, 0x00, 0x00, 0x64, 0x00, 0x00, 0x00],
        &[(14, &[0x00, 0x00, 0x00, 0x64])],
    ),
    // An element that is cut short ends what is read of the block.
    (OneByte, &[0x10, 0xAA, 0x37, 0x00], &[(1, &[0xAA])]),
    // The id 0 in the one-byte form: with data it is that of an element like any other.
    (
        OneByte,
        &[0x01, 0x10, 0x05, 0x10, 0xAA, 0x00, 0x00, 0x00],
        &[(0, &[0x10, 0x05]), (1, &[0xAA])],
    ),
    // Two-byte headers.
    (TwoByte, &[], &[]),
    (
        TwoByte,
        &[0x01, 0x00, 0x0F, 0x01, 0x2A],
        &[(1, &[]), (15, &[0x2A])],
    ),
    (TwoByte, &[0x01, 0x02, 0xAA], &[]),
    (TwoByte, &[0x01], &[]),
    (TwoByte, &[0xFF, 0x01, 0x07, 0x00, 0x02], &[(255, &[0x07])]),
    (
        TwoByte,
        &[0xF0, 0x01, 0x05, 0x00, 0x10, 0x02, 0x00, 0x01],
        &[(240, &[0x05]), (16, &[0x00, 0x01])],
    ),
];

#[test]
fn elements_of_blocks(rt: HostRuntime) {
    for &(form, block, wanted) in &BLOCKS {
        check(&rt, form, block, wanted);
    }
}
