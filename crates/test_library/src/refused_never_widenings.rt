//! Low bits widened to 64. No call asks for memory: `.ci/run` sees that a test of this file asks
//! for none.

use crate::checks::same;
use rtp_base::SeqNo;
use rtp_wire::{RtpHeader, extend_u7, extend_u8, extend_u15, extend_u16, extend_u32};
use std::process::Abort;

// A previous number, seven bits, and what they are widened to.
const SEVEN: [(Option<u64>, u8, u64); 8] = [
    (None, 0, 0),
    (None, 1, 1),
    (None, 127, 127),
    // The eighth bit is not looked at.
    (None, 128, 0),
    (Some(0), 63, 63),
    (Some(0), 64, 64),
    (Some(0), 65, 18446744073709551553),
    (Some(130), 3, 131),
];

// A previous number, eight bits, and what they are widened to.
const EIGHT: [(Option<u64>, u8, u64); 4] = [
    (Some(255), 0, 256),
    (None, 255, 255),
    (Some(256), 128, 384),
    (Some(256), 129, 129),
];

#[test]
fn seven_and_eight_bits(rt: HostRuntime) {
    for &(previous, number, wanted) in &SEVEN {
        same(&rt, number, extend_u7(previous, number), wanted);
    }
    for &(previous, number, wanted) in &EIGHT {
        same(&rt, number, extend_u8(previous, number), wanted);
    }
}

// A previous number, fifteen bits, and what they are widened to.
const FIFTEEN: [(Option<u64>, u16, u64); 8] = [
    (None, 0, 0),
    (None, 1, 1),
    (None, 32_767, 32_767),
    (None, 32_768, 0),
    (Some(0), 16_383, 16_383),
    (Some(0), 16_384, 16_384),
    (Some(0), 16_385, 18446744073709535233),
    (Some(32_767), 0, 32_768),
];

#[test]
fn fifteen_bits(rt: HostRuntime) {
    for &(previous, number, wanted) in &FIFTEEN {
        same(&rt, number, extend_u15(previous, number), wanted);
    }
}

// A previous number, 16 bits, and what they are widened to.
const SIXTEEN: [(Option<u64>, u16, u64); 14] = [
    (None, 0, 0),
    (Some(0), 1, 1),
    (Some(2), 1, 1),
    (Some(3), 3, 3),
    (Some(65_535), 0, 65_536),
    (Some(65_500), 65_500, 65_500),
    // A smaller number is no rollover by itself.
    (Some(65_538), 1, 65_537),
    (Some(65_500), 2, 65_538),
    // Half of the sequence number space away, and one more.
    (Some(0), 32_768, 32_768),
    (Some(0), 32_769, 18446744073709518849),
    (Some(98_304), 0, 65_536),
    // Back past 0, and on past the greatest number.
    (Some(2), 65_535, 18446744073709551615),
    (Some(18446744073709551615), 2, 2),
    (Some(65_535), 2, 65_538),
];

// The header's 16 bits are widened to this number.
fn has_number(rt: &impl Abort, previous: Option<u64>, number: u16, wanted: u64) {
    let header = RtpHeader {
        sequence_number: number,
        ..RtpHeader::default()
    };
    let previous = match previous {
        Some(number) => Some(SeqNo::from(number)),
        None => None,
    };
    same(rt, number, header.sequence_number(previous).get(), wanted);
}

#[test]
fn sixteen_bits(rt: HostRuntime) {
    for &(previous, number, wanted) in &SIXTEEN {
        same(&rt, number, extend_u16(previous, number), wanted);
        has_number(&rt, previous, number, wanted);
    }
}

// A previous number, 32 bits, and what they are widened to.
const THIRTY_TWO: [(Option<u64>, u32, u64); 10] = [
    (None, 0, 0),
    (Some(0), 1, 1),
    (Some(2), 1, 1),
    (Some(3), 3, 3),
    (Some(4294967295), 0, 4294967296),
    (Some(4294967298), 1, 4294967297),
    (Some(0), 2147483648, 2147483648),
    (Some(0), 2147483649, 18446744071562067969),
    (Some(4294967264), 2, 4294967298),
    (Some(4294967264), 4294967264, 4294967264),
];

#[test]
fn thirty_two_bits(rt: HostRuntime) {
    for &(previous, number, wanted) in &THIRTY_TWO {
        same(&rt, number, extend_u32(previous, number), wanted);
    }
}
