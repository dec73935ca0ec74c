//! The blocks of default headers, written and read back.

use crate::allocations_in_headers::header;
use crate::blocks::{Set, values_of};
use crate::checks::bytes_of;
use crate::fixtures::{captured, level, one, sent};
use crate::headers_written::check;
use rtp_wire::{Extension, ExtensionMap, ExtensionValues};
use std::alloc::Global;
use std::process::Abort;

// The default header with these values is written with this block, and read back with the values
// that the block carries.
fn check_block(
    rt: &impl Abort,
    alloc: Global,
    exts: ExtensionMap,
    ext_vals: ExtensionValues,
    block: &[u8],
    carried: ExtensionValues,
) {
    let mut bytes = bytes_of(rt, alloc, "900100000000000000000000");
    bytes.extend_from_slice(block).expect(rt, "memory");
    let image = header(carried, bytes.len());
    check(rt, alloc, exts, header(ext_vals, 16), &bytes, image);
}

#[test]
fn each_level_under_id_1(rt: HostRuntime) {
    for audio_level in -127..=0i8 {
        for (voice, top_bit) in [(false, 0), (true, 0x80)] {
            let byte = top_bit | audio_level.unsigned_abs();
            let block = [190, 222, 0, 1, 16, byte, 0, 0];
            let map = one(1, Extension::AudioLevel);
            let values = level(audio_level, voice);
            let carried = level(audio_level, voice);
            check_block(&rt, rt.alloc(), map, values, &block, carried);
        }
    }
}

#[test]
fn no_values(rt: HostRuntime) {
    let values = || ExtensionValues::default();
    let block = [190, 222, 0, 0];
    let (empty, standard) = (ExtensionMap::empty(), ExtensionMap::standard());
    check_block(&rt, rt.alloc(), empty, values(), &block, values());
    check_block(&rt, rt.alloc(), standard, values(), &block, values());
}

#[test]
fn empty_mid(rt: HostRuntime) {
    let unnamed = || values_of(Set::Mid(""));
    let map = one(4, Extension::RtpMid);
    let block = [16, 0, 0, 1, 4, 0, 0, 0];
    check_block(&rt, rt.alloc(), map, unnamed(), &block, unnamed());
}

// The id of a send time, and the block of 1,000 seconds: read back the time is known modulo 64
// seconds.
const SEND_TIMES: [(u8, &[u8]); 2] = [
    (4, &[190, 222, 0, 1, 0x42, 0xA0, 0, 0]),
    (16, &[16, 0, 0, 2, 0x10, 3, 0xA0, 0, 0, 0, 0, 0]),
];

#[test]
fn send_times(rt: HostRuntime) {
    for &(id, block) in &SEND_TIMES {
        let map = one(id, Extension::AbsoluteSendTime);
        let values = sent(1_000_000_000);
        check_block(&rt, rt.alloc(), map, values, block, sent(40_000_000));
    }
}

#[test]
fn capture_time_of_id_16(rt: HostRuntime) {
    let captured = || captured(Some(-987_654_321));
    let map = one(16, Extension::AbsoluteCaptureTime);
    let text = "1000000510100102030405060708ffffffffc521974f0000";
    let block = bytes_of(&rt, rt.alloc(), text);
    check_block(&rt, rt.alloc(), map, captured(), &block, captured());
}
