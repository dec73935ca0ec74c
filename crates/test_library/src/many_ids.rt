//! Headers under maps of high ids, and of every id.

use crate::checks::{bytes_of, same};
use crate::fixtures::{level, one};
use crate::headers_written::{check, is_read};
use rtp_base::Pt;
use rtp_wire::{Extension, ExtensionMap, RtpHeader};
use std::alloc::Global;
use std::process::Abort;

#[test]
fn a_level_of_id_17(rt: HostRuntime) {
    let map = one(17, Extension::AudioLevel);
    let text = "9000000000000000000000001000000111012a00";
    let header = RtpHeader {
        payload_type: Pt::from(0),
        ext_vals: level(-42, false),
        header_len: 20,
        ..RtpHeader::default()
    };
    let bytes = bytes_of(&rt, rt.alloc(), text);
    is_read(&rt, rt.alloc(), &map, &bytes, &header);
}

// The map of each id to the frame marking.
fn frame_marks() -> ExtensionMap {
    let mut map = ExtensionMap::empty();
    for id in 1..=255 {
        map.set(id, Extension::FrameMarking);
    }
    map
}

// A default header with a frame mark of 1, of this length.
fn marked(header_len: usize) -> RtpHeader {
    let mut header = RtpHeader::default();
    header.ext_vals.frame_mark = Some(1);
    header.header_len = header_len;
    header
}

// Its bytes, with an element for each id: 383 words and the two words before them.
fn marked_bytes(rt: &impl Abort, alloc: Global) -> Vec<u8> {
    let mut bytes = bytes_of(rt, alloc, "9001000000000000000000001000017f");
    for id in 1..=255 {
        let element = [id, 4, 0, 0, 0, 1];
        bytes.extend_from_slice(&element).expect(rt, "memory");
    }
    bytes.extend_from_slice(&[0, 0]).expect(rt, "memory");
    bytes
}

#[test]
fn a_frame_mark_of_each_id(rt: HostRuntime) {
    let alloc = rt.alloc();
    let bytes = marked_bytes(&rt, alloc);
    same(&rt, "the length", bytes.len(), 1548);
    check(&rt, alloc, frame_marks(), marked(16), &bytes, marked(1548));
}
