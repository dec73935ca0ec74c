//! What tests of several topics assert. What fails is named by what is given for `at`.

use rtp_base::{Pt, SeqNo, Ssrc};
use rtp_wire::{Extension, ExtensionMap, ExtensionValues, RtpHeader, Verdict};
use std::alloc::{AllocError, Global};
use std::fmt::{Debug, Display};
use std::process::Abort;

// The two are the same.
pub(crate) fn same<A: Copy + Display, T: Copy + Debug + PartialEq>(
    rt: &impl Abort,
    at: A,
    found: T,
    wanted: T,
) {
    assert_eq!(rt; found, wanted, "at {at}");
}

// The fact holds.
pub(crate) fn holds<A: Copy + Display>(rt: &impl Abort, at: A, fact: bool) {
    assert!(rt; fact, "at {at}");
}

// Memory was found for the text, which is this one.
pub(crate) fn is_text(rt: &impl Abort, shown: Result<String, AllocError>, text: &str) {
    same(rt, text, shown.expect(rt, "memory").as_str(), text);
}

// The value has this text, whatever width, sign and precision are set.
pub(crate) fn shows<T: Display>(rt: &impl Abort, alloc: Global, value: &T, text: &str) {
    is_text(rt, format!(in alloc; "{value}"), text);
    is_text(rt, format!(in alloc; "{value:8}"), text);
    is_text(rt, format!(in alloc; "{value:08}"), text);
    is_text(rt, format!(in alloc; "{value:.1}"), text);
    is_text(rt, format!(in alloc; "{value:<24}"), text);
    shows_to_the_right(rt, alloc, value, text);
}

fn shows_to_the_right<T: Display>(rt: &impl Abort, alloc: Global, value: &T, text: &str) {
    is_text(rt, format!(in alloc; "{value:>12}"), text);
    is_text(rt, format!(in alloc; "{value:>20}"), text);
    is_text(rt, format!(in alloc; "{value:>40}"), text);
    is_text(rt, format!(in alloc; "{value:>+12}"), text);
    is_text(rt, format!(in alloc; "{value:>+24}"), text);
}

// The extension of this URI.
pub(crate) fn named(rt: &impl Abort, alloc: Global, uri: &str) -> Extension {
    Extension::from_sdp_uri(alloc, uri).expect(rt, "memory")
}

// The two maps are the same.
pub(crate) fn is_map(rt: &impl Abort, map: &ExtensionMap, wanted: ExtensionMap) {
    holds(rt, map.len(), *map == wanted);
}

// The values are the same.
pub(crate) fn are_values(
    rt: &impl Abort,
    at: &str,
    values: &ExtensionValues,
    wanted: &ExtensionValues,
) {
    holds(rt, at, *values == *wanted);
}

// The bytes that the text has in hexadecimal.
pub(crate) fn bytes_of(rt: &impl Abort, alloc: Global, text: &str) -> Vec<u8> {
    hex::decode(alloc, text).expect(rt, "hexadecimal")
}

// What is written are the bytes, in front of three bytes of ones that stood in the buffer.
pub(crate) fn is_in_front_of_ones(rt: &impl Abort, at: &str, written: &[u8], bytes: &[u8]) {
    let len = bytes.len();
    same(rt, at, written.get(..len), Some(bytes));
    same(rt, at, written.get(len..), Some([255; 3].as_slice()));
}

// The header that the bytes begin with under the map.
pub(crate) fn parsed(
    rt: &impl Abort,
    alloc: Global,
    bytes: &[u8],
    exts: &ExtensionMap,
) -> Option<RtpHeader> {
    RtpHeader::parse(alloc, bytes, exts).expect(rt, "memory")
}

// The same of bytes that begin with one.
pub(crate) fn header_of(
    rt: &impl Abort,
    alloc: Global,
    bytes: &[u8],
    exts: &ExtensionMap,
) -> RtpHeader {
    parsed(rt, alloc, bytes, exts).expect(rt, "a header")
}

// What the header of `PACKET`, or of a packet like it, has.
pub(crate) fn header(
    number: u16,
    timestamp: u32,
    ext_vals: ExtensionValues,
    header_len: usize,
) -> RtpHeader {
    RtpHeader {
        version: 2,
        has_padding: true,
        has_extension: true,
        csrc_count: 0,
        marker: false,
        payload_type: Pt::from(111),
        sequence_number: number,
        timestamp,
        ssrc: Ssrc::from(777459193),
        csrc: [0; 15],
        ext_vals,
        header_len,
    }
}

// What is said of a packet that is taken as this number, or refused.
pub(crate) fn verdict(taken: Option<u64>) -> Verdict {
    match taken {
        Some(number) => Verdict::Taken(SeqNo::from(number)),
        None => Verdict::Refused,
    }
}
