//! Blocks of header extensions, read under a map.

use crate::checks::{bytes_of, holds};
use crate::fixtures::{level, one, spoken};
use crate::headers_written::is_read;
use ExtensionsForm::{OneByte, TwoByte};
use rtp_base::{Mid, Pt};
use rtp_wire::{Extension, ExtensionMap, ExtensionValues, ExtensionsForm, RtpHeader};
use std::alloc::Global;
use std::process::Abort;

// What a block's body makes of old values.
pub(crate) fn read(
    rt: &impl Abort,
    alloc: Global,
    map: &ExtensionMap,
    form: ExtensionsForm,
    body: &[u8],
    mut values: ExtensionValues,
) -> ExtensionValues {
    map.parse(alloc, body, form, &mut values)
        .expect(rt, "memory");
    values
}

// Twelve zeros with X and version 2 set, a block with this body and the zeros that fill its last
// word, and three more bytes; and how many bytes there are in front of those three.
fn packet(rt: &impl Abort, alloc: Global, form: ExtensionsForm, body: &[u8]) -> (Vec<u8>, usize) {
    let words = body.len().div_ceil(4).min(255);
    let len = 16 + 4 * words;
    let [high, low] = form.serialize();
    let front = [
        0x90,
        0,
        0,
        0,
        0,
        0,
        0,
        0,
        0,
        0,
        0,
        0,
        high,
        low,
        0,
        words as u8,
    ];
    let mut bytes = Vec::from_slice(alloc, &front).expect(rt, "memory");
    bytes.extend_from_slice(body).expect(rt, "memory");
    bytes.resize(len, 0).expect(rt, "memory");
    let after = [0x10, 0x80, 0xFF];
    bytes.extend_from_slice(&after).expect(rt, "memory");
    (bytes, len)
}

// The body sets these values and no others, read alone and in the block of a header.
fn check_body(
    rt: &impl Abort,
    alloc: Global,
    map: &ExtensionMap,
    form: ExtensionsForm,
    body: &[u8],
    wanted: ExtensionValues,
) {
    let values = read(rt, alloc, map, form, body, ExtensionValues::default());
    holds(rt, body.len(), values == wanted);
    let (bytes, header_len) = packet(rt, alloc, form, body);
    let wanted = RtpHeader {
        payload_type: Pt::from(0),
        ext_vals: wanted,
        header_len,
        ..RtpHeader::default()
    };
    is_read(rt, alloc, map, &bytes, &wanted);
}

// The same of a body in hexadecimal.
pub(crate) fn check(
    rt: &impl Abort,
    alloc: Global,
    map: ExtensionMap,
    form: ExtensionsForm,
    body: &str,
    wanted: ExtensionValues,
) {
    let body = bytes_of(rt, alloc, body);
    check_body(rt, alloc, &map, form, &body, wanted);
}

// A map with an audio level at each of these ids.
pub(crate) fn levels_at(ids: &[u8]) -> ExtensionMap {
    let mut map = ExtensionMap::empty();
    for id in ids {
        map.set(*id, Extension::AudioLevel);
    }
    map
}

// What a body sets, and nothing else.
#[derive(Clone, Copy)]
pub(crate) enum Set {
    // A level, and whether there is voice.
    Level(i8, bool),
    // A level with voice, a send time, a transport number, and the mid `xYj`.
    Spoken(i8, u64, u16),
    Mid(&'static str),
    Offset(Option<u32>),
}

pub(crate) fn values_of(set: Set) -> ExtensionValues {
    match set {
        Set::Level(audio_level, voice) => level(audio_level, voice),
        Set::Spoken(audio_level, send_time, number) => spoken(audio_level, send_time, number),
        Set::Mid(text) => ExtensionValues {
            mid: Some(Mid::from(text)),
            ..ExtensionValues::default()
        },
        Set::Offset(tx_time_offs) => ExtensionValues {
            tx_time_offs,
            ..ExtensionValues::default()
        },
    }
}

// A body, and what it sets under the standard map.
const BODIES: [(ExtensionsForm, &str, Set); 11] = [
    // Audio levels.
    (OneByte, "1080", Set::Level(0, true)),
    (OneByte, "107f", Set::Level(-127, false)),
    // The element of id 3 is cut short.
    (OneByte, "10aa3700", Set::Level(-42, true)),
    // The second level counts.
    (OneByte, "10aa1005", Set::Level(-5, false)),
    // Id 15 ends the block.
    (OneByte, "10aaf00010050000", Set::Level(-42, true)),
    // An element of id 0 with two bytes of data.
    (OneByte, "01100510aa000000", Set::Level(-42, true)),
    // Padding before and between elements.
    (OneByte, "000010050010aa00", Set::Level(-42, true)),
    // Whole blocks.
    (
        OneByte,
        "10ab22fe86d03100024278596a000000",
        Set::Spoken(-43, 63_631_652, 2),
    ),
    (
        OneByte,
        "10aa22fe206a3100004278596a000000",
        Set::Spoken(-42, 63_531_654, 0),
    ),
    (
        TwoByte,
        "0101aa0203fe206a03020000040378596a000000",
        Set::Spoken(-42, 63_531_654, 0),
    ),
    // A malformed mid: the second one isn't UTF-8.
    (OneByte, "404140ff", Set::Mid("A")),
];

#[test]
fn under_the_standard_map(rt: HostRuntime) {
    for &(form, body, set) in &BODIES {
        let map = ExtensionMap::standard();
        check(&rt, rt.alloc(), map, form, body, values_of(set));
    }
}

// A body, and what it sets where id 14 is the transmission offset.
const OFFSETS: [(&str, Set); 2] = [
    // Three bytes are too few.
    ("e2000064", Set::Offset(None)),
    ("e300000064000000", Set::Offset(Some(100))),
];

#[test]
fn transmission_offsets(rt: HostRuntime) {
    for &(body, set) in &OFFSETS {
        let map = one(14, Extension::TransmissionTimeOffset);
        check(&rt, rt.alloc(), map, OneByte, body, values_of(set));
    }
}

// A body, and the level that it sets where ids 1 and 5 are audio levels: the last well-formed
// element of the kind counts, whichever of its ids it has.
const TWO_IDS: [(ExtensionsForm, &str, Set); 4] = [
    (OneByte, "50851005", Set::Level(-5, false)),
    (OneByte, "10055085", Set::Level(-5, true)),
    // The last one has no data.
    (TwoByte, "0101aa0500", Set::Level(-42, true)),
    (TwoByte, "0501850100", Set::Level(-5, true)),
];

#[test]
fn two_ids_of_one_kind(rt: HostRuntime) {
    for &(form, body, set) in &TWO_IDS {
        let map = levels_at(&[1, 5]);
        check(&rt, rt.alloc(), map, form, body, values_of(set));
    }
}
