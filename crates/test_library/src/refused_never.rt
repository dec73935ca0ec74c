//! Calls that ask for no memory, so that none can be refused to them. `.ci/run` sees that a test of
//! this file asks for none.

use crate::checks::{are_values, header_of, holds, named, parsed, same, verdict};
use crate::fixtures::{WITH_ALLOCATION, full, level, one};
use crate::refused_blocks::map;
use rtp_base::Ssrc;
use rtp_wire::{
    Elements, Extension, ExtensionMap, ExtensionValues, ExtensionsForm, Receiver, Receivers,
    RtpHeader, RtpPacket, Verdict, receive_run, receive_run_one, vla,
};
use std::alloc::Global;
use std::process::Abort;

// Blocks without an element of two bytes or more whose id is mapped to the allocation: no element
// of that id, one of one byte, and ones of other ids; and the level and transport number that they
// set.
const BODIES: [(ExtensionsForm, &[u8], Option<i8>, Option<u16>); 8] = [
    (ExtensionsForm::OneByte, &[], None, None),
    (
        ExtensionsForm::OneByte,
        &[0x10, 0xAA, 0x31, 0, 7],
        Some(-42),
        Some(7),
    ),
    (ExtensionsForm::OneByte, &[0x20, 0, 0x10, 5], Some(-5), None),
    (
        ExtensionsForm::OneByte,
        &[0x20, 0x61, 0x31, 0, 7],
        None,
        Some(7),
    ),
    (
        ExtensionsForm::OneByte,
        &[0x42, 1, 0, 5, 0x10, 0xAA],
        Some(-42),
        None,
    ),
    // The element of the allocation is cut short, or after the end of the block.
    (
        ExtensionsForm::OneByte,
        &[0x10, 0xAA, 0x22, 1, 0],
        Some(-42),
        None,
    ),
    (
        ExtensionsForm::OneByte,
        &[0x10, 0xAA, 0xF0, 0x22, 1, 0, 5],
        Some(-42),
        None,
    ),
    (
        ExtensionsForm::TwoByte,
        &[2, 0, 2, 1, 0, 1, 1, 0xAA, 18, 3, 1, 0, 5],
        Some(-42),
        None,
    ),
];

// The block sets this level and this transport number.
fn sets(
    rt: &impl Abort,
    alloc: Global,
    form: ExtensionsForm,
    body: &[u8],
    audio_level: Option<i8>,
    transport_cc: Option<u16>,
) {
    let mut values = ExtensionValues::default();
    let read = map().parse(alloc, body, form, &mut values);
    read.expect(rt, "no memory is needed");
    same(rt, body.len(), values.audio_level, audio_level);
    same(rt, body.len(), values.transport_cc, transport_cc);
}

#[test]
fn blocks(rt: HostRuntime) {
    for &(form, body, audio_level, transport_cc) in &BODIES {
        sets(&rt, rt.alloc(), form, body, audio_level, transport_cc);
    }
}

// Under a map without the kind, the same bytes as those that take memory under another.
#[test]
fn a_packet_under_another_map(rt: HostRuntime) {
    let exts = one(1, Extension::AudioLevel);
    let header = header_of(&rt, rt.alloc(), &WITH_ALLOCATION, &exts);
    are_values(&rt, "the packet", &header.ext_vals, &level(-42, true));
    same(&rt, "the packet", header.header_len, 28);
}

// The bytes begin with no header.
fn is_no_header(rt: &impl Abort, alloc: Global, bytes: &[u8]) {
    let read = parsed(rt, alloc, bytes, &map());
    holds(rt, bytes.len(), read.is_none());
}

// A packet whose block is cut short, and one of another version.
#[test]
fn no_header(rt: HostRuntime) {
    let mut bytes = WITH_ALLOCATION;
    for len in 0..28 {
        is_no_header(&rt, rt.alloc(), &bytes[..len]);
    }
    for first in [0, 0x50, 0xD0, 0x9F] {
        bytes[0] = first;
        is_no_header(&rt, rt.alloc(), &bytes);
    }
}

// The datagrams have no verdicts, as those of several sources and as those of one.
fn have_no_verdicts(rt: &impl Abort, alloc: Global, none: &[Vec<u8>]) {
    let verdicts = receive_run(alloc, none, &map());
    let verdicts = verdicts.expect(rt, "no memory is needed");
    same(rt, "by source", verdicts.len(), 0);
    let verdicts = receive_run_one(alloc, none, &map());
    let verdicts = verdicts.expect(rt, "no memory is needed");
    same(rt, "by one", verdicts.len(), 0);
}

#[test]
fn a_run_of_no_datagrams(rt: HostRuntime) {
    let none: Vec<Vec<u8>> = Vec::new(rt.alloc());
    have_no_verdicts(&rt, rt.alloc(), &none);
}

// The URI makes the known extension, of which a copy is the same.
fn is_known(rt: &impl Abort, alloc: Global, known: &Extension) {
    holds(rt, known, named(rt, alloc, known.as_uri()) == *known);
    let copy = known.clone(alloc).expect(rt, "no memory is needed");
    holds(rt, known, copy == *known);
}

#[test]
fn known_texts(rt: HostRuntime) {
    let exts = ExtensionMap::standard();
    for (_, known) in exts.iter() {
        is_known(&rt, rt.alloc(), known);
    }
    let kind = named(&rt, rt.alloc(), vla::URI);
    holds(&rt, "its kind", kind == Extension::VideoLayersAllocation);
}

fn is_map_copied(rt: &impl Abort, alloc: Global, exts: ExtensionMap) {
    let copy = exts.clone(alloc).expect(rt, "no memory is needed");
    holds(rt, exts.len(), copy == exts);
}

#[test]
fn copied_maps(rt: HostRuntime) {
    is_map_copied(&rt, rt.alloc(), ExtensionMap::empty());
    is_map_copied(&rt, rt.alloc(), ExtensionMap::standard());
    is_map_copied(&rt, rt.alloc(), map());
}

// A header of these values and no other.
fn with(ext_vals: ExtensionValues) -> RtpHeader {
    RtpHeader {
        ext_vals,
        ..RtpHeader::default()
    }
}

#[test]
fn copied_header(rt: HostRuntime) {
    let header = with(full());
    let copy = header.clone(rt.alloc()).expect(&rt, "no memory is needed");
    holds(&rt, "the copy", copy == header);
}

// Calls that aren't given an allocator.
#[test]
fn writing(rt: HostRuntime) {
    let header = RtpHeader {
        ext_vals: level(-42, true),
        ..RtpHeader::default()
    };
    let exts = ExtensionMap::standard();
    let mut buf = [0; 20];
    assert!(rt; header.wire_len(&exts) == 20);
    same(&rt, "the end", header.write_to(&mut buf, &exts), 20);
    same(
        &rt,
        "the block",
        buf.get(16..),
        Some([0x10, 0xAA, 0, 0].as_slice()),
    );
}

#[test]
fn elements_and_receiving(rt: HostRuntime) {
    let mut elements = Elements::new(&[0x10, 0xAA, 0, 0], ExtensionsForm::OneByte);
    let first = Some((1, [0xAA].as_slice()));
    same(&rt, "the element", elements.next(), first);
    let mut receiver = Receiver::new();
    receiver.receive(7);
    holds(&rt, "the highest", receiver.highest().is_some());
}

// A packet with a layer allocation is judged by its number: what it carries takes no memory.
#[test]
fn a_packet_with_an_allocation(rt: HostRuntime) {
    let packet = RtpPacket::parse(&WITH_ALLOCATION).expect(&rt, "a packet");
    let mut receiver = Receiver::new();
    let taken = receiver.receive(packet.sequence_number());
    same(&rt, "the first", taken, verdict(Some(47_000)));
    let again = receiver.receive(packet.sequence_number());
    same(&rt, "again", again, Verdict::Refused);
}

// What is asked of a source takes no memory, nor does a source that has no receiver.
#[test]
fn no_source(rt: HostRuntime) {
    let mut receivers = Receivers::new(rt.alloc());
    let ssrc = Ssrc::from(44);
    let number = receivers.number_of(ssrc, 7);
    holds(&rt, "accepted", receivers.accepts(ssrc, number));
    holds(&rt, "no receiver", receivers.get(ssrc).is_none());
    holds(&rt, "none forgotten", receivers.forget(ssrc).is_none());
    holds(&rt, "no source", receivers.is_empty());
}
