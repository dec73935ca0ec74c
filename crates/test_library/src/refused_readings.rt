//! Reading where memory may be refused once: what stands then, and that the same call with memory
//! gives all of it. `.ci/run` refuses each growth in turn.

use crate::checks::{holds, same, verdict};
use crate::refused_copies::{allocation, header};
use crate::refused_samples::{
    ALLOCATION, PACKET, datagrams, has_whole, have_verdicts, is_whole, map,
};
use rtp_base::Mid;
use rtp_wire::vla::VideoLayersAllocation;
use rtp_wire::{Extension, ExtensionValues, ExtensionsForm, RtpHeader, RtpPacket, Verdict};
use std::alloc::Global;
use std::process::Abort;

// An allocation that takes no memory.
fn plain(alloc: Global) -> VideoLayersAllocation {
    VideoLayersAllocation {
        current_simulcast_stream_index: 2,
        simulcast_streams: Vec::new(alloc),
    }
}

// Whether the values have this allocation.
fn has_plain(values: &ExtensionValues) -> bool {
    match &values.video_layers_allocation {
        Some(allocation) => {
            allocation.current_simulcast_stream_index == 2
                && allocation.simulcast_streams.is_empty()
        }
        None => false,
    }
}

#[test]
fn an_allocation(rt: HostRuntime) {
    let read = allocation(&rt, rt.alloc());
    holds(&rt, "the allocation", is_whole(&read));
}

// A level of -7, and an allocation that takes no memory.
fn old(alloc: Global) -> ExtensionValues {
    ExtensionValues {
        audio_level: Some(-7),
        video_layers_allocation: Some(plain(alloc)),
        ..ExtensionValues::default()
    }
}

// The values with the data of an allocation, which are well-formed, whether the first time is
// refused or not.
fn with_data(rt: &impl Abort, alloc: Global, mut values: ExtensionValues) -> ExtensionValues {
    let kind = Extension::VideoLayersAllocation;
    let first = kind.parse_value(alloc, &ALLOCATION, &mut values);
    if first.is_err() {
        holds(rt, "the old allocation", has_plain(&values));
        same(rt, "the old level", values.audio_level, Some(-7));
        let second = kind.parse_value(alloc, &ALLOCATION, &mut values);
        same(rt, "the second time", second.expect(rt, "memory"), Some(()));
    }
    values
}

#[test]
fn a_value(rt: HostRuntime) {
    let values = with_data(&rt, rt.alloc(), old(rt.alloc()));
    holds(&rt, "the allocation", has_whole(&values));
    same(&rt, "the level", values.audio_level, Some(-7));
}

// The values with the packet's block, whether the first time is refused or not.
fn with_block(rt: &impl Abort, alloc: Global, mut values: ExtensionValues) -> ExtensionValues {
    let (body, form) = (&PACKET[16..], ExtensionsForm::TwoByte);
    if map().parse(alloc, body, form, &mut values).is_err() {
        // The element in front of the allocation is read, and the one after it isn't.
        same(rt, "the level in front", values.audio_level, Some(-43));
        holds(rt, "the old allocation", has_plain(&values));
        same(rt, "no type after it", values.video_content_type, None);
        map()
            .parse(alloc, body, form, &mut values)
            .expect(rt, "memory");
    }
    values
}

#[test]
fn a_block(rt: HostRuntime) {
    let values = ExtensionValues {
        video_layers_allocation: Some(plain(rt.alloc())),
        ..ExtensionValues::default()
    };
    let values = with_block(&rt, rt.alloc(), values);
    same(&rt, "the level", values.audio_level, Some(-43));
    holds(&rt, "the allocation", has_whole(&values));
    same(&rt, "the type", values.video_content_type, Some(1));
}

#[test]
fn a_header(rt: HostRuntime) {
    let header = header(&rt, rt.alloc());
    same(&rt, "the length", header.header_len, 36);
    same(&rt, "the level", header.ext_vals.audio_level, Some(-43));
    holds(&rt, "the allocation", has_whole(&header.ext_vals));
}

#[test]
fn a_header_of_a_packet(rt: HostRuntime) {
    let packet = RtpPacket::parse(&PACKET).expect(&rt, "a packet");
    let header = match packet.header(rt.alloc(), &map()) {
        Ok(header) => header,
        Err(_) => packet.header(rt.alloc(), &map()).expect(&rt, "memory"),
    };
    same(&rt, "the length", header.header_len, 36);
    same(&rt, "the level", header.ext_vals.audio_level, Some(-43));
    holds(&rt, "the allocation", has_whole(&header.ext_vals));
}

// The header with the packet, whether the first time is refused or not.
fn with_packet(rt: &impl Abort, alloc: Global, mut header: RtpHeader) -> RtpHeader {
    if header.parse_into(alloc, &PACKET, &map()).is_err() {
        // The fields are those of the packet, and the element in front of the allocation is read;
        // nothing that the header had before stays.
        same(rt, "the new number", header.sequence_number, 47_000);
        same(rt, "the new length", header.header_len, 36);
        let in_front = ExtensionValues {
            audio_level: Some(-43),
            voice_activity: Some(true),
            ..ExtensionValues::default()
        };
        holds(rt, "the values in front", header.ext_vals == in_front);
        let again = header.parse_into(alloc, &PACKET, &map());
        holds(rt, "the second time", again.expect(rt, "memory"));
    }
    header
}

#[test]
fn a_header_read_again(rt: HostRuntime) {
    let header = RtpHeader {
        ext_vals: ExtensionValues {
            mid: Some(Mid::from("old")),
            ..old(rt.alloc())
        },
        ..RtpHeader::default()
    };
    let header = with_packet(&rt, rt.alloc(), header);
    same(&rt, "the number", header.sequence_number, 47_000);
    same(&rt, "the length", header.header_len, 36);
    same(&rt, "the level", header.ext_vals.audio_level, Some(-43));
    same(&rt, "the type", header.ext_vals.video_content_type, Some(1));
    holds(&rt, "no old mid", header.ext_vals.mid.is_none());
    holds(&rt, "the allocation", has_whole(&header.ext_vals));
}

// A packet, and one that is cut short.
fn made(rt: &impl Abort, alloc: Global) -> Vec<Vec<u8>> {
    datagrams(rt, alloc, &[&PACKET, &PACKET[..11]])
}

// What is said of the two.
fn due() -> [Verdict; 2] {
    [verdict(Some(47_000)), Verdict::Unreadable]
}

#[test]
fn a_run(rt: HostRuntime) {
    let datagrams = made(&rt, rt.alloc());
    have_verdicts(&rt, rt.alloc(), &datagrams, &map(), &due());
}

#[test]
fn a_run_of_one_datagram(rt: HostRuntime) {
    let datagrams = made(&rt, rt.alloc());
    let packet = datagrams.get(..1).expect(&rt, "the packet");
    let wanted = [verdict(Some(47_000))];
    have_verdicts(&rt, rt.alloc(), packet, &map(), &wanted);
}
