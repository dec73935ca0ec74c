//! Copying where memory may be refused once: the source is as it was, and the same call with memory
//! copies all of it. `.ci/run` refuses each growth in turn.

use crate::checks::{holds, same};
use crate::refused_samples::{ALLOCATION, PACKET, is_whole, map, named};
use rtp_wire::vla::{SimulcastStreamAllocation, SpatialLayerAllocation, VideoLayersAllocation};
use rtp_wire::{Extension, ExtensionMap, ExtensionValues, RtpHeader, Uri, vla};
use std::alloc::Global;
use std::process::Abort;

// The allocation, and the header that has it.
pub(crate) fn allocation(rt: &impl Abort, alloc: Global) -> VideoLayersAllocation {
    let read = match vla::parse(alloc, &ALLOCATION) {
        Ok(read) => read,
        Err(_) => vla::parse(alloc, &ALLOCATION).expect(rt, "memory"),
    };
    read.expect(rt, "an allocation")
}

pub(crate) fn header(rt: &impl Abort, alloc: Global) -> RtpHeader {
    let read = match RtpHeader::parse(alloc, &PACKET, &map()) {
        Ok(read) => read,
        Err(_) => RtpHeader::parse(alloc, &PACKET, &map()).expect(rt, "memory"),
    };
    read.expect(rt, "a header")
}

#[test]
fn of_an_allocation(rt: HostRuntime) {
    let source = allocation(&rt, rt.alloc());
    let copy = match source.clone(rt.alloc()) {
        Ok(copy) => copy,
        Err(_) => source.clone(rt.alloc()).expect(&rt, "memory"),
    };
    holds(&rt, "the source", is_whole(&source));
    holds(&rt, "the copy", is_whole(&copy));
}

// The layer is copied at once or at the second time, and so is a stream with each of its layers.
fn copies_layer(rt: &impl Abort, alloc: Global, layer: &SpatialLayerAllocation) {
    let copy = match layer.clone(alloc) {
        Ok(copy) => copy,
        Err(_) => layer.clone(alloc).expect(rt, "memory"),
    };
    holds(rt, "the copy", copy == *layer);
}

fn copies_stream(rt: &impl Abort, alloc: Global, stream: &SimulcastStreamAllocation) {
    let copy = match stream.clone(alloc) {
        Ok(copy) => copy,
        Err(_) => stream.clone(alloc).expect(rt, "memory"),
    };
    holds(rt, "the copy", copy == *stream);
    for layer in &stream.spatial_layers {
        copies_layer(rt, alloc, layer);
    }
}

#[test]
fn of_streams_and_layers(rt: HostRuntime) {
    let source = allocation(&rt, rt.alloc());
    for stream in &source.simulcast_streams {
        copies_stream(&rt, rt.alloc(), stream);
    }
    holds(&rt, "the source", is_whole(&source));
}

// The values are copied at once or at the second time.
fn copies_values(rt: &impl Abort, alloc: Global, source: &ExtensionValues) {
    let copy = match source.clone(alloc) {
        Ok(copy) => copy,
        Err(_) => source.clone(alloc).expect(rt, "memory"),
    };
    holds(rt, "the copy", copy == *source);
}

#[test]
fn of_values(rt: HostRuntime) {
    copies_values(&rt, rt.alloc(), &header(&rt, rt.alloc()).ext_vals);
}

#[test]
fn of_a_header(rt: HostRuntime) {
    let source = header(&rt, rt.alloc());
    let copy = match source.clone(rt.alloc()) {
        Ok(copy) => copy,
        Err(_) => source.clone(rt.alloc()).expect(&rt, "memory"),
    };
    holds(&rt, "the copy", copy == source);
    same(&rt, "its length", copy.header_len, 36);
}

// The extension of a URI is copied at once or at the second time.
fn copies_extension(rt: &impl Abort, alloc: Global, source: &Extension) {
    let copy = match source.clone(alloc) {
        Ok(copy) => copy,
        Err(_) => source.clone(alloc).expect(rt, "memory"),
    };
    holds(rt, "the copy", copy == *source);
}

// The extension of a URI, made of an owned text.
fn of_text(rt: &impl Abort, alloc: Global, uri: &str) -> Extension {
    let text = match String::from_str(alloc, uri) {
        Ok(text) => text,
        Err(_) => String::from_str(alloc, uri).expect(rt, "memory"),
    };
    Extension::UnknownUri(Uri::from(text))
}

#[test]
fn of_a_map(rt: HostRuntime) {
    let own = named(&rt, rt.alloc(), "urn:example:one");
    copies_extension(&rt, rt.alloc(), &own);
    let other = of_text(&rt, rt.alloc(), "urn:example:two");
    holds(&rt, "another", other != own);
    let mut source = ExtensionMap::standard();
    source.set(5, own);
    source.set(6, other);
    copies_map(&rt, rt.alloc(), &source);
}

// The map is copied at once or at the second time.
fn copies_map(rt: &impl Abort, alloc: Global, source: &ExtensionMap) {
    let copy = match source.clone(alloc) {
        Ok(copy) => copy,
        Err(_) => source.clone(alloc).expect(rt, "memory"),
    };
    holds(rt, "the copy", copy == *source);
}
