//! Video layers allocations as values of headers.

use crate::checks::{are_values, holds, same};
use crate::fixtures::{allocation, largest, one};
use crate::headers_written::{check, is_read, written};
use rtp_wire::vla::VideoLayersAllocation;
use rtp_wire::{Extension, ExtensionMap, ExtensionValues, ExtensionsForm, RtpHeader};
use std::alloc::Global;
use std::process::Abort;

// The values of this allocation alone.
pub(crate) fn carrying(allocation: VideoLayersAllocation) -> ExtensionValues {
    ExtensionValues {
        video_layers_allocation: Some(allocation),
        ..ExtensionValues::default()
    }
}

// A default header with these values, of this length.
pub(crate) fn header(ext_vals: ExtensionValues, header_len: usize) -> RtpHeader {
    RtpHeader {
        ext_vals,
        header_len,
        ..RtpHeader::default()
    }
}

// The map of id 1 to the allocation.
pub(crate) fn mapped() -> ExtensionMap {
    one(1, Extension::VideoLayersAllocation)
}

#[test]
fn largest_data(rt: HostRuntime) {
    let alloc = rt.alloc();
    let header = header(carrying(largest(&rt, alloc, 34_359_738_368)), 276);
    let bytes = written(&rt, alloc, &header, &mapped());
    same(&rt, "the length", bytes.len(), 279);
    // The form's word, 65 words, id 1, 255 bytes of data, and how they begin.
    let head = [0x10, 0, 0, 65, 1, 255, 0x3F, 0xFF, 0xFF, 0xFF, 0xFF];
    holds(
        &rt,
        "the head",
        bytes.get(12..).unwrap_or(&[]).starts_with(&head),
    );
    holds(&rt, "the end", bytes.ends_with(&[0, 0, 0, 255, 255, 255]));
    is_read(&rt, alloc, &mapped(), &bytes, &header);
}

#[test]
fn no_data(rt: HostRuntime) {
    let alloc = rt.alloc();
    let bytes = [0x90, 1, 0, 0, 0, 0, 0, 0, 0, 0, 0, 0, 0x10, 0, 0, 0];
    let plain = || header(ExtensionValues::default(), 16);
    let longer = header(carrying(largest(&rt, alloc, 4_398_046_511_104)), 16);
    check(&rt, alloc, mapped(), longer, &bytes, plain());
    check(&rt, alloc, mapped(), plain(), &bytes, plain());
}

// What the block's body makes of the values.
pub(crate) fn with_block(
    rt: &impl Abort,
    alloc: Global,
    form: ExtensionsForm,
    body: &[u8],
    mut values: ExtensionValues,
) -> ExtensionValues {
    mapped()
        .parse(alloc, body, form, &mut values)
        .expect(rt, "memory");
    values
}

// The values of an allocation without streams.
pub(crate) fn without_streams(rt: &impl Abort, alloc: Global) -> ExtensionValues {
    carrying(allocation(rt, alloc, 0, &[]))
}

#[test]
fn blocks(rt: HostRuntime) {
    let alloc = rt.alloc();
    // The second element has a width of 65536, and isn't well-formed.
    let body = [1, 1, 0, 1, 8, 1, 0, 5, 0xFF, 0xFF, 0, 0, 0x1E, 0, 0, 0];
    let values = ExtensionValues::default();
    let read = with_block(&rt, alloc, ExtensionsForm::TwoByte, &body, values);
    are_values(&rt, "two bytes", &read, &without_streams(&rt, alloc));
}
