//! Extensions with texts of their own where memory may be refused once: the source is as it was,
//! and the same call with memory copies all of it. `.ci/run` refuses each growth in turn.

use crate::checks::{holds, is_map, named, same};
use rtp_ext::ExtensionMap;
use rtp_values::{Extension, Uri};
use std::alloc::Global;
use std::process::Abort;

const TEXT: &str = "urn:x";

// The extension of this text, with memory at the second try.
fn unknown(rt: &impl Abort, alloc: Global) -> Extension {
    match Extension::from_sdp_uri(alloc, TEXT) {
        Ok(made) => made,
        Err(_) => named(rt, alloc, TEXT),
    }
}

// The extension has this text.
fn has_text(rt: &impl Abort, at: &str, ext: &Extension) {
    same(rt, at, ext.as_uri(), TEXT);
}

#[test]
fn of_sdp(rt: HostRuntime) {
    let ext = unknown(&rt, rt.alloc());
    has_text(&rt, "the extension", &ext);
    holds(&rt, "its kind", matches!(ext, Extension::UnknownUri(_)));
}

#[test]
fn of_an_extension(rt: HostRuntime) {
    let source = unknown(&rt, rt.alloc());
    let copy = match source.clone(rt.alloc()) {
        Ok(copy) => copy,
        Err(_) => source.clone(rt.alloc()).expect(&rt, "memory"),
    };
    has_text(&rt, "the source", &source);
    has_text(&rt, "the copy", &copy);
}

// A copy of the text, with memory at the second try.
fn copied(rt: &impl Abort, alloc: Global, source: &Uri) -> Uri {
    match source.clone(alloc) {
        Ok(copy) => copy,
        Err(_) => source.clone(alloc).expect(rt, "memory"),
    }
}

#[test]
fn of_a_uri(rt: HostRuntime) {
    let Extension::UnknownUri(source) = unknown(&rt, rt.alloc()) else {
        panic!(rt; "a known kind");
    };
    let copy = copied(&rt, rt.alloc(), &source);
    holds(&rt, "the copy", copy == source);
    has_text(&rt, "the source", &Extension::UnknownUri(source));
    has_text(&rt, "the copy", &Extension::UnknownUri(copy));
}

// Whether the map is the standard one with the extension of the text at id 16.
fn is_whole(map: &ExtensionMap) -> bool {
    let has_text = match map.lookup(16) {
        Some(ext) => ext.as_uri() == TEXT,
        None => false,
    };
    has_text
        && map.lookup(1) == Some(&Extension::AudioLevel)
        && map.lookup(13) == Some(&Extension::VideoOrientation)
        && map.lookup(15).is_none()
}

#[test]
fn of_a_map(rt: HostRuntime) {
    let mut source = ExtensionMap::standard();
    source.set(16, unknown(&rt, rt.alloc()));
    let copy = match source.clone(rt.alloc()) {
        Ok(copy) => copy,
        Err(_) => source.clone(rt.alloc()).expect(&rt, "memory"),
    };
    holds(&rt, "the source", is_whole(&source));
    holds(&rt, "the copy", is_whole(&copy));
    is_map(&rt, &copy, source);
}
