//! The kinds of header extension: their URIs, texts and media.

use crate::checks::{holds, named, same, shows};
use rtp_values::{Extension, KnownKind, Uri};
use std::alloc::Global;
use std::process::Abort;

// A kind, its URI, its text, and whether audio and video streams have it.
pub(crate) const KINDS: [(KnownKind, &str, &str, bool, bool); 15] = [
    (
        KnownKind::AbsoluteSendTime,
        "http://www.webrtc.org/experiments/rtp-hdrext/abs-send-time",
        "abs-send-time",
        true,
        true,
    ),
    (
        KnownKind::AbsoluteCaptureTime,
        "http://www.webrtc.org/experiments/rtp-hdrext/abs-capture-time",
        "abs-capture-time",
        true,
        true,
    ),
    (
        KnownKind::AudioLevel,
        "urn:ietf:params:rtp-hdrext:ssrc-audio-level",
        "ssrc-audio-level",
        true,
        false,
    ),
    (
        KnownKind::TransmissionTimeOffset,
        "urn:ietf:params:rtp-hdrext:toffset",
        "toffset",
        true,
        true,
    ),
    (
        KnownKind::VideoOrientation,
        "urn:3gpp:video-orientation",
        "video-orientation",
        false,
        true,
    ),
    (
        KnownKind::TransportSequenceNumber,
        "http://www.ietf.org/id/draft-holmer-rmcat-transport-wide-cc-extensions-01",
        "transport-wide-cc",
        true,
        true,
    ),
    (
        KnownKind::PlayoutDelay,
        "http://www.webrtc.org/experiments/rtp-hdrext/playout-delay",
        "playout-delay",
        true,
        true,
    ),
    (
        KnownKind::VideoContentType,
        "http://www.webrtc.org/experiments/rtp-hdrext/video-content-type",
        "video-content-type",
        false,
        true,
    ),
    (
        KnownKind::VideoTiming,
        "http://www.webrtc.org/experiments/rtp-hdrext/video-timing",
        "video-timing",
        false,
        true,
    ),
    (
        KnownKind::RtpStreamId,
        "urn:ietf:params:rtp-hdrext:sdes:rtp-stream-id",
        "rtp-stream-id",
        true,
        true,
    ),
    (
        KnownKind::RepairedRtpStreamId,
        "urn:ietf:params:rtp-hdrext:sdes:repaired-rtp-stream-id",
        "repaired-rtp-stream-id",
        true,
        true,
    ),
    (
        KnownKind::RtpMid,
        "urn:ietf:params:rtp-hdrext:sdes:mid",
        "mid",
        true,
        true,
    ),
    (
        KnownKind::FrameMarking,
        "http://tools.ietf.org/html/draft-ietf-avtext-framemarking-07",
        "frame-marking07",
        false,
        true,
    ),
    (
        KnownKind::ColorSpace,
        "http://www.webrtc.org/experiments/rtp-hdrext/color-space",
        "color-space",
        false,
        true,
    ),
    (
        KnownKind::VideoLayersAllocation,
        "http://www.webrtc.org/experiments/rtp-hdrext/video-layers-allocation00",
        "http://www.webrtc.org/experiments/rtp-hdrext/video-layers-allocation00",
        false,
        true,
    ),
];

// A URI of this text, and the extension that it names.
pub(crate) fn uri_of(rt: &impl Abort, alloc: Global, uri: &str) -> Uri {
    Uri::from(String::from_str(alloc, uri).expect(rt, "memory"))
}

pub(crate) fn unknown(rt: &impl Abort, alloc: Global, uri: &str) -> Extension {
    Extension::UnknownUri(uri_of(rt, alloc, uri))
}

// The kind has this URI, which names it: also by itself, where it is a known one, and else nothing.
fn has_uri(rt: &impl Abort, alloc: Global, kind: &Extension, uri: &str) {
    same(rt, uri, kind.as_uri(), uri);
    same(rt, uri, KnownKind::from_uri(uri), kind.known_kind());
    holds(rt, uri, named(rt, alloc, uri) == *kind);
}

// Whether audio and video streams have the kind is as it says.
fn has_media(rt: &impl Abort, kind: &Extension, audio: bool, video: bool) {
    same(rt, kind, kind.is_audio(), audio);
    same(rt, kind, kind.is_video(), video);
}

// The kind has this URI and this text, and its copy is like it.
fn check(rt: &impl Abort, alloc: Global, kind: &Extension, uri: &str, name: &str) {
    has_uri(rt, alloc, kind, uri);
    shows(rt, alloc, kind, name);
    holds(rt, uri, kind.clone(alloc).expect(rt, "memory") == *kind);
}

#[test]
fn known_kinds(rt: HostRuntime) {
    for &(known, uri, name, audio, video) in &KINDS {
        let kind = Extension::from(known);
        check(&rt, rt.alloc(), &kind, uri, name);
        has_media(&rt, &kind, audio, video);
    }
}

// The URI names an unknown extension, which has it for its text.
pub(crate) fn check_unknown(rt: &impl Abort, alloc: Global, uri: &str) {
    let ext = named(rt, alloc, uri);
    holds(rt, uri, ext == unknown(rt, alloc, uri));
    check(rt, alloc, &ext, uri, uri);
    has_media(rt, &ext, false, false);
}

const UNKNOWN: [&str; 7] = [
    "urn:x",
    "",
    "urn:é€😀",
    // A known one with a letter more, one less, and in another case.
    "urn:3gpp:video-orientation0",
    "urn:3gpp:video-orientatio",
    "URN:3gpp:video-orientation",
    "http://www.webrtc.org/experiments/rtp-hdrext/video-layers-allocation",
];

#[test]
fn unknown_uris(rt: HostRuntime) {
    for uri in &UNKNOWN {
        check_unknown(&rt, rt.alloc(), uri);
    }
}
