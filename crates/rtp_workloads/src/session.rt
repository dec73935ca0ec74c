//! A server where sessions begin and are renegotiated: maps are made of SDP's lines, looked up, copied,
//! and laid beside those of peers.

use crate::digest::Digest;
use crate::numbers::Numbers;
use rtp_wire::{Extension, ExtensionMap, Kinds, NewIds};
use std::alloc::{AllocError, Global};

// How many sessions a session's peers are among.
const PEERS: usize = 16;

// The URIs that browsers offer, those that the library knows and those that it doesn't.
const URIS: [&str; 20] = [
    "urn:ietf:params:rtp-hdrext:ssrc-audio-level",
    "http://www.webrtc.org/experiments/rtp-hdrext/abs-send-time",
    "http://www.ietf.org/id/draft-holmer-rmcat-transport-wide-cc-extensions-01",
    "urn:ietf:params:rtp-hdrext:sdes:mid",
    "urn:ietf:params:rtp-hdrext:toffset",
    "urn:3gpp:video-orientation",
    "http://www.webrtc.org/experiments/rtp-hdrext/playout-delay",
    "http://www.webrtc.org/experiments/rtp-hdrext/video-content-type",
    "http://www.webrtc.org/experiments/rtp-hdrext/video-timing",
    "http://www.webrtc.org/experiments/rtp-hdrext/color-space",
    "urn:ietf:params:rtp-hdrext:sdes:rtp-stream-id",
    "urn:ietf:params:rtp-hdrext:sdes:repaired-rtp-stream-id",
    "http://www.webrtc.org/experiments/rtp-hdrext/video-layers-allocation00",
    "http://www.webrtc.org/experiments/rtp-hdrext/abs-capture-time",
    "http://tools.ietf.org/html/draft-ietf-avtext-framemarking-07",
    "urn:ietf:params:rtp-hdrext:csrc-audio-level",
    "urn:ietf:params:rtp-hdrext:encrypt urn:ietf:params:rtp-hdrext:sdes:mid",
    "http://www.webrtc.org/experiments/rtp-hdrext/video-frame-tracking-id",
    "http://www.webrtc.org/experiments/rtp-hdrext/inband-cn",
    "https://aomediacodec.github.io/av1-rtp-spec/#dependency-descriptor-rtp-header-extension",
];

// The extension of a line: one of the URIs, or now and then one that nobody knows.
fn extension(alloc: Global, numbers: &mut Numbers, place: u32) -> Result<Extension, AllocError> {
    let uri = URIS.get(place as usize).unwrap_or(&"urn:example");
    if !numbers.one_in(8) {
        return Extension::from_sdp_uri(alloc, uri);
    }
    let version = numbers.word();
    let uri = format!(in alloc; "{uri}/{version}")?;
    Extension::from_sdp_uri(alloc, uri.as_str())
}

// The map of an offer: about ten lines of the URIs in an order of its own, whose ids leave some out, in
// one of eight offers those below 16.
fn offered(alloc: Global, numbers: &mut Numbers) -> Result<ExtensionMap, AllocError> {
    let mut exts = ExtensionMap::empty();
    let wanted = numbers.word();
    // Steps of this many pass all of the 20 URIs.
    let step = [1, 3, 7, 9][numbers.below(4) as usize % 4];
    let mut place = numbers.below(20);
    let mut id = if numbers.one_in(8) { 15u32 } else { 0 };
    for line in 0..20u32 {
        place = place.wrapping_add(step) % 20;
        if (wanted >> line) % 2 == 1 {
            let left_out = if numbers.one_in(4) {
                numbers.below(3)
            } else {
                0
            };
            id = id.wrapping_add(left_out);
            exts.set((id % 255) as u8 + 1, extension(alloc, numbers, place)?);
            id = id.wrapping_add(1);
        }
    }
    Ok(exts)
}

// A map of nearly all ids, each with a URI of its own that is no known one.
fn hostile(alloc: Global, numbers: &mut Numbers) -> Result<ExtensionMap, AllocError> {
    let mut exts = ExtensionMap::empty();
    for id in 1..=255 {
        let number = numbers.below(400);
        let uri = format!(in alloc; "http://www.webrtc.org/experiments/rtp-hdrext/video-{number}")?;
        exts.set(id, Extension::from_sdp_uri(alloc, uri.as_str())?);
    }
    Ok(exts)
}

// The peer's steps of a renegotiation.
fn renegotiate(exts: &mut ExtensionMap, numbers: &mut Numbers) {
    let steps = [
        Extension::TransportSequenceNumber,
        Extension::VideoOrientation,
        Extension::RtpMid,
        Extension::RtpStreamId,
    ];
    let [first, second, third, fourth] = &steps;
    let id = (numbers.below(11) % 11) as u8 + 1;
    exts.remap(&[
        (id, first),
        (id + 1, second),
        (id + 2, third),
        (id + 3, fourth),
    ]);
}

fn add_id(digest: &mut Digest, id: Option<u8>) {
    match id {
        Some(id) => digest.add(u64::from(id)),
        None => digest.add(0),
    }
}

// The ids that a session looks up.
fn look_up(exts: &ExtensionMap, digest: &mut Digest) {
    for ext in [
        Extension::AudioLevel,
        Extension::TransportSequenceNumber,
        Extension::AbsoluteSendTime,
        Extension::RtpMid,
        Extension::RtpStreamId,
        Extension::RepairedRtpStreamId,
        Extension::VideoLayersAllocation,
    ] {
        add_id(digest, exts.id_of(ext));
    }
}

fn add_map(exts: &ExtensionMap, digest: &mut Digest) {
    for (id, ext) in exts.iter() {
        digest.add(u64::from(id) * 4096 + ext.as_uri().len() as u64);
    }
}

fn add_new_ids(ids: &NewIds, digest: &mut Digest) {
    digest.add_bytes(&ids.ids());
}

// What a session does once its map is agreed on.
fn begin(
    alloc: Global,
    exts: &ExtensionMap,
    peers: &[ExtensionMap],
    digest: &mut Digest,
) -> Result<ExtensionMap, AllocError> {
    look_up(exts, digest);
    add_map(exts, digest);
    add_map(&exts.cloned_with_type(true), digest);
    add_map(&exts.cloned_with_type(false), digest);
    for peer in peers {
        add_new_ids(&NewIds::between(exts, peer), digest);
    }
    add_new_ids(&NewIds::to_retransmission(exts), digest);
    for id in 0..16 {
        digest.add(u64::from(exts.get(id).is_some()));
    }
    exts.clone(alloc)
}

// The same beside the three peers from a place on.
fn begin_beside(
    alloc: Global,
    exts: &ExtensionMap,
    peers: &[ExtensionMap],
    place: usize,
    digest: &mut Digest,
) -> Result<(), AllocError> {
    if place <= peers.len() && 3 <= peers.len() - place {
        let copy = begin(alloc, exts, &peers[place..place + 3], digest)?;
        digest.add(u64::from(copy == *exts));
    }
    Ok(())
}

// A session that begins, is renegotiated, and then is among the peers.
fn session(
    alloc: Global,
    peers: &mut [ExtensionMap],
    numbers: &mut Numbers,
    digest: &mut Digest,
) -> Result<(), AllocError> {
    let mut exts = if numbers.one_in(256) {
        hostile(alloc, numbers)?
    } else {
        offered(alloc, numbers)?
    };
    let place = numbers.below(PEERS as u32) as usize;
    begin_beside(alloc, &exts, peers, place, digest)?;
    renegotiate(&mut exts, numbers);
    look_up(&exts, digest);
    if let Some(slot) = peers.get_mut(place) {
        *slot = exts;
    }
    Ok(())
}

/// Begins so many hundreds of sessions.
pub fn run(alloc: Global, seed: u64, hundreds: u32) -> Result<u64, AllocError> {
    let mut numbers = Numbers::new(seed);
    let mut digest = Digest::new();
    let mut peers = Vec::new(alloc);
    for _ in 0..PEERS + 3 {
        peers.push(offered(alloc, &mut numbers)?)?;
    }
    for _ in 0..u64::from(hundreds) * 100 {
        session(alloc, peers.as_mut_slice(), &mut numbers, &mut digest)?;
    }
    Ok(digest.get())
}
