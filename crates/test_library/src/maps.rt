//! Maps of extension ids.

use crate::checks::{holds, is_map, is_text, named, same};
use rtp_ext::{Extension, ExtensionMap, IterByMediaType};
use std::alloc::Global;
use std::process::Abort;

// The map with one more entry.
pub(crate) fn with(mut map: ExtensionMap, id: u8, ext: Extension) -> ExtensionMap {
    map.set(id, ext);
    map
}

// The map is shown as this text.
pub(crate) fn is_shown(rt: &impl Abort, alloc: Global, map: &ExtensionMap, text: &str) {
    is_text(rt, format!(in alloc; "{map:?}"), text);
}

// The id has this kind in the map.
pub(crate) fn has(rt: &impl Abort, map: &ExtensionMap, id: u8, kind: Extension) {
    holds(rt, id, map.lookup(id) == Some(&kind));
}

// A copy of the map.
pub(crate) fn copy_of(rt: &impl Abort, alloc: Global, map: &ExtensionMap) -> ExtensionMap {
    map.clone(alloc).expect(rt, "memory")
}

const STANDARD: &str =
    "Extensions(1=ssrc-audio-level, 2=abs-send-time, 3=transport-wide-cc, 4=mid, \
10=rtp-stream-id, 11=repaired-rtp-stream-id, 13=video-orientation)";

#[test]
fn entries(rt: HostRuntime) {
    let mut map = ExtensionMap::empty();
    is_shown(&rt, rt.alloc(), &map, "Extensions()");
    map.set(1, Extension::AudioLevel);
    map.set(4, Extension::RtpMid);
    let text = "Extensions(1=ssrc-audio-level, 4=mid)";
    is_shown(&rt, rt.alloc(), &map, text);
    map.set(255, Extension::RtpMid);
    let text = "Extensions(1=ssrc-audio-level, 4=mid, 255=mid)";
    is_shown(&rt, rt.alloc(), &map, text);
}

#[test]
fn the_id_0(rt: HostRuntime) {
    let mut map = ExtensionMap::standard();
    map.set(0, Extension::ColorSpace);
    is_map(&rt, &map, ExtensionMap::standard());
}

#[test]
fn standard(rt: HostRuntime) {
    is_shown(&rt, rt.alloc(), &ExtensionMap::standard(), STANDARD);
}

// The id of the next entry.
pub(crate) fn next_id(entries: &mut IterByMediaType<'_>) -> Option<u8> {
    let (id, _) = entries.next()?;
    Some(id)
}

// The entries have these ids, in this order.
pub(crate) fn have_ids(rt: &impl Abort, mut entries: IterByMediaType<'_>, wanted: &[u8]) {
    for id in wanted {
        same(rt, *id, next_id(&mut entries), Some(*id));
    }
    same(rt, "the end", next_id(&mut entries), None);
}

// The entries of audio or of video streams are shown as this text.
fn has_of_type(rt: &impl Abort, alloc: Global, map: &ExtensionMap, audio: bool, text: &str) {
    is_shown(rt, alloc, &map.cloned_with_type(audio), text);
}

#[test]
fn media_of_the_standard(rt: HostRuntime) {
    let standard = ExtensionMap::standard();
    let audio = "Extensions(1=ssrc-audio-level, \
2=abs-send-time, 3=transport-wide-cc, 4=mid, 10=rtp-stream-id, 11=repaired-rtp-stream-id)";
    has_of_type(&rt, rt.alloc(), &standard, true, audio);
    let video = "Extensions(2=abs-send-time, \
3=transport-wide-cc, 4=mid, 10=rtp-stream-id, 11=repaired-rtp-stream-id, 13=video-orientation)";
    has_of_type(&rt, rt.alloc(), &standard, false, video);
}

#[test]
fn copies(rt: HostRuntime) {
    let mut map = ExtensionMap::standard();
    map.set(9, named(&rt, rt.alloc(), "urn:x"));
    let copy = copy_of(&rt, rt.alloc(), &map);
    has(&rt, &copy, 9, named(&rt, rt.alloc(), "urn:x"));
    holds(&rt, "another", copy != ExtensionMap::standard());
    is_map(&rt, &map, copy);
}
