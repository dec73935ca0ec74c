//! What renegotiations make of a map.

use crate::checks::{holds, is_map};
use crate::fixtures::two;
use crate::maps::{copy_of, has, have_ids, is_shown, with};
use rtp_ext::{Extension, ExtensionMap};

// Asks for one id, and for two.
pub(crate) fn ask(map: &mut ExtensionMap, id: u8, kind: Extension) {
    map.remap(&[(id, &kind)]);
}

pub(crate) fn ask_both(
    map: &mut ExtensionMap,
    id: u8,
    kind: Extension,
    next_id: u8,
    next: Extension,
) {
    map.remap(&[(id, &kind), (next_id, &next)]);
}

#[test]
fn remapped_to_a_free_id(rt: HostRuntime) {
    let mut map = ExtensionMap::standard();
    ask(&mut map, 14, Extension::TransportSequenceNumber);
    have_ids(&rt, map.iter_audio(), &[1, 2, 4, 10, 11, 14]);
    have_ids(&rt, map.iter_video(), &[2, 4, 10, 11, 13, 14]);
    has(&rt, &map, 14, Extension::TransportSequenceNumber);
    holds(&rt, "the old id", map.lookup(3).is_none());
    has(&rt, &map, 13, Extension::VideoOrientation);
}

#[test]
fn remapped_crosswise(rt: HostRuntime) {
    use Extension::{AudioLevel, TransportSequenceNumber, VideoOrientation};
    let mut map = two(12, TransportSequenceNumber, 14, VideoOrientation);
    ask_both(&mut map, 12, VideoOrientation, 14, TransportSequenceNumber);
    let text = "Extensions(12=video-orientation, 14=transport-wide-cc)";
    is_shown(&rt, rt.alloc(), &map, text);
    let before = copy_of(&rt, rt.alloc(), &map);
    ask_both(&mut map, 1, TransportSequenceNumber, 12, AudioLevel);
    is_map(&rt, &map, before);
}

#[test]
fn remapped_into_a_space(rt: HostRuntime) {
    use Extension::{TransportSequenceNumber, VideoContentType, VideoOrientation};
    let map = two(3, TransportSequenceNumber, 4, VideoOrientation);
    let mut map = with(map, 5, VideoContentType);
    ask_both(&mut map, 12, VideoOrientation, 14, TransportSequenceNumber);
    let text = "Extensions(5=video-content-type, 12=video-orientation, 14=transport-wide-cc)";
    is_shown(&rt, rt.alloc(), &map, text);
    let before = copy_of(&rt, rt.alloc(), &map);
    ask(&mut map, 1, TransportSequenceNumber);
    is_map(&rt, &map, before);
}
