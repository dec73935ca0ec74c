//! Calls on maps of known extensions and their iterators, which ask for no memory. `.ci/run` sees
//! that a test of this file asks for none.

use crate::checks::{holds, same};
use crate::fixtures::{one, two};
use crate::maps::{has, next_id};
use rtp_ext::{Extension, ExtensionMap, ExtensionsForm, IterByMediaType};
use std::process::Abort;

#[test]
fn set_and_found(rt: HostRuntime) {
    let mut map = two(4, Extension::RtpMid, 255, Extension::ColorSpace);
    has(&rt, &map, 255, Extension::ColorSpace);
    same(&rt, "its id", map.id_of(Extension::RtpMid), Some(4));
    holds(&rt, "no entry", map.lookup(5).is_none());
    map.set(4, Extension::AudioLevel);
    has(&rt, &map, 4, Extension::AudioLevel);
    map.clear();
    holds(&rt, "cleared", map.is_empty());
    holds(&rt, "the same", map == ExtensionMap::empty());
}

#[test]
fn remapped(rt: HostRuntime) {
    let mut map = ExtensionMap::standard();
    map.remap(&[(14, &Extension::RtpMid), (1, &Extension::RtpStreamId)]);
    has(&rt, &map, 14, Extension::RtpMid);
    has(&rt, &map, 1, Extension::RtpStreamId);
    has(&rt, &map, 10, Extension::AudioLevel);
    holds(&rt, "the old id", map.lookup(4).is_none());
}

#[test]
fn walked(rt: HostRuntime) {
    let map = two(4, Extension::RtpMid, 255, Extension::ColorSpace);
    let mut entries = map.iter();
    let first = entries.next();
    holds(&rt, "4", first == Some((4, &Extension::RtpMid)));
    let second = entries.next();
    holds(&rt, "255", second == Some((255, &Extension::ColorSpace)));
    holds(&rt, "the end", entries.next().is_none());
}

// The first entry has this id.
fn begins_with(rt: &impl Abort, mut entries: IterByMediaType<'_>, id: u8) {
    same(rt, id, next_id(&mut entries), Some(id));
}

#[test]
fn of_a_medium(rt: HostRuntime) {
    let map = two(4, Extension::ColorSpace, 9, Extension::AudioLevel);
    begins_with(&rt, map.iter_audio(), 9);
    begins_with(&rt, map.iter_video(), 4);
    begins_with(&rt, map.iter_by_media_type(true), 9);
    let audio = map.cloned_with_type(true);
    holds(&rt, "audio", audio == one(9, Extension::AudioLevel));
}

#[test]
fn forms(rt: HostRuntime) {
    let word = ExtensionsForm::OneByte.serialize();
    same(&rt, "its word", word, [0xBE, 0xDE]);
    let found = ExtensionsForm::parse([0x10, 0x07]);
    same(&rt, "a form", found, Some(ExtensionsForm::TwoByte));
    same(&rt, "no form", ExtensionsForm::parse([0, 0]), None);
}
