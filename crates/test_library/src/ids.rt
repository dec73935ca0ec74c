//! Ids, numbers and their texts.

use crate::checks::{holds, same, shows};
use rtp_base::{Mid, MidRid, Rid, SeqNo, TwccClusterId};

// Texts, and the mids that are made of them.
const MIDS: [(&str, &str); 10] = [
    // A character of two bytes is one underscore, and so is a dash.
    ("é-1", "__1"),
    ("", ""),
    ("a b", "a_b"),
    ("audio-1", "audio_1"),
    // Characters of three and of four bytes.
    ("€x", "_x"),
    ("😀", "_"),
    ("a_Z9", "a_Z9"),
    ("0123456789abcdef", "0123456789abcdef"),
    ("0123456789abcdefg", "0123456789abcdef"),
    // The cut comes after the underscores.
    ("éééééééééééééééé!", "________________"),
];

#[test]
fn texts_of_mids(rt: HostRuntime) {
    for &(text, kept) in &MIDS {
        let mid = Mid::from(text);
        same(&rt, text, mid.as_str(), kept);
        shows(&rt, rt.alloc(), &mid, kept);
    }
}

// Texts, and the stream ids that are made of them.
const RIDS: [(&str, &str); 6] = [
    ("abcdefghij", "abcdefgh"),
    ("hi", "hi"),
    ("hi-res", "hi_res"),
    ("é1", "_1"),
    ("ééééééééé", "________"),
    ("", ""),
];

#[test]
fn texts_of_rids(rt: HostRuntime) {
    for &(text, kept) in &RIDS {
        let rid = Rid::from(text);
        same(&rt, text, rid.as_str(), kept);
        shows(&rt, rt.alloc(), &rid, kept);
    }
}

// Eight bytes, and whether they are those of a stream id.
const ARRAYS: [([u8; 8], bool); 9] = [
    (*b"        ", true),
    (*b"a_Z9    ", true),
    (*b"abcdefgh", true),
    (*b"q       ", true),
    (*b" a      ", false),
    (*b"a b     ", false),
    (*b"a-b     ", false),
    (*b"ab\0     ", false),
    (*b"       \xff", false),
];

#[test]
fn bytes_of_rids(rt: HostRuntime) {
    for (row, (bytes, wanted)) in ARRAYS.iter().enumerate() {
        same(&rt, row, Rid::is_id_array(bytes), *wanted);
    }
    let rid = *b"q       ";
    assert!(rt; Rid::is_id_array(&rid));
    holds(&rt, "q", Rid::from_array(rid) == Rid::from("q"));
}

#[test]
fn a_section_and_its_streams(rt: HostRuntime) {
    let (mid, rid) = (Mid::from("m"), Rid::from("r"));
    let (whole, part) = (MidRid(mid, None), MidRid(mid, Some(rid)));
    let other_stream = MidRid(mid, Some(Rid::from("q")));
    let other_section = MidRid(Mid::from("n"), None);
    holds(&rt, "m and m/r", whole.special_equals(&part));
    holds(&rt, "m/r and m", !part.special_equals(&whole));
    holds(&rt, "m/r and m/r", part.special_equals(&part));
    holds(&rt, "m/r and m/q", !part.special_equals(&other_stream));
    holds(&rt, "m and n", !whole.special_equals(&other_section));
}

#[test]
fn packet_numbers(rt: HostRuntime) {
    let seq = SeqNo::from(95_000);
    same(&rt, "the rollovers of 95000", seq.roc(), 1);
    same(&rt, "the low bits of 95000", seq.as_u16(), 29464);
    for number in 4..8 {
        let is_next = SeqNo::from(5).is_next(SeqNo::from(number));
        same(&rt, number, is_next, number == 6);
    }
}

#[test]
fn numbers_of_clusters(rt: HostRuntime) {
    same(&rt, "the first", TwccClusterId::default().get(), 0);
    let mut cluster = TwccClusterId::from(18446744073709551615);
    same(&rt, "the last", cluster.inc().get(), 18446744073709551615);
    same(&rt, "after it", cluster.get(), 0);
    same(&rt, "0 again", cluster.inc().get(), 0);
    shows(&rt, rt.alloc(), &cluster, "1");
}
