//! Lines that map ids.

use crate::checks::same;
use crate::listings::{PLAIN_LISTING, lists, names_bad_line};
use rtp_listing::{InputError, RunEnd, read_input};
use rtp_wire::{Extension, ExtensionMap};
use std::alloc::Global;
use std::process::Abort;

// An input that is refused, and the number of the line that is named.
const REFUSED: [(&[u8], u64); 21] = [
    (b"map 0 urn:x\n", 1),
    (b"map 000 urn:x\n", 1),
    (b"map 256 urn:x\n", 1),
    (b"map 257 urn:x\n", 1),
    // One to three digits, and nothing else.
    (b"map 0001 urn:x\n", 1),
    (b"map +1 urn:x\n", 1),
    (b"map 1x urn:x\n", 1),
    (b"map urn:x\n", 1),
    // One space on either side.
    (b"map  1 urn:x\n", 1),
    (b"map1 urn:x\n", 1),
    (b"map 1\turn:x\n", 1),
    // A URI of one byte or more.
    (b"map 3 \n", 1),
    (b"map 3 \r\n", 1),
    (b"map 3\n", 1),
    (b"map", 1),
    // UTF-8, and no overlong form.
    (b"map 1 \xFF\n", 1),
    (b"map 1 \xC0\x80\n", 1),
    (b"Map 1 x\n", 1),
    // Before all datagrams, an empty one included.
    (b"80\nmap 3 urn:x\n", 2),
    (b"map 1 x\n\nmap 3 urn:x\n", 3),
    (b"map 1 x\nxyz\nabc\n", 2),
];

#[test]
fn bad_lines(rt: HostRuntime) {
    for (index, (input, number)) in REFUSED.iter().enumerate() {
        let error = read_input(rt.alloc(), input).err();
        same(&rt, index, error, Some(InputError::BadLine(*number)));
        names_bad_line(&rt, rt.alloc(), index, input, *number);
    }
}

// An input with map lines, and what is printed of it: they print nothing themselves.
const TAKEN: [(&[u8], &str); 5] = [
    (b"map 3 urn:x", ""),
    (b"map 17 urn:x\n", ""),
    (b"map 1 x\r\n", ""),
    (b"map 3 urn:x\n8021B798000027100000002C\n", PLAIN_LISTING),
    (
        b"map 016 urn:x\nmap 1  x\nmap 1 y z\n8021B798000027100000002C\n",
        PLAIN_LISTING,
    ),
];

#[test]
fn taken_lines(rt: HostRuntime) {
    for (index, (input, printed)) in TAKEN.iter().enumerate() {
        lists(
            &rt,
            rt.alloc(),
            index,
            *input,
            RunEnd::Done,
            printed.as_bytes(),
        );
    }
}

// The map that the lines make.
pub(crate) fn map_of(rt: &impl Abort, alloc: Global, text: &[u8]) -> ExtensionMap {
    read_input(alloc, text).ok().expect(rt, "an input").exts
}

// The map of these ids to these URIs, and of no other id.
fn map_with(rt: &impl Abort, alloc: Global, entries: &[(u8, &str)]) -> ExtensionMap {
    let mut exts = ExtensionMap::empty();
    for (id, uri) in entries {
        let ext = Extension::from_sdp_uri(alloc, uri);
        exts.set(*id, ext.expect(rt, "memory"));
    }
    exts
}

// Lines, and the entries of the map that they make.
const MAPS: [(&[u8], &[(u8, &str)]); 8] = [
    (b"map 3 urn:x", &[(3, "urn:x")]),
    (b"map 3 a\nmap 016 b\n80\n", &[(3, "a"), (16, "b")]),
    (b"map 001 a\n", &[(1, "a")]),
    (b"map 17 a\nmap 255 b\n", &[(17, "a"), (255, "b")]),
    // The last line for an id counts.
    (b"map 3 a\nmap 4 b\nmap 3 c\n", &[(3, "c"), (4, "b")]),
    // The rest of the line is the URI, spaces included.
    (b"map 1  x \n", &[(1, " x ")]),
    // A CR before the LF is part of the line's end, and any other CR of the URI.
    (b"map 1 x\r\nmap 2 y\r", &[(1, "x"), (2, "y\r")]),
    (b"map 1 \xC3\xA9\n", &[(1, "é")]),
];

#[test]
fn the_map_of_the_lines(rt: HostRuntime) {
    for (index, &(text, entries)) in MAPS.iter().enumerate() {
        let found = map_of(&rt, rt.alloc(), text);
        let wanted = map_with(&rt, rt.alloc(), entries);
        same(&rt, index, found == wanted, true);
    }
}
