//! Lines whose memory may be refused once. `.ci/run` refuses each growth in turn.

use crate::checks::same;
use crate::listings::{PLAIN, PLAIN_LISTING};
use rtp_listing::{InputError, RunEnd, datagram, read_input, run};

// The line is as it was, and with memory all of it is decoded.
#[test]
fn a_datagram(rt: HostRuntime) {
    let line = b"80".as_slice();
    let found = match datagram(rt.alloc(), line) {
        Ok(found) => found,
        Err(_) => datagram(rt.alloc(), line).expect(&rt, "memory"),
    };
    let found = found.expect(&rt, "hexadecimal");
    same(&rt, "the bytes", found.as_slice(), [0x80].as_slice());
    same(&rt, "the line", line, b"80".as_slice());
}

// Lines that are not hexadecimal.
const OTHER_LINES: [&[u8]; 4] = [b"8", b"8g", b"80 21", b"map 3 urn:x"];

// What isn't hexadecimal is told whether there is memory or not.
#[test]
fn no_datagram(rt: HostRuntime) {
    for line in &OTHER_LINES {
        let found = datagram(rt.alloc(), line).expect(&rt, "no memory is needed");
        same(&rt, line.len(), found.is_none(), true);
    }
}

// With memory all of the line is listed.
#[test]
fn a_listing(rt: HostRuntime) {
    let (mut input, mut again) = (PLAIN, PLAIN);
    let mut output = Vec::new(rt.alloc());
    if run(rt.alloc(), &mut input, &mut output) != RunEnd::Done {
        output.clear();
        let end = run(rt.alloc(), &mut again, &mut output);
        same(&rt, "with memory", end, RunEnd::Done);
    }
    let printed = PLAIN_LISTING.as_bytes();
    same(&rt, "the listing", output.as_slice(), printed);
}

// Texts with a line that is not hexadecimal, and its number.
const BAD_LINES: [(&[u8], u64); 4] = [
    (b"8", 1),
    (b"8g", 1),
    (b"80 21", 1),
    (b"80\nmap 3 urn:x", 2),
];

// What isn't hexadecimal is told whether there is memory or not.
#[test]
fn no_listing(rt: HostRuntime) {
    for (text, number) in BAD_LINES.iter() {
        let error = read_input(rt.alloc(), text).err();
        same(&rt, text.len(), error, Some(InputError::BadLine(*number)));
    }
}
