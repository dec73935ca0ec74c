//! What the program prints, over readers and writers in memory.

use crate::checks::same;
use rtp_listing::{RunEnd, datagram, run};
use std::alloc::Global;
use std::fmt::Display;
use std::io::Read;
use std::process::Abort;

// A datagram of twelve bytes.
pub(crate) const PLAIN: &[u8] = b"8021B798000027100000002C\n";

pub(crate) const PLAIN_LISTING: &str =
    "packet 1: pt 33 seq 47000 ts 10000 ssrc 44 marker no padding no \
extension no csrc 0 header 12\nverdict 1: taken 47000\n";

// Two numbers in a row across a rollover, the first again, no header, and the next number.
pub(crate) const STREAM: &[u8] = b"8001FFFF0000000000000000\n800100000000000000000000\n\
8001FFFF0000000000000000\n\n800100010000000000000000\n";

pub(crate) const STREAM_LISTING: &str =
    "packet 1: pt 1 seq 65535 ts 0 ssrc 0 marker no padding no extension no csrc 0 header 12
verdict 1: taken 65535
packet 2: pt 1 seq 0 ts 0 ssrc 0 marker no padding no extension no csrc 0 header 12
verdict 2: taken 65536
packet 3: pt 1 seq 65535 ts 0 ssrc 0 marker no padding no extension no csrc 0 header 12
verdict 3: refused
packet 4: unreadable
verdict 4: unreadable
packet 5: pt 1 seq 1 ts 0 ssrc 0 marker no padding no extension no csrc 0 header 12
verdict 5: taken 65537
";

// An input, how its run ends, and what the run prints.
pub(crate) const RUNS: [(&[u8], RunEnd, &str); 16] = [
    (PLAIN, RunEnd::Done, PLAIN_LISTING),
    (STREAM, RunEnd::Done, STREAM_LISTING),
    (b"", RunEnd::Done, ""),
    (
        b"80\n\n",
        RunEnd::Done,
        "packet 1: unreadable\nverdict 1: unreadable\npacket 2: unreadable\nverdict 2: unreadable\n",
    ),
    (
        b"\r\n",
        RunEnd::Done,
        "packet 1: unreadable\nverdict 1: unreadable\n",
    ),
    // Lower case, and a last line without its line feed.
    (b"8021b798000027100000002c", RunEnd::Done, PLAIN_LISTING),
    // A CR before the LF is part of the line's end, and any other CR of the line.
    (b"8021B798000027100000002C\r\n", RunEnd::Done, PLAIN_LISTING),
    (
        b"80\r",
        RunEnd::BadLine,
        "line 1: neither a map line nor hex\n",
    ),
    (
        b"80\r\r\n",
        RunEnd::BadLine,
        "line 1: neither a map line nor hex\n",
    ),
    // The first bad line is the whole output, whatever comes before and after it.
    (
        b"80\n80 21\nxyz\n",
        RunEnd::BadLine,
        "line 2: neither a map line nor hex\n",
    ),
    (
        b"xyz",
        RunEnd::BadLine,
        "line 1: neither a map line nor hex\n",
    ),
    (
        b"801\n",
        RunEnd::BadLine,
        "line 1: neither a map line nor hex\n",
    ),
    (b"map 3 urn:x\n", RunEnd::Done, ""),
    // Every flag, two sources, and a block of one word.
    (
        b"B2E1FFFF0102030400000000000000640000006510000001AABBCCDD\n",
        RunEnd::Done,
        "packet 1: pt 97 seq 65535 ts 16909060 ssrc 0 marker yes padding yes extension yes csrc 2 header 28\nverdict 1: taken 65535\n",
    ),
    // The same with its last byte gone.
    (
        b"B2E1FFFF0102030400000000000000640000006510000001AABBCC\n",
        RunEnd::Done,
        "packet 1: unreadable\nverdict 1: unreadable\n",
    ),
    // What follows the header is not looked at.
    (
        b"8021B798000027100000002CFFFFFFFF\n",
        RunEnd::Done,
        PLAIN_LISTING,
    ),
];

// The run of the input ends so, and prints this.
pub(crate) fn lists<A: Copy + Display, R: Read + Drop>(
    rt: &impl Abort,
    alloc: Global,
    at: A,
    mut input: R,
    end: RunEnd,
    printed: &[u8],
) {
    let mut output = Vec::new(alloc);
    same(rt, at, run(alloc, &mut input, &mut output), end);
    same(rt, at, output.as_slice(), printed);
}

// The run prints the line that names this bad line, and nothing else.
pub(crate) fn names_bad_line<A: Copy + Display>(
    rt: &impl Abort,
    alloc: Global,
    at: A,
    input: &[u8],
    number: u64,
) {
    let line = format!(in alloc; "line {number}: neither a map line nor hex\n");
    let printed = line.expect(rt, "memory");
    lists(rt, alloc, at, input, RunEnd::BadLine, printed.as_bytes());
}

#[test]
fn runs(rt: HostRuntime) {
    for (index, (input, end, printed)) in RUNS.iter().enumerate() {
        lists(&rt, rt.alloc(), index, *input, *end, printed.as_bytes());
    }
}

// Lines, and the bytes that they have in hexadecimal.
const LINES: [(&[u8], &[u8]); 3] = [
    (b"", &[]),
    (b"80ff", &[0x80, 0xFF]),
    (b"80FF", &[0x80, 0xFF]),
];

// Lines that are not hexadecimal.
const OTHER_LINES: [&[u8]; 3] = [b"8", b"8g", b"80 21"];

// What the line is decoded to.
fn decoded(rt: &impl Abort, alloc: Global, line: &[u8]) -> Option<Vec<u8>> {
    datagram(alloc, line).expect(rt, "memory")
}

#[test]
fn datagrams_in_either_case(rt: HostRuntime) {
    for &(line, bytes) in &LINES {
        let found = decoded(&rt, rt.alloc(), line).expect(&rt, "hexadecimal");
        same(&rt, line.len(), found.as_slice(), bytes);
    }
    for line in &OTHER_LINES {
        let found = decoded(&rt, rt.alloc(), line);
        same(&rt, line.len(), found.is_none(), true);
    }
}

// What is printed of a packet from the source 0x80FF.
const SOURCE_80FF: &str = "packet 1: pt 0 seq 0 ts 0 ssrc 33023 marker no padding no \
extension no csrc 0 header 12\nverdict 1: taken 0\n";

// Lines, and what is printed of them: of an empty datagram, and of bytes in either case.
const LISTED_LINES: [(&[u8], &str); 3] = [
    (b"\n", "packet 1: unreadable\nverdict 1: unreadable\n"),
    (b"8000000000000000000080ff", SOURCE_80FF),
    (b"8000000000000000000080FF", SOURCE_80FF),
];

// Lines that are not hexadecimal.
const BAD_LINES: [&[u8]; 3] = [b"8", b"8g", b"80 21"];

#[test]
fn packets_in_either_case(rt: HostRuntime) {
    for &(line, printed) in &LISTED_LINES {
        let printed = printed.as_bytes();
        lists(&rt, rt.alloc(), line.len(), line, RunEnd::Done, printed);
    }
    for line in &BAD_LINES {
        names_bad_line(&rt, rt.alloc(), line.len(), *line, 1);
    }
}
