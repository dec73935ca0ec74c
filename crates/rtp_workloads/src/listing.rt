//! The program over captures in hexadecimal: most lines are headers alone, others whole packets.

use crate::digest::{Digest, DigestWriter};
use crate::made::{put_at, templates};
use crate::numbers::Numbers;
use rtp_listing::{RunEnd, run as list};
use std::alloc::{AllocError, Global};

// How many lines a capture has at most, and how many captures there are at least.
const LINES: u64 = 5_000;

const CAPTURES: u64 = 10;

// How the lines of a capture end.
const FEED: &[u8] = b"\n";

const RETURN_AND_FEED: &[u8] = b"\r\n";

fn digit(value: u8) -> u8 {
    let value = value % 16;
    if value < 10 {
        b'0' + value
    } else {
        b'A' - 10 + value
    }
}

// The text of a datagram: two digits a byte.
fn line_of(alloc: Global, bytes: &[u8]) -> Result<Vec<u8>, AllocError> {
    let mut text = Vec::new(alloc);
    for byte in bytes {
        text.push(digit(*byte / 16))?;
        text.push(digit(*byte))?;
    }
    Ok(text)
}

// Puts the digits of a number of four digits.
fn put_number(line: &mut [u8], at: usize, number: u16) {
    let [high, low] = number.to_be_bytes();
    put_at(
        line,
        at,
        &[digit(high / 16), digit(high), digit(low / 16), digit(low)],
    );
}

// Puts the lines of headers alone, or of whole packets, after the others.
fn put_lines(
    alloc: Global,
    numbers: &mut Numbers,
    is_whole: bool,
    all: &mut Vec<Vec<u8>>,
) -> Result<(), AllocError> {
    let payload = if is_whole { (1000, 1200) } else { (0, 0) };
    for template in &templates(alloc, numbers, 128, payload)? {
        all.push(line_of(alloc, &template.bytes)?)?;
    }
    Ok(())
}

// Puts a line whose number and time are new.
fn put_line(
    text: &mut Vec<u8>,
    line: &mut Vec<u8>,
    number: u16,
    time: u16,
    end: &[u8],
) -> Result<(), AllocError> {
    put_number(line.as_mut_slice(), 4, number);
    put_number(line.as_mut_slice(), 10, time);
    text.extend_from_slice(line)?;
    text.extend_from_slice(end)
}

// A capture of so many lines, of which every tenth is a whole packet.
fn capture(
    alloc: Global,
    numbers: &mut Numbers,
    lines: &mut [Vec<u8>],
    count: u64,
    end: &[u8],
) -> Result<Vec<u8>, AllocError> {
    let mut text = Vec::new(alloc);
    for line in 0..count {
        let number = (line % 65_536) as u16;
        let whole = if numbers.one_in(10) { 128 } else { 0 };
        let place = whole + numbers.below(128) as usize % 128;
        let time = numbers.short();
        if let Some(line) = lines.get_mut(place) {
            put_line(&mut text, line, number, time, end)?;
        }
    }
    Ok(text)
}

fn end_of(end: RunEnd) -> u64 {
    match end {
        RunEnd::Done => 1,
        RunEnd::BadLine => 2,
        RunEnd::NoMemory => 3,
        RunEnd::Io => 4,
    }
}

// What the program prints for a capture.
fn listed(alloc: Global, text: &[u8]) -> u64 {
    let mut input = text;
    let mut output = DigestWriter::new();
    let end = list(alloc, &mut input, &mut output);
    output.finish() ^ end_of(end)
}

// The capture of this number. Of ten, three have lines that end in CR LF; one of these and another one have
// a line near their end that is no datagram.
fn numbered(
    alloc: Global,
    numbers: &mut Numbers,
    lines: &mut [Vec<u8>],
    number: u64,
    count: u64,
) -> Result<Vec<u8>, AllocError> {
    let end = match number % 10 {
        3 | 6 | 9 => RETURN_AND_FEED,
        _ => FEED,
    };
    let mut text = capture(alloc, numbers, lines, count, end)?;
    if number % 5 == 4 {
        text.extend_from_slice(b"80x0\n80\n")?;
    }
    Ok(text)
}

/// Lists so many hundreds of lines.
pub fn run(alloc: Global, seed: u64, hundreds: u32) -> Result<u64, AllocError> {
    let mut numbers = Numbers::new(seed);
    let mut lines = Vec::new(alloc);
    put_lines(alloc, &mut numbers, false, &mut lines)?;
    put_lines(alloc, &mut numbers, true, &mut lines)?;
    let mut digest = Digest::new();
    let all = u64::from(hundreds) * 100;
    let count = (all / LINES).max(CAPTURES);
    for number in 0..count {
        let lines = lines.as_mut_slice();
        let text = numbered(alloc, &mut numbers, lines, number, all / count)?;
        digest.add(listed(alloc, &text));
    }
    Ok(digest.get())
}
