//! Frequencies and their texts.

use crate::checks::same;
use crate::times::at;
use rtp_base::{Frequency, ParseFrequencyError};
use std::process::Abort;

// Texts, and the frequencies that they are read as.
const TEXTS: [(&str, u32); 6] = [
    ("+48000", 48_000),
    ("007", 7),
    ("1", 1),
    ("4294967295", 4_294_967_295),
    ("0000000000048000", 48_000),
    ("+0000000000000000000000000000000000000090", 90),
];

// Texts of no frequency.
const OTHER_TEXTS: [&str; 15] = [
    "",
    "+",
    "0",
    "-1",
    " 1",
    "4294967296",
    "++1",
    "+-1",
    "1 ",
    // A digit, but not of ASCII.
    "١",
    "1_000",
    "0x10",
    "1.0",
    "000000000000000000000",
    // 40 digits.
    "1000000000000000000000000000000000000001",
];

// The text is read as this frequency, or as none.
fn is_read(rt: &impl Abort, text: &str, wanted: Result<Frequency, ParseFrequencyError>) {
    same(rt, text, text.parse::<Frequency>(), wanted);
}

#[test]
fn texts_of_frequencies(rt: HostRuntime) {
    for &(text, hertz) in &TEXTS {
        is_read(&rt, text, Ok(at(0, hertz).frequency()));
    }
}

#[test]
fn texts_of_no_frequency(rt: HostRuntime) {
    for text in &OTHER_TEXTS {
        is_read(&rt, text, Err(ParseFrequencyError));
    }
}
