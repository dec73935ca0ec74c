//! The ends of a packet: its padding, and the original sequence number of a retransmission. No call
//! asks for memory: `.ci/run` sees that a test of this file asks for none.

use crate::checks::same;
use rtp_base::SeqNo;
use rtp_wire::{
    MAX_BLANK_PADDING_PAYLOAD_SIZE, create_padding_packet, read_original_sequence_number,
    unpad_payload, write_original_sequence_number,
};
use std::process::Abort;

// The bytes are these.
pub(crate) fn are(rt: &impl Abort, at: &str, bytes: &[u8], wanted: &[u8]) {
    same(rt, at, bytes, wanted);
}

#[test]
fn padding_of_one_block(rt: HostRuntime) {
    let mut buf = [6; 255];
    let len = create_padding_packet(&mut buf, 10, 1, 16);
    same(&rt, "the length", len, 16);
    // The padding bit, 32, is set in the first byte.
    same(&rt, "the first byte", buf[0], 38);
    are(&rt, "the header", &buf[1..10], &[6; 9]);
    are(&rt, "the zeros", &buf[10..25], &[0; 15]);
    same(&rt, "the last byte", buf[25], 16);
    are(&rt, "what follows", &buf[26..], &[6; 229]);
}

#[test]
fn the_longest_padding(rt: HostRuntime) {
    let mut buf = [6; 255];
    let len = create_padding_packet(&mut buf, 10, 255, 1);
    same(&rt, "the length", len, 240);
    are(&rt, "the zeros", &buf[10..249], &[0; 239]);
    are(&rt, "the end", &buf[249..], &[240, 6, 6, 6, 6, 6]);
    same(&rt, "the most", MAX_BLANK_PADDING_PAYLOAD_SIZE, 240);
}

#[test]
fn no_padding(rt: HostRuntime) {
    let mut buf = [6; 10];
    let len = create_padding_packet(&mut buf, 2, 0, 4);
    same(&rt, "a length of 0", len, 0);
    let len = create_padding_packet(&mut buf, 20, 0, 0);
    same(&rt, "after the end", len, 0);
    are(&rt, "the buffer", &buf, &[6; 10]);
    let mut empty: [u8; 0] = [];
    let len = create_padding_packet(&mut empty, 12, 0, 0);
    same(&rt, "no buffer", len, 0);
}

#[test]
fn padding_over_the_first_byte(rt: HostRuntime) {
    let mut buf = [6; 10];
    let len = create_padding_packet(&mut buf, 0, 5, 1);
    same(&rt, "the length", len, 5);
    are(&rt, "the buffer", &buf, &[0, 0, 0, 0, 5, 6, 6, 6, 6, 6]);
}

// The bytes from the header on, and their payload.
const UNPADDED: [(&[u8], &[u8]); 11] = [
    (&[1, 2, 3, 4, 2], &[1, 2, 3]),
    (&[1, 2, 0, 2], &[1, 2]),
    (&[1, 2, 3, 4, 0], &[1, 2, 3, 4, 0]),
    (&[1, 2, 3, 4, 1], &[1, 2, 3, 4]),
    (&[1, 2, 3, 4, 3], &[1, 2]),
    (&[1, 2, 3, 4, 4], &[1]),
    (&[1, 2, 3, 4, 5], &[]),
    (&[], &[]),
    (&[0], &[0]),
    (&[1], &[]),
    (
        &[1, 2, 3, 4, 0, 0, 0, 0, 0, 0, 0, 0, 0, 0, 0, 12],
        &[1, 2, 3, 4],
    ),
];

#[test]
fn padding_taken_away(rt: HostRuntime) {
    for &(bytes, payload) in &UNPADDED {
        same(&rt, bytes.len(), unpad_payload(bytes), Some(payload));
    }
}

// Bytes whose last one says that there is more padding than bytes.
const OVERPADDED: [&[u8]; 4] = [&[1, 2, 3, 4, 6], &[1, 2, 3, 4, 255], &[2], &[1, 2, 0, 5]];

#[test]
fn more_padding_than_bytes(rt: HostRuntime) {
    for bytes in &OVERPADDED {
        same(&rt, bytes.len(), unpad_payload(bytes), None);
    }
}

// The bytes begin with this original sequence number.
fn begins_with(rt: &impl Abort, bytes: &[u8], wanted: u16) {
    let mut number = 7;
    let len = read_original_sequence_number(bytes, &mut number);
    same(rt, wanted, (len, number), (2, wanted));
}

// The bytes are too few, and leave the number as it is.
fn is_too_short(rt: &impl Abort, bytes: &[u8]) {
    let mut number = 7;
    let len = read_original_sequence_number(bytes, &mut number);
    same(rt, bytes.len(), (len, number), (0, 7));
}

#[test]
fn original_numbers_read(rt: HostRuntime) {
    is_too_short(&rt, &[9]);
    is_too_short(&rt, &[]);
    begins_with(&rt, &[1, 2, 3], 258);
    begins_with(&rt, &[255, 255], 65_535);
    begins_with(&rt, &[0, 2, 9, 9], 2);
}

#[test]
fn original_numbers_written(rt: HostRuntime) {
    let mut buf = [9; 4];
    let len = write_original_sequence_number(&mut buf, SeqNo::from(65_538));
    same(&rt, 65_538, (len, buf), (2, [0, 2, 9, 9]));
    let len = write_original_sequence_number(&mut buf[2..], SeqNo::from(258));
    same(&rt, 258, (len, buf), (2, [0, 2, 1, 2]));
}
