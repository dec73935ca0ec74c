//! Rows of single kinds of header extension.

use crate::checks::same;
use crate::fixtures::sent;
use crate::values::{has_data, read};
use rtp_values::Extension;

// Ticks of 2^-18 seconds, and the microseconds that they are read as.
const READ: [(&[u8], u64); 5] = [
    (b"\x00\x00\x01", 3),
    (b"\xFE\x20\x6A", 63_531_654),
    (b"\xFE\x86\xD0", 63_631_652),
    (b"\xFF\xFF\xFF", 63_999_996),
    (b"\xA0\x00\x00", 40_000_000),
];

#[test]
fn send_times_read(rt: HostRuntime) {
    for &(data, micros) in &READ {
        let values = read(&rt, rt.alloc(), &Extension::AbsoluteSendTime, data);
        same(&rt, micros, values.abs_send_time, Some(micros));
    }
}

// Microseconds, and the ticks that they are written as.
const WRITTEN: [(u64, &[u8]); 5] = [
    (3, b"\x00\x00\x00"),
    (4, b"\x00\x00\x01"),
    (1_000_000_000, b"\xA0\x00\x00"),
    (63_999_999, b"\xFF\xFF\xFF"),
    // 2^64 - 1 microseconds are 18446744073709.551615 seconds: 45 above a multiple of 64, and
    // 144602 ticks.
    (18446744073709551615, b"\xB6\x34\xDA"),
];

#[test]
fn send_times_written(rt: HostRuntime) {
    for &(micros, data) in &WRITTEN {
        has_data(&rt, &Extension::AbsoluteSendTime, &sent(micros), data);
    }
}
