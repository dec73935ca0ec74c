//! LEB128 numbers of up to 63 bits.

use crate::checks::same;
use rtp_vla::vla::parse_leb_u63;

// Bytes, the number that they begin with, and how many bytes are left after it.
const READ: [(&[u8], u64, usize); 8] = [
    (&[0, 5], 0, 1),
    (&[0x80, 1, 5], 128, 1),
    (&[0x80, 0x80, 1, 5], 16384, 1),
    (&[0x80, 0x80, 0x80, 1, 5], 2097152, 1),
    (
        &[0x80, 0x80, 0x80, 0x80, 0x80, 0x80, 0x80, 0x80, 1, 5],
        72057594037927936,
        1,
    ),
    (
        &[0x80, 0x80, 0x80, 0x80, 0x80, 0x80, 0x80, 0x80, 0x81, 5],
        72057594037927936,
        1,
    ),
    (&[0x80, 0x80], 0, 2),
    (&[], 0, 0),
];

#[test]
fn numbers_read(rt: HostRuntime) {
    for &(bytes, value, left) in &READ {
        let (found, rest) = parse_leb_u63(bytes);
        same(&rt, value, found, value);
        same(&rt, value, rest.len(), left);
    }
}
