//! The bytes of a header, copied to the front of a buffer.

ghost use Rattle.std.specs.Prelude.{◌≡◌, ◌+◌, ◌≤◌, length, take};
ghost use Rattle.rtp_base.specs.Overwriting.{overwritten};

use rtp_base::put;
use std::simd::prelude::*;

// Puts the first sixteen of the bytes at the offset, by one load and one store.
#[inline(always)]
fn put_16(buf: &mut [u8], at: usize, bytes: &[u8])
    requires whole { 16 ≤ length bytes.now }
    requires room { at + 16 ≤ length buf.old }
    ensures { buf.new ≡ overwritten buf.old at (take 16 bytes.now) }
{
    u8x16::from_slice(bytes).copy_to_slice(&mut buf[at..]);
}

// Puts any number of bytes at the front. It stays out of line, so that who copies a header of the usual
// length keeps its registers.
#[inline(never)]
fn put_any(buf: &mut [u8], bytes: &[u8])
    requires { length bytes.now ≤ length buf.old }
    ensures { buf.new ≡ overwritten buf.old 0 bytes.now }
{
    put(buf, 0, bytes);
}

/// Puts the bytes of a header at the front of the buffer. Requires room for them. The 16 to 48 that
/// most headers have are copied sixteen at a time, the last sixteen over what stands there already, in
/// fewer steps than a call takes.
#[inline(always)]
pub fn put_header(buf: &mut [u8], bytes: &[u8])
    requires { length bytes.now ≤ length buf.old }
    ensures { buf.new ≡ overwritten buf.old 0 bytes.now }
{
    let len = bytes.len();
    if len < 16 || len > 48 {
        put_any(buf, bytes);
        return;
    }
    put_16(buf, 0, bytes);
    if len > 32 {
        put_16(buf, 16, &bytes[16..]);
    }
    put_16(buf, len - 16, &bytes[len - 16..]);
}
