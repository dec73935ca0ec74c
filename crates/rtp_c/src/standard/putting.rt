//! Data that are put into the caller's buffer, and values that are read from data.

ghost use Rattle.std.specs.Prelude.{◌≡◌, ◌<◌, IfSome, IfNone};
ghost use Rattle.rtp_c.specs.Status.{ok, bad_field};
ghost use Rattle.rtp_c.specs.StandardData.{PutsBytes};

use crate::status::{BAD_FIELD, OK, SHORT_BUFFER};
use rtp_base::put;

// Puts the bytes to the front of the buffer, and how many they are to `len`. `OK`, or
// `SHORT_BUFFER` where there isn't room for them, and then nothing is put.
#[inline(always)]
pub(crate) fn put_data(bytes: &[u8], buf: &mut [u8], len: &mut usize) -> i32
    ensures { PutsBytes bytes.now buf.old buf.new len.old len.new result }
{
    if buf.len() < bytes.len() {
        return SHORT_BUFFER;
    }
    *len = put(buf, 0, bytes);
    OK
}

// Tells the value that was read: `OK`, or `BAD_FIELD` where none was, and then nothing is written.
#[inline(always)]
pub(super) fn tell<T: Copy>(read: Option<T>, to: &mut T) -> i32
    ensures told { IfSome read (λ value. (result ≡ ok) × (to.new ≡ value)) }
    ensures none { IfNone read ((result ≡ bad_field) × (to.new ≡ to.old)) }
{
    let Some(value) = read else {
        return BAD_FIELD;
    };
    *to = value;
    OK
}
