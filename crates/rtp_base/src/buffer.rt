//! Bytes put into a buffer, which all that writes is made of.

ghost use Rattle.std.specs.Prelude.{◌≡◌, ◌+◌, ◌≤◌, length, replicate};
ghost use Rattle.rtp_base.specs.Overwriting.{overwritten};

/// Puts the bytes at an offset of the buffer and returns the offset after them; all other bytes of
/// the buffer stay as they were. Requires room for them.
pub fn put(buf: &mut [u8], at: usize, bytes: &[u8]) -> usize
    requires { at + length bytes.now ≤ length buf.old }
    ensures written { buf.new ≡ overwritten buf.old at bytes.now }
    ensures end { result ≡ at + length bytes.now }
{
    let end = at + bytes.len();
    buf[at..end].copy_from_slice(bytes);
    end
}

/// Puts `count` zeros at an offset of the buffer and returns the offset after them; all other bytes
/// of the buffer stay as they were. Requires room for them.
pub fn put_zeros(buf: &mut [u8], at: usize, count: usize) -> usize
    requires { at + count ≤ length buf.old }
    ensures written { buf.new ≡ overwritten buf.old at (replicate count 0) }
    ensures end { result ≡ at + count }
{
    let end = at + count;
    buf[at..end].fill(0);
    end
}

/// Puts the bytes as [`put`] does. Up to three, as most elements have, are put one by one, since a copy
/// of so few takes longer.
#[inline(always)]
pub fn put_few(buf: &mut [u8], at: usize, bytes: &[u8])
    requires { at + length bytes.now ≤ length buf.old }
    ensures { buf.new ≡ overwritten buf.old at bytes.now }
{
    match bytes {
        [first] => buf[at] = *first,
        [first, second] => {
            buf[at] = *first;
            buf[at + 1] = *second;
        }
        [first, second, third] => {
            buf[at] = *first;
            buf[at + 1] = *second;
            buf[at + 2] = *third;
        }
        _ => {
            put(buf, at, bytes);
        }
    }
}

/// Puts up to three zeros, those that fill a word, at an offset of the buffer and returns the offset
/// after them; all other bytes of the buffer stay as they were. Requires room for them.
#[inline(always)]
pub fn fill_word(buf: &mut [u8], at: usize, count: usize) -> usize
    requires few { count ≤ 3 }
    requires room { at + count ≤ length buf.old }
    ensures written { buf.new ≡ overwritten buf.old at (replicate count 0) }
    ensures end { result ≡ at + count }
{
    match count {
        0 => at,
        1 => put(buf, at, &[0]),
        2 => put(buf, at, &[0, 0]),
        _ => put(buf, at, &[0, 0, 0]),
    }
}
