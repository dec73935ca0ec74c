//! The padding at the end of a packet (RFC 3550, 5.1).

ghost use Rattle.std.specs.Prelude.{◌≡◌, ℕ, ◌+◌, ◌<◌, ◌≤◌, ◌↔◌, ◌++◌, List, length, slice_index, Bool, true, Some, IfSome, IfNone, IsSomeAnd};
ghost use Rattle.rtp_base.specs.Overwriting.{overwritten};
ghost use Rattle.rtp_wire.specs.Packet.{IsFirstByte};
ghost use Rattle.rtp_wire.specs.Padding.{padding_bytes, with_padding_bit, IsPaddingLength, padding_count, IsUnpadded};

use rtp_base::put_zeros;

/// The most bytes of padding that [`create_padding_packet`] writes.
pub const MAX_BLANK_PADDING_PAYLOAD_SIZE: usize = 240;

// The length in whole blocks, but at most 240.
fn padding_len(pad_len: u8, block_size: usize) -> usize
    requires some { 1 ≤ pad_len }
    requires block { 1 ≤ block_size }
    ensures length { IsPaddingLength pad_len block_size result }
    ensures only { (n : ℕ) → IsPaddingLength pad_len block_size n → result ≡ n }
    ensures some { 1 ≤ result }
    ensures bound { result ≤ 240 }
{
    if block_size > MAX_BLANK_PADDING_PAYLOAD_SIZE {
        // Already one block is longer.
        return MAX_BLANK_PADDING_PAYLOAD_SIZE;
    }
    let whole = usize::from(pad_len).next_multiple_of(block_size);
    whole.min(MAX_BLANK_PADDING_PAYLOAD_SIZE)
}

// Sets the padding bit of the first byte.
fn set_padding_bit(buf: &mut [u8])
    requires { 1 ≤ length buf.old }
    ensures { buf.new ≡ with_padding_bit buf.old }
{
    buf[0] |= 0x20;
}

// Puts `count` bytes of padding at an offset: zeros, and in the last byte their count.
fn put_padding(buf: &mut [u8], at: usize, count: usize)
    requires some { 1 ≤ count }
    requires few { count ≤ 255 }
    requires room { at + count ≤ length buf.old }
    ensures { buf.new ≡ overwritten buf.old at (padding_bytes count) }
{
    let last = put_zeros(buf, at, count - 1);
    buf[last] = count as u8;
}

/// Makes a packet of padding alone after its header (RFC 3550, 5.1): sets the padding bit in the
/// first byte, then writes the padding from `header_len` on, zeros and in the last byte their
/// count, itself included, and returns that count. It is `pad_len` rounded up to a multiple of
/// `block_size`, but at most 240 ([`MAX_BLANK_PADDING_PAYLOAD_SIZE`]). All other bytes stay as they
/// were. With a `pad_len` of 0 it returns 0, changes nothing and requires nothing.
///
/// For any other `pad_len` it requires a `block_size` of at least 1, and room for the padding from
/// `header_len` on. To pad a packet with a payload, pass the end of the payload as `header_len`.
///
/// With a header of 12 bytes, of which the first is `80`, a `pad_len` of 3 and a `block_size` of 4
/// it returns 4, the first byte becomes `A0`, and the bytes 12 to 15 become `00 00 00 04`.
pub fn create_padding_packet(
    buf: &mut [u8],
    header_len: usize,
    pad_len: u8,
    block_size: usize,
) -> usize
    requires block { 0 < pad_len → 1 ≤ block_size }
    requires room { 0 < pad_len → (n : ℕ) → IsPaddingLength pad_len block_size n →
        header_len + n ≤ length buf.old }
    ensures nothing { pad_len ≡ 0 → result ≡ 0 }
    ensures unchanged { pad_len ≡ 0 → buf.new ≡ buf.old }
    ensures length { 0 < pad_len → IsPaddingLength pad_len block_size result }

    // No other number meets `length`.
    ensures only { 0 < pad_len → (n : ℕ) → IsPaddingLength pad_len block_size n → result ≡ n }
    ensures some { 0 < pad_len → 1 ≤ result }
    ensures bound { 0 < pad_len → result ≤ 240 }

    // The bit is set before the padding is put, which covers it where `header_len` is 0.
    ensures written { 0 < pad_len →
        buf.new ≡ overwritten (with_padding_bit buf.old) header_len (padding_bytes result) }

    // A header of version 2 then announces padding, and its first byte is otherwise as it was.
    ensures announced { 0 < pad_len → 1 ≤ header_len →
        (padding extension : Bool) (sources : ℕ) →
        IsFirstByte (slice_index buf.old 0) padding extension sources →
        IsFirstByte (slice_index buf.new 0) true extension sources }

    // Where it announces padding already, only the padding is put.
    ensures put { 0 < pad_len → (extension : Bool) (sources : ℕ) →
        IsFirstByte (slice_index buf.old 0) true extension sources →
        buf.new ≡ overwritten buf.old header_len (padding_bytes result) }
{
    if pad_len == 0 {
        return 0;
    }
    let count = padding_len(pad_len, block_size);
    set_padding_bit(buf);
    put_padding(buf, header_len, count);
    count
}

/// [`create_padding_packet`] where it isn't known whether there is room: returns `None`, and
/// changes nothing, where the buffer ends before the padding would, or `block_size` is 0. It wants
/// room for what it writes, and with a `pad_len` of 0 for nothing.
///
/// With a `pad_len` of 3 and a `block_size` of 4 a header of 12 bytes wants a buffer of 16.
pub fn try_create_padding_packet(
    buf: &mut [u8],
    header_len: usize,
    pad_len: u8,
    block_size: usize,
) -> Option<usize>
    ensures nothing { pad_len ≡ 0 → result ≡ Some 0 }
    ensures same { pad_len ≡ 0 → buf.new ≡ buf.old }
    ensures length { IfSome result (λ count.
        0 < pad_len → IsPaddingLength pad_len block_size count) }
    ensures written { IfSome result (λ count. 0 < pad_len →
        buf.new ≡ overwritten (with_padding_bit buf.old) header_len (padding_bytes count)) }
    ensures only { IfSome result (λ count. 0 < pad_len → (n : ℕ) →
        IsPaddingLength pad_len block_size n → count ≡ n) }
    ensures room { IfSome result (λ count. 0 < pad_len → header_len + count ≤ length buf.old) }

    // With a block size of 0 there is no such length.
    ensures refused { IfNone result ((n : ℕ) → IsPaddingLength pad_len block_size n →
        length buf.old < header_len + n) }
    ensures unchanged { IfNone result (buf.new ≡ buf.old) }
{
    if pad_len == 0 {
        return Some(0);
    }
    if block_size == 0 {
        return None;
    }
    let len = padding_len(pad_len, block_size);
    if buf.len() < header_len.checked_add(len)? {
        return None;
    }
    set_padding_bit(buf);
    put_padding(buf, header_len, len);
    Some(len)
}

/// Returns the payload of a packet whose padding bit is set, from all bytes after its header:
/// those before the padding, whose last byte counts it, itself included (RFC 3550, 5.1). Returns
/// `None` where that count is greater than the number of bytes. A last byte of 0 takes nothing
/// away, and without any byte the payload is empty.
///
/// Of `01 02 03 04 02` the payload is `01 02 03`, and of `01 02 03 04 06` there is none.
pub fn unpad_payload(buf: &[u8]) -> Option<&[u8]>
    ensures found { IfSome result (λ payload. IsUnpadded buf.now payload.now) }
    ensures only { (payload : List ℕ) → IsUnpadded buf.now payload →
        IsSomeAnd result (λ found. found.now ≡ payload) }
    ensures refused { (result ≡ None) ↔ (length buf.now < padding_count buf.now) }

    // Padding of 1 to 255 bytes is taken away again.
    ensures undone { (payload : List ℕ) (n : ℕ) → 1 ≤ n → n ≤ 255 →
        buf.now ≡ payload ++ padding_bytes n → IsSomeAnd result (λ found. found.now ≡ payload) }
{
    let Some(count) = buf.last() else {
        return Some(buf);
    };
    let len = buf.len().checked_sub(usize::from(*count))?;
    Some(&buf[..len])
}
