//! Numbers and bytes at the front of a buffer.

ghost use Rattle.std.specs.Prelude.{◌≡◌, ◌+◌, ◌≤◌, ◌<◌, ◌^◌, length, take, slice_range};
ghost use Rattle.std.specs.Option.{SomeIff};
ghost use Rattle.rtp_base.specs.Overwriting.{overwritten};
ghost use Rattle.rtp_values.specs.Values.{big_endian};
ghost use Rattle.rtp_values.specs.Spelling.{bytes_of_number};

use rtp_base::put;

// The number in the first two bytes, where they are there.
pub(super) fn first_u16(bytes: &[u8]) -> Option<u16>
    ensures { SomeIff result (2 ≤ length bytes.now) (big_endian (take 2 bytes.now)) }
{
    let number = bytes.first_chunk::<2>()?;
    Some(u16::from_be_bytes(*number))
}

// The number in the two bytes from this offset on.
pub(crate) fn u16_at(bytes: &[u8], offset: usize) -> u16
    requires within { offset + 2 ≤ length bytes.now }
    ensures { result ≡ big_endian (slice_range bytes.now offset (offset + 2)) }
{
    u16::from_be_bytes([bytes[offset], bytes[offset + 1]])
}

// The two bytes of a number.
pub(crate) fn u16_bytes(number: u16) -> [u8; 2]
    ensures bytes { result ≡ bytes_of_number 2 number }
    ensures back { big_endian (bytes_of_number 2 number) ≡ number }
{
    number.to_be_bytes()
}

// The number in the first three bytes, where they are there.
pub(super) fn first_u24(bytes: &[u8]) -> Option<u32>
    ensures { SomeIff result (3 ≤ length bytes.now) (big_endian (take 3 bytes.now)) }
{
    let number = bytes.first_chunk::<3>()?;
    Some(u32::from_be_bytes([0, number[0], number[1], number[2]]))
}

// The number in the first four bytes, where they are there.
pub(super) fn first_u32(bytes: &[u8]) -> Option<u32>
    ensures { SomeIff result (4 ≤ length bytes.now) (big_endian (take 4 bytes.now)) }
{
    let number = bytes.first_chunk::<4>()?;
    Some(u32::from_be_bytes(*number))
}

// The number in the first eight bytes, where they are there.
pub(crate) fn first_u64(bytes: &[u8]) -> Option<u64>
    ensures { SomeIff result (8 ≤ length bytes.now) (big_endian (take 8 bytes.now)) }
{
    let number = bytes.first_chunk::<8>()?;
    Some(u64::from_be_bytes(*number))
}

// Puts the number in two bytes at the front of the buffer, and returns 2.
pub(super) fn put_u16(buf: &mut [u8], number: u16) -> usize
    requires room { 2 ≤ length buf.old }
    ensures length { result ≡ 2 }
    ensures written { buf.new ≡ overwritten buf.old 0 (bytes_of_number 2 number) }
    ensures back { big_endian (bytes_of_number 2 number) ≡ number }
{
    put(buf, 0, &number.to_be_bytes())
}

// Puts the number in three bytes at the front of the buffer, and returns 3.
pub(super) fn put_u24(buf: &mut [u8], number: u32) -> usize
    requires small { number < 2 ^ 24 }
    requires room { 3 ≤ length buf.old }
    ensures length { result ≡ 3 }
    ensures written { buf.new ≡ overwritten buf.old 0 (bytes_of_number 3 number) }
    ensures back { big_endian (bytes_of_number 3 number) ≡ number }
{
    put(buf, 0, &number.to_be_bytes()[1..])
}

// Puts the number in four bytes at the front of the buffer, and returns 4.
pub(super) fn put_u32(buf: &mut [u8], number: u32) -> usize
    requires room { 4 ≤ length buf.old }
    ensures length { result ≡ 4 }
    ensures written { buf.new ≡ overwritten buf.old 0 (bytes_of_number 4 number) }
    ensures back { big_endian (bytes_of_number 4 number) ≡ number }
{
    put(buf, 0, &number.to_be_bytes())
}

// Puts the number in eight bytes at the front of the buffer, and returns 8.
pub(super) fn put_u64(buf: &mut [u8], number: u64) -> usize
    requires room { 8 ≤ length buf.old }
    ensures length { result ≡ 8 }
    ensures written { buf.new ≡ overwritten buf.old 0 (bytes_of_number 8 number) }
    ensures back { big_endian (bytes_of_number 8 number) ≡ number }
{
    put(buf, 0, &number.to_be_bytes())
}
