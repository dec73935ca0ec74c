//! What follows the header: the padding at the payload's end, and the original number at its front.

ghost use Rattle.std.specs.Prelude.{◌≡◌, ◌≢◌, ◌+◌, ◌%◌, ◌<◌, ◌≤◌, ◌++◌, ℕ, length, drop};
ghost use Rattle.std.specs.Int.{w16, to_be_bytes};
ghost use Rattle.rtp_base.specs.Overwriting.{overwritten};
ghost use Rattle.rtp_wire.specs.OriginalNumber.{HasOriginalNumber};
ghost use Rattle.rtp_wire.specs.Padding.{IsPaddingLength, padding_bytes, with_padding_bit};
ghost use Rattle.rtp_c.specs.Status.{ok, bad_field, short_buffer};

use super::status::{BAD_FIELD, OK, SHORT_BUFFER};
use rtp_base::SeqNo;
use rtp_wire::{
    read_original_sequence_number, try_create_padding_packet, write_original_sequence_number,
};

/// Reads the original sequence number that the payload of a retransmission packet begins with (RFC
/// 4588, 4); the original payload follows its two bytes. `OK`, or `SHORT_BUFFER` where there are
/// fewer, and then nothing is written.
#[unsafe(no_mangle)]
pub extern "C" fn rtpw_read_original(payload: &[u8], number: &mut u16) -> i32
    ensures done { 2 ≤ length payload.now → result ≡ ok }
    ensures read { 2 ≤ length payload.now → HasOriginalNumber payload.now number.new }
    ensures short { length payload.now < 2 → result ≡ short_buffer }
    ensures unchanged { result ≢ ok → number.new ≡ number.old }
{
    if read_original_sequence_number(payload, number) == 0 {
        return SHORT_BUFFER;
    }
    OK
}

/// Writes the low 16 bits of the original sequence number to the front of the payload of a
/// retransmission packet (RFC 4588, 4). `OK`, or `SHORT_BUFFER` where there are fewer than two
/// bytes, and then nothing is written.
#[unsafe(no_mangle)]
pub extern "C" fn rtpw_write_original(payload: &mut [u8], number: u64) -> i32
    ensures done { 2 ≤ length payload.old → result ≡ ok }
    ensures written { 2 ≤ length payload.old →
        payload.new ≡ to_be_bytes w16 (number % 65536) ++ drop 2 payload.old }
    ensures short { length payload.old < 2 → result ≡ short_buffer }
    ensures unchanged { result ≢ ok → payload.new ≡ payload.old }
{
    if payload.len() < 2 {
        return SHORT_BUFFER;
    }
    write_original_sequence_number(payload, SeqNo::from(number));
    OK
}

/// Makes a packet of padding alone after its header (RFC 3550, 5.1): sets P, and writes the padding
/// from `header_len` on, zeros and in the last byte their count. It is `pad_len` rounded up to a
/// multiple of `block_size`, but at most 240; with a `pad_len` of 0 nothing changes, and no room is
/// wanted. `OK`, and how many bytes of padding there are is written too; `BAD_FIELD` where
/// `block_size` is 0; `SHORT_BUFFER` where there isn't room for the header and the padding. Where
/// it isn't `OK` nothing is written.
#[unsafe(no_mangle)]
pub extern "C" fn rtpw_pad(
    datagram: &mut [u8],
    header_len: usize,
    pad_len: u8,
    block_size: usize,
    count: &mut usize,
) -> i32
    ensures length { result ≡ ok → 0 < pad_len → IsPaddingLength pad_len block_size count.new }
    ensures padded { result ≡ ok → 0 < pad_len → datagram.new
        ≡ overwritten (with_padding_bit datagram.old) header_len (padding_bytes count.new) }
    ensures nothing { 1 ≤ block_size → pad_len ≡ 0 → (result ≡ ok) × (count.new ≡ 0) }
    ensures same { pad_len ≡ 0 → datagram.new ≡ datagram.old }
    ensures no_block { block_size ≡ 0 → result ≡ bad_field }
    ensures short { 1 ≤ block_size → 0 < pad_len → (n : ℕ) → IsPaddingLength pad_len block_size n →
        length datagram.old < header_len + n → result ≡ short_buffer }
    ensures done { 1 ≤ block_size → 0 < pad_len → (n : ℕ) → IsPaddingLength pad_len block_size n →
        header_len + n ≤ length datagram.old → result ≡ ok }
    ensures unchanged { result ≢ ok →
        (datagram.new ≡ datagram.old) × (count.new ≡ count.old) }
{
    if block_size == 0 {
        return BAD_FIELD;
    }
    let Some(padding) = try_create_padding_packet(datagram, header_len, pad_len, block_size) else {
        return SHORT_BUFFER;
    };
    *count = padding;
    OK
}
