//! What every header begins with: the twelve bytes of the fixed part, and the CSRC list.

ghost use Rattle.std.specs.Prelude.{◌≡◌, ℕ, ◌+◌, ◌*◌, ◌^◌, ◌<◌, ◌≤◌, length, take, slice_index};
ghost use Rattle.std.specs.List.{flat_map};
ghost use Rattle.std.specs.Int.{w32, to_be_bytes};
ghost use Rattle.rtp_base.specs.Flag.{bit};
ghost use Rattle.rtp_base.specs.Overwriting.{overwritten};
ghost use Rattle.rtp_wire.specs.Written.{fixed_bytes, source_bytes};

use super::get_fields::GetFields;
use rtp_base::put;

// Whether a flag is set, as the number that it adds to its byte.
pub(crate) fn flag(is_set: bool, worth: u8) -> u8
    ensures { result ≡ bit is_set * worth }
{
    if is_set { worth } else { 0 }
}

/// The twelve bytes that every header begins with, with this X (RFC 3550, 5.1). The ranges are those
/// of the types, of which a caller is told that doesn't read the fields itself.
///
/// Requires a payload type of at most 127, and at most 15 contributing sources.
#[inline(always)]
pub fn fixed_bytes<F: GetFields>(fields: &F, has_extension: bool) -> [u8; 12]
    requires payload_type { (F.header fields.now).payload_type ≤ 127 }
    requires sources { (F.header fields.now).csrc_count ≤ 15 }
    ensures bytes { result
        ≡ fixed_bytes (record (F.header fields.now) { has_extension = has_extension }) }
    ensures number { (F.header fields.now).sequence_number < 2 ^ 16 }
    ensures timestamp { (F.header fields.now).timestamp < 2 ^ 32 }
    ensures ssrc { (F.header fields.now).ssrc < 2 ^ 32 }
    ensures slots { length (F.header fields.now).csrc ≡ 15 }
{
    let fixed = fields.fixed();
    // The bits lie apart, so the sums are their `|`.
    let first = 0x80
        + flag(fixed.has_padding, 0x20)
        + flag(has_extension, 0x10)
        + fixed.csrc_count as u8;
    let second = flag(fixed.marker, 0x80) + fixed.payload_type.get();
    let mut bytes = [first, second, 0, 0, 0, 0, 0, 0, 0, 0, 0, 0];
    put(&mut bytes, 2, &fixed.sequence_number.to_be_bytes());
    put(&mut bytes, 4, &fixed.timestamp.to_be_bytes());
    put(&mut bytes, 8, &fixed.ssrc.get().to_be_bytes());
    bytes
}

// Puts four bytes for each source that counts, and returns the offset after them. The sources are
// copied, so that LLVM has a header that was made to be written in registers.
#[inline(always)]
pub(super) fn put_csrc<F: GetFields>(fields: &F, buf: &mut [u8], at: usize) -> usize
    requires sources { (F.header fields.now).csrc_count ≤ 15 }
    requires room { at + 4 * (F.header fields.now).csrc_count ≤ length buf.old }
    ensures written { buf.new ≡ overwritten buf.old at (source_bytes (F.header fields.now)) }
    ensures end { result
        ≡ at + 4 * length (take (F.header fields.now).csrc_count (F.header fields.now).csrc) }
    ensures in_range { (i : ℕ) → slice_index
        (take (F.header fields.now).csrc_count (F.header fields.now).csrc) i < 2 ^ 32 }
{
    let count = fields.fixed().csrc_count;
    if count == 0 {
        return at;
    }
    put_sources(buf, at, &fields.csrc()[..count])
}

// Puts four bytes for each source, and returns the offset after them.
fn put_sources(buf: &mut [u8], at: usize, sources: &[u32]) -> usize
    requires { at + 4 * length sources.now ≤ length buf.old }
    ensures written { buf.new ≡ overwritten buf.old at (flat_map (to_be_bytes w32) sources.now) }
    ensures end { result ≡ at + 4 * length sources.now }
    ensures in_range { (i : ℕ) → slice_index sources.now i < 2 ^ 32 }
{
    let mut end = at;
    for source in sources {
        end = put(buf, end, &source.to_be_bytes());
    }
    end
}
