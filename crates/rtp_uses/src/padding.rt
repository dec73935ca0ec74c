//! A sender of packets of padding, and their receiver.

ghost use Rattle.std.specs.Prelude.{◌≡◌, ◌↔◌, ◌+◌, ◌<◌, ◌≤◌, [], length, true, false, IfSome, IfNone, IsSome, IsSomeAnd};
ghost use Rattle.rtp_uses.specs.PaddingPackets.{IsPadded};
ghost use Rattle.rtp_wire.specs.Padding.{padding_count, IsUnpadded};
ghost use Rattle.rtp_wire.specs.Written.{wire_bytes};

use rtp_wire::{
    ExtensionMap, MAX_BLANK_PADDING_PAYLOAD_SIZE, RtpHeader, create_padding_packet, unpad_payload,
};

/// Writes a packet of padding alone (RFC 3550, 5.1): the header, in which the padding bit is set,
/// and after it the padding, whose length is `pad_len` in whole blocks, but at most 240 bytes.
/// Returns how many bytes the packet has. Returns `None`, and writes nothing, where there isn't
/// room for the header and 240 bytes.
pub fn write_padding(
    header: &mut RtpHeader,
    exts: &ExtensionMap,
    pad_len: u8,
    block_size: usize,
    out: &mut [u8],
) -> Option<usize>
    requires some { 1 ≤ pad_len }
    requires block { 1 ≤ block_size }
    requires payload_type { header.old.payload_type ≤ 127 }
    requires sources { header.old.csrc_count ≤ 15 }
    ensures announced { header.new ≡ record header.old { has_padding = true } }
    ensures written { IfSome result (
        IsPadded (wire_bytes exts.now header.new) pad_len block_size out.old out.new) }
    ensures unchanged { IfNone result (out.new ≡ out.old) }
    ensures room { IsSome result ↔
        length (wire_bytes exts.now header.new) + 240 ≤ length out.old }
{
    header.has_padding = true;
    if out.len() < header.wire_len(exts) + MAX_BLANK_PADDING_PAYLOAD_SIZE {
        return None;
    }
    let start = header.write_to(out, exts);
    Some(start + create_padding_packet(out, start, pad_len, block_size))
}

/// The payload of a packet, by its header and what follows that: without its padding where the
/// header announces any. `None` where the padding would be longer than what is there.
pub fn payload_of<'a>(header: &RtpHeader, after: &'a [u8]) -> Option<&'a [u8]>
    ensures padded { header.now.has_padding ≡ true →
        IfSome result (λ payload. IsUnpadded after.now payload.now) }
    ensures plain { header.now.has_padding ≡ false →
        IsSomeAnd result (λ payload. payload.now ≡ after.now) }
    ensures refused { IfNone result (length after.now < padding_count after.now) }
{
    if !header.has_padding {
        return Some(after);
    }
    unpad_payload(after)
}

/// The payload that a receiver finds in a packet of padding: no bytes. `None` where there isn't
/// room for the packet.
pub fn payload_of_padding<'a>(
    header: &mut RtpHeader,
    exts: &ExtensionMap,
    pad_len: u8,
    block_size: usize,
    out: &'a mut [u8],
) -> Option<&'a [u8]>
    requires some { 1 ≤ pad_len }
    requires block { 1 ≤ block_size }
    requires payload_type { header.old.payload_type ≤ 127 }
    requires sources { header.old.csrc_count ≤ 15 }
    ensures nothing { IfSome result (λ payload. payload.now ≡ []) }
    ensures room { IsSome result ↔
        length (wire_bytes exts.now (record header.old { has_padding = true })) + 240
        ≤ length out.old }
{
    let end = write_padding(header, exts, pad_len, block_size, out)?;
    unpad_payload(&out[header.wire_len(exts)..end])
}
