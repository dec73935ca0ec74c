//! Callers that need the bounds of the library exactly as they are.

ghost use Rattle.std.specs.Prelude.{◌≡◌, ◌≤◌, ◌++◌, List, ℕ, IsSomeAnd};
ghost use Rattle.rtp_ext.specs.ExtensionMap.{HasNoIdAbove};
ghost use Rattle.rtp_wire.specs.Padding.{padding_bytes};
ghost use Rattle.rtp_wire.specs.Written.{wire_bytes};

use rtp_wire::{ExtensionMap, RtpHeader, unpad_payload};

/// The bytes of a header, in a buffer that has room for those of every header.
pub fn bytes_of<'a>(header: &RtpHeader, exts: &ExtensionMap, buf: &'a mut [u8; 65_612]) -> &'a [u8]
    requires payload_type { header.now.payload_type ≤ 127 }
    requires sources { header.now.csrc_count ≤ 15 }
    ensures { result.now ≡ wire_bytes exts.now header.now }
{
    let len = header.wire_len(exts);
    header.write_to(&mut buf[..len], exts);
    &buf[..len]
}

/// The bytes of a header under a map without an id above 16, for which 4,188 bytes have room.
pub fn bytes_under_low_ids<'a>(
    header: &RtpHeader,
    exts: &ExtensionMap,
    buf: &'a mut [u8; 4188],
) -> &'a [u8]
    requires payload_type { header.now.payload_type ≤ 127 }
    requires sources { header.now.csrc_count ≤ 15 }
    requires low { HasNoIdAbove 16 exts.now }
    ensures { result.now ≡ wire_bytes exts.now header.now }
{
    let len = header.wire_len(exts);
    header.write_to(&mut buf[..len], exts);
    &buf[..len]
}

/// The payload before 255 bytes of padding, the most that a packet can have.
pub fn without_most_padding(bytes: &[u8]) -> Option<&[u8]>
    ensures { (payload : List ℕ) → bytes.now ≡ payload ++ padding_bytes 255 →
        IsSomeAnd result (λ found. found.now ≡ payload) }
{
    unpad_payload(bytes)
}
