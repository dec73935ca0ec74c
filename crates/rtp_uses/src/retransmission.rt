//! Retransmissions (RFC 4588).

ghost use Rattle.std.specs.Prelude.{◌≡◌, ◌↔◌, ◌+◌, ◌%◌, ◌<◌, ◌≤◌, ◌++◌, ℕ, List, length, drop, IfSome, IfNone, IsNone, IsSomeAnd};
ghost use Rattle.rtp_wire.specs.OriginalNumber.{HasOriginalNumber};
ghost use Rattle.rtp_wire.specs.Written.{wire_bytes};
ghost use Rattle.rtp_uses.specs.Retransmission.{retransmission_bytes};

use rtp_base::{SeqNo, put};
use rtp_wire::{
    ExtensionMap, RtpHeader, read_original_sequence_number, write_original_sequence_number,
};

/// Writes a retransmission of a packet (RFC 4588, 4): the header of the retransmission stream,
/// which has an SSRC, a payload type and a number of its own, then the original number and the
/// original payload, which is given without its padding. Returns how many bytes that are. Returns
/// `None`, and writes nothing, where there is no room.
pub fn retransmit(
    header: &RtpHeader,
    exts: &ExtensionMap,
    original: SeqNo,
    payload: &[u8],
    out: &mut [u8],
) -> Option<usize>
    requires payload_type { header.now.payload_type ≤ 127 }
    requires sources { header.now.csrc_count ≤ 15 }
    ensures written { IfSome result (λ len. out.new ≡ wire_bytes exts.now header.now
        ++ (retransmission_bytes original payload.now ++ drop len out.old)) }
    ensures length { IfSome result (λ len.
        len ≡ length (wire_bytes exts.now header.now) + 2 + length payload.now) }
    ensures unchanged { IfNone result (out.new ≡ out.old) }
    ensures refused { IsNone result
        ↔ (length out.old < length (wire_bytes exts.now header.now) + 2 + length payload.now) }
{
    if out.len() < header.wire_len(exts) + 2 + payload.len() {
        return None;
    }
    let at = header.write_to(out, exts);
    let start = at + write_original_sequence_number(&mut out[at..], original);
    Some(put(out, start, payload))
}

/// The low 16 bits of the original number and the original payload, by the payload of a
/// retransmission; `None` where that is under two bytes.
pub fn original(payload: &[u8]) -> Option<(u16, &[u8])>
    ensures number { IfSome result (λ found. HasOriginalNumber payload.now found.0) }
    ensures after { IfSome result (λ found. found.1.now ≡ drop 2 payload.now) }
    ensures short { (result ≡ None) ↔ (length payload.now < 2) }

    // What `retransmit` puts after the header is read as it was given, the number modulo 65,536.
    ensures undone { (number : ℕ) → (original : List ℕ) →
        payload.now ≡ retransmission_bytes number original →
        IsSomeAnd result (λ found. (found.0 ≡ number % 65536) × (found.1.now ≡ original)) }
{
    let mut number = 0;
    let len = read_original_sequence_number(payload, &mut number);
    if len == 0 {
        return None;
    }
    Some((number, &payload[len..]))
}
