//! Retransmissions, made of the packet in a buffer, and back (RFC 4588, 4).

ghost use Rattle.std.specs.Prelude.{◌≡◌, ◌≢◌, ◌↔◌, ◌+◌, ◌≤◌, ◌<◌, ℕ, List, length, take, drop, slice_index};
ghost use Rattle.rtp_values.specs.declared.kind.Extension.TheVariants.{RtpStreamId, RepairedRtpStreamId};
ghost use Rattle.rtp_ext.specs.NewIds.{new_id, ids_in_bytes};
ghost use Rattle.rtp_wire.specs.declared.packet.not_retransmitted.NotRetransmitted.{NotRetransmitted};
ghost use Rattle.rtp_wire.specs.Packet.{PacketParts, IsPacket, IsWithoutPadding, header_len_of};
ghost use Rattle.rtp_wire.specs.Retransmission.{IsRetransmissionOf, IsOriginalOf, Becomes, KeepsBlockHeader, KeepsFromSending, KeepsFromRestoring};
ghost use Rattle.rtp_c.specs.Retransmission.{RenameKinds, retransmission_status, IsRefusal};
ghost use Rattle.rtp_c.specs.Status.{ok, bad_field};

use super::kinds::StoredMap;
use super::map::StoredNewIds;
use super::status::{BAD_FIELD, LONG_ID, NONE, OK, SHORT_BUFFER, status_of};
use rtp_base::{Pt, Ssrc};
use rtp_ext::NewIds;
use rtp_wire::{
    NotRetransmitted, OriginalFields, RetransmissionFields, from_retransmission, to_retransmission,
};

/// The ids that elements get where a packet becomes a retransmission (RFC 4588, 4; RFC 8852, 3):
/// where the map has both a stream id and a repaired one, each id of the first becomes the lowest
/// of the second, and the ids of the second have no new one. Every other id keeps itself, and so
/// does each where the map hasn't both; 0 has no new one. Made once for a map.
#[unsafe(no_mangle)]
pub extern "C" fn rtpw_new_ids_to_retransmission(map: &StoredMap, ids: &mut StoredNewIds)
    ensures kinds { RenameKinds RtpStreamId RepairedRtpStreamId map.now.kind ids.new.id }
    ensures first { slice_index ids.new.id 0 ≡ 0 }
{
    ids.id = NewIds::to_retransmission(map).ids();
}

/// The ids that elements get on the way back, where a retransmission becomes the packet that it
/// repeats: each id of a repaired stream id becomes the lowest of a stream id, and the ids of the
/// stream id have no new one; all else as in `rtpw_new_ids_to_retransmission`.
#[unsafe(no_mangle)]
pub extern "C" fn rtpw_new_ids_from_retransmission(map: &StoredMap, ids: &mut StoredNewIds)
    ensures kinds { RenameKinds RepairedRtpStreamId RtpStreamId map.now.kind ids.new.id }
    ensures first { slice_index ids.new.id 0 ≡ 0 }
{
    ids.id = NewIds::from_retransmission(map).ids();
}

// The status of a cause for which a packet doesn't become a retransmission, or what it repeats.
fn refusal(cause: NotRetransmitted) -> i32
    ensures { result ≡ retransmission_status cause }
{
    match cause {
        NotRetransmitted::CutPacket | NotRetransmitted::PaddingTooLong => BAD_FIELD,
        NotRetransmitted::NotAPacket(cause) => status_of(cause),
        NotRetransmitted::NoOriginalNumber => NONE,
        NotRetransmitted::NewIdTooHigh => LONG_ID,
        NotRetransmitted::NoRoom => SHORT_BUFFER,
    }
}

/// Makes the packet in the first `len` bytes of the buffer a retransmission, in place, and writes
/// the length of that to `len` (RFC 4588, 4): it has this SSRC, payload type, 0 to 127, and
/// sequence number, its elements have their new ids, and its payload is the original sequence
/// number in two bytes and the original payload without its padding. P is clear, all other parts
/// stay, and so do the bytes behind it.
///
/// `OK`; `BAD_FIELD` where the payload type is above 127, the length is greater than the buffer's,
/// or the padding's last byte counts more bytes than the payload has; the status of the first cause
/// for which the bytes are no packet; `LONG_ID` where a new id is above 14, and the block has the
/// one-byte form; or `SHORT_BUFFER` where there is no room for the number. Where it isn't `OK`
/// nothing changes.
#[unsafe(no_mangle)]
pub extern "C" fn rtpw_to_retransmission(
    buf: &mut [u8],
    len: &mut usize,
    ssrc: u32,
    payload_type: u8,
    number: u16,
    ids: &StoredNewIds,
) -> i32
    ensures sent { result ≡ ok → Becomes (λ original. IsRetransmissionOf original
        (record { ssrc = ssrc; payload_type = payload_type; sequence_number = number })
        (new_id (ids_in_bytes ids.now.id))) (take len.old buf.old) (take len.new buf.new) }
    ensures length { (original : PacketParts) (payload : List ℕ) → result ≡ ok →
        IsPacket (take len.old buf.old) original →
        IsWithoutPadding original.has_padding original.payload payload →
        len.new ≡ header_len_of original + 2 + length payload }
    ensures block_header { result ≡ ok → KeepsBlockHeader buf.old buf.new }
    ensures behind { result ≡ ok → (len.new ≤ length buf.old)
        × (drop len.new buf.new ≡ drop len.new buf.old) }
    ensures too_high { 127 < payload_type → result ≡ bad_field }
    ensures refusal { payload_type ≤ 127 → result ≢ ok →
        IsRefusal (KeepsFromSending (new_id (ids_in_bytes ids.now.id)) buf.old len.old) result }
    ensures refused { payload_type ≤ 127 → result ≢ ok ↔ ((cause : NotRetransmitted)
        × KeepsFromSending (new_id (ids_in_bytes ids.now.id)) buf.old len.old cause) }
    ensures unchanged { result ≢ ok → (buf.new ≡ buf.old) × (len.new ≡ len.old) }
{
    if payload_type > 127 {
        return BAD_FIELD;
    }
    let stream = RetransmissionFields {
        ssrc: Ssrc::from(ssrc),
        payload_type: Pt::from(payload_type),
        sequence_number: number,
    };
    match to_retransmission(buf, *len, &stream, &NewIds::from_ids(&ids.id)) {
        Ok(end) => {
            *len = end;
            OK
        }
        Err(cause) => refusal(cause),
    }
}

/// Makes the retransmission in the first `len` bytes of the buffer the packet that it repeats, in
/// place, and writes the length of that to `len` (RFC 4588, 4): it has this SSRC and payload type,
/// 0 to 127, and the original sequence number, its elements have their new ids, and its payload is
/// what follows that number, without any padding. P is clear, all other parts stay, and so do the
/// bytes behind it.
///
/// `OK`; `BAD_FIELD` where the payload type is above 127, the length is greater than the buffer's,
/// or the padding's last byte counts more bytes than the payload has; the status of the first cause
/// for which the bytes are no packet; `NONE` where the payload has no original number; or `LONG_ID`
/// where a new id is above 14, and the block has the one-byte form. Where it isn't `OK` nothing
/// changes.
#[unsafe(no_mangle)]
pub extern "C" fn rtpw_from_retransmission(
    buf: &mut [u8],
    len: &mut usize,
    ssrc: u32,
    payload_type: u8,
    ids: &StoredNewIds,
) -> i32
    ensures restored { result ≡ ok → Becomes (λ sent. IsOriginalOf sent
        (record { ssrc = ssrc; payload_type = payload_type })
        (new_id (ids_in_bytes ids.now.id))) (take len.old buf.old) (take len.new buf.new) }
    ensures length { (sent : PacketParts) (payload : List ℕ) → result ≡ ok →
        IsPacket (take len.old buf.old) sent →
        IsWithoutPadding sent.has_padding sent.payload payload →
        len.new + 2 ≡ header_len_of sent + length payload }
    ensures block_header { result ≡ ok → KeepsBlockHeader buf.old buf.new }
    ensures behind { result ≡ ok → (len.new ≤ length buf.old)
        × (drop len.new buf.new ≡ drop len.new buf.old) }
    ensures too_high { 127 < payload_type → result ≡ bad_field }
    ensures refusal { payload_type ≤ 127 → result ≢ ok →
        IsRefusal (KeepsFromRestoring (new_id (ids_in_bytes ids.now.id)) buf.old len.old) result }
    ensures refused { payload_type ≤ 127 → result ≢ ok ↔ ((cause : NotRetransmitted)
        × KeepsFromRestoring (new_id (ids_in_bytes ids.now.id)) buf.old len.old cause) }
    ensures unchanged { result ≢ ok → (buf.new ≡ buf.old) × (len.new ≡ len.old) }
{
    if payload_type > 127 {
        return BAD_FIELD;
    }
    let stream = OriginalFields {
        ssrc: Ssrc::from(ssrc),
        payload_type: Pt::from(payload_type),
    };
    match from_retransmission(buf, *len, &stream, &NewIds::from_ids(&ids.id)) {
        Ok(end) => {
            *len = end;
            OK
        }
        Err(cause) => refusal(cause),
    }
}
