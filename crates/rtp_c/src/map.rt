//! Which id means which extension, and the ids that elements get where packets go from one map to
//! another.

ghost use Rattle.std.specs.Prelude.{◌≡◌, ◌≢◌, ◌↔◌, ◌⊎◌, ℕ, ◌<◌, ◌≤◌, ◌++◌, List, length, drop, All, IfSome, IfNone, slice_index, slice_set};
ghost use Rattle.rtp_values.specs.declared.value.values.ExtensionValues.{ExtensionValues};
ghost use Rattle.rtp_ext.specs.Elements.{Element};
ghost use Rattle.rtp_ext.specs.ElementsInPlace.{ChangesIds, CanRenumber};
ghost use Rattle.rtp_ext.specs.ExtensionMap.{Slots};
ghost use Rattle.rtp_ext.specs.NewIds.{new_id, CarriesExtensions, ids_in_bytes};
ghost use Rattle.rtp_ext.specs.WrittenBlock.{mapped_fields};
ghost use Rattle.rtp_wire.specs.Packet.{PacketParts, IsPacket};
ghost use Rattle.rtp_wire.specs.ChangedPacket.{ChangesOnlyBody};
ghost use Rattle.rtp_wire.specs.NotAHeader.{IsNoPacket};
ghost use Rattle.rtp_wire.specs.PacketElements.{AreElementsOf, HasValues};
ghost use Rattle.rtp_c.specs.ChangedElements.{BecomesPacket, GivesValues};
ghost use Rattle.rtp_c.specs.KindNumbers.{NumberedKind, number_of, uri_of, last_known, last_number, first_own, IsNamed};
ghost use Rattle.rtp_c.specs.StoredMap.{AreStandardNumbers, IsNumberAt, IsIdOf, AreNewIdsOf, CarryKinds};
ghost use Rattle.rtp_c.specs.Status.{ok, short_buffer, none, bad_field, long_id, IsCauseStatus};

use super::bare_kind::BareKind;
use super::changing::layout_of;
use super::kinds::StoredMap;
use super::numbers::{is_named, kind_numbered, number_of};
use super::standard::put_data;
use super::status::{BAD_FIELD, LONG_ID, NONE, OK};
use rtp_ext::NewIds;
use rtp_values::{Extension, KnownKind};
use rtp_wire::RtpPacketMut;
use std::mem::ManuallyDrop;
use std::str;

/// Maps the id to the kind of this number, or to an extension of the caller's own that it numbers
/// so, from 128 to 255, instead of what it was mapped to (RFC 8285, 5). `OK`; `BAD_FIELD` where the
/// id is 0, which is that of padding, or the number is that of nothing, 0 or one of 21 to 127: then
/// nothing changes.
#[unsafe(no_mangle)]
pub extern "C" fn rtpw_map_set(map: &mut StoredMap, id: u8, kind: u8) -> i32
    ensures set { 1 ≤ id → IsNamed kind →
        (result ≡ ok) × (map.new.kind ≡ slice_set map.old.kind id kind) }
    ensures refused { (id ≡ 0) ⊎ ((kind ≡ 0) ⊎ ((last_number < kind) × (kind < first_own))) →
        result ≡ bad_field }
    ensures unchanged { result ≢ ok → map.new ≡ map.old }
{
    if id == 0 || !is_named(kind) {
        return BAD_FIELD;
    }
    map.kind[usize::from(id)] = kind;
    OK
}

/// Maps the id to nothing, instead of what it was mapped to: the number there becomes 0. That at
/// index 0 does too, which is that of no id.
#[unsafe(no_mangle)]
pub extern "C" fn rtpw_map_remove(map: &mut StoredMap, id: u8)
    ensures { map.new.kind ≡ slice_set map.old.kind id 0 }
{
    map.kind[usize::from(id)] = 0;
}

/// The number of the kind that the id is mapped to, or the caller's own number that it has; 0 where
/// it is mapped to nothing: where its number is one of 21 to 127, and always for the id 0.
#[unsafe(no_mangle)]
pub extern "C" fn rtpw_map_get(map: &StoredMap, id: u8) -> u8
    ensures { IsNumberAt map.now.kind id result }
{
    map.number_at(id)
}

/// The lowest id that is mapped to the kind of this number, or to the caller's own extension of it;
/// 0 where none is, and where the number is that of no extension.
#[unsafe(no_mangle)]
pub extern "C" fn rtpw_id_of(map: &StoredMap, kind: u8) -> u8
    ensures { IsIdOf map.now.kind kind result }
{
    map.id_of(kind)
}

/// The usual ids of the usual extensions, for audio and video, and no others: 1 audio level, 2
/// absolute send time, 3 transport sequence number, 4 mid, 10 stream id, 11 repaired stream id, 13
/// video orientation. Each other number is 0, that at index 0 too.
#[unsafe(no_mangle)]
pub extern "C" fn rtpw_map_standard(map: &mut StoredMap)
    ensures standard { AreStandardNumbers map.new.kind }
    ensures kinds { (id : ℕ) → slice_index map.new.kind id ≤ last_known }
    ensures first { slice_index map.new.kind 0 ≡ 0 }
{
    let mut numbers = [0; 256];
    numbers[1] = number_of(KnownKind::AudioLevel);
    numbers[2] = number_of(KnownKind::AbsoluteSendTime);
    numbers[3] = number_of(KnownKind::TransportSequenceNumber);
    numbers[4] = number_of(KnownKind::RtpMid);
    numbers[10] = number_of(KnownKind::RtpStreamId);
    numbers[11] = number_of(KnownKind::RepairedRtpStreamId);
    numbers[13] = number_of(KnownKind::VideoOrientation);
    map.kind = numbers;
}

// The number of the kind that this URI names, and 0 where it names none.
fn number_of_uri(uri: &str) -> u8
    ensures kind { (kind : NumberedKind) → (result ≡ number_of kind) ↔ (uri_of kind ≡ uri.now) }
    ensures none { (result ≡ 0) ↔ ((kind : NumberedKind) → uri_of kind ≢ uri.now) }
{
    if let Some(kind) = KnownKind::from_uri(uri) {
        return number_of(kind);
    }
    match BareKind::from_uri(uri) {
        Some(kind) => kind.number(),
        None => 0,
    }
}

/// The number of the kind that this URI names in SDP (`a=extmap`; RFC 8285, 5), and 0 where it
/// names none that this library knows. Takes no memory.
#[unsafe(no_mangle)]
pub extern "C" fn rtpw_kind_of_uri(uri: &[u8]) -> u8
    ensures kind { (kind : NumberedKind) → (result ≡ number_of kind) ↔ (uri_of kind ≡ uri.now) }
    ensures none { (result ≡ 0) ↔ ((kind : NumberedKind) → uri_of kind ≢ uri.now) }
{
    match str::from_utf8(uri) {
        Ok(text) => number_of_uri(text),
        Err(_) => 0,
    }
}

/// Writes the URI that names the kind of this number in SDP (`a=extmap`; RFC 8285, 5) to the front
/// of the buffer: at most 87 bytes, and no zero behind them. `OK`, and its length is written too;
/// `NONE` where the number is that of no kind, as one of the caller's own; or `SHORT_BUFFER`. Where
/// it isn't `OK` nothing is written.
#[unsafe(no_mangle)]
pub extern "C" fn rtpw_uri_of_kind(kind: u8, buf: &mut [u8], len: &mut usize) -> i32
    ensures written { (k : NumberedKind) → number_of k ≡ kind → result ≡ ok →
        (buf.new ≡ uri_of k ++ drop len.new buf.old) × (len.new ≡ length (uri_of k)) }
    ensures within { result ≡ ok → len.new ≤ length buf.new }
    ensures short { (k : NumberedKind) → number_of k ≡ kind →
        (result ≡ short_buffer) ↔ (length buf.old < length (uri_of k)) }
    ensures none { (result ≡ none) ↔ ((k : NumberedKind) → number_of k ≢ kind) }
    ensures statuses { (result ≡ ok) ⊎ ((result ≡ short_buffer) ⊎ (result ≡ none)) }
    ensures unchanged { result ≢ ok → (buf.new ≡ buf.old) × (len.new ≡ len.old) }
{
    let Some(known) = kind_numbered(kind) else {
        return match BareKind::numbered(kind) {
            Some(bare) => put_data(bare.uri().as_bytes(), buf, len),
            None => NONE,
        };
    };
    // A known kind has no text of its own, and so nothing to free.
    let extension = ManuallyDrop::new(Extension::from(known));
    put_data(extension.as_uri().as_bytes(), buf, len)
}

/// The ids that elements get where packets go from one map to another (RFC 8285, 5): `rtpw_new_ids`
/// in C, 256 bytes, which C may fill itself. Each value is one: 0 says that an id has no new one,
/// and what stands at index 0 is passed over.
#[repr(C)]
#[derive(Clone, Copy)]
pub struct StoredNewIds {
    /// The new id of each id.
    pub id: [u8; 256],
}

/// For each id that `from` maps to a kind, or to an extension of the caller's own, the lowest id
/// that `to` has for the same number. Every other id has no new one, and neither has 0. Made once
/// for two maps.
#[unsafe(no_mangle)]
pub extern "C" fn rtpw_new_ids_between(from: &StoredMap, to: &StoredMap, ids: &mut StoredNewIds)
    ensures ids { AreNewIdsOf from.now.kind to.now.kind ids.new.id }
    ensures kinds { CarryKinds from.now.kind to.now.kind ids.new.id }
    ensures first { slice_index ids.new.id 0 ≡ 0 }
{
    ids.id = [0; 256];
    for id in 0..from.numbers_end() {
        let number = from.number_at(id as u8);
        if number != 0 {
            ids.id[id] = to.id_of(number);
        }
    }
}

/// Gives each element of the packet in the buffer its new id where it lies, and makes an element
/// whose id has no new one zeros, which are padding; all other bytes stay (RFC 8285, 4.2 and 4.3).
/// `OK`, also where X is clear or the form of the block is another; `LONG_ID` where the form can't
/// carry the new id of an element: one above 14 in the one-byte form; or the status of the first
/// cause for which the buffer holds no packet. Where it isn't `OK` nothing changes.
///
/// The packet then says under the second map what it said under the first, of the kinds that the
/// second maps and no other.
#[unsafe(no_mangle)]
pub extern "C" fn rtpw_renumber(datagram: &mut [u8], ids: &StoredNewIds) -> i32
    ensures renumbered { (parts : PacketParts) → IsPacket datagram.old parts → result ≡ ok →
        IfSome parts.block (λ _. BecomesPacket
        (λ form. ChangesIds form (new_id (ids_in_bytes ids.now.id))) parts datagram.new) }
    ensures without_block { (parts : PacketParts) → IsPacket datagram.old parts →
        IfNone parts.block ((result ≡ ok) × (datagram.new ≡ datagram.old)) }
    ensures answer { (parts : PacketParts) (elements : List Element) → IsPacket datagram.old parts →
        AreElementsOf parts.block elements →
        (result ≡ ok) ↔ IfSome parts.block (λ block.
        All (CanRenumber block.0 (new_id (ids_in_bytes ids.now.id))) elements) }
    ensures otherwise { (parts : PacketParts) → IsPacket datagram.old parts → result ≢ ok →
        result ≡ long_id }
    ensures values { (parts : PacketParts) (from to : Slots) (values : ExtensionValues) →
        IsPacket datagram.old parts → CarriesExtensions from to (ids_in_bytes ids.now.id) →
        HasValues from parts.block values → result ≡ ok →
        GivesValues to (mapped_fields to values) datagram.new }
    ensures cause { IsNoPacket datagram.old → IsCauseStatus datagram.old result }
    ensures bytes { ChangesOnlyBody datagram.old datagram.new }
    ensures unchanged { result ≢ ok → datagram.new ≡ datagram.old }
{
    match layout_of(datagram) {
        Err(status) => status,
        Ok((header_len, form)) => {
            let mut packet = RtpPacketMut::new(datagram, header_len, form);
            if packet.renumber(&NewIds::from_ids(&ids.id)) {
                OK
            } else {
                LONG_ID
            }
        }
    }
}
