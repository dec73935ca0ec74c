//! A whole header, and how it is read from bytes.

ghost use Rattle.std.specs.Prelude.{◌≡◌, ◌≢◌, ◌⊎◌, ◌↔◌, ◌<◌, ◌≤◌, ◌-◌, ◌++◌, ℕ, length, replicate, slice_index, unwrap_or, None, IfOk, IfErr, IfSome, IsErr};
ghost use Rattle.std.specs.Option.{option_map};
ghost use Rattle.rtp_values.specs.declared.value.values.ExtensionValues.{ExtensionValues};
ghost use Rattle.rtp_wire.specs.PacketElements.{HasValues};
ghost use Rattle.rtp_c.specs.StoredMap.{numbered_slots};
ghost use Rattle.rtp_wire.specs.Header.{header_of};
ghost use Rattle.rtp_wire.specs.NotAHeader.{HasNoHeader};
ghost use Rattle.rtp_wire.specs.Packet.{IsPacket};
ghost use Rattle.rtp_wire.specs.PartsOf.{parts_of};
ghost use Rattle.rtp_vla.specs.Allocation.{nothing_sent};
ghost use Rattle.rtp_c.specs.LayersView.{IsViewOfLayers};
ghost use Rattle.rtp_c.specs.ValuesView.{IsViewOfValues};
ghost use Rattle.rtp_c.specs.declared.values.ValuesView.{ValuesView};
ghost use Rattle.rtp_c.specs.HeaderView.{IsViewOfHeader, IsParsedAs, IsHeaderRead, IsParsedWithLayersAs};
ghost use Rattle.rtp_c.specs.Status.{ok, IsHeaderStatus};

use super::kinds::StoredMap;
use super::layers::{Layers, put_no_layers};
use super::status::{OK, UNKNOWN_FORM, header_status_of};
use super::values::{ValuesView, flag_number, put_no_values, put_values};
use rtp_ext::{ExtensionsForm, read_apart};
use rtp_wire::{Csrcs, RtpHeader, RtpPacket};

/// The header of a packet (RFC 3550, 5.1), with the values of its block: `rtpw_header` in C, 224
/// bytes.
#[repr(C)]
#[derive(Clone, Copy)]
pub struct HeaderView {
    /// How many bytes the header took as it was read. Nothing is written from it.
    pub header_len: usize,
    /// The moment of the payload's first byte, in ticks of the payload's own clock.
    pub timestamp: u32,
    /// The source whose stream this is.
    pub ssrc: u32,
    /// The contributing sources, of which the first `csrc_count` count. As read the others are 0.
    pub csrc: [u32; 15],
    /// The low 16 bits of the packet's number.
    pub sequence_number: u16,
    /// What the payload is, 0 to 127.
    pub payload_type: u8,
    /// How many contributing sources there are, 0 to 15.
    pub csrc_count: u8,
    /// M, 0 or 1.
    pub marker: u8,
    /// P, 0 or 1.
    pub has_padding: u8,
    /// X, 0 or 1: whether there is a block of header extensions.
    pub has_extension: u8,
    /// The values that the block's elements carry.
    pub values: ValuesView,
}

// Puts the sources into the first slots and zeros into the others, and returns how many sources
// there are.
fn put_sources(sources: Csrcs<'_>, slots: &mut [u32; 15]) -> u8
    requires { length sources ≤ 15 }
    ensures sources { slots.new
        ≡ sources.entry ++ replicate (15 - length sources.entry) 0 }
    ensures count { result ≡ length sources.entry }
{
    *slots = [0; 15];
    let mut count = 0;
    for source in sources {
        slots[usize::from(count)] = source;
        count += 1;
    }
    count
}

// Puts what C is told of the values that this block gives under the map, and none without one.
#[inline(always)]
pub fn put_values_of(block: Option<(ExtensionsForm, &[u8])>, map: &StoredMap, view: &mut ValuesView)
    requires bytes { IfSome block (λ block. (i : ℕ) → slice_index block.1.now i < 256) }
    ensures { (values : ExtensionValues)
        × HasValues (numbered_slots map.now.kind)
        (option_map (λ block. (block.0, block.1.now)) block.entry) values
        × IsViewOfValues values view.new }
{
    match block {
        Some((form, body)) => put_values(body, form, map, view),
        None => put_no_values(view),
    }
}

// Puts the values that the packet's block gives under the map, and its layers, those of a sender that
// sends nothing where it gives none.
#[inline(always)]
fn put_values_and_layers_of(
    packet: &RtpPacket<'_>,
    map: &StoredMap,
    view: &mut ValuesView,
    layers: &mut Layers,
)
    ensures { (values : ExtensionValues)
        × HasValues (numbered_slots map.now.kind) (parts_of packet.now).block values
        × IsViewOfValues values view.new
        × IsViewOfLayers (unwrap_or values.video_layers_allocation nothing_sent) layers.new }
{
    put_no_values(view);
    let Some((form, body)) = packet.block() else {
        put_no_layers(layers);
        return;
    };
    if read_apart(map, (), body, form, view, layers) {
        view.has_layers = 1;
        return;
    }
    put_no_layers(layers);
}

// Puts the fields of the packet's header, and leaves the values.
#[inline(always)]
pub fn put_fields(packet: &RtpPacket<'_>, view: &mut HeaderView)
    requires sources { length (parts_of packet.now).sources ≤ 15 }
    ensures { (values : ExtensionValues) (told : ValuesView) → IsViewOfValues values told →
        IsViewOfHeader (header_of (parts_of packet.now) values) (record view.new { values = told }) }
{
    view.header_len = packet.header_len();
    view.timestamp = packet.timestamp();
    view.ssrc = packet.ssrc().get();
    view.csrc_count = put_sources(packet.csrc(), &mut view.csrc);
    view.sequence_number = packet.sequence_number();
    view.payload_type = packet.payload_type().get();
    view.marker = flag_number(packet.marker());
    view.has_padding = flag_number(packet.has_padding());
    view.has_extension = flag_number(packet.has_extension());
}

// The status of the first cause for which no header begins the bytes, and `OK` where one does.
fn refusal_of(buf: &[u8]) -> i32
    ensures { HasNoHeader buf.now → IsHeaderStatus buf.now result }
{
    match RtpHeader::refusal(buf) {
        Some(cause) => header_status_of(cause),
        None => OK,
    }
}

// The packet whose header the bytes begin with, or the status of the first cause for which none
// does.
#[inline(always)]
fn packet_in(buf: &[u8]) -> Result<RtpPacket<'_>, i32>
    ensures found { IfOk result (λ packet. IsPacket buf.now (parts_of packet)) }
    ensures known { IfOk result (λ packet. (parts_of packet).other_block ≡ None) }
    ensures cause { IfErr result (IsHeaderStatus buf.now) }
    ensures refused { HasNoHeader buf.now → IsErr result }
{
    let Ok(packet) = RtpPacket::parse(buf) else {
        return Err(refusal_of(buf));
    };
    if packet.has_other_form() {
        return Err(UNKNOWN_FORM);
    }
    Ok(packet)
}

// Tells the header that the bytes begin with, and returns the status.
#[inline(always)]
pub fn read_header(buf: &[u8], map: &StoredMap, header: &mut HeaderView) -> i32
    ensures { IsHeaderRead map.now.kind buf.now result header.old header.new }
{
    match packet_in(buf) {
        Ok(packet) => {
            put_fields(&packet, header);
            put_values_of(packet.block(), map, &mut header.values);
            OK
        }
        Err(status) => status,
    }
}

/// Reads the header that the bytes begin with, with the values that its block gives under the map
/// (RFC 3550, 5.1 and 5.3.1; RFC 8285, 4.2 and 4.3). Whatever follows the header isn't looked at.
/// `OK`, or the status of the first cause for which no header begins there, and then nothing is
/// written.
#[unsafe(no_mangle)]
pub extern "C" fn rtpw_parse(buf: &[u8], map: &StoredMap, header: &mut HeaderView) -> i32
    ensures found { result ≡ ok → IsParsedAs map.now.kind buf.now header.new }

    // The causes for which no header is read, and there are no others.
    ensures refused { IsHeaderStatus buf.now result ↔ HasNoHeader buf.now }
    ensures statuses { (result ≡ ok) ⊎ IsHeaderStatus buf.now result }
    ensures unchanged { result ≢ ok → header.new ≡ header.old }
{
    read_header(buf, map, header)
}

/// Reads the header as [`rtpw_parse`] does, and with it the layer allocation of its block. Where
/// the block gives none, as `has_layers` of the header's values tells, the layers are those of a
/// sender that sends nothing: each number is 0. Where it isn't `OK` nothing is written.
#[unsafe(no_mangle)]
pub extern "C" fn rtpw_parse_layers(
    buf: &[u8],
    map: &StoredMap,
    header: &mut HeaderView,
    layers: &mut Layers,
) -> i32
    ensures found { result ≡ ok →
        IsParsedWithLayersAs map.now.kind buf.now header.new layers.new }

    // The causes for which no header is read, and there are no others.
    ensures refused { IsHeaderStatus buf.now result ↔ HasNoHeader buf.now }
    ensures statuses { (result ≡ ok) ⊎ IsHeaderStatus buf.now result }
    ensures unchanged { result ≢ ok → (header.new ≡ header.old) × (layers.new ≡ layers.old) }
{
    match packet_in(buf) {
        Ok(packet) => {
            put_fields(&packet, header);
            put_values_and_layers_of(&packet, map, &mut header.values, layers);
            OK
        }
        Err(status) => status,
    }
}
