//! What C gives to be written with its layer allocation, a header, from fields, values and layers
//! to bytes.

ghost use Rattle.std.specs.Prelude.{◌≡◌, ◌≢◌, ◌↔◌, ◌⊎◌};
ghost use Rattle.rtp_wire.specs.declared.header.rtp_header.RtpHeader.{RtpHeader as Header};
ghost use Rattle.rtp_c.specs.Status.{ok, bad_field};
ghost use Rattle.rtp_c.specs.GivenLayers.{IsGivenWithLayers};
ghost use Rattle.rtp_c.specs.WrittenHeader.{IsLengthOf, WritesHeader};

use super::given_fields::given_header;
use super::given_layers::with_given_layers;
use super::header::HeaderView;
use super::kinds::StoredMap;
use super::layers::Layers;
use super::status::{BAD_FIELD, OK, SHORT_BUFFER};
use rtp_wire::{try_write_values, values_wire_len};

/// How many bytes [`rtpw_write_layers`] writes: a multiple of four. `OK`, and the number is
/// written; `BAD_FIELD` for the causes of [`rtpw_write_layers`], and then nothing is written.
#[unsafe(no_mangle)]
pub extern "C" fn rtpw_wire_len_layers(
    map: &StoredMap,
    header: &HeaderView,
    layers: &Layers,
    len: &mut usize,
) -> i32
    ensures length { result ≡ ok →
        IsLengthOf map.now.kind (IsGivenWithLayers header.now layers.now) len.new }
    ensures bad_field { (result ≡ bad_field) ↔
        ((h : Header) → IsGivenWithLayers header.now layers.now h → ⊥) }
    ensures statuses { (result ≡ ok) ⊎ (result ≡ bad_field) }
    ensures unchanged { result ≢ ok → len.new ≡ len.old }
{
    let Some((fields, without)) = given_header(header) else {
        return BAD_FIELD;
    };
    let Some(values) = with_given_layers(&without, layers) else {
        return BAD_FIELD;
    };
    *len = values_wire_len(&fields, &values, map);
    OK
}

/// Writes the header as [`rtpw_write`](crate::writing_values::rtpw_write) does, and these layers as its
/// layer allocation (`video-layers-allocation00`): an element for each id that the map has for it.
/// So what `rtpw_parse_layers` read is written again. `has_layers` isn't looked at, and of the
/// layers those that count alone.
///
/// The statuses are those of `rtpw_write`; `BAD_FIELD` also where a count of the layers is above 4, or
/// no element can carry them: they can't be written, or take more than 255 bytes.
#[unsafe(no_mangle)]
pub extern "C" fn rtpw_write_layers(
    map: &StoredMap,
    header: &HeaderView,
    layers: &Layers,
    buf: &mut [u8],
    len: &mut usize,
) -> i32
    ensures { WritesHeader map.now.kind (IsGivenWithLayers header.now layers.now)
        buf.old buf.new len.old len.new result }
{
    let Some((fields, without)) = given_header(header) else {
        return BAD_FIELD;
    };
    let Some(values) = with_given_layers(&without, layers) else {
        return BAD_FIELD;
    };
    let Some(written) = try_write_values(&fields, buf, &values, map) else {
        return SHORT_BUFFER;
    };
    *len = written;
    OK
}
