//! Which values of a header that C gives are left out where it is written.

ghost use Rattle.std.specs.Prelude.{◌≡◌, ◌≢◌, ◌↔◌, ◌⊎◌, ℕ, true, IsTrue};
ghost use Rattle.std.specs.Int.{bit_at};
ghost use Rattle.rtp_values.specs.declared.known_kind.KnownKind.{KnownKind};
ghost use Rattle.rtp_values.specs.declared.known_kind.KnownKind.TheVariants.{AbsoluteCaptureTime, VideoLayersAllocation};
ghost use Rattle.rtp_values.specs.KindSet.{has};
ghost use Rattle.rtp_wire.specs.declared.header.rtp_header.RtpHeader.{RtpHeader as Header};
ghost use Rattle.rtp_c.specs.Status.{ok, bad_field};
ghost use Rattle.rtp_c.specs.Given.{IsGivenHeader};
ghost use Rattle.rtp_c.specs.GivenLayers.{IsGivenWithLayers};
ghost use Rattle.rtp_c.specs.KindNumbers.{kind_number};
ghost use Rattle.rtp_c.specs.LeftOut.{AreBitsOf, AreLeftOut, HasOffsetAlone, HasLayersFlag};

use super::given_fields::given_header;
use super::given_layers::with_given_layers;
use super::header::HeaderView;
use super::kinds::StoredMap;
use super::layers::Layers;
use super::numbers::{KINDS, number_of};
use super::status::{BAD_FIELD, OK};
use super::values::ValuesView;
use rtp_values::KnownKind;
use rtp_wire::{KindSet, values_left_out};

// The bit at the place of the kind's number, where the kind is in the set.
#[inline(always)]
fn bit_of(kinds: &KindSet, kind: KnownKind) -> u32
    ensures own { (bit_at result (kind_number kind) ≡ 1) ↔ (has kinds.now kind ≡ true) }
    ensures others { (place : ℕ) → place ≢ kind_number kind → bit_at result place ≡ 0 }
{
    if kinds.contains(kind) {
        1 << number_of(kind)
    } else {
        0
    }
}

// The bits of the kinds in the set, each at the place of its number.
fn bits_of(kinds: &KindSet) -> u32
    ensures { AreBitsOf (λ kind. has kinds.now kind ≡ true) result }
{
    let mut bits = 0;
    for kind in &KINDS {
        bits |= bit_of(kinds, *kind);
    }
    bits
}

// Puts the kind into the set where this holds.
fn insert_if(kinds: &mut KindSet, kind: KnownKind, holds: bool)
    ensures { (k : KnownKind) → (has kinds.new k ≡ true)
        ↔ ((has kinds.old k ≡ true) ⊎ ((k ≡ kind) × (holds ≡ true))) }
{
    if holds {
        kinds.insert(kind);
    }
}

// Whether an offset is given without its capture time.
fn has_offset_alone(values: &ValuesView) -> bool
    ensures { (kind : KnownKind) → ((kind ≡ AbsoluteCaptureTime) × IsTrue result)
        ↔ HasOffsetAlone values.now kind }
{
    values.has_capture_offset != 0 && values.has_capture_time == 0
}

// Whether the flag of layers is set.
fn has_layers(values: &ValuesView) -> bool
    ensures { (kind : KnownKind) → ((kind ≡ VideoLayersAllocation) × IsTrue result)
        ↔ HasLayersFlag values.now kind }
{
    values.has_layers != 0
}

/// Which kinds [`rtpw_write`](crate::writing_values::rtpw_write) leaves out: those of which a value is
/// given and that no element carries which it writes under the map. Each has the bit at the place
/// of its number, as 8 is the audio level, and no other bit is set. They are all that are given
/// where `has_extension` is 0; else those that no id means, those of which a second value is absent
/// (a level without voice, one of two delays, the offset of a capture time), and the layer
/// allocation where `has_layers` isn't 0.
///
/// `OK`, and the bits are written; `BAD_FIELD` for the causes of `rtpw_write`, and then nothing is
/// written.
#[unsafe(no_mangle)]
pub extern "C" fn rtpw_left_out(map: &StoredMap, header: &HeaderView, kinds: &mut u32) -> i32
    ensures kinds { result ≡ ok → AreLeftOut map.now.kind (IsGivenHeader header.now)
        (λ kind. HasOffsetAlone header.now.values kind ⊎ HasLayersFlag header.now.values kind)
        kinds.new }
    ensures bad_field { (result ≡ bad_field) ↔ ((h : Header) → IsGivenHeader header.now h → ⊥) }
    ensures statuses { (result ≡ ok) ⊎ (result ≡ bad_field) }
    ensures unchanged { result ≢ ok → kinds.new ≡ kinds.old }
{
    let Some((fields, values)) = given_header(header) else {
        return BAD_FIELD;
    };
    let mut left = values_left_out(&fields, &values, map);
    insert_if(
        &mut left,
        KnownKind::AbsoluteCaptureTime,
        has_offset_alone(&header.values),
    );
    insert_if(
        &mut left,
        KnownKind::VideoLayersAllocation,
        has_layers(&header.values),
    );
    *kinds = bits_of(&left);
    OK
}

/// Which kinds [`rtpw_write_layers`](crate::writing_layers::rtpw_write_layers) leaves out: as
/// [`rtpw_left_out`], but that the layers are those that are given, whatever `has_layers` holds.
///
/// `OK`, and the bits are written; `BAD_FIELD` for the causes of `rtpw_write_layers`, and then
/// nothing is written.
#[unsafe(no_mangle)]
pub extern "C" fn rtpw_left_out_layers(
    map: &StoredMap,
    header: &HeaderView,
    layers: &Layers,
    kinds: &mut u32,
) -> i32
    ensures kinds { result ≡ ok → AreLeftOut map.now.kind
        (IsGivenWithLayers header.now layers.now) (HasOffsetAlone header.now.values) kinds.new }
    ensures bad_field { (result ≡ bad_field) ↔
        ((h : Header) → IsGivenWithLayers header.now layers.now h → ⊥) }
    ensures statuses { (result ≡ ok) ⊎ (result ≡ bad_field) }
    ensures unchanged { result ≢ ok → kinds.new ≡ kinds.old }
{
    let Some((fields, without)) = given_header(header) else {
        return BAD_FIELD;
    };
    let Some(values) = with_given_layers(&without, layers) else {
        return BAD_FIELD;
    };
    let mut left = values_left_out(&fields, &values, map);
    insert_if(
        &mut left,
        KnownKind::AbsoluteCaptureTime,
        has_offset_alone(&header.values),
    );
    *kinds = bits_of(&left);
    OK
}
