//! A header that C gives to be written, with its values.

ghost use Rattle.std.specs.Prelude.{◌≡◌, ◌≢◌, ◌↔◌, ◌⊎◌, false, true};
ghost use Rattle.rtp_wire.specs.declared.header.rtp_header.RtpHeader.{RtpHeader as Header};
ghost use Rattle.rtp_c.specs.Status.{ok, bad_field};
ghost use Rattle.rtp_c.specs.Given.{is_nonzero, AreGivenValues, IsGivenHeader};
ghost use Rattle.rtp_c.specs.WrittenHeader.{IsLengthOf, WritesHeader};

use super::given_fields::{GivenFields, given_header};
use super::given_values::GivenValues;
use super::header::HeaderView;
use super::kinds::StoredMap;
use super::status::{BAD_FIELD, OK, SHORT_BUFFER};
use rtp_wire::{try_write_values, values_wire_len};

/// How many bytes [`rtpw_write`] writes of the header: a multiple of four, 12 without CSRC list and
/// block. `OK`, and the number is written; `BAD_FIELD` for the causes of [`rtpw_write`], and then
/// nothing is written.
#[unsafe(no_mangle)]
pub extern "C" fn rtpw_wire_len(map: &StoredMap, header: &HeaderView, len: &mut usize) -> i32
    ensures length { result ≡ ok → IsLengthOf map.now.kind (IsGivenHeader header.now) len.new }
    ensures bad_field { (result ≡ bad_field) ↔ ((h : Header) → IsGivenHeader header.now h → ⊥) }
    ensures statuses { (result ≡ ok) ⊎ (result ≡ bad_field) }
    ensures unchanged { result ≢ ok → len.new ≡ len.old }
{
    let Some((fields, values)) = given_header(header) else {
        return BAD_FIELD;
    };
    *len = values_wire_len(&fields, &values, map);
    OK
}

/// Writes the header to the front of the buffer (RFC 3550, 5.1; RFC 8285, 4.2 and 4.3). A flag
/// counts as set where it isn't 0, and a value as absent where its `has_` is 0; `header_len` and
/// `has_layers` are not looked at. Where `has_extension` is set a block is written, with an element
/// for each mapped id, by rising id, whose value is there: in the two-byte form exactly where an id
/// above 14 is mapped, the layer allocation is mapped, or a text that is written is empty. Zeros
/// fill its last word. Where `has_extension` is clear nothing is written of the values, which are
/// looked at all the same.
///
/// `OK`, and how many bytes the header takes is written too. `BAD_FIELD` where the payload type is
/// above 127, there are more than 15 contributing sources, a text has another character than
/// letters, digits and underscores before its first zero or has no zero, an orientation is none of
/// 0, 90, 180 and 270, or a delay has 0 ticks in a second; of these values only where they are
/// there. `SHORT_BUFFER` where only the room is short. Where it isn't `OK` nothing is written.
#[unsafe(no_mangle)]
pub extern "C" fn rtpw_write(
    map: &StoredMap,
    header: &HeaderView,
    buf: &mut [u8],
    len: &mut usize,
) -> i32
    ensures { WritesHeader map.now.kind (IsGivenHeader header.now) buf.old buf.new len.old len.new
        result }
{
    if header.has_extension == 0 {
        return write_without_block(map, header, buf, len);
    }
    let Some(values) = GivenValues::of(&header.values) else {
        return BAD_FIELD;
    };
    write_with_block(map, header, buf, len, values)
}

// Writes the header as `rtpw_write` does, where X is clear. It stays out of line, so that it saves
// no register for a block.
#[inline(never)]
fn write_without_block(map: &StoredMap, header: &HeaderView, buf: &mut [u8], len: &mut usize) -> i32
    requires { is_nonzero header.now.has_extension ≡ false }
    ensures { WritesHeader map.now.kind (IsGivenHeader header.now) buf.old buf.new len.old len.new
        result }
{
    let Some(values) = GivenValues::of(&header.values) else {
        return BAD_FIELD;
    };
    write_with_x(map, header, false, buf, len, values)
}

// Writes the header as `rtpw_write` does, where X is set, with these values, which the header has. It
// stays out of line, so that a value that is none is refused before a register is saved.
#[inline(never)]
fn write_with_block(
    map: &StoredMap,
    header: &HeaderView,
    buf: &mut [u8],
    len: &mut usize,
    values: GivenValues<'_>,
) -> i32
    requires extension { is_nonzero header.now.has_extension ≡ true }
    requires values { AreGivenValues header.now.values values }
    ensures { WritesHeader map.now.kind (IsGivenHeader header.now) buf.old buf.new len.old len.new
        result }
{
    write_with_x(map, header, true, buf, len, values)
}

// Writes the header as `rtpw_write` does, with these values, where it is known whether X is set.
#[inline(always)]
fn write_with_x(
    map: &StoredMap,
    header: &HeaderView,
    has_extension: bool,
    buf: &mut [u8],
    len: &mut usize,
    values: GivenValues<'_>,
) -> i32
    requires extension { has_extension ≡ is_nonzero header.now.has_extension }
    requires values { AreGivenValues header.now.values values }
    ensures { WritesHeader map.now.kind (IsGivenHeader header.now) buf.old buf.new len.old len.new
        result }
{
    let Some(fields) = GivenFields::with_x(header, has_extension) else {
        return BAD_FIELD;
    };
    let Some(written) = try_write_values(&fields, buf, &values, map) else {
        return SHORT_BUFFER;
    };
    *len = written;
    OK
}
