//! The data of one element, made of the values that C gives.

ghost use Rattle.std.specs.Prelude.{◌≡◌, ◌≢◌, ◌↔◌, ◌≤◌, ◌⊎◌, length};
ghost use Rattle.rtp_c.specs.ElementData.{IsNothingAskedFor, HasNoData, AreWrittenData, AreTooLongData};
ghost use Rattle.rtp_c.specs.Status.{ok, short_buffer, bad_field, none};

use super::given_values::GivenValues;
use super::numbers::named;
use super::status::{BAD_FIELD, NONE, OK, SHORT_BUFFER};
use super::values::ValuesView;

/// Writes the data that an element of this kind has for these values to the front of the buffer, as
/// `rtpw_write` would (RFC 8285, 4.2 and 4.3): for an element that is set where it lies, or written
/// with others.
///
/// `OK`, and how many bytes they are is written too. `BAD_FIELD` where the number is that of no
/// extension, or a value that is there is none that can be written, whatever the kind is; `NONE`
/// where a value that the kind needs isn't there, and always for a kind that has none and for
/// extensions of the caller's own; `SHORT_BUFFER` where only the room is short. Where it isn't `OK`
/// nothing is written.
#[unsafe(no_mangle)]
pub extern "C" fn rtpw_data_of(
    kind: u8,
    values: &ValuesView,
    buf: &mut [u8],
    len: &mut usize,
) -> i32
    ensures written { result ≡ ok → AreWrittenData kind values.now buf.old buf.new len.new }
    ensures within { result ≡ ok → len.new ≤ length buf.new }
    ensures short { result ≡ short_buffer → AreTooLongData kind values.now (length buf.old) }
    ensures none { result ≡ none → HasNoData kind values.now }
    ensures bad_field { (result ≡ bad_field) ↔ IsNothingAskedFor kind values.now }
    ensures statuses { (result ≡ ok) ⊎ ((result ≡ short_buffer) ⊎ ((result ≡ none)
        ⊎ (result ≡ bad_field))) }
    ensures unchanged { result ≢ ok → (buf.new ≡ buf.old) × (len.new ≡ len.old) }
{
    let Some(known) = named(kind) else {
        return BAD_FIELD;
    };
    let Some(given) = GivenValues::of(values) else {
        return BAD_FIELD;
    };
    let Some(kind) = known else {
        return NONE;
    };
    let Some(data_len) = kind.data_len(&given) else {
        return NONE;
    };
    if buf.len() < data_len {
        return SHORT_BUFFER;
    }
    kind.write_to(buf, &given);
    *len = data_len;
    OK
}
