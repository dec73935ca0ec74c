//! Elements that C gives to be written, behind a header and by themselves.

ghost use Rattle.std.specs.Prelude.{◌≡◌, ◌≢◌, ◌↔◌, ◌≤◌, ◌<◌, ◌⊎◌, length, IsTrue, Option, Some, None};
ghost use Rattle.std.specs.List.{All};
ghost use Rattle.rtp_ext.specs.declared.form.ExtensionsForm.{ExtensionsForm};
ghost use Rattle.rtp_ext.specs.ElementsInARow.{IsWritable};
ghost use Rattle.rtp_wire.specs.declared.header.rtp_header.RtpHeader.{RtpHeader as Header};
ghost use Rattle.rtp_c.specs.Status.{ok, short_buffer, bad_field};
ghost use Rattle.rtp_c.specs.PacketView.{form_number};
ghost use Rattle.rtp_c.specs.WrittenElements.{AreWritable, AreWrittenElements, AreTooLong};
ghost use Rattle.rtp_c.specs.WrittenHeader.{CanBeWrittenWith, IsWrittenWith, IsTooLongWith};

use super::given_fields::GivenFields;
use super::header::HeaderView;
use super::named_elements::NamedElements;
use super::packet::{ElementView, allowed_of, form_of};
use super::status::{BAD_FIELD, OK, SHORT_BUFFER};
use rtp_ext::{ElementList, ExtensionsForm, write_elements};
use rtp_wire::write_with;

// The most bytes that the body of a block has: 65,535 words (RFC 3550, 5.3.1).
const MAX_BODY_LEN: usize = 4 * 65_535;

// Writes the header and a block with these elements as `rtpw_write_with` does, in the form that
// serves, or that alone is allowed.
fn write_header_with(
    header: &HeaderView,
    bytes: &[u8],
    elements: &[ElementView],
    allowed: Option<ExtensionsForm>,
    buf: &mut [u8],
    len: &mut usize,
) -> i32
    ensures written { result ≡ ok →
        IsWrittenWith allowed header.now bytes.now elements.now buf.old buf.new len.new }
    ensures within { result ≡ ok → len.new ≤ length buf.new }
    ensures short { (result ≡ short_buffer)
        ↔ IsTooLongWith allowed header.now bytes.now elements.now (length buf.old) }
    ensures bad_field { (result ≡ bad_field) ↔ ((h : Header) →
        CanBeWrittenWith allowed header.now bytes.now elements.now h → ⊥) }
    ensures statuses { (result ≡ ok) ⊎ ((result ≡ short_buffer) ⊎ (result ≡ bad_field)) }
    ensures unchanged { result ≢ ok → (buf.new ≡ buf.old) × (len.new ≡ len.old) }
{
    let Some(fields) = GivenFields::of(header) else {
        return BAD_FIELD;
    };
    let Some(named) = NamedElements::new(bytes, elements) else {
        return BAD_FIELD;
    };
    if let Some(written) = write_with(&fields, buf, named, allowed) {
        *len = written;
        return OK;
    }
    match ExtensionsForm::for_elements(named, allowed, MAX_BODY_LEN) {
        None => BAD_FIELD,
        Some(_) => SHORT_BUFFER,
    }
}

/// Writes the fixed part and the CSRC list of the header, and a block with these elements, to the
/// front of the buffer (RFC 3550, 5.1; RFC 8285, 4.2 and 4.3). X is set whatever `has_extension`
/// holds, and the values of the header are not looked at. An element has its id and the `data_len`
/// bytes of `bytes` from its `data_at` on; its `end` is not looked at, and `data_at` is also where
/// `data_len` is 0. The block is in the one-byte form exactly where that can carry every element,
/// ids 1 to 14 with 1 to 16 bytes of data; zeros fill its last word.
///
/// `OK`, and how many bytes they take is written too. `BAD_FIELD` where the payload type is above
/// 127, there are more than 15 contributing sources, `data_at + data_len` of an element is past
/// `bytes`, it has the id 0 or more than 255 bytes of data, or the elements take more than the
/// 65,535 words that a block can have; `SHORT_BUFFER` where only the room is short. Where it isn't
/// `OK` nothing is written.
#[unsafe(no_mangle)]
pub extern "C" fn rtpw_write_with(
    header: &HeaderView,
    bytes: &[u8],
    elements: &[ElementView],
    buf: &mut [u8],
    len: &mut usize,
) -> i32
    ensures written { result ≡ ok →
        IsWrittenWith None header.now bytes.now elements.now buf.old buf.new len.new }
    ensures within { result ≡ ok → len.new ≤ length buf.new }
    ensures short { (result ≡ short_buffer)
        ↔ IsTooLongWith None header.now bytes.now elements.now (length buf.old) }
    ensures bad_field { (result ≡ bad_field) ↔ ((h : Header) →
        CanBeWrittenWith None header.now bytes.now elements.now h → ⊥) }
    ensures statuses { (result ≡ ok) ⊎ ((result ≡ short_buffer) ⊎ (result ≡ bad_field)) }
    ensures unchanged { result ≢ ok → (buf.new ≡ buf.old) × (len.new ≡ len.old) }
{
    write_header_with(header, bytes, elements, None, buf, len)
}

/// Writes as [`rtpw_write_with`] does, in the one form that is allowed: 1 is the one-byte form, 2
/// the two-byte form, as for a peer that hasn't agreed to both forms in one stream (RFC 8285,
/// 4.1.2); 0 allows any, and then the two do the same. The one-byte form carries ids 1 to 14 with 1
/// to 16 bytes of data, the two-byte form ids 1 to 255 with 0 to 255 bytes.
///
/// The statuses are those of [`rtpw_write_with`]; `BAD_FIELD` also where the form is another number,
/// or can't carry an element.
#[unsafe(no_mangle)]
pub extern "C" fn rtpw_write_with_form(
    header: &HeaderView,
    bytes: &[u8],
    elements: &[ElementView],
    form: u8,
    buf: &mut [u8],
    len: &mut usize,
) -> i32
    ensures written { result ≡ ok → (allowed : Option ExtensionsForm) × (form_number allowed ≡ form)
        × IsWrittenWith allowed header.now bytes.now elements.now buf.old buf.new len.new }
    ensures within { result ≡ ok → len.new ≤ length buf.new }
    ensures short { (result ≡ short_buffer)
        ↔ ((allowed : Option ExtensionsForm) × (form_number allowed ≡ form)
        × IsTooLongWith allowed header.now bytes.now elements.now (length buf.old)) }
    ensures bad_field { (result ≡ bad_field) ↔ ((allowed : Option ExtensionsForm) →
        form_number allowed ≡ form → (h : Header) →
        CanBeWrittenWith allowed header.now bytes.now elements.now h → ⊥) }
    ensures statuses { (result ≡ ok) ⊎ ((result ≡ short_buffer) ⊎ (result ≡ bad_field)) }
    ensures unchanged { result ≢ ok → (buf.new ≡ buf.old) × (len.new ≡ len.old) }
{
    match allowed_of(form) {
        Some(allowed) => write_header_with(header, bytes, elements, allowed, buf, len),
        None => BAD_FIELD,
    }
}

// Whether the form can carry each of the elements.
fn can_carry_all<L: ElementList>(form: ExtensionsForm, elements: L) -> bool
    ensures { IsTrue result ↔ All (IsWritable form) (L.elements elements) }
{
    for index in 0..elements.count() {
        let (id, bytes) = elements.at(index);
        if !form.can_carry(id, bytes) {
            return false;
        }
    }
    true
}

/// Writes the elements to the front of the buffer, as they stand in the body of a block of this
/// form (RFC 8285, 4.2 and 4.3): each has its id and the `data_len` bytes of `bytes` from its
/// `data_at` on, and its `end` is not looked at. So the elements of another body are written under
/// new ids from where they lie. The one-byte form carries ids 1 to 14 with 1 to 16 bytes of data,
/// the two-byte form ids 1 to 255 with 0 to 255 bytes.
///
/// `OK`, and how many bytes they take is written too. `BAD_FIELD` where the form is neither of the
/// two or can't carry one of them, or where `data_at + data_len` of one is past `bytes`;
/// `SHORT_BUFFER` where only the room is short. Where it isn't `OK` nothing is written.
#[unsafe(no_mangle)]
pub extern "C" fn rtpw_write_elements(
    bytes: &[u8],
    elements: &[ElementView],
    form: u8,
    buf: &mut [u8],
    len: &mut usize,
) -> i32
    ensures written { result ≡ ok → (f : ExtensionsForm) × (form_number (Some f) ≡ form)
        × AreWrittenElements f bytes.now elements.now buf.old buf.new len.new }
    ensures within { result ≡ ok → len.new ≤ length buf.new }
    ensures short { (result ≡ short_buffer) ↔ ((f : ExtensionsForm) × (form_number (Some f) ≡ form)
        × AreTooLong f bytes.now elements.now (length buf.old)) }
    ensures bad_field { (result ≡ bad_field) ↔ ((f : ExtensionsForm) →
        form_number (Some f) ≡ form → AreWritable f bytes.now elements.now → ⊥) }
    ensures statuses { (result ≡ ok) ⊎ ((result ≡ short_buffer) ⊎ (result ≡ bad_field)) }
    ensures unchanged { result ≢ ok → (buf.new ≡ buf.old) × (len.new ≡ len.old) }
{
    let Some(form) = form_of(form) else {
        return BAD_FIELD;
    };
    let Some(named) = NamedElements::new(bytes, elements) else {
        return BAD_FIELD;
    };
    if let Some(written) = write_elements(buf, form, named) {
        *len = written;
        return OK;
    }
    if can_carry_all(form, named) {
        SHORT_BUFFER
    } else {
        BAD_FIELD
    }
}
