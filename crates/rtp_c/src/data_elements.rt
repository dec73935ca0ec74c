//! Elements to be written that C gives with pointers to their data, behind a fixed part.

ghost use Rattle.std.specs.Prelude.{◌≡◌, ◌≢◌, ◌↔◌, ◌≤◌, ◌⊎◌, length, Some};
ghost use Rattle.rtp_ext.specs.declared.form.ExtensionsForm.{ExtensionsForm};
ghost use Rattle.rtp_c.specs.PacketView.{form_number};
ghost use Rattle.rtp_c.specs.Status.{ok, short_buffer, bad_field};
ghost use Rattle.rtp_c.specs.DataElements.{elements_at, CanBeWrittenAt, IsWrittenAt, IsTooLongAt};

use super::fixed_part::FixedView;
use super::packet::form_of;
use super::status::{BAD_FIELD, OK, SHORT_BUFFER};
use rtp_ext::{ElementList, ExtensionsForm};
use rtp_wire::write_with;

// The most bytes that the body of a block has: 65,535 words (RFC 3550, 5.3.1).
const MAX_BODY_LEN: usize = 4 * 65_535;

/// An element whose data lie anywhere: `rtpw_data_element` in C, 32 bytes.
#[repr(C)]
#[derive(Clone, Copy)]
pub struct DataView<'a> {
    /// Its id.
    pub id: u8,
    /// Its data.
    pub data: &'a [u8],
    /// The caller's own, which isn't looked at.
    pub own: usize,
}

/// Elements whose data lie anywhere, in order.
#[derive(Clone, Copy)]
struct DataElements<'a> {
    views: &'a [DataView<'a>],
}

impl ElementList for DataElements<'_> {
    ghost elements = { λ given. elements_at given.views.now };

    fn count(&self) -> usize {
        self.views.len()
    }

    fn at(&self, index: usize) -> (u8, &[u8]) {
        let view = &self.views[index];
        (view.id, view.data)
    }
}

/// Writes the fixed part, without contributing sources, and a block with these elements in this
/// form, to the front of the buffer (RFC 3550, 5.1; RFC 8285, 4.2 and 4.3): 1 is the one-byte form,
/// which carries ids 1 to 14 with 1 to 16 bytes of data, and 2 the two-byte form, ids 1 to 255 with
/// 0 to 255 bytes. X is set whatever `has_extension` holds, and zeros fill the block's last word.
///
/// `OK`, and how many bytes they take is written too. `BAD_FIELD` where the payload type is above
/// 127, the form is another number, it can't carry an element, or the elements take more than the
/// 65,535 words that a block can have; `SHORT_BUFFER` where only the room is short. Where it isn't
/// `OK` nothing is written.
#[unsafe(no_mangle)]
pub extern "C" fn rtpw_write_data_elements(
    fixed: &FixedView,
    elements: &[DataView<'_>],
    form: u8,
    buf: &mut [u8],
    len: &mut usize,
) -> i32
    ensures written { result ≡ ok → (f : ExtensionsForm) × (form_number (Some f) ≡ form)
        × IsWrittenAt f fixed.now elements.now buf.old buf.new len.new }
    ensures within { result ≡ ok → len.new ≤ length buf.new }
    ensures short { (result ≡ short_buffer) ↔ ((f : ExtensionsForm) × (form_number (Some f) ≡ form)
        × IsTooLongAt f fixed.now elements.now (length buf.old)) }
    ensures bad_field { (result ≡ bad_field) ↔ ((f : ExtensionsForm) →
        form_number (Some f) ≡ form → CanBeWrittenAt f fixed.now elements.now → ⊥) }
    ensures statuses { (result ≡ ok) ⊎ ((result ≡ short_buffer) ⊎ (result ≡ bad_field)) }
    ensures unchanged { result ≢ ok → (buf.new ≡ buf.old) × (len.new ≡ len.old) }
{
    let Some(form) = form_of(form) else {
        return BAD_FIELD;
    };
    let given = DataElements { views: elements };
    if let Some(written) = write_with(fixed, buf, given, Some(form)) {
        *len = written;
        return OK;
    }
    let served = ExtensionsForm::for_elements(given, Some(form), MAX_BODY_LEN);
    if fixed.payload_type > 127 || served.is_none() {
        return BAD_FIELD;
    }
    SHORT_BUFFER
}
