//! A packet with room behind it, into which elements are put, and a packet that is made short.

ghost use Rattle.std.specs.Prelude.{◌≡◌, ◌≢◌, ◌↔◌, ◌≤◌, ◌<◌, length, take, drop, Option, IfSome, IfNone};
ghost use Rattle.rtp_ext.specs.declared.form.ExtensionsForm.{ExtensionsForm};
ghost use Rattle.rtp_wire.specs.declared.packet.not_put.NotPut.{NotPut};
ghost use Rattle.rtp_wire.specs.NotAHeader.{IsNoPacket};
ghost use Rattle.rtp_wire.specs.PutIntoPacket.{PutsElement, AppliesToPut, Compacts};
ghost use Rattle.rtp_c.specs.PacketView.{form_number};
ghost use Rattle.rtp_c.specs.Status.{ok, bad_field, IsCauseStatus};
ghost use Rattle.rtp_c.specs.PutStatus.{put_status, IsPutStatus};

use super::packet::allowed_of;
use super::status::{
    BAD_FIELD, BAD_ID, FORM_NOT_ALLOWED, LONG_BLOCK, LONG_ID, OK, SHORT_BUFFER, UNKNOWN_FORM,
    status_of,
};
use rtp_wire::{NotPut, compact, put_element};

// The status of this cause. It stays out of line, so that a call does nothing for it where an element
// is put.
#[cold]
#[inline(never)]
pub fn put_status_of(cause: NotPut) -> i32
    ensures { result ≡ put_status cause }
{
    match cause {
        NotPut::CutPacket | NotPut::LongData => BAD_FIELD,
        NotPut::ZeroId => BAD_ID,
        NotPut::NotAPacket(cause) => status_of(cause),
        NotPut::OtherForm => UNKNOWN_FORM,
        NotPut::LongId => LONG_ID,
        NotPut::OneByteOnly => FORM_NOT_ALLOWED,
        NotPut::LongBlock => LONG_BLOCK,
        NotPut::NoRoom { needed: _ } => SHORT_BUFFER,
    }
}

/// Puts an element into the packet in the first `len` bytes of the buffer, which grows where it
/// lies: the packet then has exactly one element of this id, with these data, in place of the last
/// one of the id or as the last of all (RFC 8285, 4.2 and 4.3). The other elements stay, in order,
/// but those of the id 0, which is padding's: they go, and so does what stands where reading ends.
/// The other fields, the CSRC list and the payload stay. `len` becomes its new length. Of the
/// block's forms the number `allowed` allows both where it is 0, the one-byte form alone where it is
/// 1, and the two-byte form alone where it is 2.
///
/// `OK`; `BAD_FIELD` where `allowed` is above 2, or `len` is past the buffer; `BAD_ID` where the id
/// is 0; `BAD_FIELD` where there are more than 255 bytes of data; the status of the first cause for
/// which the bytes are no packet; `UNKNOWN_FORM` where the block's form is another, which carries
/// no elements; `LONG_ID` where the id is above 14, and only the one-byte form is allowed;
/// `FORM_NOT_ALLOWED` where the two-byte form is else needed, and isn't allowed; `LONG_BLOCK` where
/// the block would have more than 65,535 words; or `SHORT_BUFFER` where there is no room behind the
/// packet. Where it isn't `OK` nothing changes.
#[unsafe(no_mangle)]
pub extern "C" fn rtpw_put_element(
    buf: &mut [u8],
    len: &mut usize,
    id: u8,
    data: &[u8],
    allowed: u8,
) -> i32
    ensures put { (form : Option ExtensionsForm) → form_number form ≡ allowed → result ≡ ok →
        PutsElement (take len.old buf.old) (id, «data».now) form buf.new len.new }
    ensures within { result ≡ ok → (len.old ≤ len.new) × (len.new ≤ length buf.old) }
    ensures behind { result ≡ ok → drop len.new buf.new ≡ drop len.new buf.old }
    ensures bad_form { ((form : Option ExtensionsForm) → form_number form ≢ allowed) →
        result ≡ bad_field }
    ensures cause { (form : Option ExtensionsForm) → form_number form ≡ allowed → result ≢ ok →
        IsPutStatus buf.old len.old (id, «data».now) form result }
    ensures refused { (form : Option ExtensionsForm) → form_number form ≡ allowed → result ≢ ok
        ↔ ((cause : NotPut) × AppliesToPut buf.old len.old (id, «data».now) form cause) }
    ensures unchanged { result ≢ ok → (buf.new ≡ buf.old) × (len.new ≡ len.old) }
{
    let Some(allowed) = allowed_of(allowed) else {
        return BAD_FIELD;
    };
    match put_element(buf, *len, id, data, allowed) {
        // A sender may have such a block in each packet.
        Err(NotPut::OtherForm) => UNKNOWN_FORM,
        Err(cause) => put_status_of(cause),
        Ok(new_len) => {
            *len = new_len;
            OK
        }
    }
}

/// Makes the packet in the first `len` bytes of the buffer as short as its elements allow: they
/// stand in a row in the same order, the body is filled up to whole words, and the payload moves to
/// the front (RFC 8285, 4.2 and 4.3). `len` becomes its new length, and between that and the old
/// one any bytes may stand. After `rtpw_remove_element` it gives the bytes back. A block of another
/// form stays.
///
/// `OK`; `BAD_FIELD` where `len` is past the buffer; or the status of the first cause for which the
/// bytes are no packet. Where it isn't `OK` nothing changes.
#[unsafe(no_mangle)]
pub extern "C" fn rtpw_compact(buf: &mut [u8], len: &mut usize) -> i32
    ensures compacted { result ≡ ok → Compacts (take len.old buf.old) buf.new len.new }
    ensures within { result ≡ ok → len.new ≤ len.old }
    ensures behind { drop len.old buf.new ≡ drop len.old buf.old }
    ensures bad_len { (result ≡ bad_field) ↔ (length buf.old < len.old) }
    ensures cause { len.old ≤ length buf.old → result ≢ ok →
        IsCauseStatus (take len.old buf.old) result }
    ensures refused { len.old ≤ length buf.old → result ≢ ok ↔ IsNoPacket (take len.old buf.old) }
    ensures unchanged { result ≢ ok → (buf.new ≡ buf.old) × (len.new ≡ len.old) }
{
    if *len > buf.len() {
        return BAD_FIELD;
    }
    match compact(&mut buf[..*len]) {
        Err(cause) => status_of(cause),
        Ok(new_len) => {
            *len = new_len;
            OK
        }
    }
}
