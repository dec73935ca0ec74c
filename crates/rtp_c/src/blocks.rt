//! The block of a packet with room behind it: taken off, put in place of another one, made one of
//! the other form, and with an element behind its own.

ghost use Rattle.std.specs.Prelude.{◌≡◌, ◌≢◌, ◌↔◌, ◌≤◌, ◌<◌, [], ◌∷◌, ℤ, length, take, drop, Option, Some, IsOk, IsErr, IfOk, IfErr, IfSome, OnErr};
ghost use Rattle.rtp_ext.specs.declared.form.ExtensionsForm.{ExtensionsForm};
ghost use Rattle.rtp_wire.specs.declared.packet.not_put.NotPut.{NotPut};
ghost use Rattle.rtp_wire.specs.NotAHeader.{IsNoPacket};
ghost use Rattle.rtp_wire.specs.PartsAt.{form_in, HasLayout};
ghost use Rattle.rtp_wire.specs.PutIntoPacket.{IsFirstNotPut};
ghost use Rattle.rtp_wire.specs.RemadeBlock.{RemakesBlock, IsInOther, form_with};
ghost use Rattle.rtp_c.specs.ChangedBlock.{IsNoFront, KeepsBlock, KeepsElement, TakesBlockOff, PutsBlock, IsBlockFault};
ghost use Rattle.rtp_c.specs.PacketView.{form_number};
ghost use Rattle.rtp_c.specs.PutStatus.{put_status, IsFirstPutStatus};
ghost use Rattle.rtp_c.specs.Status.{ok, bad_field, IsCauseStatus};

use super::growing::put_status_of;
use super::packet::{allowed_of, form_of};
use super::status::{BAD_FIELD, LONG_BLOCK, OK, SHORT_BUFFER};
use rtp_ext::ExtensionsForm;
use rtp_wire::{NotPut, RtpPacket, RtpPacketBuf};

// How many bytes the header of the packet takes that the first bytes of the buffer are, and the form
// of its block; the first cause for which they are none.
fn layout_in(buf: &[u8], len: usize) -> Result<(usize, Option<ExtensionsForm>), NotPut>
    ensures found { IfOk result (λ layout. HasLayout (take len buf.now) layout.0 layout.1) }
    ensures room { IsOk result → len ≤ length buf.now }
    ensures cause { IfErr result (IsNoFront buf.now len) }
{
    if len > buf.len() {
        return Err(NotPut::CutPacket);
    }
    let packet = RtpPacket::parse(&buf[..len])?;
    Ok((packet.header_len(), packet.form()))
}

// Makes a block of the other form one of this form, and returns how many bytes the packet then has.
fn change_form(buf: &mut [u8], len: usize, form: ExtensionsForm) -> Result<usize, NotPut>
    ensures changed { IfOk result (λ new_len. IsInOther (form_in (take len buf.old)) form →
        RemakesBlock (take len buf.old) form [] buf.new new_len) }
    ensures same { IfOk result (λ new_len. (IsInOther (form_in (take len buf.old)) form → ⊥) →
        (buf.new ≡ buf.old) × (new_len ≡ len)) }
    ensures within { IfOk result (λ new_len. new_len ≤ length buf.old) }
    ensures behind { IfOk result (λ new_len. drop new_len buf.new ≡ drop new_len buf.old) }
    ensures cause { IfErr result (IsFirstNotPut (KeepsBlock buf.old len form)) }
    ensures refused { IsErr result ↔ ((cause : NotPut) × KeepsBlock buf.old len form cause) }
    ensures unchanged { OnErr result (buf.new ≡ buf.old) }
{
    let (header_len, was) = layout_in(buf, len)?;
    let mut packet = RtpPacketBuf::new(buf, len, header_len, was);
    packet.change_form(form)?;
    Ok(packet.len())
}

// Puts an element behind all others, and returns how many bytes the packet then has.
fn add_element(
    buf: &mut [u8],
    len: usize,
    id: u8,
    data: &[u8],
    allowed: Option<ExtensionsForm>,
) -> Result<usize, NotPut>
    ensures added { IfOk result (λ new_len. IfSome
        (form_with (form_in (take len buf.old)) (id, «data».now) allowed) (λ form.
        RemakesBlock (take len buf.old) form ((id, «data».now) ∷ []) buf.new new_len)) }
    ensures within { IfOk result (λ new_len. new_len ≤ length buf.old) }
    ensures behind { IfOk result (λ new_len. drop new_len buf.new ≡ drop new_len buf.old) }
    ensures cause { IfErr result (IsFirstNotPut
        (KeepsElement buf.old len (id, «data».now) allowed)) }
    ensures refused { IsErr result
        ↔ ((cause : NotPut) × KeepsElement buf.old len (id, «data».now) allowed cause) }
    ensures unchanged { OnErr result (buf.new ≡ buf.old) }
{
    if len > buf.len() {
        return Err(NotPut::CutPacket);
    }
    if id == 0 {
        return Err(NotPut::ZeroId);
    }
    if data.len() > 255 {
        return Err(NotPut::LongData);
    }
    let (header_len, form) = layout_in(buf, len)?;
    let mut packet = RtpPacketBuf::new(buf, len, header_len, form);
    packet.add_element(id, data, allowed)?;
    Ok(packet.len())
}

/// Takes the block off the packet in the first `len` bytes of the buffer, whatever its form, and
/// clears X: the payload moves to the end of the CSRC list (RFC 3550, 5.3.1). `len` becomes its new
/// length. Where X is clear nothing changes.
///
/// `OK`; `BAD_FIELD` where `len` is past the buffer; or the status of the first cause for which the
/// bytes are no packet. Where it isn't `OK` nothing changes.
#[unsafe(no_mangle)]
pub extern "C" fn rtpw_remove_block(buf: &mut [u8], len: &mut usize) -> i32
    ensures taken_off { result ≡ ok → TakesBlockOff (take len.old buf.old) buf.new len.new }
    ensures within { result ≡ ok → len.new ≤ len.old }
    ensures behind { result ≡ ok → drop len.new buf.new ≡ drop len.new buf.old }
    ensures bad_len { (result ≡ bad_field) ↔ (length buf.old < len.old) }
    ensures cause { len.old ≤ length buf.old → result ≢ ok →
        IsCauseStatus (take len.old buf.old) result }
    ensures refused { len.old ≤ length buf.old → result ≢ ok ↔ IsNoPacket (take len.old buf.old) }
    ensures unchanged { result ≢ ok → (buf.new ≡ buf.old) × (len.new ≡ len.old) }
{
    match layout_in(buf, *len) {
        Err(cause) => put_status_of(cause),
        Ok((header_len, form)) => {
            let mut packet = RtpPacketBuf::new(buf, *len, header_len, form);
            packet.remove_block();
            *len = packet.len();
            OK
        }
    }
}

/// Makes the block of the packet in the first `len` bytes of the buffer one of the form of this
/// number, 1 the one-byte form or 2 the two-byte form: its elements stay, in order, and the payload
/// moves where the body grows (RFC 3550, 5.3.1; RFC 8285, 4.2 and 4.3). `len` becomes its new
/// length. Elements of the id 0, which is padding's, go, and so does what stands where reading
/// ends. A packet whose block has the form already, or that has none, stays as it is.
///
/// `OK`; `BAD_FIELD` where the number is neither of the two, or `len` is past the buffer; the
/// status of the first cause for which the bytes are no packet; `UNKNOWN_FORM` where the block's
/// form is another, which carries no elements; `LONG_ID` where an element has an id above 14, and
/// `FORM_NOT_ALLOWED` where no data or more than 16 bytes, which the one-byte form can't carry;
/// `LONG_BLOCK` where the block would have more than 65,535 words; or `SHORT_BUFFER` where there is
/// no room behind the packet. Where it isn't `OK` nothing changes.
#[unsafe(no_mangle)]
pub extern "C" fn rtpw_change_form(buf: &mut [u8], len: &mut usize, form: u8) -> i32
    ensures changed { (f : ExtensionsForm) → form_number (Some f) ≡ form → result ≡ ok →
        IsInOther (form_in (take len.old buf.old)) f →
        RemakesBlock (take len.old buf.old) f [] buf.new len.new }
    ensures same { (f : ExtensionsForm) → form_number (Some f) ≡ form →
        (IsInOther (form_in (take len.old buf.old)) f → ⊥) →
        (buf.new ≡ buf.old) × (len.new ≡ len.old) }
    ensures within { result ≡ ok → (len.new ≤ length buf.old)
        × (drop len.new buf.new ≡ drop len.new buf.old) }
    ensures bad_form { ((f : ExtensionsForm) → form_number (Some f) ≢ form) → result ≡ bad_field }
    ensures cause { (f : ExtensionsForm) → form_number (Some f) ≡ form → result ≢ ok →
        IsFirstPutStatus (KeepsBlock buf.old len.old f) result }
    ensures refused { (f : ExtensionsForm) → form_number (Some f) ≡ form → result ≢ ok
        ↔ ((cause : NotPut) × KeepsBlock buf.old len.old f cause) }
    ensures unchanged { result ≢ ok → (buf.new ≡ buf.old) × (len.new ≡ len.old) }
{
    let Some(form) = form_of(form) else {
        return BAD_FIELD;
    };
    match change_form(buf, *len, form) {
        Err(cause) => put_status_of(cause),
        Ok(new_len) => {
            *len = new_len;
            OK
        }
    }
}

/// Puts an element into the packet in the first `len` bytes of the buffer, behind all others, of
/// which those of its id stay: an id may have several (RFC 8285, 4.2 and 4.3). `len` becomes its
/// new length. Of the block's forms the number `allowed` allows those that `rtpw_put_element`
/// allows, and the block gets the form that it gets there. It is made anew: elements of the id 0,
/// which is padding's, go, and so does what stands where reading ends.
///
/// The statuses are those of `rtpw_put_element`. Where it isn't `OK` nothing changes.
#[unsafe(no_mangle)]
pub extern "C" fn rtpw_add_element(
    buf: &mut [u8],
    len: &mut usize,
    id: u8,
    data: &[u8],
    allowed: u8,
) -> i32
    ensures added { (form : Option ExtensionsForm) → form_number form ≡ allowed → result ≡ ok →
        IfSome (form_with (form_in (take len.old buf.old)) (id, «data».now) form) (λ f.
        RemakesBlock (take len.old buf.old) f ((id, «data».now) ∷ []) buf.new len.new) }
    ensures within { result ≡ ok → (len.new ≤ length buf.old)
        × (drop len.new buf.new ≡ drop len.new buf.old) }
    ensures bad_form { ((form : Option ExtensionsForm) → form_number form ≢ allowed) →
        result ≡ bad_field }
    ensures cause { (form : Option ExtensionsForm) → form_number form ≡ allowed → result ≢ ok →
        IsFirstPutStatus (KeepsElement buf.old len.old (id, «data».now) form) result }
    ensures refused { (form : Option ExtensionsForm) → form_number form ≡ allowed → result ≢ ok
        ↔ ((cause : NotPut) × KeepsElement buf.old len.old (id, «data».now) form cause) }
    ensures unchanged { result ≢ ok → (buf.new ≡ buf.old) × (len.new ≡ len.old) }
{
    let Some(allowed) = allowed_of(allowed) else {
        return BAD_FIELD;
    };
    match add_element(buf, *len, id, data, allowed) {
        Err(cause) => put_status_of(cause),
        Ok(new_len) => {
            *len = new_len;
            OK
        }
    }
}

/// Gives the packet in the first `len` bytes of the buffer a block that begins with these 16 bits,
/// which the profile defines, and has this body, in place of the block that is there: X is set, and
/// the payload moves (RFC 3550, 5.3.1). `len` becomes its new length.
///
/// `OK`; `BAD_FIELD` where `len` is past the buffer, or the body is no whole number of 32-bit
/// words; `LONG_BLOCK` where it has more than 65,535; the status of the first cause for which the
/// bytes are no packet; or `SHORT_BUFFER` where there is no room behind the packet. Where it isn't
/// `OK` nothing changes.
#[unsafe(no_mangle)]
pub extern "C" fn rtpw_put_block(buf: &mut [u8], len: &mut usize, profile: u16, body: &[u8]) -> i32
    ensures put { result ≡ ok →
        PutsBlock (take len.old buf.old) profile body.now buf.new len.new }
    ensures within { result ≡ ok → len.new ≤ length buf.old }
    ensures behind { result ≡ ok → drop len.new buf.new ≡ drop len.new buf.old }
    ensures fault { result ≢ ok → IsBlockFault buf.old len.old body.now result }
    ensures refused { result ≢ ok
        ↔ ((status : ℤ) × IsBlockFault buf.old len.old body.now status) }
    ensures unchanged { result ≢ ok → (buf.new ≡ buf.old) × (len.new ≡ len.old) }
{
    if *len > buf.len() || body.len() % 4 != 0 {
        return BAD_FIELD;
    }
    if body.len() > 4 * 65_535 {
        return LONG_BLOCK;
    }
    match layout_in(buf, *len) {
        Err(cause) => put_status_of(cause),
        Ok((header_len, form)) => {
            let mut packet = RtpPacketBuf::new(buf, *len, header_len, form);
            match packet.put_block(profile, body) {
                // Of the other causes none is left.
                Err(_) => SHORT_BUFFER,
                Ok(()) => {
                    *len = packet.len();
                    OK
                }
            }
        }
    }
}
