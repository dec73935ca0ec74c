//! Fields, ids and form of a header, changed where it lies.

ghost use Rattle.std.specs.Prelude.{◌≡◌, ◌↔◌, ◌+◌, ◌≤◌, ℕ, [], List, Some, None, length, take, IsTrue, IfOk, IfErr, IfSome};
ghost use Rattle.std.specs.Bool.{OnTrue, OnFalse};
ghost use Rattle.rtp_ext.specs.declared.form.ExtensionsForm.TheVariants.{OneByte, TwoByte};
ghost use Rattle.rtp_ext.specs.Elements.{Element};
ghost use Rattle.rtp_ext.specs.NewIds.{new_id};
ghost use Rattle.rtp_wire.specs.declared.packet.not_put.NotPut.{NotPut};
ghost use Rattle.rtp_wire.specs.ChangedPacket.{ChangesOnly};
ghost use Rattle.rtp_wire.specs.GivenFields.{with_header_fields};
ghost use Rattle.rtp_wire.specs.Packet.{PacketParts, IsPacket, header_len_of};
ghost use Rattle.rtp_wire.specs.PacketElements.{AreElementsOf};
ghost use Rattle.rtp_wire.specs.PartsAt.{HasLayout};
ghost use Rattle.rtp_wire.specs.PartsOf.{parts_of};
ghost use Rattle.rtp_wire.specs.PutIntoPacket.{form_of_block, IsFirstNotPut};
ghost use Rattle.rtp_wire.specs.RemadeBlock.{RemakesBlock, KeepsFromForm};
ghost use Rattle.rtp_route.specs.Calls.{IsUnderNewIds, header_in};
ghost use Rattle.rtp_route.specs.NotRouted.{HasLongId};
ghost use Rattle.rtp_route.specs.Retransmitted.{without_padding, with_number};
ghost use Rattle.rtp_route.specs.Routing.{CarriesIds};

use super::copying::put_header;
use rtp_base::put;
use rtp_ext::{ExtensionsForm, NewIds};
use rtp_wire::{Fields, NotPut, RtpPacket, RtpPacketBuf, RtpPacketMut};

// Sets the given fields of the packet of these bytes, which are a header alone with a block of this
// form.
#[inline(always)]
pub(super) fn set_fields(header: &mut [u8], form: Option<ExtensionsForm>, fields: &Fields)
    requires held { HasLayout header.old (length header.old) form }
    requires payload_type { IfSome fields.now.payload_type (λ pt. pt ≤ 127) }
    ensures set { (parts : PacketParts) → IsPacket header.old parts →
        IsPacket header.new (with_header_fields fields.now parts) }
    ensures fixed { ChangesOnly 1 12 header.old header.new }
    ensures held { HasLayout header.new (length header.new) form }
{
    let len = header.len();
    let mut packet = RtpPacketMut::new(header, len, form);
    packet.set_fields(fields);
}

// Copies the header of a packet, and sets these fields.
#[inline(always)]
pub(super) fn copy_header(packet: &RtpPacket<'_>, fields: &Fields, buf: &mut [u8])
    requires payload_type { IfSome fields.now.payload_type (λ pt. pt ≤ 127) }
    requires room { length buf.old ≡ header_len_of (parts_of packet.now) }
    ensures set { (parts : PacketParts) → IsPacket (header_in packet.now) parts →
        IsPacket buf.new (with_header_fields fields.now parts) }
    ensures fixed { ChangesOnly 1 12 (header_in packet.now) buf.new }
    ensures held { HasLayout buf.new (length buf.new)
        (form_of_block (parts_of packet.now).block) }
{
    put_header(buf, packet.header_bytes());
    set_fields(buf, packet.form(), fields);
}

// Gives the elements of such a packet their new ids, and returns whether its form can carry them;
// where it can't nothing changes.
pub(super) fn renumber(header: &mut [u8], form: Option<ExtensionsForm>, ids: &NewIds) -> bool
    requires { HasLayout header.old (length header.old) form }
    ensures renumbered { (parts : PacketParts) (elements : List Element) →
        IsPacket header.old parts → AreElementsOf parts.block elements →
        OnTrue result (IsUnderNewIds (new_id ids.now) elements header.old parts header.new) }
    ensures carried { (parts : PacketParts) (elements : List Element) →
        IsPacket header.old parts → AreElementsOf parts.block elements →
        IsTrue result ↔ CarriesIds (new_id ids.now) parts.block elements }
    ensures long { OnFalse result (HasLongId header.old (new_id ids.now)) }
    ensures unchanged { OnFalse result (header.new ≡ header.old) }
{
    let len = header.len();
    let mut packet = RtpPacketMut::new(header, len, form);
    packet.renumber(ids)
}

/// Clears P of a header, and no other bit, for a payload that is sent without its padding (RFC 3550,
/// 5.1). Requires a first byte.
#[inline(always)]
pub fn clear_padding(header: &mut [u8])
    requires { 1 ≤ length header.old }
    ensures { header.new ≡ without_padding header.old }
{
    let first = header[0] & 0xDF;
    put(header, 0, &[first]);
}

// Clears P of the header at the front of the buffer, and puts the number into the two bytes behind
// it.
#[inline(always)]
pub(super) fn send_again(buf: &mut [u8], header_len: usize, original_number: u16)
    requires some { 1 ≤ header_len }
    requires room { length buf.old ≡ header_len + 2 }
    ensures { buf.new ≡ with_number (take header_len buf.old) original_number }
{
    clear_padding(buf);
    put(buf, header_len, &original_number.to_be_bytes());
}

// Gives the packet of one-byte form in the first bytes of the buffer, which are a header alone, the
// two-byte form, and returns how many bytes it then has. It stays out of line, since few packets
// need it.
#[cold]
#[inline(never)]
pub(super) fn change_form(buf: &mut [u8], len: usize) -> Result<usize, NotPut>
    requires within { len ≤ length buf.old }
    requires held { HasLayout (take len buf.old) len (Some OneByte) }
    ensures changed { IfOk result (RemakesBlock (take len buf.old) TwoByte [] buf.new) }
    ensures within { IfOk result (λ new_len. new_len ≤ length buf.old) }
    ensures cause { IfErr result (IsFirstNotPut
        (KeepsFromForm (take len buf.old) (length buf.old) (Some OneByte) TwoByte)) }
    ensures none_refused { IfOk result (λ _. (cause : NotPut) →
        KeepsFromForm (take len buf.old) (length buf.old) (Some OneByte) TwoByte cause → ⊥) }
{
    let mut packet = RtpPacketBuf::new(buf, len, len, Some(ExtensionsForm::OneByte));
    packet.change_form(ExtensionsForm::TwoByte)?;
    Ok(packet.len())
}

// Whether the one-byte form is the only one that is allowed.
#[inline(always)]
pub(super) fn is_one_byte_only(allowed: Option<ExtensionsForm>) -> bool
    ensures { IsTrue result ↔ (allowed ≡ Some OneByte) }
{
    matches!(allowed, Some(ExtensionsForm::OneByte))
}

// What is so of every table: the id 0, which is padding's, has no new one, and each is 1 to 255.
pub(super) fn known_ids(ids: &NewIds)
    ensures zero { new_id ids.now 0 ≡ None }
    ensures each { (id : ℕ) → IfSome (new_id ids.now id) (λ new. (1 ≤ new) × (new ≤ 255)) }
{
    ids.ids();
}
