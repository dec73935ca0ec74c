//! The packet as a buffer that can be changed.

ghost use Rattle.std.specs.Prelude.{◌≡◌, ◌↔◌, ℕ, ◌+◌, ◌*◌, ◌/◌, ◌<◌, ◌≤◌, List, length, slice_index, slice_set, false, All, IsTrue, IsErr, IfOk, IfErr, IfSome, IfNone, IsOkAnd, Some};
ghost use Rattle.std.specs.Bool.{OnTrue, OnFalse};
ghost use Rattle.std.specs.List.{filter_map};
ghost use Rattle.rtp_base.specs.Overwriting.{overwritten};
ghost use Rattle.rtp_values.specs.declared.kind.Extension.{Extension};
ghost use Rattle.rtp_values.specs.declared.value.values.ExtensionValues.{ExtensionValues};
ghost use Rattle.rtp_values.specs.Values.{Reads, with_fields, IsWellFormed};
ghost use Rattle.rtp_ext.specs.Elements.{Element};
ghost use Rattle.rtp_ext.specs.ElementsInPlace.{HasNone, HasLastOf, SetsLast, ChangesIds, CanRenumber, renumbered, all_but};
ghost use Rattle.rtp_ext.specs.ExtensionMap.{Slots, extension_at, IsOnlyId};
ghost use Rattle.rtp_ext.specs.NewIds.{new_id, CarriesExtensions};
ghost use Rattle.rtp_ext.specs.ElementPlaces.{WritesLast};
ghost use Rattle.rtp_ext.specs.WrittenBlock.{mapped_fields};
ghost use Rattle.rtp_wire.specs.ChangedPacket.{ChangesBlock, ChangesOnly, ChangesOnlyBody};
ghost use Rattle.rtp_wire.specs.NotAHeader.{IsNoPacket};
ghost use Rattle.rtp_wire.specs.NotAPacket.{IsFirstCause};
ghost use Rattle.rtp_wire.specs.Packet.{PacketParts, IsPacket};
ghost use Rattle.rtp_wire.specs.PacketElements.{AreElementsOf, HasValues};
ghost use Rattle.rtp_wire.specs.PartsAt.{form_in, header_end, HasLayout};

use super::rtp_packet::body_start;
use super::{NotAPacket, RtpPacket};
use crate::header::flag;
use rtp_base::{Pt, Ssrc, put};
use rtp_ext::{ExtensionsForm, NewIds, remove_element, renumber, set_element};

/// An RTP packet in a buffer, whose fields can be changed where they lie (RFC 3550, 5.1; RFC 8285,
/// 4). Its length and that of its header stay, and so does a block of another form than 0xBEDE and
/// 0x1000 to 0x100F, in which no element is found.
#[derive(Debug, Drop)]
pub struct RtpPacketMut<'a> {
    pub(super) datagram: &'a mut [u8],
    // How many bytes the header takes.
    pub(super) header_len: usize,
    // The form of the block, where it is one of the two.
    pub(super) form: Option<ExtensionsForm>,
    ghost fixed: { 12 ≤ length datagram.now },
    ghost version: { slice_index datagram.now 0 / 64 ≡ 2 },
    ghost announced: { form ≡ form_in datagram.now },
    ghost ends: { header_len ≡ header_end datagram.now },
    ghost within: { header_len ≤ length datagram.now },
}

impl<'a> RtpPacketMut<'a> {
    ghost use Rattle.rtp_wire.specs.PartsOf.{parts_of, datagram_of, parts_in, buffer_of};

    /// The packet in the buffer, whose header was found by [`RtpPacket::parse`]: it has this length
    /// and a block of this form, if of one of the two.
    ///
    /// It is for callers that have to prove that a buffer without a packet stays as it was:
    /// [`parse`](Self::parse) takes the buffer, and what is left of it where it is refused can't be
    /// stated. `RtpPacket::parse` only reads it.
    pub fn new(datagram: &'a mut [u8], header_len: usize, form: Option<ExtensionsForm>) -> Self
        requires { HasLayout datagram.old header_len form }
        ensures same_buffer { (buffer_of result).ghost_name ≡ datagram.entry.ghost_name }
        ensures same_bytes { (buffer_of result).now ≡ datagram.old }
    {
        RtpPacketMut {
            datagram,
            header_len,
            form,
        }
    }

    /// The packet in the buffer; the first cause for which it holds none.
    pub fn parse(datagram: &'a mut [u8]) -> Result<Self, NotAPacket>
        ensures found { IfOk result (λ packet. IsPacket datagram.old (parts_in packet)) }
        ensures only { (parts : PacketParts) → IsPacket datagram.old parts →
            IsOkAnd result (λ packet. parts_in packet ≡ parts) }
        ensures same_buffer { IfOk result (λ packet.
            (buffer_of packet).ghost_name ≡ datagram.entry.ghost_name) }
        ensures same_bytes { IfOk result (λ packet. (buffer_of packet).now ≡ datagram.old) }
        ensures cause { IfErr result (IsFirstCause datagram.old) }
        ensures refused { IsErr result ↔ IsNoPacket datagram.old }
    {
        let packet = RtpPacket::parse(datagram)?;
        let header_len = packet.header_len;
        let form = packet.form;
        Ok(RtpPacketMut::new(datagram, header_len, form))
    }

    /// The packet as it stands in the buffer: its bytes are read as these parts, whatever was
    /// changed.
    pub fn as_packet(&self) -> RtpPacket<'_>
        ensures parts { parts_of result ≡ parts_in self.now }
        ensures bytes { datagram_of result ≡ (buffer_of self.now).now }
        ensures is_packet { IsPacket (buffer_of self.now).now (parts_in self.now) }
    {
        RtpPacket::new(self.datagram, self.header_len, self.form)
    }

    /// The buffer, to encrypt the payload in place, say.
    pub fn into_datagram(self) -> &'a mut [u8]
        ensures same_buffer { result.ghost_name ≡ (buffer_of self.entry).ghost_name }
        ensures same_bytes { result.now ≡ (buffer_of self.entry).now }
    {
        let RtpPacketMut {
            datagram,
            header_len: _,
            form: _,
        } = self;
        datagram
    }

    // Puts bytes into the fixed part, after its first byte.
    fn put_fixed(&mut self, at: usize, bytes: &[u8])
        requires after_first { 0 < at }
        requires within { at + length bytes.now ≤ 12 }
        ensures written { (buffer_of self.new).now
            ≡ overwritten (buffer_of self.old).now at bytes.now }
        ensures same_buffer { (buffer_of self.new).ghost_name ≡ (buffer_of self.old).ghost_name }
    {
        put(self.datagram, at, bytes);
    }

    /// Sets M, whose meaning the payload's profile gives.
    pub fn set_marker(&mut self, marker: bool)
        ensures parts { parts_in self.new ≡ record (parts_in self.old) { marker = marker } }
        ensures bytes { ChangesOnly 1 2 (buffer_of self.old).now (buffer_of self.new).now }
        ensures same_buffer { (buffer_of self.new).ghost_name ≡ (buffer_of self.old).ghost_name }
    {
        let second = flag(marker, 0x80) + (self.datagram[1] & 0x7F);
        self.put_fixed(1, &[second]);
    }

    /// Sets the payload type. Requires at most 127.
    pub fn set_payload_type(&mut self, pt: Pt)
        requires { pt ≤ 127 }
        ensures parts { parts_in self.new ≡ record (parts_in self.old) { payload_type = pt } }
        ensures bytes { ChangesOnly 1 2 (buffer_of self.old).now (buffer_of self.new).now }
        ensures same_buffer { (buffer_of self.new).ghost_name ≡ (buffer_of self.old).ghost_name }
    {
        let second = (self.datagram[1] & 0x80) + pt.get();
        self.put_fixed(1, &[second]);
    }

    /// Sets the sequence number.
    pub fn set_sequence_number(&mut self, number: u16)
        ensures parts { parts_in self.new
            ≡ record (parts_in self.old) { sequence_number = number } }
        ensures bytes { ChangesOnly 2 4 (buffer_of self.old).now (buffer_of self.new).now }
        ensures same_buffer { (buffer_of self.new).ghost_name ≡ (buffer_of self.old).ghost_name }
    {
        self.put_fixed(2, &number.to_be_bytes());
    }

    /// Sets the timestamp.
    pub fn set_timestamp(&mut self, timestamp: u32)
        ensures parts { parts_in self.new ≡ record (parts_in self.old) { timestamp = timestamp } }
        ensures bytes { ChangesOnly 4 8 (buffer_of self.old).now (buffer_of self.new).now }
        ensures same_buffer { (buffer_of self.new).ghost_name ≡ (buffer_of self.old).ghost_name }
    {
        self.put_fixed(4, &timestamp.to_be_bytes());
    }

    /// Sets the SSRC.
    pub fn set_ssrc(&mut self, ssrc: Ssrc)
        ensures parts { parts_in self.new ≡ record (parts_in self.old) { ssrc = ssrc } }
        ensures bytes { ChangesOnly 8 12 (buffer_of self.old).now (buffer_of self.new).now }
        ensures same_buffer { (buffer_of self.new).ghost_name ≡ (buffer_of self.old).ghost_name }
    {
        self.put_fixed(8, &ssrc.get().to_be_bytes());
    }

    /// Sets the contributing source at this place of the CSRC list, counted from 0. Returns
    /// `false`, and changes nothing, where the list has no such place.
    pub fn set_csrc(&mut self, index: usize, source: u32) -> bool
        ensures found { IsTrue result ↔ (index < length (parts_in self.old).sources) }
        ensures parts { IsTrue result → parts_in self.new ≡ record (parts_in self.old) {
          sources = slice_set (parts_in self.old).sources index source;
        } }
        ensures bytes { ChangesOnly (12 + 4 * index) (16 + 4 * index)
            (buffer_of self.old).now (buffer_of self.new).now }
        ensures unchanged { result ≡ false → self.new ≡ self.old }
        ensures same_buffer { (buffer_of self.new).ghost_name ≡ (buffer_of self.old).ghost_name }
    {
        if index >= usize::from(self.datagram[0] & 0x0F) {
            return false;
        }
        put(self.datagram, 12 + 4 * index, &source.to_be_bytes());
        true
    }

    /// Gives the last element of this id these data, where it has as many bytes of them, and
    /// returns whether it has (RFC 8285, 4.2 and 4.3). Else nothing changes.
    ///
    /// Under a map in which a kind has this id and no other, the packet then says what it said,
    /// except for the fields of that kind; these are what the data say, where they are well-formed
    /// for it.
    ///
    /// In a packet whose block has the body `10 AA 21 BB CC 10 DD 00` (hexadecimal) of the one-byte
    /// form, the data `EE` of id 1 take the place of `DD`.
    pub fn set_element(&mut self, id: u8, data: &[u8]) -> bool
        ensures set { OnTrue result (ChangesBlock (λ form. SetsLast form id «data».now)
            (parts_in self.old) (parts_in self.new)) }
        ensures written { OnTrue result (ChangesBlock (λ form. WritesLast form id «data».now)
            (parts_in self.old) (parts_in self.new)) }
        ensures unchanged { OnFalse result ((buffer_of self.new).now ≡ (buffer_of self.old).now) }
        ensures bytes { ChangesOnlyBody (buffer_of self.old).now (buffer_of self.new).now }
        ensures answer { (elements : List Element) →
            AreElementsOf (parts_in self.old).block elements →
            IsTrue result ↔ HasLastOf elements id (length «data».now) }
        ensures other_values { (exts : Slots) (kind : Extension) (old new : ExtensionValues) →
            extension_at exts id ≡ Some kind → HasValues exts (parts_in self.old).block old →
            HasValues exts (parts_in self.new).block new →
            OnTrue result (new ≡ with_fields kind old new) }
        ensures values { (exts : Slots) (kind : Extension) (new : ExtensionValues) →
            IsOnlyId exts kind id → IsWellFormed kind «data».now →
            HasValues exts (parts_in self.new).block new →
            OnTrue result (Reads kind «data».now new) }
        ensures same_buffer { (buffer_of self.new).ghost_name ≡ (buffer_of self.old).ghost_name }
    {
        let Some(form) = self.form else {
            return false;
        };
        let start = body_start(self.datagram[0]);
        set_element(form, &mut self.datagram[start..self.header_len], id, data)
    }

    /// Makes each element of this id zeros, which are padding, and returns whether there is one
    /// (RFC 8285, 4.2 and 4.3). All other bytes stay.
    ///
    /// In a packet whose block has the body `10 AA 21 BB CC 10 DD 00` (hexadecimal) of the one-byte
    /// form, the removal of id 1 leaves the body `00 00 21 BB CC 00 00 00`.
    pub fn remove_element(&mut self, id: u8) -> bool
        ensures removed { OnTrue result (ChangesBlock (λ form. ChangesIds form (all_but id))
            (parts_in self.old) (parts_in self.new)) }
        ensures unchanged { OnFalse result ((buffer_of self.new).now ≡ (buffer_of self.old).now) }
        ensures bytes { ChangesOnlyBody (buffer_of self.old).now (buffer_of self.new).now }
        ensures answer { (elements : List Element) →
            AreElementsOf (parts_in self.old).block elements →
            IsTrue result ↔ (HasNone elements id → ⊥) }
        ensures elements { (elements : List Element) →
            AreElementsOf (parts_in self.old).block elements →
            AreElementsOf (parts_in self.new).block
            (filter_map (renumbered (all_but id)) elements) }
        ensures same_buffer { (buffer_of self.new).ghost_name ≡ (buffer_of self.old).ghost_name }
    {
        let Some(form) = self.form else {
            return false;
        };
        let start = body_start(self.datagram[0]);
        remove_element(form, &mut self.datagram[start..self.header_len], id)
    }

    /// Gives each element its new id where it lies, and makes an element whose id has no new one
    /// zeros, which are padding; all other bytes stay (RFC 8285, 4.2 and 4.3). Returns `false`, and
    /// nothing changes, where the form of the block can't carry the new id of an element: one above
    /// 14 in the one-byte form. Where X is clear or the form is another there is nothing to change,
    /// and it returns `true`.
    ///
    /// The packet then says under the second map what it said under the first, of the kinds that
    /// the second maps and no other.
    pub fn renumber(&mut self, ids: &NewIds) -> bool
        ensures renumbered { OnTrue result (IfSome (parts_in self.old).block (λ _. ChangesBlock
            (λ form. ChangesIds form (new_id ids.now)) (parts_in self.old) (parts_in self.new))) }
        ensures unchanged { OnFalse result ((buffer_of self.new).now ≡ (buffer_of self.old).now) }
        ensures bytes { ChangesOnlyBody (buffer_of self.old).now (buffer_of self.new).now }
        ensures without_block { IfNone (parts_in self.old).block
            ((buffer_of self.new).now ≡ (buffer_of self.old).now) }
        ensures answer { (elements : List Element) →
            AreElementsOf (parts_in self.old).block elements →
            IsTrue result ↔ IfSome (parts_in self.old).block (λ block.
            All (CanRenumber block.0 (new_id ids.now)) elements) }
        ensures elements { (elements : List Element) →
            AreElementsOf (parts_in self.old).block elements →
            OnTrue result (AreElementsOf (parts_in self.new).block
            (filter_map (renumbered (new_id ids.now)) elements)) }
        ensures values { (from to : Slots) (values : ExtensionValues) →
            CarriesExtensions from to ids.now → HasValues from (parts_in self.old).block values →
            OnTrue result (HasValues to (parts_in self.new).block (mapped_fields to values)) }
        ensures same_buffer { (buffer_of self.new).ghost_name ≡ (buffer_of self.old).ghost_name }
    {
        let Some(form) = self.form else {
            return true;
        };
        let start = body_start(self.datagram[0]);
        renumber(form, &mut self.datagram[start..self.header_len], ids)
    }
}
