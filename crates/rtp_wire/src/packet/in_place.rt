//! Fields, elements and padding of a packet in a buffer, changed where they lie.

ghost use Rattle.std.specs.Prelude.{◌≡◌, ◌↔◌, ◌<◌, ◌≤◌, length, true, false, IfSome};
ghost use Rattle.std.specs.Bool.{OnTrue, OnFalse};
ghost use Rattle.rtp_wire.specs.ChangedPacket.{ChangesOnly, HasUnpadded};
ghost use Rattle.rtp_wire.specs.InPlace.{SetsFields, SetsElement, RemovesElement, RenumbersElements, RemovesPadding};
ghost use Rattle.rtp_wire.specs.Padding.{padding_count};
ghost use Rattle.rtp_wire.specs.PartsAt.{HasLayout};

use super::{Fields, RtpPacketBuf, RtpPacketMut};
use rtp_ext::{ExtensionsForm, NewIds};

// Sets the given fields of the packet of these bytes, whose header has this length and whose block
// this form.
fn set_fields(datagram: &mut [u8], header_len: usize, form: Option<ExtensionsForm>, fields: &Fields)
    requires held { HasLayout datagram.old header_len form }
    requires payload_type { IfSome fields.now.payload_type (λ pt. pt ≤ 127) }
    ensures set { SetsFields fields.now datagram.old datagram.new }
    ensures held { HasLayout datagram.new header_len form }
{
    let mut packet = RtpPacketMut::new(datagram, header_len, form);
    packet.set_fields(fields);
}

// Sets the last element of this id in such a packet.
fn set_element(
    datagram: &mut [u8],
    header_len: usize,
    form: Option<ExtensionsForm>,
    id: u8,
    data: &[u8],
) -> bool
    requires { HasLayout datagram.old header_len form }
    ensures set { SetsElement id «data».now result datagram.old datagram.new }
    ensures held { HasLayout datagram.new header_len form }
{
    let mut packet = RtpPacketMut::new(datagram, header_len, form);
    packet.set_element(id, data)
}

// Removes each element of this id from such a packet.
fn remove_element(
    datagram: &mut [u8],
    header_len: usize,
    form: Option<ExtensionsForm>,
    id: u8,
) -> bool
    requires { HasLayout datagram.old header_len form }
    ensures removed { RemovesElement id result datagram.old datagram.new }
    ensures held { HasLayout datagram.new header_len form }
{
    let mut packet = RtpPacketMut::new(datagram, header_len, form);
    packet.remove_element(id)
}

// Gives the elements of such a packet their new ids.
fn renumber(
    datagram: &mut [u8],
    header_len: usize,
    form: Option<ExtensionsForm>,
    ids: &NewIds,
) -> bool
    requires { HasLayout datagram.old header_len form }
    ensures renumbered { RenumbersElements ids.now result datagram.old datagram.new }
    ensures held { HasLayout datagram.new header_len form }
{
    let mut packet = RtpPacketMut::new(datagram, header_len, form);
    packet.renumber(ids)
}

// Takes the padding off such a packet.
fn remove_padding(
    datagram: &mut [u8],
    header_len: usize,
    form: Option<ExtensionsForm>,
) -> Option<usize>
    requires { HasLayout datagram.old header_len form }
    ensures { RemovesPadding result datagram.old datagram.new }
{
    let mut packet = RtpPacketMut::new(datagram, header_len, form);
    packet.remove_padding()
}

impl<'a> RtpPacketBuf<'a> {
    ghost use Rattle.rtp_wire.specs.PacketBuf.{whole_of, len_of, bytes_of, parts_within, StaysWhole, KeepsLength};

    /// Sets the fields that are given, and leaves the others, as [`RtpPacketMut::set_fields`] does
    /// (RFC 3550, 5.1). Requires that a payload type is at most 127.
    ///
    /// In a packet that begins with `80 E0 00 05` (hexadecimal) the payload type 8 and the number 6
    /// make these bytes `80 88 00 06`.
    pub fn set_fields(&mut self, fields: &Fields)
        requires { IfSome fields.now.payload_type (λ pt. pt ≤ 127) }
        ensures set { SetsFields fields.now (bytes_of self.old) (bytes_of self.new) }
        ensures kept { KeepsLength self.old self.new }
        ensures same_buffer { (whole_of self.new).ghost_name ≡ (whole_of self.old).ghost_name }
    {
        let datagram = &mut self.buf[..self.len];
        set_fields(datagram, self.header_len, self.form, fields);
    }

    /// Gives the last element of this id these data, where it has as many bytes of them, and returns
    /// whether it has, as [`RtpPacketMut::set_element`] does (RFC 8285, 4.2 and 4.3). Else nothing
    /// changes: [`put_element`](Self::put_element) takes data of other lengths.
    pub fn set_element(&mut self, id: u8, data: &[u8]) -> bool
        ensures set { SetsElement id «data».now result (bytes_of self.old) (bytes_of self.new) }
        ensures kept { KeepsLength self.old self.new }
        ensures same_buffer { (whole_of self.new).ghost_name ≡ (whole_of self.old).ghost_name }
    {
        let datagram = &mut self.buf[..self.len];
        set_element(datagram, self.header_len, self.form, id, data)
    }

    /// Makes each element of this id padding, and returns whether there is one, as
    /// [`RtpPacketMut::remove_element`] does (RFC 8285, 4.2 and 4.3). [`compact`](Self::compact)
    /// then gives the bytes back.
    pub fn remove_element(&mut self, id: u8) -> bool
        ensures removed { RemovesElement id result (bytes_of self.old) (bytes_of self.new) }
        ensures kept { KeepsLength self.old self.new }
        ensures same_buffer { (whole_of self.new).ghost_name ≡ (whole_of self.old).ghost_name }
    {
        let datagram = &mut self.buf[..self.len];
        remove_element(datagram, self.header_len, self.form, id)
    }

    /// Gives each element its new id, and makes an element without one padding, as
    /// [`RtpPacketMut::renumber`] does (RFC 8285, 4.2 and 4.3). Returns `false`, and nothing
    /// changes, where the form of the block can't carry a new id: one above 14 in the one-byte form.
    pub fn renumber(&mut self, ids: &NewIds) -> bool
        ensures renumbered { RenumbersElements ids.now result
            (bytes_of self.old) (bytes_of self.new) }
        ensures kept { KeepsLength self.old self.new }
        ensures same_buffer { (whole_of self.new).ghost_name ≡ (whole_of self.old).ghost_name }
    {
        let datagram = &mut self.buf[..self.len];
        renumber(datagram, self.header_len, self.form, ids)
    }

    /// Takes the padding off, and clears P; where P is clear nothing changes (RFC 3550, 5.1).
    /// Returns `false`, and changes nothing, where the last byte counts more bytes than the payload
    /// has.
    ///
    /// The packet `A0 00 00 01 00 00 00 00 00 00 00 2C AA BB 00 02` (hexadecimal) becomes
    /// `80 00 00 01 00 00 00 00 00 00 00 2C AA BB`.
    pub fn remove_padding(&mut self) -> bool
        ensures packet { OnTrue result
            (HasUnpadded (parts_within self.old) (whole_of self.new).now (len_of self.new)) }
        ensures bytes { ChangesOnly 0 1 (whole_of self.old).now (whole_of self.new).now }
        ensures length { len_of self.new ≤ len_of self.old }
        ensures refused { (result ≡ false) ↔ ((parts_within self.old).has_padding ≡ true)
            × (length (parts_within self.old).payload
            < padding_count (parts_within self.old).payload) }
        ensures unchanged { OnFalse result (StaysWhole self.old self.new) }
        ensures same_buffer { (whole_of self.new).ghost_name ≡ (whole_of self.old).ghost_name }
    {
        let datagram = &mut self.buf[..self.len];
        let Some(len) = remove_padding(datagram, self.header_len, self.form) else {
            return false;
        };
        self.len = len;
        true
    }
}
