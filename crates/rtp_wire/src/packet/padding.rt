//! P and the padding of a packet.

ghost use Rattle.std.specs.Prelude.{◌≡◌, ◌↔◌, ◌<◌, ◌≤◌, ℕ, List, length, true, false, IfSome, IfNone, IsNone, IsSomeAnd};
ghost use Rattle.rtp_wire.specs.ChangedPacket.{ChangesOnly, HasUnpadded};
ghost use Rattle.rtp_wire.specs.Packet.{IsWithoutPadding};
ghost use Rattle.rtp_wire.specs.Padding.{padding_count};

use super::{RtpPacket, RtpPacketMut};
use crate::header::flag;
use crate::payload::unpad_payload;
use rtp_base::put;

impl<'a> RtpPacket<'a> {
    ghost use Rattle.rtp_wire.specs.PartsOf.{parts_of};

    /// The payload: where P is set, the bytes before the padding, whose last byte counts it, itself
    /// included (RFC 3550, 5.1). Returns `None` where that count is greater than the number of
    /// bytes. A last byte of 0 takes nothing away, and without any byte the payload is empty.
    pub fn unpadded_payload(&self) -> Option<&'a [u8]>
        ensures found { IfSome result (λ payload.
            IsWithoutPadding (parts_of self.now).has_padding (parts_of self.now).payload
            payload.now) }
        ensures only { (payload : List ℕ) →
            IsWithoutPadding (parts_of self.now).has_padding (parts_of self.now).payload payload →
            IsSomeAnd result (λ found. found.now ≡ payload) }
        ensures refused { IsNone result ↔ ((parts_of self.now).has_padding ≡ true)
            × (length (parts_of self.now).payload < padding_count (parts_of self.now).payload) }
    {
        if self.has_padding() {
            unpad_payload(self.payload())
        } else {
            Some(self.payload())
        }
    }
}

impl<'a> RtpPacketMut<'a> {
    ghost use Rattle.rtp_wire.specs.PartsOf.{parts_in, buffer_of};

    /// Sets or clears P, which says that padding bytes end the payload, the last of which counts
    /// them (RFC 3550, 5.1). No other bit changes: the padding itself is the caller's to write, or
    /// to keep.
    pub fn set_padding(&mut self, has_padding: bool)
        ensures parts { parts_in self.new
            ≡ record (parts_in self.old) { has_padding = has_padding } }
        ensures bytes { ChangesOnly 0 1 (buffer_of self.old).now (buffer_of self.new).now }
        ensures same { (parts_in self.old).has_padding ≡ has_padding →
            (buffer_of self.new).now ≡ (buffer_of self.old).now }
        ensures same_buffer { (buffer_of self.new).ghost_name ≡ (buffer_of self.old).ghost_name }
    {
        let first = 0x80 + flag(has_padding, 0x20) + (self.datagram[0] & 0x1F);
        put(self.datagram, 0, &[first]);
    }

    /// Takes the padding off: clears P, and returns how many bytes the packet then has, which are
    /// the first ones of the buffer (RFC 3550, 5.1). Where P is clear nothing changes, and they are
    /// all of them. Returns `None`, and changes nothing, where the last byte counts more bytes than
    /// the payload has.
    ///
    /// In the buffer `A0 00 00 01 00 00 00 00 00 00 00 2C AA BB 00 02` the first byte becomes `80`,
    /// and the packet has 14 bytes.
    pub fn remove_padding(&mut self) -> Option<usize>
        ensures packet { IfSome result (HasUnpadded (parts_in self.old) (buffer_of self.new).now) }
        ensures within { IfSome result (λ len. len ≤ length (buffer_of self.old).now) }
        ensures bytes { ChangesOnly 0 1 (buffer_of self.old).now (buffer_of self.new).now }
        ensures unpadded { (parts_in self.old).has_padding ≡ false →
            (buffer_of self.new).now ≡ (buffer_of self.old).now }
        ensures refused { IsNone result ↔ ((parts_in self.old).has_padding ≡ true)
            × (length (parts_in self.old).payload < padding_count (parts_in self.old).payload) }
        ensures unchanged { IfNone result ((buffer_of self.new).now ≡ (buffer_of self.old).now) }
        ensures same_buffer { (buffer_of self.new).ghost_name ≡ (buffer_of self.old).ghost_name }
    {
        let payload_len = self.as_packet().unpadded_payload()?.len();
        let len = self.header_len + payload_len;
        self.set_padding(false);
        Some(len)
    }
}
