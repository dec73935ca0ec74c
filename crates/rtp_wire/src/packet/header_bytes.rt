//! The header of a packet by itself.

ghost use Rattle.std.specs.Prelude.{◌≡◌, ◌++◌, List, [], ℕ};
ghost use Rattle.rtp_wire.specs.Packet.{PacketParts, IsPacket};

use super::RtpPacket;

impl<'a> RtpPacket<'a> {
    ghost use Rattle.rtp_wire.specs.PartsOf.{parts_of, datagram_of};

    /// The bytes of the header alone, which are a packet without a payload. Whatever changes no
    /// length needs no more: a copy of them is changed as a packet, and with the payload behind it
    /// it is the packet with that change. So one payload goes to many receivers, each with a header
    /// of its own.
    pub fn header_bytes(&self) -> &'a [u8]
        ensures front { datagram_of self.now ≡ result.now ++ (parts_of self.now).payload }
        ensures alone { IsPacket result.now (record (parts_of self.now) { payload = [] }) }

        // Any header with this payload behind it.
        ensures sent { (header : List ℕ) (parts : PacketParts) →
            IsPacket header (record parts { payload = [] }) →
            IsPacket (header ++ (parts_of self.now).payload)
            (record parts { payload = (parts_of self.now).payload }) }
    {
        &self.datagram[..self.header_len]
    }
}
