//! The packet in a buffer that it may grow in.

ghost use Rattle.std.specs.Prelude.{◌≡◌, ◌↔◌, ℕ, ◌/◌, ◌<◌, ◌≤◌, Option, length, take, drop, slice_index, IsErr, IfOk, IfErr, OnOk, OnErr};
ghost use Rattle.rtp_ext.specs.NewIds.{new_id};
ghost use Rattle.rtp_wire.specs.declared.packet.not_in_buffer.NotInBuffer.{NotInBuffer};
ghost use Rattle.rtp_wire.specs.declared.packet.not_retransmitted.NotRetransmitted.{NotRetransmitted};
ghost use Rattle.rtp_wire.specs.declared.packet.retransmission.RetransmissionFields.{RetransmissionFields};
ghost use Rattle.rtp_wire.specs.Packet.{PacketParts, IsPacket};
ghost use Rattle.rtp_wire.specs.PartsAt.{form_in, header_end, HasLayout};
ghost use Rattle.rtp_wire.specs.PutIntoPacket.{Compacts};
ghost use Rattle.rtp_wire.specs.Retransmission.{IsRetransmissionOf, IsRestored, IsPacketWith, Sends, Restores, KeepsFromSending, KeepsFromRestoring, IsFirstOf};

use super::{
    NotInBuffer, NotRetransmitted, OriginalFields, RetransmissionFields, RtpPacket, compact,
    from_retransmission, to_retransmission,
};
use rtp_ext::{ExtensionsForm, NewIds};

/// An RTP packet in the first bytes of a buffer, into whose other bytes it may grow (RFC 3550, 5.1;
/// RFC 8285, 4). Each call that changes the length of the packet keeps count of it; one that is
/// refused changes nothing.
#[derive(Debug, Drop)]
pub struct RtpPacketBuf<'a> {
    pub(super) buf: &'a mut [u8],
    // How many of its first bytes are the packet.
    pub(super) len: usize,
    // How many bytes the header takes.
    pub(super) header_len: usize,
    // The form of the block, where it is one of the two.
    pub(super) form: Option<ExtensionsForm>,
    ghost room: { len ≤ length buf.now },
    ghost fixed: { 12 ≤ length (take len buf.now) },
    ghost version: { slice_index (take len buf.now) 0 / 64 ≡ 2 },
    ghost second: { slice_index (take len buf.now) 1 < 256 },
    ghost announced: { form ≡ form_in (take len buf.now) },
    ghost ends: { header_len ≡ header_end (take len buf.now) },
    ghost within: { header_len ≤ length (take len buf.now) },
}

impl<'a> RtpPacketBuf<'a> {
    ghost use Rattle.rtp_wire.specs.PartsOf.{parts_of, datagram_of};
    ghost use Rattle.rtp_wire.specs.PacketBuf.{whole_of, len_of, bytes_of, parts_within, IsNotFront, StaysWhole};

    /// The packet in the first `len` bytes of the buffer, whose header was found by
    /// [`RtpPacket::parse`]: it has this length and a block of this form, if of one of the two.
    ///
    /// It is for callers that have to prove that a buffer without a packet stays as it was, as
    /// [`RtpPacketMut::new`](super::RtpPacketMut::new) is.
    pub fn new(
        buf: &'a mut [u8],
        len: usize,
        header_len: usize,
        form: Option<ExtensionsForm>,
    ) -> Self
        requires room { len ≤ length buf.old }
        requires layout { HasLayout (take len buf.old) header_len form }
        ensures length { len_of result ≡ len }
        ensures same_buffer { (whole_of result).ghost_name ≡ buf.entry.ghost_name }
        ensures same_bytes { (whole_of result).now ≡ buf.old }
    {
        RtpPacketBuf {
            buf,
            len,
            header_len,
            form,
        }
    }

    /// The packet in the first `len` bytes of the buffer, or the first cause for which these are
    /// none (RFC 3550, 5.1 and 5.3.1).
    pub fn parse(buf: &'a mut [u8], len: usize) -> Result<Self, NotInBuffer>
        ensures found { IfOk result (λ packet. IsPacket (take len buf.old) (parts_within packet)) }
        ensures length { IfOk result (λ packet. len_of packet ≡ len) }
        ensures same_buffer { IfOk result (λ packet.
            (whole_of packet).ghost_name ≡ buf.entry.ghost_name) }
        ensures same_bytes { IfOk result (λ packet. (whole_of packet).now ≡ buf.old) }
        ensures cause { IfErr result (IsNotFront buf.old len) }
        ensures refused { IsErr result ↔ ((cause : NotInBuffer) × IsNotFront buf.old len cause) }
    {
        if len > buf.len() {
            return Err(NotInBuffer::CutPacket);
        }
        let packet = RtpPacket::parse(&buf[..len])?;
        let header_len = packet.header_len;
        let form = packet.form;
        Ok(RtpPacketBuf::new(buf, len, header_len, form))
    }

    /// The packet as it stands in the buffer.
    pub fn as_packet(&self) -> RtpPacket<'_>
        ensures parts { parts_of result ≡ parts_within self.now }
        ensures bytes { datagram_of result ≡ bytes_of self.now }
        ensures is_packet { IsPacket (bytes_of self.now) (parts_within self.now) }
    {
        RtpPacket::new(self.as_bytes(), self.header_len, self.form)
    }

    /// The bytes of the packet, to be sent, say.
    pub fn as_bytes(&self) -> &[u8]
        ensures { result.now ≡ bytes_of self.now }
    {
        &self.buf[..self.len]
    }

    /// How many bytes the packet has.
    pub fn len(&self) -> usize
        ensures length { result ≡ len_of self.now }
        ensures bytes { length (bytes_of self.now) ≡ result }
    {
        self.len
    }

    /// How many bytes the packet may have: those of the buffer.
    pub fn capacity(&self) -> usize
        ensures { result ≡ length (whole_of self.now).now }
    {
        self.buf.len()
    }

    /// The whole buffer, to encrypt the payload in place with a tag behind it, say. Ask for the
    /// length of the packet first.
    pub fn into_buffer(self) -> &'a mut [u8]
        ensures same_buffer { result.ghost_name ≡ (whole_of self.entry).ghost_name }
        ensures same_bytes { result.now ≡ (whole_of self.entry).now }
    {
        let RtpPacketBuf {
            buf,
            len: _,
            header_len: _,
            form: _,
        } = self;
        buf
    }

    /// Makes the packet as short as its elements allow, as [`compact`](super::compact) does: call it
    /// after [`remove_element`](Self::remove_element) (RFC 3550, 5.3.1; RFC 8285, 4.2 and 4.3).
    /// Between the new end and the old one any bytes may stand.
    ///
    /// The packet `90 60 00 05 00 00 00 64 00 00 00 2C BE DE 00 02 00 00 21 BB CC 00 00 00 01`
    /// (hexadecimal) becomes `90 60 00 05 00 00 00 64 00 00 00 2C BE DE 00 01 21 BB CC 00 01`.
    pub fn compact(&mut self)
        ensures compacted { Compacts (bytes_of self.old) (whole_of self.new).now (len_of self.new) }
        ensures length { len_of self.new ≤ len_of self.old }
        ensures behind { drop (len_of self.old) (whole_of self.new).now
            ≡ drop (len_of self.old) (whole_of self.old).now }
        ensures same_buffer { (whole_of self.new).ghost_name ≡ (whole_of self.old).ghost_name }
    {
        let len = compact(&mut self.buf[..self.len]).unwrap();
        self.header_len -= self.len - len;
        self.len = len;
    }

    /// Makes the packet a retransmission, whose payload is the original sequence number and the
    /// payload without its padding, as [`to_retransmission`](super::to_retransmission) does (RFC
    /// 4588, 4). Requires a payload type of at most 127.
    ///
    /// The packet `80 60 00 05 00 00 00 01 00 00 00 2C AA BB` (hexadecimal), in a buffer of 16 bytes
    /// or more, becomes `80 61 00 07 00 00 00 01 00 00 00 2D 00 05 AA BB` with the SSRC 45, the
    /// payload type 97 and the number 7.
    pub fn to_retransmission(
        &mut self,
        stream: &RetransmissionFields,
        ids: &NewIds,
    ) -> Result<(), NotRetransmitted>
        requires { stream.now.payload_type ≤ 127 }
        ensures sent { OnOk result (Sends stream.now (new_id ids.now)
            (whole_of self.old).now (len_of self.old) (whole_of self.new).now (len_of self.new)) }
        ensures cause { IfErr result (IsFirstOf
            (KeepsFromSending (new_id ids.now) (whole_of self.old).now (len_of self.old))) }
        ensures refused { IsErr result ↔ ((cause : NotRetransmitted)
            × KeepsFromSending (new_id ids.now) (whole_of self.old).now (len_of self.old) cause) }
        ensures unchanged { OnErr result (StaysWhole self.old self.new) }
        ensures same_buffer { (whole_of self.new).ghost_name ≡ (whole_of self.old).ghost_name }
    {
        self.len = to_retransmission(self.buf, self.len, stream, ids)?;
        Ok(())
    }

    /// Makes the retransmission the packet that it repeats, as
    /// [`from_retransmission`](super::from_retransmission) does (RFC 4588, 4). Requires a payload
    /// type of at most 127.
    ///
    /// Of the retransmission in the example of [`to_retransmission`](Self::to_retransmission) the
    /// SSRC 44 and the payload type 96 make the packet again.
    pub fn from_retransmission(
        &mut self,
        stream: &OriginalFields,
        ids: &NewIds,
    ) -> Result<(), NotRetransmitted>
        requires { stream.now.payload_type ≤ 127 }
        ensures restored { OnOk result (Restores stream.now (new_id ids.now)
            (whole_of self.old).now (len_of self.old) (whole_of self.new).now (len_of self.new)) }
        ensures cause { IfErr result (IsFirstOf
            (KeepsFromRestoring (new_id ids.now) (whole_of self.old).now (len_of self.old))) }
        ensures refused { IsErr result ↔ ((cause : NotRetransmitted)
            × KeepsFromRestoring (new_id ids.now) (whole_of self.old).now (len_of self.old) cause) }
        ensures unchanged { OnErr result (StaysWhole self.old self.new) }
        ensures same_buffer { (whole_of self.new).ghost_name ≡ (whole_of self.old).ghost_name }

        // What `to_retransmission` made of a packet is that packet again, without its padding.
        ensures undone { (original sent : PacketParts) (fields : RetransmissionFields)
            (there : ℕ → Option ℕ) → original.sequence_number < 65536 →
            IsRetransmissionOf original fields there sent →
            IsPacket (bytes_of self.old) sent → OnOk result
            (IsPacketWith (IsRestored original stream.now there (new_id ids.now))
            (bytes_of self.new)) }
    {
        self.len = from_retransmission(self.buf, self.len, stream, ids)?;
        Ok(())
    }
}
