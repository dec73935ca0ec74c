//! The packet as a value.

ghost use Rattle.std.specs.Prelude.{◌≡◌, ◌↔◌, ◌+◌, ◌*◌, ◌/◌, ◌%◌, ◌<◌, ◌≤◌, ℕ, List, None, Some, length, map, slice_index, true, false, IsErr, IfOk, IfErr, IfSome, IsOkAnd};
ghost use Rattle.std.specs.Int.{w32, from_be_bytes};
ghost use Rattle.std.specs.Option.{option_map};
ghost use Rattle.rtp_ext.specs.Elements.{Element};
ghost use Rattle.rtp_wire.specs.NotAHeader.{IsNoPacket, HasNoHeader};
ghost use Rattle.rtp_wire.specs.NotAPacket.{IsFirstCause};
ghost use Rattle.rtp_wire.specs.Packet.{PacketParts, IsPacket, header_len_of};
ghost use Rattle.rtp_wire.specs.PacketElements.{AreElementsOf, IsLast};
ghost use Rattle.rtp_wire.specs.PartsAt.{form_in, header_end, HasLayout};

use super::{Csrcs, NotAPacket};
use rtp_base::{Pt, Ssrc};
use rtp_ext::{Elements, ExtensionsForm, element_of};

/// An RTP packet in the bytes of a datagram, with a header that was found well-formed (RFC 3550,
/// 5.1; RFC 8285, 4). What is asked of it is read from these bytes, and nothing is copied.
#[derive(Clone, Copy, Debug)]
pub struct RtpPacket<'a> {
    pub(super) datagram: &'a [u8],
    // How many bytes the header takes.
    pub(super) header_len: usize,
    // The form of the block, where it is one of the two.
    pub(super) form: Option<ExtensionsForm>,
    ghost bytes: { (i : ℕ) → slice_index datagram.now i < 256 },
    ghost fixed: { 12 ≤ length datagram.now },
    ghost version: { slice_index datagram.now 0 / 64 ≡ 2 },
    ghost announced: { form ≡ form_in datagram.now },
    ghost ends: { header_len ≡ header_end datagram.now },
    ghost within: { header_len ≤ length datagram.now },
}

impl<'a> RtpPacket<'a> {
    ghost use Rattle.rtp_wire.specs.PartsOf.{parts_of, datagram_of};

    /// Returns the packet that the datagram is (RFC 3550, 5.1 and 5.3.1; RFC 8285, 4), or the first
    /// cause for which it is none. Only the header is looked at, and nothing is allocated.
    ///
    /// A block may have any form (RFC 3550, 5.3.1): one of another form than 0xBEDE and 0x1000 to
    /// 0x100F, as a profile's own or that of encrypted extensions (RFC 9335), is passed over, and
    /// [`body`](Self::body) returns what it holds.
    ///
    /// The twenty bytes `90 21 B7 98 00 00 27 10 00 00 00 2C BE DE 00 01 30 2A 00 00` are a packet
    /// of payload type 33, sequence number 47,000, timestamp 10,000 and SSRC 44, with a block in
    /// the one-byte form and no payload.
    pub fn parse(datagram: &'a [u8]) -> Result<Self, NotAPacket>
        // The packet has the parts of these bytes, and bytes that have such parts are a packet.
        ensures found { IfOk result (λ packet. IsPacket datagram.now (parts_of packet)) }
        ensures only { (parts : PacketParts) → IsPacket datagram.now parts →
            IsOkAnd result (λ packet. parts_of packet ≡ parts) }

        ensures bytes { IfOk result (λ packet. datagram_of packet ≡ datagram.now) }

        // The cause is the first that applies, and there are no others.
        ensures cause { IfErr result (IsFirstCause datagram.now) }
        ensures refused { IsErr result ↔ IsNoPacket datagram.now }
    {
        let (packet, _) = Self::read(datagram)?;
        Ok(packet)
    }

    // The packet that the datagram is, and whether a header begins it: whether its block, if X
    // announces one, is of one of the two forms.
    #[inline(always)]
    pub(crate) fn read(datagram: &'a [u8]) -> Result<(Self, bool), NotAPacket>
        ensures found { IfOk result (λ read. IsPacket datagram.now (parts_of read.0)) }
        ensures only { (parts : PacketParts) → IsPacket datagram.now parts →
            IsOkAnd result (λ read. parts_of read.0 ≡ parts) }
        ensures bytes { IfOk result (λ read. datagram_of read.0 ≡ datagram.now) }
        ensures cause { IfErr result (IsFirstCause datagram.now) }
        ensures refused { IsErr result ↔ IsNoPacket datagram.now }
        ensures header { IfOk result (λ read.
            read.1 ≡ true → (parts_of read.0).other_block ≡ None) }
        ensures none { IfOk result (λ read. read.1 ≡ false) ↔ HasNoHeader datagram.now }
    {
        if datagram.len() < 12 {
            return Err(NotAPacket::CutFixedPart);
        }
        let first = datagram[0];
        if first >> 6 != 2 {
            return Err(NotAPacket::OtherVersion);
        }
        let start = sources_end(first);
        let Some((_, after)) = datagram.split_at_checked(start) else {
            return Err(NotAPacket::CutSources);
        };
        if first & 0x10 == 0 {
            let packet = RtpPacket {
                datagram,
                header_len: start,
                form: None,
            };
            return Ok((packet, true));
        }
        let Some((header, after)) = after.split_first_chunk::<4>() else {
            return Err(NotAPacket::CutBlockHeader);
        };
        let body_len = 4 * usize::from(u16::from_be_bytes([header[2], header[3]]));
        if after.len() < body_len {
            return Err(NotAPacket::CutBlock);
        }
        let form = ExtensionsForm::parse([header[0], header[1]]);
        let packet = RtpPacket {
            datagram,
            header_len: start + 4 + body_len,
            form,
        };
        Ok((packet, form.is_some()))
    }

    /// The packet in the bytes, whose header has this length and a block of this form, if of one of
    /// the two: it is for callers that made the header, and need not parse it.
    pub fn with_layout(datagram: &'a [u8], header_len: usize, form: Option<ExtensionsForm>) -> Self
        requires { HasLayout datagram.now header_len form }
        ensures { datagram_of result ≡ datagram.now }
    {
        RtpPacket {
            datagram,
            header_len,
            form,
        }
    }

    // The packet in the bytes of a buffer, whose header ends here and whose block has this form, if
    // any.
    pub(super) fn new(datagram: &'a [u8], header_len: usize, form: Option<ExtensionsForm>) -> Self
        requires fixed { 12 ≤ length datagram.now }
        requires version { slice_index datagram.now 0 / 64 ≡ 2 }
        requires announced { form ≡ form_in datagram.now }
        requires ends { header_len ≡ header_end datagram.now }
        requires within { header_len ≤ length datagram.now }
        ensures { datagram_of result ≡ datagram.now }
    {
        RtpPacket {
            datagram,
            header_len,
            form,
        }
    }

    // The groups of bytes of the contributing sources.
    pub(crate) fn groups(&self) -> &'a [[u8; 4]]
        ensures sources { map (from_be_bytes w32) result.now ≡ (parts_of self.now).sources }
        ensures few { length result.now ≤ 15 }
    {
        let (groups, _) = self.datagram[12..sources_end(self.datagram[0])].as_chunks::<4>();
        groups
    }

    /// The contributing sources.
    pub fn csrc(&self) -> Csrcs<'a>
        ensures { result ≡ (parts_of self.now).sources }
    {
        Csrcs {
            left: self.groups(),
        }
    }

    /// The form of the block and its body, and `None` exactly where X is clear or the form is
    /// another than the two (RFC 3550, 5.3.1; RFC 8285, 4). It is for callers that pass the
    /// elements on, or read them in a way of their own: [`elements`](Self::elements),
    /// [`element`](Self::element) and [`values`](Self::values) read them.
    ///
    /// The body is as long as the four bytes before it say, with all padding. It begins after these
    /// four, and ends where the payload begins.
    pub fn block(&self) -> Option<(ExtensionsForm, &'a [u8])>
        ensures parts { option_map (λ block. (block.0, block.1.now)) result
            ≡ (parts_of self.now).block }
        ensures bytes { IfSome result (λ block. (i : ℕ) → slice_index block.1.now i < 256) }
    {
        let Some(form) = self.form else {
            return None;
        };
        let start = body_start(self.datagram[0]);
        Some((form, &self.datagram[start..self.header_len]))
    }

    /// The elements of the block in order, and none where X is clear or the form is another.
    pub fn elements(&self) -> Elements<'a>
        ensures found { AreElementsOf (parts_of self.now).block result }

        // The block has no other elements.
        ensures only { (elements : List Element) →
            AreElementsOf (parts_of self.now).block elements → elements ≡ result }
    {
        match self.block() {
            Some((form, body)) => Elements::new(body, form),
            None => Elements::new(&[], ExtensionsForm::OneByte),
        }
    }

    /// The data of the last element of this id, and `None` exactly where no element has it. An
    /// element of the two-byte form may be without data, and then they are `Some` of no bytes.
    pub fn element(&self, id: u8) -> Option<&'a [u8]>
        ensures { (elements : List Element) → AreElementsOf (parts_of self.now).block elements →
            IsLast elements id result }
    {
        let (form, body) = self.block()?;
        element_of(form, body, id)
    }
}

// The fields of the header, read from their places, and the bytes after it.
#[tactic(auto, unfolding(crate::specs::PartsAt::parts_at))]
impl<'a> RtpPacket<'a> {
    ghost use Rattle.rtp_wire.specs.PartsOf.{parts_of};

    /// Whether padding bytes end the payload, the last of which counts them.
    pub fn has_padding(&self) -> bool
        ensures { result ≡ (parts_of self.now).has_padding }
    {
        self.datagram[0] & 0x20 != 0
    }

    /// Whether a block of header extensions follows the CSRC list, whatever its form.
    pub fn has_extension(&self) -> bool
        ensures { result ≡ (parts_of self.now).has_extension }
    {
        self.datagram[0] & 0x10 != 0
    }

    /// A mark whose meaning the payload's profile gives.
    pub fn marker(&self) -> bool
        ensures { result ≡ (parts_of self.now).marker }
    {
        self.datagram[1] & 0x80 != 0
    }

    /// What the payload is, 0 to 127.
    pub fn payload_type(&self) -> Pt
        ensures { result ≡ (parts_of self.now).payload_type }
    {
        Pt::from(self.datagram[1] & 0x7F)
    }

    /// The low 16 bits of the packet's number, which rises by one from packet to packet.
    pub fn sequence_number(&self) -> u16
        ensures { result ≡ (parts_of self.now).sequence_number }
    {
        u16::from_be_bytes([self.datagram[2], self.datagram[3]])
    }

    /// The moment of the payload's first byte, in ticks of the payload's own clock.
    pub fn timestamp(&self) -> u32
        ensures { result ≡ (parts_of self.now).timestamp }
    {
        let bytes = self.datagram;
        u32::from_be_bytes([bytes[4], bytes[5], bytes[6], bytes[7]])
    }

    /// The source whose stream this is.
    pub fn ssrc(&self) -> Ssrc
        ensures { result ≡ (parts_of self.now).ssrc }
    {
        let bytes = self.datagram;
        Ssrc::from(u32::from_be_bytes([bytes[8], bytes[9], bytes[10], bytes[11]]))
    }

    /// How many bytes the header takes: the payload begins there.
    pub fn header_len(&self) -> usize
        ensures { result ≡ header_len_of (parts_of self.now) }
    {
        self.header_len
    }

    /// The form of the block, and `None` where X is clear or the form is another than the two.
    pub fn form(&self) -> Option<ExtensionsForm>
        ensures { result ≡ option_map (λ block. block.0) (parts_of self.now).block }
    {
        self.form
    }

    /// All bytes after the header, with any padding.
    pub fn payload(&self) -> &'a [u8]
        ensures { result.now ≡ (parts_of self.now).payload }
    {
        &self.datagram[self.header_len..]
    }
}

// The length of the fixed bytes and the sources, by the first byte.
pub(crate) fn sources_end(first: u8) -> usize
    ensures { result ≡ 12 + 4 * (first % 16) }
{
    12 + 4 * usize::from(first & 0x0F)
}

// Where the body of the block begins, after its header of four bytes.
pub(super) fn body_start(first: u8) -> usize
    ensures { result ≡ 16 + 4 * (first % 16) }
{
    sources_end(first) + 4
}
