//! From bytes to a header.

ghost use Rattle.std.specs.Prelude.{◌↔◌, ◌≡◌, ◌≤◌, ◌-◌, ◌++◌, length, replicate, true, false, None, IsOk, IfOk, OnOk, OnErr, IfSome};
ghost use Rattle.std.specs.Bool.{OnTrue};
ghost use Rattle.rtp_wire.specs.PacketElements.{HasValues};
ghost use Rattle.rtp_wire.specs.RefusedMemory.{AreValuesStopped, BlockHasAllocation, HeaderHasAllocation, IsHeaderStopped, IsWireStopped};
ghost use Rattle.rtp_wire.specs.NotAHeader.{HasNoHeader};
ghost use Rattle.rtp_wire.specs.Header.{header_of, IsHeaderOf, IsWire};
ghost use Rattle.rtp_values.specs.declared.value.values.ExtensionValues.{ExtensionValues};
ghost use Rattle.rtp_values.specs.Values.{no_values};

use super::RtpHeader;
use crate::packet::RtpPacket;
use rtp_ext::{ExtensionValues, Kinds};
use std::alloc::{AllocError, Global};

impl RtpHeader {
    /// Returns the header that the bytes begin with, with the values of its extensions under the
    /// map (RFC 3550, 5.1 and 5.3.1; RFC 8285, 4.2 and 4.3). Whatever follows the header is not
    /// looked at.
    ///
    /// Nothing is allocated except the lists of a layer allocation: an element of two bytes or more
    /// whose id is mapped to it. An error says that this memory was refused, and nothing else is
    /// returned then.
    ///
    /// Returns `None` exactly when no header begins there: under 12 bytes, a version other than 2,
    /// a CSRC list that is cut short, or a set X bit that no block follows, since the block's first
    /// four bytes are cut short, its form is neither 0xBEDE nor 0x1000 to 0x100F, or it is longer
    /// than what is left; [`refusal`](Self::refusal) tells which. No element refuses a header: one
    /// that is malformed, cut short or unknown is passed over.
    ///
    /// The twenty bytes `90 21 B7 98 00 00 27 10 00 00 00 2C BE DE 00 01 30 2A 00 00`, under a map
    /// of 3 to the audio level, are a header of payload type 33, sequence number 47,000, timestamp
    /// 10,000 and SSRC 44, with an audio level of -42 without voice, and `header_len` is 20.
    #[inline(always)]
    pub fn parse<K: Kinds>(
        alloc: Global,
        buf: &[u8],
        exts: &K,
    ) -> Result<Option<RtpHeader>, AllocError>
        // Memory is refused only where a layer allocation of two bytes or more is in the block.
        ensures memory { OnErr result (HeaderHasAllocation (K.slots exts.now) buf.now) }
        ensures succeeds { (HeaderHasAllocation (K.slots exts.now) buf.now → ⊥) → IsOk result }

        // What is returned is a header of these bytes, and each header of these bytes is returned.
        ensures found { IfOk result (λ answer. IfSome answer (IsWire (K.slots exts.now) buf.now)) }
        ensures only { (header : RtpHeader) → IsWire (K.slots exts.now) buf.now header →
            IfOk result (λ answer. answer ≡ Some header) }

        // So the payload is the bytes from `header_len` on.
        ensures within { IfOk result (λ answer. IfSome answer (λ header.
            header.header_len ≤ length buf.now)) }

        // The causes for which no header is returned, and there are no others. That they are those
        // of a packet, and another form of its block, is `either` of `refusal`.
        ensures refused { (result ≡ Ok None) ↔ HasNoHeader buf.now }
    {
        let Ok((packet, true)) = RtpPacket::read(buf) else {
            return Ok(None);
        };
        // What `RtpPacket::header` returns would be moved once more.
        let mut header = RtpHeader::default();
        packet.put_header(alloc, exts, &mut header)?;
        Ok(Some(header))
    }

    /// Reads the header that the bytes begin with into this one, as [`parse`](Self::parse) reads
    /// it. Nothing of the header as it was stays. A header that is used again for packet after
    /// packet saves a value of its own for each.
    ///
    /// Returns `false` exactly when no header begins there, for the causes of `parse`, and then
    /// nothing changes.
    ///
    /// Memory is taken for the lists of a layer allocation alone, and those of the header as it was
    /// are given back. Where the call returns the error that memory was refused, the header has the
    /// fields of the packet, and as its values those of the elements before one to which it was
    /// refused. The call may be made again.
    #[inline(always)]
    pub fn parse_into<K: Kinds>(
        &mut self,
        alloc: Global,
        buf: &[u8],
        exts: &K,
    ) -> Result<bool, AllocError>
        // Memory is refused only where a layer allocation of two bytes or more is in the block.
        ensures memory { OnErr result (HeaderHasAllocation (K.slots exts.now) buf.now) }
        ensures stopped { OnErr result (IsWireStopped (K.slots exts.now) buf.now self.new) }
        ensures succeeds { (HeaderHasAllocation (K.slots exts.now) buf.now → ⊥) → IsOk result }

        // What is read is a header of these bytes, and each header of these bytes is read.
        ensures found { IfOk result (λ found.
            OnTrue found (IsWire (K.slots exts.now) buf.now self.new)) }
        ensures only { (header : RtpHeader) → IsWire (K.slots exts.now) buf.now header →
            IfOk result (λ found. (found ≡ true) × (self.new ≡ header)) }

        // So the payload is the bytes from `header_len` on.
        ensures within { IfOk result (λ found.
            OnTrue found (self.new.header_len ≤ length buf.now)) }

        // The causes for which no header is read, and there are no others: see `refusal`.
        ensures refused { (result ≡ Ok false) ↔ HasNoHeader buf.now }
        ensures same { HasNoHeader buf.now → self.new ≡ self.old }
    {
        let Ok((packet, true)) = RtpPacket::read(buf) else {
            return Ok(false);
        };
        clear(&mut self.ext_vals);
        packet.put_header(alloc, exts, self)?;
        Ok(true)
    }
}

impl<'a> RtpPacket<'a> {
    ghost use Rattle.rtp_wire.specs.declared.header.rtp_header.RtpHeader.{RtpHeader};
    ghost use Rattle.rtp_wire.specs.PartsOf.{parts_of};

    // Puts the contributing sources into the first slots and zeros into the others, and returns
    // how many sources there are.
    #[inline(always)]
    fn put_csrc(&self, slots: &mut [u32; 15]) -> usize
        ensures sources { slots.new ≡ (parts_of self.now).sources
            ++ replicate (15 - length (parts_of self.now).sources) 0 }
        ensures count { result ≡ length (parts_of self.now).sources }
        ensures few { result ≤ 15 }
    {
        let groups = self.groups();
        *slots = [0; 15];
        for (slot, group) in groups.iter().enumerate() {
            slots[slot] = u32::from_be_bytes(*group);
        }
        groups.len()
    }

    // Gives the header the fields of the packet. Its values stay.
    #[inline(always)]
    fn put_fields(&self, header: &mut RtpHeader)
        ensures { header.new ≡ header_of (parts_of self.now) header.old.ext_vals }
    {
        header.version = 2;
        header.has_padding = self.has_padding();
        header.has_extension = self.has_extension();
        header.csrc_count = self.put_csrc(&mut header.csrc);
        header.marker = self.marker();
        header.payload_type = self.payload_type();
        header.sequence_number = self.sequence_number();
        header.timestamp = self.timestamp();
        header.ssrc = self.ssrc();
        header.header_len = self.header_len();
    }

    // Gives the header the fields of the packet and the values of its block, where it holds no
    // values before.
    #[inline(always)]
    fn put_header<K: Kinds>(
        &self,
        alloc: Global,
        exts: &K,
        header: &mut RtpHeader,
    ) -> Result<(), AllocError>
        requires { header.old.ext_vals ≡ no_values }
        ensures found { OnOk result
            (IsHeaderOf (K.slots exts.now) (parts_of self.now) header.new) }
        ensures memory { OnErr result
            (BlockHasAllocation (K.slots exts.now) (parts_of self.now).block) }
        ensures stopped { OnErr result
            (IsHeaderStopped (K.slots exts.now) (parts_of self.now) header.new) }
        ensures succeeds { (BlockHasAllocation (K.slots exts.now) (parts_of self.now).block → ⊥) →
            IsOk result }
    {
        self.put_fields(header);
        self.read_values(alloc, exts, &mut header.ext_vals)
    }

    /// Returns the header, with the values that the elements of the block give under the map, or
    /// the error that memory was refused to a layer allocation.
    ///
    /// Where the form of the block is another ([`has_other_form`](Self::has_other_form)), the
    /// header has X set and no values, and [`RtpHeader::write_to`] writes an empty block for it, of
    /// the one-byte or the two-byte form: what the other block held is lost.
    #[inline(always)]
    pub fn header<K: Kinds>(&self, alloc: Global, exts: &K) -> Result<RtpHeader, AllocError>
        ensures found { IfOk result (IsHeaderOf (K.slots exts.now) (parts_of self.now)) }

        // The packet has no other header.
        ensures only { (header : RtpHeader) →
            IsHeaderOf (K.slots exts.now) (parts_of self.now) header →
            IfOk result (λ found. found ≡ header) }
        ensures memory { OnErr result
            (BlockHasAllocation (K.slots exts.now) (parts_of self.now).block) }
        ensures succeeds { (BlockHasAllocation (K.slots exts.now) (parts_of self.now).block → ⊥) →
            IsOk result }
    {
        let mut header = RtpHeader::default();
        self.put_header(alloc, exts, &mut header)?;
        Ok(header)
    }

    // Reads the values of the block, where none are held before.
    #[inline(always)]
    fn read_values<K: Kinds>(
        &self,
        alloc: Global,
        exts: &K,
        values: &mut ExtensionValues,
    ) -> Result<(), AllocError>
        requires { values.old ≡ no_values }
        ensures found { OnOk result
            (HasValues (K.slots exts.now) (parts_of self.now).block values.new) }
        ensures memory { OnErr result
            (BlockHasAllocation (K.slots exts.now) (parts_of self.now).block) }
        ensures stopped { OnErr result
            (AreValuesStopped (K.slots exts.now) (parts_of self.now).block values.new) }
        ensures succeeds { (BlockHasAllocation (K.slots exts.now) (parts_of self.now).block → ⊥) →
            IsOk result }
    {
        let Some((form, body)) = self.block() else {
            return Ok(());
        };
        rtp_ext::read_values(exts, alloc, body, form, values)
    }

    /// Returns the values that the elements of the block give under the map, and none where X is
    /// clear or the form of the block is another. Nothing is allocated except the lists of a layer
    /// allocation: an element of two bytes or more whose id is mapped to it. Where that memory is
    /// refused nothing is returned.
    pub fn values<K: Kinds>(&self, alloc: Global, exts: &K) -> Result<ExtensionValues, AllocError>
        ensures found { IfOk result (HasValues (K.slots exts.now) (parts_of self.now).block) }

        // The block gives no other values.
        ensures only { (values : ExtensionValues) →
            HasValues (K.slots exts.now) (parts_of self.now).block values →
            IfOk result (λ found. found ≡ values) }
        ensures memory { OnErr result
            (BlockHasAllocation (K.slots exts.now) (parts_of self.now).block) }
        ensures succeeds { (BlockHasAllocation (K.slots exts.now) (parts_of self.now).block → ⊥) →
            IsOk result }
    {
        let mut values = ExtensionValues::default();
        self.read_values(alloc, exts, &mut values)?;
        Ok(values)
    }
}

// Makes every value absent.
#[inline(always)]
fn clear(values: &mut ExtensionValues)
    ensures { values.new ≡ no_values }
{
    // Without an allocation, as most are, the values are overwritten and not looked at.
    if values.video_layers_allocation.is_some() {
        values.video_layers_allocation = None;
    }
    *values = ExtensionValues::default();
}
