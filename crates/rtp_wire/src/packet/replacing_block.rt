//! The block of a packet in a buffer, taken off or with another one in its place.

ghost use Rattle.std.specs.Prelude.{◌≡◌, ◌↔◌, ◌+◌, ◌-◌, ◌*◌, ◌≤◌, Some, length, drop, [], true, false, IsErr, IfErr, OnOk, OnErr};
ghost use Rattle.rtp_wire.specs.declared.packet.block_not_put.BlockNotPut.{BlockNotPut};
ghost use Rattle.rtp_wire.specs.GrowingPacket.{with_extension, spliced, block_bytes};
ghost use Rattle.rtp_wire.specs.PartsAt.{profile_in};
ghost use Rattle.rtp_wire.specs.ReplacedBlock.{without_block, with_block, KeepsFromBlock, IsFirstBlockNotPut};

use super::resizing::{move_bytes, set_extension_bit};
use super::rewriting::MAX_BODY_LEN;
use super::rtp_packet::sources_end;
use super::{BlockNotPut, RtpPacketBuf};
use crate::header::BLOCK_HEADER_LEN;
use rtp_base::put;
use rtp_ext::ExtensionsForm;

// Takes the bytes between two offsets out of a packet of so many bytes, and clears X.
fn cut_out(buf: &mut [u8], len: usize, start: usize, end: usize)
    requires some { 1 ≤ start }
    requires order { start ≤ end }
    requires after { end ≤ len }
    requires within { len ≤ length buf.old }
    ensures { buf.new ≡ with_extension false (spliced buf.old len start end []) }
{
    move_bytes(buf, end, len, start);
    buf[0] -= buf[0] & 0x10;
}

// Puts a block that begins with these 16 bits in place of the bytes between two offsets of a packet
// of so many bytes, and sets X.
fn splice_block(buf: &mut [u8], len: usize, start: usize, end: usize, profile: u16, body: &[u8])
    requires some { 1 ≤ start }
    requires after { end ≤ len }
    requires within { len ≤ length buf.old }
    requires few { length body.now ≤ 4 * 65535 }
    requires room { start + 4 + length body.now + (len - end) ≤ length buf.old }
    ensures { buf.new
        ≡ with_extension true (spliced buf.old len start end (block_bytes profile body.now)) }
{
    let body_at = start + BLOCK_HEADER_LEN;
    move_bytes(buf, end, len, body_at + body.len());
    let words = (body.len() / 4) as u16;
    put(buf, start, &profile.to_be_bytes());
    put(buf, start + 2, &words.to_be_bytes());
    put(buf, body_at, body);
    set_extension_bit(buf);
}

impl<'a> RtpPacketBuf<'a> {
    ghost use Rattle.rtp_wire.specs.PacketBuf.{whole_of, len_of, bytes_of, parts_within, StaysWhole};

    /// Takes the block off, whatever its form, and clears X: the payload moves to the end of the
    /// CSRC list (RFC 3550, 5.3.1). Where X is clear nothing changes.
    ///
    /// The packet `90 60 00 05 00 00 00 64 00 00 00 2C BE DE 00 01 10 AA 00 00 01` (hexadecimal)
    /// becomes `80 60 00 05 00 00 00 64 00 00 00 2C 01`.
    pub fn remove_block(&mut self)
        ensures parts { parts_within self.new ≡ without_block (parts_within self.old) }
        ensures behind { drop (len_of self.new) (whole_of self.new).now
            ≡ drop (len_of self.new) (whole_of self.old).now }
        ensures same_buffer { (whole_of self.new).ghost_name ≡ (whole_of self.old).ghost_name }
    {
        let block_at = sources_end(self.buf[0]);
        cut_out(self.buf, self.len, block_at, self.header_len);
        self.len -= self.header_len - block_at;
        self.header_len = block_at;
        self.form = None;
    }

    /// Gives the packet a block that begins with these 16 bits, which the profile defines, and has
    /// this body, of whole 32-bit words, in place of the block that is there: X is set, and the
    /// payload moves (RFC 3550, 5.3.1). With 0xBEDE or 0x1000 to 0x100F the body is read as
    /// elements (RFC 8285, 4.2 and 4.3).
    ///
    /// The packet `80 60 00 05 00 00 00 64 00 00 00 2C 01` (hexadecimal), in a buffer of 21 bytes
    /// or more, gets the 16 bits `AB AC` and the body `01 02 03 04`: it then is
    /// `90 60 00 05 00 00 00 64 00 00 00 2C AB AC 00 01 01 02 03 04 01`.
    pub fn put_block(&mut self, profile: u16, body: &[u8]) -> Result<(), BlockNotPut>
        ensures parts { OnOk result
            (parts_within self.new ≡ with_block profile body.now (parts_within self.old)) }
        ensures profile { OnOk result (profile_in (bytes_of self.new) ≡ Some profile) }
        ensures behind { OnOk result (drop (len_of self.new) (whole_of self.new).now
            ≡ drop (len_of self.new) (whole_of self.old).now) }
        ensures cause { IfErr result (IsFirstBlockNotPut
            (KeepsFromBlock (parts_within self.old) body.now (length (whole_of self.old).now))) }
        ensures refused { IsErr result ↔ ((cause : BlockNotPut) × KeepsFromBlock
            (parts_within self.old) body.now (length (whole_of self.old).now) cause) }
        ensures unchanged { OnErr result (StaysWhole self.old self.new) }
        ensures same_buffer { (whole_of self.new).ghost_name ≡ (whole_of self.old).ghost_name }
    {
        if body.len() % 4 != 0 {
            return Err(BlockNotPut::CutWord);
        }
        if body.len() > MAX_BODY_LEN {
            return Err(BlockNotPut::LongBlock);
        }
        let block_at = sources_end(self.buf[0]);
        let header_len = block_at + BLOCK_HEADER_LEN + body.len();
        let needed = header_len + (self.len - self.header_len);
        if needed > self.buf.len() {
            return Err(BlockNotPut::NoRoom { needed });
        }
        splice_block(self.buf, self.len, block_at, self.header_len, profile, body);
        self.len = needed;
        self.header_len = header_len;
        self.form = ExtensionsForm::parse(profile.to_be_bytes());
        Ok(())
    }
}
