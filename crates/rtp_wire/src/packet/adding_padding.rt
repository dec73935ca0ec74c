//! Padding that is put behind the payload of a packet in a buffer.

ghost use Rattle.std.specs.Prelude.{◌≡◌, ◌+◌, ◌<◌, ℕ, length, drop, true, false, Some, IsNone, IfSome, IfNone};
ghost use Rattle.rtp_base.specs.Overwriting.{overwritten};
ghost use Rattle.rtp_wire.specs.AddedPadding.{with_padding, IsAddedCount};
ghost use Rattle.rtp_wire.specs.Padding.{padding_bytes, with_padding_bit, IsPaddingLength};

use super::RtpPacketBuf;
use crate::payload::try_create_padding_packet;

impl<'a> RtpPacketBuf<'a> {
    ghost use Rattle.rtp_wire.specs.PacketBuf.{whole_of, len_of, parts_within, StaysWhole};

    /// Puts padding behind the payload, and sets P (RFC 3550, 5.1): zeros, and in the last byte
    /// their count, itself included, which is returned. It is `pad_len` rounded up to a multiple of
    /// `block_size`, but at most 240; with a `pad_len` of 0 nothing changes, and it returns 0.
    ///
    /// Returns `None`, and changes nothing, where P is set already, and where there is no room for
    /// the padding or `block_size` is 0, unless `pad_len` is.
    ///
    /// The packet `80 00 00 01 00 00 00 00 00 00 00 2C AA BB` (hexadecimal), in a buffer of 18 bytes
    /// or more, gets the padding `00 00 00 04` with a `pad_len` of 3 and a `block_size` of 4.
    pub fn add_padding(&mut self, pad_len: u8, block_size: usize) -> Option<usize>
        ensures parts { IfSome result (λ count.
            parts_within self.new ≡ with_padding count (parts_within self.old)) }
        ensures count { IfSome result (IsAddedCount pad_len block_size) }
        ensures length { IfSome result (λ count. len_of self.new ≡ len_of self.old + count) }
        ensures written { IfSome result (λ count. 0 < pad_len → (whole_of self.new).now
            ≡ overwritten (with_padding_bit (whole_of self.old).now) (len_of self.old)
            (padding_bytes count)) }
        ensures behind { IfSome result (λ _. drop (len_of self.new) (whole_of self.new).now
            ≡ drop (len_of self.new) (whole_of self.old).now) }
        ensures padded { (parts_within self.old).has_padding ≡ true → IsNone result }
        ensures nothing { (parts_within self.old).has_padding ≡ false → pad_len ≡ 0 →
            result ≡ Some 0 }
        ensures same { pad_len ≡ 0 → StaysWhole self.old self.new }

        // With a block size of 0 there is no such length.
        ensures refused { IfNone result ((parts_within self.old).has_padding ≡ false → (n : ℕ) →
            IsPaddingLength pad_len block_size n →
            length (whole_of self.old).now < len_of self.old + n) }
        ensures unchanged { IfNone result (StaysWhole self.old self.new) }
        ensures same_buffer { (whole_of self.new).ghost_name ≡ (whole_of self.old).ghost_name }
    {
        if self.as_packet().has_padding() {
            return None;
        }
        let count = try_create_padding_packet(self.buf, self.len, pad_len, block_size)?;
        self.len += count;
        Some(count)
    }
}
