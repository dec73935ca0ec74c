//! The block of a packet whatever its form.

ghost use Rattle.std.specs.Prelude.{◌≡◌, ◌<◌, ℕ, Some, slice_index, is_some, IfSome};
ghost use Rattle.std.specs.Option.{option_map};
ghost use Rattle.rtp_ext.specs.Form.{IsFormWord};
ghost use Rattle.rtp_wire.specs.PartsAt.{profile_in};

use super::RtpPacket;
use super::rtp_packet::{body_start, sources_end};

impl<'a> RtpPacket<'a> {
    ghost use Rattle.rtp_wire.specs.PartsOf.{parts_of, datagram_of};

    /// Whether the block has another form than 0xBEDE and 0x1000 to 0x100F, so that no elements are
    /// read from it (RFC 3550, 5.3.1; RFC 8285, 4).
    #[inline(always)]
    pub fn has_other_form(&self) -> bool
        ensures { result ≡ is_some (parts_of self.now).other_block }
    {
        self.form.is_none() && self.has_extension()
    }

    /// The 16 bits that the block begins with, which the profile defines (RFC 3550, 5.3.1),
    /// whatever its form, and `None` exactly where X is clear. In the one-byte form they are
    /// 0xBEDE, in the two-byte form 0x1000 to 0x100F, whose low four are the application's (RFC
    /// 8285, 4.3).
    pub fn block_profile(&self) -> Option<u16>
        ensures bits { result ≡ profile_in (datagram_of self.now) }
        ensures announced { is_some result ≡ (parts_of self.now).has_extension }
        ensures form { IfSome (parts_of self.now).block (λ block.
            IfSome result (λ profile. IsFormWord profile block.0)) }
        ensures other { IfSome (parts_of self.now).other_block (λ other. result ≡ Some other.0) }
    {
        if !self.has_extension() {
            return None;
        }
        let start = sources_end(self.datagram[0]);
        Some(u16::from_be_bytes([self.datagram[start], self.datagram[start + 1]]))
    }

    /// The body of the block, whatever its form, and `None` exactly where X is clear (RFC 3550,
    /// 5.3.1). It is as long as the four bytes before it say.
    pub fn body(&self) -> Option<&'a [u8]>
        ensures announced { is_some result ≡ (parts_of self.now).has_extension }
        ensures block { IfSome (parts_of self.now).block (λ block.
            option_map (λ body. body.now) result ≡ Some block.1) }
        ensures other { IfSome (parts_of self.now).other_block (λ other.
            option_map (λ body. body.now) result ≡ Some other.1) }
        ensures bytes { IfSome result (λ body. (i : ℕ) → slice_index body.now i < 256) }
    {
        if !self.has_extension() {
            return None;
        }
        let start = body_start(self.datagram[0]);
        Some(&self.datagram[start..self.header_len])
    }
}
