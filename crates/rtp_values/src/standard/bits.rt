//! The bits of a byte.

ghost use Rattle.std.specs.Prelude.{◌≡◌, ◌<◌};
ghost use Rattle.rtp_values.specs.StandardBits.{has_bit};

// Whether a bit of the byte is set: bit 0 is the low one, and bit 7 the high one.
#[inline(always)]
pub(super) fn has_bit(byte: u8, place: u32) -> bool
    requires { place < 8 }
    ensures { result ≡ has_bit place byte }
{
    byte >> place & 1 == 1
}
