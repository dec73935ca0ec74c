//! What a header is written from.

use super::RtpHeader;
use rtp_base::{Pt, Ssrc};

/// The fields of a header's fixed part (RFC 3550, 5.1) as they are written.
#[derive(Clone, Copy, Debug)]
pub struct FixedFields {
    /// Whether padding bytes end the payload.
    pub has_padding: bool,
    /// Whether a block of header extensions follows the CSRC list.
    pub has_extension: bool,
    /// How many contributing sources there are. Nothing is written where they are more than 15.
    pub csrc_count: usize,
    /// The mark whose meaning the payload's profile gives.
    pub marker: bool,
    /// What the payload is. Nothing is written where it is above 127.
    pub payload_type: Pt,
    /// The low 16 bits of the packet's number.
    pub sequence_number: u16,
    /// The moment of the payload's first byte.
    pub timestamp: u32,
    /// The source whose stream this is.
    pub ssrc: Ssrc,
}

/// What a header is written from, where the fields lie (RFC 3550, 5.1). An [`RtpHeader`] is such;
/// where a caller keeps the fields in a struct of its own, that can be one, and then no header is
/// made. The values of the extensions aren't among them.
pub trait GetFields {
    ghost use Rattle.std.specs.Prelude.{◌≡◌, length};
    ghost use Rattle.rtp_wire.specs.declared.header.rtp_header.RtpHeader.{RtpHeader as Header};

    // A header of these fields, whose values play no part.
    ghost header: { Self → Header };

    /// The fields of the fixed part.
    fn fixed(&self) -> FixedFields
        ensures has_padding { result.has_padding ≡ (header self.now).has_padding }
        ensures has_extension { result.has_extension ≡ (header self.now).has_extension }
        ensures csrc_count { result.csrc_count ≡ (header self.now).csrc_count }
        ensures marker { result.marker ≡ (header self.now).marker }
        ensures payload_type { result.payload_type ≡ (header self.now).payload_type }
        ensures sequence_number { result.sequence_number ≡ (header self.now).sequence_number }
        ensures timestamp { result.timestamp ≡ (header self.now).timestamp }
        ensures ssrc { result.ssrc ≡ (header self.now).ssrc }
        ensures slots { length (header self.now).csrc ≡ 15 };

    /// The contributing sources, of which the first [`csrc_count`](FixedFields::csrc_count) count.
    fn csrc(&self) -> [u32; 15]
        ensures { result ≡ (header self.now).csrc };
}

impl GetFields for RtpHeader {
    ghost header = { λ header. header };

    #[inline(always)]
    fn fixed(&self) -> FixedFields {
        FixedFields {
            has_padding: self.has_padding,
            has_extension: self.has_extension,
            csrc_count: self.csrc_count,
            marker: self.marker,
            payload_type: self.payload_type,
            sequence_number: self.sequence_number,
            timestamp: self.timestamp,
            ssrc: self.ssrc,
        }
    }

    #[inline(always)]
    fn csrc(&self) -> [u32; 15] {
        self.csrc
    }
}
