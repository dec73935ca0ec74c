//! The header as a value.

ghost use Rattle.std.specs.Prelude.{◌≡◌, IsOk, IfOk};
ghost use Rattle.rtp_values.specs.Values.{TakesNoMemory};

use rtp_base::{Pt, Ssrc};
use rtp_ext::ExtensionValues;
use std::alloc::{AllocError, Global};

/// The header of an RTP packet (RFC 3550, 5.1), with the values of its extensions.
#[derive(Debug, PartialEq, Eq, Drop)]
pub struct RtpHeader {
    /// The version of the protocol. As read it is 2, and 2 is written whatever stands here.
    pub version: u8,
    /// Whether padding bytes end the payload, the last of which counts them. Clear it where a header
    /// that was read is written for a payload without its padding: each receiver would take the
    /// payload's last bytes for padding.
    pub has_padding: bool,
    /// Whether a block of header extensions follows the CSRC list. Where it is clear nothing of
    /// `ext_vals` is written: set it with the first value of a header that was read without X.
    pub has_extension: bool,
    /// How many contributing sources there are, 0 to 15.
    pub csrc_count: usize,
    /// A mark whose meaning the payload's profile gives: the last packet of a video frame, or the
    /// first after a silence.
    pub marker: bool,
    /// What the payload is, 0 to 127.
    pub payload_type: Pt,
    /// The low 16 bits of the packet's number, which rises by one from packet to packet.
    pub sequence_number: u16,
    /// The moment of the payload's first byte, in ticks of the payload's own clock.
    pub timestamp: u32,
    /// The source whose stream this is.
    pub ssrc: Ssrc,
    /// The contributing sources, of which the first `csrc_count` count. As read the others are 0.
    pub csrc: [u32; 15],
    /// The values that the block's elements carry.
    pub ext_vals: ExtensionValues,
    /// How many bytes the header took as it was read. Nothing is written from it.
    pub header_len: usize,
}

impl Default for RtpHeader {
    ghost use Rattle.rtp_wire.specs.Header.{default_header};

    ghost is_default = { λ header. header ≡ default_header };

    /// Version 2, payload type 1, with a block and the 16 bytes that it takes without words; all
    /// else is 0, false or absent.
    fn default() -> Self {
        RtpHeader {
            version: 2,
            has_padding: false,
            has_extension: true,
            csrc_count: 0,
            marker: false,
            payload_type: Pt::from(1),
            sequence_number: 0,
            timestamp: 0,
            ssrc: Ssrc::from(0),
            csrc: [0; 15],
            ext_vals: ExtensionValues::default(),
            header_len: 16,
        }
    }
}

impl RtpHeader {
    /// The same header, whose values are in memory of their own: it is taken where there is a layer
    /// allocation with streams. Where that is refused nothing is returned.
    pub fn clone(&self, alloc: Global) -> Result<Self, AllocError>
        ensures same { IfOk result (λ copy. copy ≡ self.now) }
        ensures succeeds { TakesNoMemory self.now.ext_vals.video_layers_allocation → IsOk result }
    {
        Ok(RtpHeader {
            ext_vals: self.ext_vals.clone(alloc)?,
            ..*self
        })
    }
}
