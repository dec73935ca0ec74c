//! The first three bytes of a dependency descriptor (AV1's RTP payload format, A.8).

ghost use Rattle.std.specs.Prelude.{◌≡◌, ◌≤◌, ◌<◌, ◌↔◌, IsTrue, length, slice_index, IfSome};
ghost use Rattle.std.specs.Option.{SomeIff};
ghost use Rattle.rtp_values.specs.StandardBits.{has_bit};
ghost use Rattle.rtp_values.specs.StandardDescriptor.{descriptor_in, descriptor_bytes};

use super::bits::has_bit;

/// The fields of a dependency descriptor that each packet has, in its first three bytes (AV1's RTP
/// payload format, A.8). What follows them needs the structure that the sender sent before, and is
/// handed on as it is.
#[derive(Clone, Copy, Debug, PartialEq, Eq)]
pub struct DependencyDescriptor {
    /// Whether the packet is the first of its frame.
    pub start_of_frame: bool,
    /// Whether the packet is the last of its frame.
    pub end_of_frame: bool,
    /// The template that the frame's dependencies are like, 0 to 63.
    pub template_id: u8,
    /// The number of the frame, which rolls over.
    pub frame_number: u16,
}

impl DependencyDescriptor {
    /// Reads the first three bytes. `Some` exactly when there are three bytes or more.
    ///
    /// ```
    /// let read = DependencyDescriptor::parse(b"\x83\x01\x02")?;
    /// assert!(read.start_of_frame && !read.end_of_frame);
    /// assert_eq!(read.template_id, 3);
    /// assert_eq!(read.frame_number, 0x0102);
    /// ```
    pub fn parse(bytes: &[u8]) -> Option<Self>
        ensures { SomeIff result (3 ≤ length bytes.now) (descriptor_in bytes.now) }
    {
        let [first, high, low, ..] = *bytes else {
            return None;
        };
        Some(DependencyDescriptor {
            start_of_frame: has_bit(first, 7),
            end_of_frame: has_bit(first, 6),
            template_id: first & 0x3F,
            frame_number: u16::from_be_bytes([high, low]),
        })
    }

    /// Whether a descriptor brings a template dependency structure, as that of the first packet of a
    /// key frame does: the first bit of its fourth byte is set, if it has one.
    pub fn has_structure(bytes: &[u8]) -> bool
        ensures { IsTrue result ↔ (3 < length bytes.now) × IsTrue (has_bit 7 (slice_index bytes.now 3)) }
    {
        match bytes.get(3) {
            Some(byte) => has_bit(*byte, 7),
            None => false,
        }
    }

    /// The three bytes, and `None` exactly where the template is above 63.
    pub fn to_bytes(self) -> Option<[u8; 3]>
        ensures bytes { SomeIff result (self.template_id < 64) (descriptor_bytes self) }
        ensures back { IfSome result (λ bytes. descriptor_in bytes ≡ self) }
    {
        if self.template_id > 63 {
            return None;
        }
        let start = u8::from(self.start_of_frame) << 7;
        let end = u8::from(self.end_of_frame) << 6;
        let [high, low] = self.frame_number.to_be_bytes();
        Some([start + end + self.template_id, high, low])
    }
}
