//! Frame marking (RFC 9626, 3): one byte for a stream without layers, two or three for one with.

ghost use Rattle.std.specs.Prelude.{◌≡◌, ◌≤◌, ◌<◌, length, IfSome, IfNone};
ghost use Rattle.std.specs.Option.{SomeIff, option_map};
ghost use Rattle.rtp_base.specs.Overwriting.{overwritten};
ghost use Rattle.rtp_values.specs.StandardMarking.{layers_in, marking_in, flags_byte, marking_data};

use super::bits::has_bit;
use rtp_base::put;

/// What a packet is to its frame, and the frame to its stream (RFC 9626, 3).
#[derive(Clone, Copy, Debug, PartialEq, Eq)]
pub struct FrameMarking {
    /// Whether the packet is the first of its frame.
    pub start: bool,
    /// Whether the packet is the last of its frame.
    pub end: bool,
    /// Whether the frame can be decoded without any frame before it.
    pub independent: bool,
    /// Whether no other frame needs this one.
    pub discardable: bool,
    /// Where the frame is among the layers, for a stream that has some.
    pub layers: Option<FrameLayers>,
}

/// Where a frame is among the layers of its stream (RFC 9626, 3.1).
#[derive(Clone, Copy, Debug, PartialEq, Eq)]
pub struct FrameLayers {
    /// Whether the frame depends on the base temporal layer alone.
    pub base_layer_sync: bool,
    /// The temporal layer, 0 to 7; 0 is the base layer.
    pub temporal_id: u8,
    /// The spatial and quality layer, by the numbers of its codec.
    pub layer_id: u8,
    /// The running number of the frame of the base temporal layer, where it is sent.
    pub tl0_pic_idx: Option<u8>,
}

// The layers in the low four bits of the first byte and in the bytes after it.
fn layers_in(flags: u8, layer_id: u8, tl0_pic_idx: Option<u8>) -> FrameLayers
    ensures { result ≡ layers_in flags layer_id tl0_pic_idx }
{
    FrameLayers {
        base_layer_sync: has_bit(flags, 3),
        temporal_id: flags & 0x07,
        layer_id,
        tl0_pic_idx,
    }
}

impl FrameMarking {
    /// Reads a frame marking. `Some` exactly when there are one to three bytes: one is of a stream
    /// without layers (RFC 9626, 3.2), and its low four bits are ignored; two are without the number
    /// of the base layer's frame.
    ///
    /// ```
    /// let marking = FrameMarking::parse(b"\xA9\x02\x07")?;
    /// assert!(marking.start && !marking.end && marking.independent);
    /// let layers = marking.layers?;
    /// assert!(layers.base_layer_sync);
    /// assert_eq!(layers.temporal_id, 1);
    /// assert_eq!(layers.layer_id, 2);
    /// assert_eq!(layers.tl0_pic_idx, Some(7));
    /// ```
    pub fn parse(bytes: &[u8]) -> Option<Self>
        ensures { SomeIff result ((1 ≤ length bytes.now) × (length bytes.now ≤ 3)) (marking_in bytes.now) }
    {
        let (flags, layers) = match *bytes {
            [flags] => (flags, None),
            [flags, layer_id] => (flags, Some(layers_in(flags, layer_id, None))),
            [flags, layer_id, index] => (flags, Some(layers_in(flags, layer_id, Some(index)))),
            _ => return None,
        };
        Some(FrameMarking {
            start: has_bit(flags, 7),
            end: has_bit(flags, 6),
            independent: has_bit(flags, 5),
            discardable: has_bit(flags, 4),
            layers,
        })
    }

    // The first byte, whose low four bits are zeros for a stream without layers.
    fn flags(&self) -> u8
        requires small { IfSome self.now.layers (λ l. l.temporal_id < 8) }
        ensures { result ≡ flags_byte self.now }
    {
        let start = u8::from(self.start) << 7;
        let end = u8::from(self.end) << 6;
        let independent = u8::from(self.independent) << 5;
        let discardable = u8::from(self.discardable) << 4;
        let low = match self.layers {
            Some(layers) => (u8::from(layers.base_layer_sync) << 3) + layers.temporal_id,
            None => 0,
        };
        start + end + independent + discardable + low
    }

    /// Writes the marking to the front of the buffer and returns how many bytes it has, one to
    /// three. `None` exactly where the temporal layer is above 7, and then nothing is written. The
    /// bytes after the data stay as they were. It requires room for three bytes.
    pub fn write_to(&self, buf: &mut [u8]) -> Option<usize>
        requires room { 3 ≤ length buf.old }
        ensures length { result ≡ option_map length (marking_data self.now) }
        ensures written { IfSome (marking_data self.now) (λ bytes. buf.new ≡ overwritten buf.old 0 bytes) }
        ensures unchanged { IfNone result (buf.new ≡ buf.old) }
        ensures back { IfSome (marking_data self.now) (λ bytes. marking_in bytes ≡ self.now) }
    {
        let Some(layers) = self.layers else {
            return Some(put(buf, 0, &[self.flags()]));
        };
        if layers.temporal_id > 7 {
            return None;
        }
        let flags = self.flags();
        Some(match layers.tl0_pic_idx {
            Some(index) => put(buf, 0, &[flags, layers.layer_id, index]),
            None => put(buf, 0, &[flags, layers.layer_id]),
        })
    }
}
