//! What values are written from.

ghost use Rattle.rtp_values.specs.KindBytes.{IsTextOf};

use super::{
    AbsCaptureTime, ExtensionValues, VideoOrientation, VideoTiming, video_layers_allocation,
};
use rtp_base::{MediaTime, Mid, Rid};

/// What the elements of a block are written from, value by value, as [`ExtensionValues`]: each call
/// returns one value, and `None` where it is absent.
pub trait GetValues {
    ghost use Rattle.std.specs.Prelude.{◌≡◌, ◌≤◌, List, ℕ, length, Some, None, IfSome, IfNone};
    ghost use Rattle.std.specs.Option.{option_map};
    ghost use Rattle.rtp_values.specs.declared.kind.Extension.TheVariants as kind;
    ghost use Rattle.rtp_values.specs.HeaderValues.{HeaderValues};
    ghost use Rattle.rtp_values.specs.KindBytes.{IsTextOf, WritesData};
    ghost use Rattle.rtp_values.specs.Spelling.{spelled_data, HasRoom};

    // What they are, as one value.
    ghost values: { Self → HeaderValues };

    /// The absolute send time, in microseconds.
    fn send_time(&self) -> Option<u64>
        ensures { result ≡ (values self.now).abs_send_time };

    /// The absolute capture time.
    fn capture_time(&self) -> Option<AbsCaptureTime>
        ensures { result ≡ (values self.now).abs_capture_time };

    /// The audio level.
    fn audio_level(&self) -> Option<i8>
        ensures { result ≡ (values self.now).audio_level };

    /// Whether the audio has voice.
    fn voice_activity(&self) -> Option<bool>
        ensures { result ≡ (values self.now).voice_activity };

    /// The transmission time offset, in ticks of the stream's clock.
    fn transmission_offset(&self) -> Option<u32>
        ensures { result ≡ (values self.now).tx_time_offs };

    /// How the picture is to be turned.
    fn video_orientation(&self) -> Option<VideoOrientation>
        ensures { result ≡ (values self.now).video_orientation };

    /// The packet's number on its transport.
    fn transport_number(&self) -> Option<u16>
        ensures { result ≡ (values self.now).transport_cc };

    /// The least playout delay.
    fn playout_delay_min(&self) -> Option<MediaTime>
        ensures { result ≡ (values self.now).play_delay_min };

    /// The greatest playout delay.
    fn playout_delay_max(&self) -> Option<MediaTime>
        ensures { result ≡ (values self.now).play_delay_max };

    /// What the video shows.
    fn video_content_type(&self) -> Option<u8>
        ensures { result ≡ (values self.now).video_content_type };

    /// The video timing.
    fn video_timing(&self) -> Option<VideoTiming>
        ensures { result ≡ (values self.now).video_timing };

    /// The text of the RTP stream id.
    fn rid(&self) -> Option<&[u8]>
        ensures some { IfSome result (λ text. (id : List ℕ) × ((values self.now).rid ≡ Some id)
            × IsTextOf 8 id text.now) }
        ensures none { IfNone result ((values self.now).rid ≡ None) };

    /// The text of the id of the stream that is repaired.
    fn repaired_rid(&self) -> Option<&[u8]>
        ensures some { IfSome result (λ text. (id : List ℕ)
            × ((values self.now).rid_repair ≡ Some id) × IsTextOf 8 id text.now) }
        ensures none { IfNone result ((values self.now).rid_repair ≡ None) };

    /// The text of the media section's identification tag.
    fn mid(&self) -> Option<&[u8]>
        ensures some { IfSome result (λ text. (id : List ℕ) × ((values self.now).mid ≡ Some id)
            × IsTextOf 16 id text.now) }
        ensures none { IfNone result ((values self.now).mid ≡ None) };

    /// The four bytes of a frame marking.
    fn frame_marking(&self) -> Option<u32>
        ensures { result ≡ (values self.now).frame_mark };

    /// How many bytes of data the element of the layer allocation has, and `None` where there is no
    /// allocation, or none that an element can carry.
    fn layers_len(&self) -> Option<usize>
        ensures length { result
            ≡ option_map length (spelled_data kind.VideoLayersAllocation (values self.now)) }
        ensures few { IfSome result (λ len. len ≤ 255) };

    /// Writes these data to the front of the buffer, and returns how many bytes they are. It
    /// requires room for them; 255 bytes always suffice.
    fn write_layers(&self, buf: &mut [u8]) -> Option<usize>
        requires room { HasRoom kind.VideoLayersAllocation (values self.now) buf.old }
        ensures { WritesData kind.VideoLayersAllocation (values self.now) buf.old buf.new result };
}

// The text of a tag.
fn mid_text(mid: &Mid) -> &[u8]
    ensures { IsTextOf 16 mid.now result.now }
{
    mid.as_str().as_bytes()
}

// The text of a stream id.
fn rid_text(rid: &Rid) -> &[u8]
    ensures { IsTextOf 8 rid.now result.now }
{
    rid.as_str().as_bytes()
}

impl GetValues for ExtensionValues {
    ghost values = { λ values. values };

    #[inline(always)]
    fn send_time(&self) -> Option<u64> {
        self.abs_send_time
    }

    #[inline(always)]
    fn capture_time(&self) -> Option<AbsCaptureTime> {
        self.abs_capture_time
    }

    #[inline(always)]
    fn audio_level(&self) -> Option<i8> {
        self.audio_level
    }

    #[inline(always)]
    fn voice_activity(&self) -> Option<bool> {
        self.voice_activity
    }

    #[inline(always)]
    fn transmission_offset(&self) -> Option<u32> {
        self.tx_time_offs
    }

    #[inline(always)]
    fn video_orientation(&self) -> Option<VideoOrientation> {
        self.video_orientation
    }

    #[inline(always)]
    fn transport_number(&self) -> Option<u16> {
        self.transport_cc
    }

    #[inline(always)]
    fn playout_delay_min(&self) -> Option<MediaTime> {
        self.play_delay_min
    }

    #[inline(always)]
    fn playout_delay_max(&self) -> Option<MediaTime> {
        self.play_delay_max
    }

    #[inline(always)]
    fn video_content_type(&self) -> Option<u8> {
        self.video_content_type
    }

    #[inline(always)]
    fn video_timing(&self) -> Option<VideoTiming> {
        self.video_timing
    }

    #[inline(always)]
    fn rid(&self) -> Option<&[u8]> {
        let rid = self.rid.as_ref()?;
        Some(rid_text(rid))
    }

    #[inline(always)]
    fn repaired_rid(&self) -> Option<&[u8]> {
        let rid_repair = self.rid_repair.as_ref()?;
        Some(rid_text(rid_repair))
    }

    #[inline(always)]
    fn mid(&self) -> Option<&[u8]> {
        let mid = self.mid.as_ref()?;
        Some(mid_text(mid))
    }

    #[inline(always)]
    fn frame_marking(&self) -> Option<u32> {
        self.frame_mark
    }

    #[inline(always)]
    fn layers_len(&self) -> Option<usize> {
        video_layers_allocation::data_len(self)
    }

    #[inline(always)]
    fn write_layers(&self, buf: &mut [u8]) -> Option<usize> {
        video_layers_allocation::write(buf, self)
    }
}
