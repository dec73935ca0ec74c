//! The values that header extensions carry.

ghost use Rattle.std.specs.Prelude.{◌≡◌, IsOk, IfOk};
ghost use Rattle.rtp_values.specs.Values.{TakesNoMemory};

use super::{AbsCaptureTime, ValueKinds, VideoOrientation, VideoTiming};
use crate::KindSet;
use rtp_base::{MediaTime, Mid, Rid};
use rtp_vla::vla::VideoLayersAllocation;
use std::alloc::{AllocError, Global};
use std::marker::Model;

/// The values of a header's extensions (RFC 8285, 4). A field is `None` where the header carries no
/// value of it. An extension without a field, as the color space and every unknown one, is dropped
/// when a header is read, and is not written. Some values are not read as their standards have
/// them: their documents name what of [`standard`](crate::standard) does.
#[derive(Debug, PartialEq, Eq, Drop)]
pub struct ExtensionValues {
    /// The audio level in decibels relative to the overload point, -127 (silence) to 0 (loudest)
    /// as read (RFC 6464, 3). Its magnitude is written modulo 128, so -128 is written as 0, the
    /// loudest.
    pub audio_level: Option<i8>,
    /// Whether the packet's audio has voice (RFC 6464, 3).
    pub voice_activity: Option<bool>,
    /// How the receiver has to turn the picture, counter-clockwise. The bits of camera and flip are
    /// not kept as read, and are written as 0: [`Orientation`](crate::standard::Orientation) has
    /// them.
    pub video_orientation: Option<VideoOrientation>,
    /// What the video shows: 0 is unspecified, 1 a screen.
    pub video_content_type: Option<u8>,
    /// How long after the time of its RTP timestamp the packet was sent, in ticks of the stream's
    /// clock. It has four bytes here, unsigned; an element of RFC 5450 has three, signed, and sets
    /// no value: [`parse_transmission_offset`](crate::standard::parse_transmission_offset).
    pub tx_time_offs: Option<u32>,
    /// When the packet left its sender, in microseconds since the Unix epoch. As read it is known
    /// modulo 64 seconds only, from 0 to 63,999,996;
    /// [`update_absolute_send_time`](Self::update_absolute_send_time) finds the rest. Each reading
    /// and writing loses up to a tick of 2^-18 seconds, about 3.8 microseconds.
    pub abs_send_time: Option<u64>,
    /// When the first frame in the packet was captured.
    pub abs_capture_time: Option<AbsCaptureTime>,
    /// The packet's number on its transport, over all streams, without a request for feedback:
    /// [`TransportNumber`](crate::standard::TransportNumber).
    pub transport_cc: Option<u16>,
    /// The least time for which the receiver may hold the frame before it shows it.
    pub play_delay_min: Option<MediaTime>,
    /// The greatest such time.
    pub play_delay_max: Option<MediaTime>,
    /// When the frame was encoded, packetized and sent. Of the form without flags, of 12 bytes, the
    /// first is taken for flags: [`Timing`](crate::standard::Timing) has both forms.
    pub video_timing: Option<VideoTiming>,
    /// The RTP stream id (RFC 8852), changed as `mid` is, and cut after 8 characters.
    pub rid: Option<Rid>,
    /// The id of the stream that this one repairs (RFC 8852), changed and cut as `rid` is.
    pub rid_repair: Option<Rid>,
    /// The media section's identification tag (RFC 9143). Each character but an ASCII letter or
    /// digit is an underscore, and what follows the first 16 is cut off:
    /// [`parse_token`](crate::standard::parse_token) has the text as it lies.
    pub mid: Option<Mid>,
    /// The frame marking: its first four bytes, the first in the high bits. An element as the draft
    /// describes it, and RFC 9626, has one to three bytes, and sets no value:
    /// [`FrameMarking`](crate::standard::FrameMarking).
    pub frame_mark: Option<u32>,
    /// Which simulcast streams and layers of the video the sender keeps active.
    pub video_layers_allocation: Option<VideoLayersAllocation>,
}

impl Model for ExtensionValues {
    ghost use Rattle.rtp_values.specs.HeaderValues.{HeaderValues};

    ghost Value = { HeaderValues };

    ghost view = { λ values. record {
      audio_level = values.audio_level;
      voice_activity = values.voice_activity;
      video_orientation = values.video_orientation;
      video_content_type = values.video_content_type;
      tx_time_offs = values.tx_time_offs;
      abs_send_time = values.abs_send_time;
      abs_capture_time = values.abs_capture_time;
      transport_cc = values.transport_cc;
      play_delay_min = values.play_delay_min;
      play_delay_max = values.play_delay_max;
      video_timing = values.video_timing;
      rid = values.rid;
      rid_repair = values.rid_repair;
      mid = values.mid;
      frame_mark = values.frame_mark;
      video_layers_allocation = values.video_layers_allocation;
    } };

    ghost inverse = { λ shown. record {
      audio_level = shown.audio_level;
      voice_activity = shown.voice_activity;
      video_orientation = shown.video_orientation;
      video_content_type = shown.video_content_type;
      tx_time_offs = shown.tx_time_offs;
      abs_send_time = shown.abs_send_time;
      abs_capture_time = shown.abs_capture_time;
      transport_cc = shown.transport_cc;
      play_delay_min = shown.play_delay_min;
      play_delay_max = shown.play_delay_max;
      video_timing = shown.video_timing;
      rid = shown.rid;
      rid_repair = shown.rid_repair;
      mid = shown.mid;
      frame_mark = shown.frame_mark;
      video_layers_allocation = shown.video_layers_allocation;
    } };
}

impl Default for ExtensionValues {
    ghost use Rattle.std.specs.Prelude.{◌≡◌};
    ghost use Rattle.rtp_values.specs.Values.{no_values};

    ghost is_default = { λ values. values ≡ no_values };

    /// Every value is absent.
    fn default() -> Self {
        ExtensionValues {
            audio_level: None,
            voice_activity: None,
            video_orientation: None,
            video_content_type: None,
            tx_time_offs: None,
            abs_send_time: None,
            abs_capture_time: None,
            transport_cc: None,
            play_delay_min: None,
            play_delay_max: None,
            video_timing: None,
            rid: None,
            rid_repair: None,
            mid: None,
            frame_mark: None,
            video_layers_allocation: None,
        }
    }
}

impl ExtensionValues {
    /// The same values in memory of their own, which is taken where there is a layer allocation
    /// with streams. Where that is refused nothing is returned.
    pub fn clone(&self, alloc: Global) -> Result<Self, AllocError>
        ensures same { IfOk result (λ copy. copy ≡ self.now) }
        ensures succeeds { TakesNoMemory self.now.video_layers_allocation → IsOk result }
    {
        let video_layers_allocation = match &self.video_layers_allocation {
            Some(allocation) => Some(allocation.clone(alloc)?),
            None => None,
        };
        Ok(ExtensionValues {
            video_layers_allocation,
            ..*self
        })
    }
}

impl ValueKinds for ExtensionValues {
    #[tactic(auto, using(crate::proofs::KindSetLemmas::flags_say, crate::proofs::KindSetLemmas::or_both))]
    fn kinds(&self) -> KindSet {
        KindSet {
            flags: [
                self.abs_send_time.is_some(),
                self.abs_capture_time.is_some(),
                self.audio_level.is_some() | self.voice_activity.is_some(),
                self.tx_time_offs.is_some(),
                self.video_orientation.is_some(),
                self.transport_cc.is_some(),
                self.play_delay_min.is_some() | self.play_delay_max.is_some(),
                self.video_content_type.is_some(),
                self.video_timing.is_some(),
                self.rid.is_some(),
                self.rid_repair.is_some(),
                self.mid.is_some(),
                self.frame_mark.is_some(),
                false,
                self.video_layers_allocation.is_some(),
            ],
        }
    }
}
