//! The data of an element, by its known kind: how they are read and written, and how long they are.

ghost use Rattle.std.specs.Prelude.{◌≡◌, ◌≢◌, ◌≤◌, length, Some, IfOk, IfSome, IsErr};
ghost use Rattle.std.specs.Option.{option_map};
ghost use Rattle.rtp_values.specs.KnownKind.{extension_of_kind};
ghost use Rattle.rtp_values.specs.Values.{IsWellFormed, TakesMemory};
ghost use Rattle.rtp_values.specs.KindBytes.{ReadsInto, WritesData};
ghost use Rattle.rtp_values.specs.Spelling.{HasRoom, spelled_data};

use super::lengths::{capture_len, len_of, len_of_both, mid_len, repaired_rid_len, rid_len};
use super::{
    GetValues, SetValues, abs_capture_time, abs_send_time, audio_level, mid, numbers,
    playout_delay, stream_id, video_layers_allocation, video_orientation, video_timing,
};
use crate::KnownKind;
use std::alloc::AllocError;

impl KnownKind {
    /// Reads the data of an element of this kind into the values: `Some` exactly when the data are
    /// well-formed for the kind, and then the kind's fields are what they say, and all other fields
    /// are as before. `None` changes nothing.
    ///
    /// Only a layer allocation of two bytes or more takes memory, and only where the values hold it in
    /// memory. Where that is refused nothing is changed.
    #[inline(always)]
    pub fn parse_value<V: SetValues>(
        self,
        memory: V::Memory,
        buf: &[u8],
        ev: &mut V,
    ) -> Result<Option<()>, AllocError>
        ensures found { result ≡ Ok (Some (record {})) →
            ReadsInto V.shows (extension_of_kind self) buf.now ev.old ev.new }
        ensures only { IsWellFormed (extension_of_kind self) buf.now → IfOk result (λ answer.
            answer ≡ Some (record {})) }
        ensures unchanged { result ≢ Ok (Some (record {})) → ev.new ≡ ev.old }
        ensures refused { IsErr result →
            V.may_be_refused × TakesMemory (extension_of_kind self) buf.now }
    {
        Ok(match self {
            KnownKind::AbsoluteSendTime => abs_send_time::read(buf, ev),
            KnownKind::AbsoluteCaptureTime => abs_capture_time::read(buf, ev),
            KnownKind::AudioLevel => audio_level::read(buf, ev),
            KnownKind::TransmissionTimeOffset => numbers::read_transmission_offset(buf, ev),
            KnownKind::VideoOrientation => video_orientation::read(buf, ev),
            KnownKind::TransportSequenceNumber => numbers::read_transport_number(buf, ev),
            KnownKind::PlayoutDelay => playout_delay::read(buf, ev),
            KnownKind::VideoContentType => numbers::read_video_content_type(buf, ev),
            KnownKind::VideoTiming => video_timing::read(buf, ev),
            KnownKind::RtpStreamId => stream_id::read(buf, ev),
            KnownKind::RepairedRtpStreamId => stream_id::read_repaired(buf, ev),
            KnownKind::RtpMid => mid::read(buf, ev),
            KnownKind::FrameMarking => numbers::read_frame_marking(buf, ev),
            KnownKind::VideoLayersAllocation => {
                return video_layers_allocation::read(memory, buf, ev);
            }
            KnownKind::ColorSpace => None,
        })
    }

    /// Writes the data of this kind's element to the front of the buffer and returns their length,
    /// or returns `None` and changes nothing where a value that the kind needs is absent, or is an
    /// allocation that can't be written in 255 bytes. The bytes after the data stay as they were.
    /// What was written is read as the value that these bytes carry. It requires room for the data;
    /// 255 bytes always suffice.
    #[inline(always)]
    pub fn write_to<V: GetValues>(self, buf: &mut [u8], ev: &V) -> Option<usize>
        requires room { HasRoom (extension_of_kind self) (V.values ev.now) buf.old }
        ensures { WritesData (extension_of_kind self) (V.values ev.now) buf.old buf.new result }
    {
        match self {
            KnownKind::AbsoluteSendTime => abs_send_time::write(buf, ev),
            KnownKind::AbsoluteCaptureTime => abs_capture_time::write(buf, ev),
            KnownKind::AudioLevel => audio_level::write(buf, ev),
            KnownKind::TransmissionTimeOffset => numbers::write_transmission_offset(buf, ev),
            KnownKind::VideoOrientation => video_orientation::write(buf, ev),
            KnownKind::TransportSequenceNumber => numbers::write_transport_number(buf, ev),
            KnownKind::PlayoutDelay => playout_delay::write(buf, ev),
            KnownKind::VideoContentType => numbers::write_video_content_type(buf, ev),
            KnownKind::VideoTiming => video_timing::write(buf, ev),
            KnownKind::RtpStreamId => stream_id::write(buf, ev),
            KnownKind::RepairedRtpStreamId => stream_id::write_repaired(buf, ev),
            KnownKind::RtpMid => mid::write(buf, ev),
            KnownKind::FrameMarking => numbers::write_frame_marking(buf, ev),
            KnownKind::VideoLayersAllocation => ev.write_layers(buf),
            KnownKind::ColorSpace => None,
        }
    }

    /// How many bytes [`write_to`](Self::write_to) writes, and `None` where it writes no element.
    #[inline(always)]
    pub fn data_len<V: GetValues>(self, ev: &V) -> Option<usize>
        ensures length { result
            ≡ option_map length (spelled_data (extension_of_kind self) (V.values ev.now)) }
        ensures few { IfSome result (λ len. len ≤ 255) }
    {
        match self {
            KnownKind::AbsoluteSendTime => len_of(&ev.send_time(), 3),
            KnownKind::AbsoluteCaptureTime => capture_len(&ev.capture_time()),
            KnownKind::AudioLevel => len_of_both(&ev.audio_level(), &ev.voice_activity(), 1),
            KnownKind::TransmissionTimeOffset => len_of(&ev.transmission_offset(), 4),
            KnownKind::VideoOrientation => len_of(&ev.video_orientation(), 1),
            KnownKind::TransportSequenceNumber => len_of(&ev.transport_number(), 2),
            KnownKind::PlayoutDelay => {
                len_of_both(&ev.playout_delay_min(), &ev.playout_delay_max(), 3)
            }
            KnownKind::VideoContentType => len_of(&ev.video_content_type(), 1),
            KnownKind::VideoTiming => len_of(&ev.video_timing(), 13),
            KnownKind::RtpStreamId => rid_len(ev),
            KnownKind::RepairedRtpStreamId => repaired_rid_len(ev),
            KnownKind::RtpMid => mid_len(ev),
            KnownKind::FrameMarking => len_of(&ev.frame_marking(), 4),
            KnownKind::VideoLayersAllocation => ev.layers_len(),
            KnownKind::ColorSpace => None,
        }
    }
}
