//! The values that C gives to be written, where they lie.

ghost use Rattle.std.specs.Prelude.{◌≡◌, ◌<◌, ◌≤◌, ◌-◌, length, None, IfSome, IfNone};
ghost use Rattle.std.specs.Bool.{OnTrue};
ghost use Rattle.std.specs.List.{All};
ghost use Rattle.std.specs.Option.{option_map};
ghost use Rattle.rtp_base.specs.Id.{IsIdByte, before_padding, padded};
ghost use Rattle.rtp_values.specs.declared.value.values.ExtensionValues.{ExtensionValues as Values};
ghost use Rattle.rtp_values.specs.Spelling.{has_no_data, spelled_data};
ghost use Rattle.rtp_values.specs.KnownKind.{extension_of_kind};
ghost use Rattle.rtp_c.specs.Given.{given, text_in, IsTextIn, AreGivenValues, is_nonzero};

use super::given::{can_be_given, given};
use super::given_parts::{
    given_capture_time, given_orientation, given_text, given_time, given_timing,
};
use super::values::ValuesView;
use rtp_base::MediaTime;
use rtp_values::{
    AbsCaptureTime, ElementValues, GetValues, KindSet, KnownKind, ValueKinds, VideoOrientation,
    VideoTiming,
};
use std::marker::Model;

/// The values that C gives, each looked at when its kind is written. They have no layer allocation.
#[derive(Drop)]
pub struct GivenValues<'a> {
    view: &'a ValuesView,
}

impl<'a> Model for GivenValues<'a> {
    ghost use Rattle.rtp_values.specs.HeaderValues.{HeaderValues};
    ghost use Rattle.rtp_c.specs.Given.{CanBeGiven, values_in};

    ghost Value = { HeaderValues };

    ghost view = { λ given. values_in given.view.now };

    ghost invariant = { λ given. CanBeGiven given.view.now };
}

impl<'a> GivenValues<'a> {
    /// Those of the struct; `None` where an audio level, an orientation, a time or a text that is
    /// there is none.
    #[inline(always)]
    pub fn of(view: &'a ValuesView) -> Option<Self>
        ensures found { IfSome result (AreGivenValues view.now) }
        ensures none { IfNone result ((values : Values) → AreGivenValues view.now values → ⊥) }
    {
        if !can_be_given(view) {
            return None;
        }
        Some(GivenValues { view })
    }

    // Whether the kind is a stream id's, and the id is absent: what writes one is out of line.
    #[inline(always)]
    fn is_absent_id(&self, kind: KnownKind) -> bool
        ensures { OnTrue result (spelled_data (extension_of_kind kind) self.now ≡ None) }
    {
        match kind {
            KnownKind::RtpStreamId => self.view.has_rid == 0,
            KnownKind::RepairedRtpStreamId => self.view.has_repaired_rid == 0,
            _ => false,
        }
    }
}

impl<'a> GetValues for GivenValues<'a> {
    ghost values = { λ given. given };

    #[inline(always)]
    fn send_time(&self) -> Option<u64> {
        given(self.view.has_send_time, self.view.send_time)
    }

    #[inline(always)]
    fn capture_time(&self) -> Option<AbsCaptureTime> {
        given_capture_time(self.view)
    }

    #[inline(always)]
    fn audio_level(&self) -> Option<i8> {
        given(self.view.has_audio_level, self.view.audio_level)
    }

    #[inline(always)]
    fn voice_activity(&self) -> Option<bool> {
        given(self.view.has_voice_activity, self.view.voice_activity != 0)
    }

    #[inline(always)]
    fn transmission_offset(&self) -> Option<u32> {
        given(
            self.view.has_transmission_offset,
            self.view.transmission_offset,
        )
    }

    #[inline(always)]
    fn video_orientation(&self) -> Option<VideoOrientation> {
        given_orientation(self.view.has_video_orientation, self.view.video_orientation)
    }

    #[inline(always)]
    fn transport_number(&self) -> Option<u16> {
        given(self.view.has_transport_number, self.view.transport_number)
    }

    #[inline(always)]
    fn playout_delay_min(&self) -> Option<MediaTime> {
        given_time(
            self.view.has_playout_delay_min,
            &self.view.playout_delay_min,
        )
    }

    #[inline(always)]
    fn playout_delay_max(&self) -> Option<MediaTime> {
        given_time(
            self.view.has_playout_delay_max,
            &self.view.playout_delay_max,
        )
    }

    #[inline(always)]
    fn video_content_type(&self) -> Option<u8> {
        given(
            self.view.has_video_content_type,
            self.view.video_content_type,
        )
    }

    #[inline(always)]
    fn video_timing(&self) -> Option<VideoTiming> {
        given_timing(self.view)
    }

    #[inline(always)]
    fn rid(&self) -> Option<&[u8]> {
        given_text(self.view.has_rid, &self.view.rid)
    }

    #[inline(always)]
    fn repaired_rid(&self) -> Option<&[u8]> {
        given_text(self.view.has_repaired_rid, &self.view.repaired_rid)
    }

    #[inline(always)]
    fn mid(&self) -> Option<&[u8]> {
        given_text(self.view.has_mid, &self.view.mid)
    }

    #[inline(always)]
    fn frame_marking(&self) -> Option<u32> {
        given(self.view.has_frame_marking, self.view.frame_marking)
    }

    #[inline(always)]
    fn layers_len(&self) -> Option<usize> {
        let _view = self.view;
        None
    }

    #[inline(always)]
    fn write_layers(&self, _buf: &mut [u8]) -> Option<usize> {
        let _view = self.view;
        None
    }
}

// Whether the text is there, and has no characters.
#[inline(always)]
fn is_empty_text<const N: usize>(has: u8, bytes: &[u8; N]) -> bool
    requires text { 0 < has → IsTextIn bytes.now (text_in bytes.now) }
    requires room { 1 ≤ N }
    ensures empty { result
        ≡ has_no_data (option_map before_padding (given has (padded (N - 1) (text_in bytes.now)))) }
    ensures few { IfSome (given has (padded (N - 1) (text_in bytes.now))) (λ id.
        length (before_padding id) < N) }
{
    if has == 0 {
        return false;
    }
    bytes[0] == 0
}

impl<'a> ElementValues for GivenValues<'a> {
    ghost values = { λ given. given };

    #[inline(always)]
    fn has_empty_text(&self) -> bool {
        let mid = is_empty_text(self.view.has_mid, &self.view.mid);
        let rid = is_empty_text(self.view.has_rid, &self.view.rid);
        let repaired = is_empty_text(self.view.has_repaired_rid, &self.view.repaired_rid);
        mid || rid || repaired
    }

    #[inline(always)]
    fn layers_at_most(&self) -> usize {
        let _view = self.view;
        0
    }

    #[inline(always)]
    fn has_empty_data(&self, kind: KnownKind) -> bool {
        match kind {
            KnownKind::RtpStreamId => is_empty_text(self.view.has_rid, &self.view.rid),
            KnownKind::RepairedRtpStreamId => {
                is_empty_text(self.view.has_repaired_rid, &self.view.repaired_rid)
            }
            KnownKind::RtpMid => is_empty_text(self.view.has_mid, &self.view.mid),
            _ => false,
        }
    }

    #[inline(always)]
    fn data_len(&self, kind: KnownKind) -> Option<usize> {
        kind.data_len(self)
    }

    #[inline(always)]
    fn write_data(&self, kind: KnownKind, buf: &mut [u8]) -> Option<usize> {
        if self.is_absent_id(kind) {
            return None;
        }
        kind.write_to(buf, self)
    }
}

// Whether the flag is set.
#[inline(always)]
fn is_set(has: u8) -> bool
    ensures { result ≡ is_nonzero has }
{
    has != 0
}

impl<'a> ValueKinds for GivenValues<'a> {
    #[tactic(auto, using(crate::proofs::LeftOutLemmas::kinds_given, crate::proofs::LeftOutLemmas::flag_some, crate::proofs::LeftOutLemmas::either_some))]
    fn kinds(&self) -> KindSet {
        let view = self.view;
        KindSet::from_flags([
            is_set(view.has_send_time),
            is_set(view.has_capture_time),
            is_set(view.has_audio_level) | is_set(view.has_voice_activity),
            is_set(view.has_transmission_offset),
            is_set(view.has_video_orientation),
            is_set(view.has_transport_number),
            is_set(view.has_playout_delay_min) | is_set(view.has_playout_delay_max),
            is_set(view.has_video_content_type),
            is_set(view.has_video_timing),
            is_set(view.has_rid),
            is_set(view.has_repaired_rid),
            is_set(view.has_mid),
            is_set(view.has_frame_marking),
            false,
            false,
        ])
    }
}
