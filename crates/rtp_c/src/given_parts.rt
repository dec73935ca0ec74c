//! Single values that C gives to be written, each where its flag is set.

ghost use Rattle.std.specs.Prelude.{◌≡◌, ◌<◌, length, IfSome, IfNone};
ghost use Rattle.rtp_c.specs.Told.{degrees_of, fraction_of};
ghost use Rattle.rtp_c.specs.ValuesView.{timing_in};
ghost use Rattle.rtp_c.specs.Given.{given, text_in, turn_of, IsTextIn};

use super::given::{given, orientation_of, text_in};
use super::values::{Time, ValuesView};
use rtp_base::{Frequency, MediaTime};
use rtp_values::{AbsCaptureTime, VideoOrientation, VideoTiming};

// The text, where it is there.
#[inline(always)]
pub fn given_text<const N: usize>(has: u8, bytes: &[u8; N]) -> Option<&[u8]>
    requires { 0 < has → IsTextIn bytes.now (text_in bytes.now) }
    ensures some { IfSome result (λ text. (0 < has) × (text.now ≡ text_in bytes.now)
        × (length bytes.now ≡ N)) }
    ensures none { IfNone result (has ≡ 0) }
{
    if has == 0 {
        return None;
    }
    Some(text_in(bytes))
}

// The orientation of these degrees, where it is there.
#[inline(always)]
pub fn given_orientation(has: u8, degrees: u16) -> Option<VideoOrientation>
    requires { 0 < has → degrees_of (turn_of degrees) ≡ degrees }
    ensures { result ≡ given has (turn_of degrees) }
{
    if has == 0 {
        return None;
    }
    orientation_of(degrees)
}

// The time of these ticks, where it is there.
#[inline(always)]
pub fn given_time(has: u8, time: &Time) -> Option<MediaTime>
    requires { 0 < has → 0 < time.now.hertz }
    ensures { result ≡ given has (fraction_of time.now) }
{
    if has == 0 {
        return None;
    }
    let hertz = Frequency::new(time.hertz)?;
    Some(MediaTime::new(time.ticks, hertz))
}

// The capture time, where it is there.
#[inline(always)]
pub fn given_capture_time(view: &ValuesView) -> Option<AbsCaptureTime>
    ensures { result ≡ given view.now.has_capture_time (record {
      capture_time = view.now.capture_time;
      clock_offset = given view.now.has_capture_offset view.now.capture_offset;
    }) }
{
    if view.has_capture_time == 0 {
        return None;
    }
    Some(AbsCaptureTime {
        capture_time: view.capture_time,
        clock_offset: given(view.has_capture_offset, view.capture_offset),
    })
}

// The timing, where it is there.
#[inline(always)]
pub fn given_timing(view: &ValuesView) -> Option<VideoTiming>
    ensures { result ≡ given view.now.has_video_timing (timing_in view.now) }
{
    if view.has_video_timing == 0 {
        return None;
    }
    Some(VideoTiming {
        flags: view.timing_flags,
        encode_start: view.encode_start,
        encode_finish: view.encode_finish,
        packetize_complete: view.packetize_complete,
        last_left_pacer: view.last_left_pacer,
    })
}
