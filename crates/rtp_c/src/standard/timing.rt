//! Video timing, in the form with flags and in the older one without.

ghost use Rattle.std.specs.Prelude.{◌≡◌, ◌⊎◌, length};
ghost use Rattle.rtp_values.specs.StandardTiming.{timing_in, timing_data};
ghost use Rattle.rtp_c.specs.StandardData.{TellsValue, PutsBytes};
ghost use Rattle.rtp_c.specs.StandardTiming.{IsViewOfTiming, given_timing};

use super::putting::{put_data, tell};
use crate::given::given;
use crate::values::told;
use rtp_values::standard::Timing;

/// When a frame passed each step on its way, in milliseconds after its capture: `rtpw_timing` in C,
/// 14 bytes.
#[repr(C)]
#[derive(Clone, Copy)]
pub struct TimingView {
    /// When its encoding began.
    pub encode_start: u16,
    /// When its encoding ended.
    pub encode_finish: u16,
    /// When its last packet was made.
    pub packetize_complete: u16,
    /// When its last packet left the pacer.
    pub last_left_pacer: u16,
    /// A time that a server on the way fills in.
    pub network: u16,
    /// Another such time.
    pub network2: u16,
    /// Why the times were sent: bit 0 for a timer, bit 1 for a large frame.
    pub flags: u8,
    /// Whether there are flags: 0 in the older form, and else 1.
    pub has_flags: u8,
}

// What C is told of a timing.
fn view_of(timing: &Timing) -> TimingView
    ensures { IsViewOfTiming timing.now result }
{
    let (has_flags, flags) = told(timing.flags);
    TimingView {
        encode_start: timing.encode_start,
        encode_finish: timing.encode_finish,
        packetize_complete: timing.packetize_complete,
        last_left_pacer: timing.last_left_pacer,
        network: timing.network,
        network2: timing.network2,
        flags,
        has_flags,
    }
}

// The timing that is given.
fn timing_of(view: &TimingView) -> Timing
    ensures { result ≡ given_timing view.now }
{
    Timing {
        flags: given(view.has_flags, view.flags),
        encode_start: view.encode_start,
        encode_finish: view.encode_finish,
        packetize_complete: view.packetize_complete,
        last_left_pacer: view.last_left_pacer,
        network: view.network,
        network2: view.network2,
    }
}

/// Reads a video timing (WebRTC's `video-timing`). `OK`, or `BAD_FIELD` where there are neither 13
/// bytes nor 12, and then nothing is written.
#[unsafe(no_mangle)]
pub extern "C" fn rtpw_read_timing(bytes: &[u8], timing: &mut TimingView) -> i32
    ensures { TellsValue (IsViewOfTiming (timing_in bytes.now))
        ((length bytes.now ≡ 12) ⊎ (length bytes.now ≡ 13)) timing.old timing.new result }
{
    tell(Timing::parse(bytes).map(|read| view_of(&read)), timing)
}

/// Writes a video timing to the front of the buffer (WebRTC's `video-timing`). `OK`, and how many
/// bytes it has is written too: 13, or 12 without flags. `SHORT_BUFFER` where there is no room for
/// them, and then nothing is written.
#[unsafe(no_mangle)]
pub extern "C" fn rtpw_write_timing(timing: &TimingView, buf: &mut [u8], len: &mut usize) -> i32
    ensures { PutsBytes (timing_data (given_timing timing.now)) buf.old buf.new len.old len.new result }
{
    let mut bytes = [0; 13];
    let data_len = timing_of(timing).write_to(&mut bytes);
    put_data(&bytes[..data_len], buf, len)
}
