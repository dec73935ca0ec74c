//! Video timing, in the form with flags and in the older one without.

ghost use Rattle.std.specs.Prelude.{◌≡◌, ◌⊎◌, ◌≤◌, length};
ghost use Rattle.std.specs.Option.{SomeIff};
ghost use Rattle.rtp_base.specs.Overwriting.{overwritten};
ghost use Rattle.rtp_values.specs.StandardTiming.{timing_in, timing_after, timing_data, times_data};

use crate::value::{u16_at, u16_bytes};
use rtp_base::put;

/// When a frame passed each step on its way, in milliseconds after its capture, as WebRTC's
/// `video-timing` has it.
#[derive(Clone, Copy, Debug, PartialEq, Eq)]
pub struct Timing {
    /// Why the times were sent: bit 0 for a timer, bit 1 for a large frame. `None` in the older form,
    /// which has no flags.
    pub flags: Option<u8>,
    /// When its encoding began.
    pub encode_start: u16,
    /// When its encoding ended.
    pub encode_finish: u16,
    /// When its last packet was made.
    pub packetize_complete: u16,
    /// When its last packet left the pacer.
    pub last_left_pacer: u16,
    /// A time that a server on the way fills in; what it means is the application's.
    pub network: u16,
    /// Another such time.
    pub network2: u16,
}

// The times in twelve bytes, with these flags.
fn timing_after(flags: Option<u8>, times: &[u8]) -> Timing
    requires { length times.now ≡ 12 }
    ensures { result ≡ timing_after flags times.now }
{
    Timing {
        flags,
        encode_start: u16_at(times, 0),
        encode_finish: u16_at(times, 2),
        packetize_complete: u16_at(times, 4),
        last_left_pacer: u16_at(times, 6),
        network: u16_at(times, 8),
        network2: u16_at(times, 10),
    }
}

impl Timing {
    /// Reads a video timing. `Some` exactly when there are 13 bytes, of which the first has the flags,
    /// or 12, the form without them.
    ///
    /// ```
    /// let old = Timing::parse(b"\x00\x01\x00\x02\x00\x03\x00\x04\x00\x05\x00\x06")?;
    /// assert_eq!(old.flags, None);
    /// assert_eq!(old.encode_start, 1);
    /// ```
    pub fn parse(bytes: &[u8]) -> Option<Self>
        ensures { SomeIff result ((length bytes.now ≡ 12) ⊎ (length bytes.now ≡ 13)) (timing_in bytes.now) }
    {
        match bytes.len() {
            12 => Some(timing_after(None, bytes)),
            13 => Some(timing_after(Some(bytes[0]), &bytes[1..])),
            _ => None,
        }
    }

    // The twelve bytes of the times.
    fn times(&self) -> [u8; 12]
        ensures bytes { result ≡ times_data self.now }
        ensures back { timing_after self.now.flags (times_data self.now) ≡ self.now }
    {
        let [a, b] = u16_bytes(self.encode_start);
        let [c, d] = u16_bytes(self.encode_finish);
        let [e, f] = u16_bytes(self.packetize_complete);
        let [g, h] = u16_bytes(self.last_left_pacer);
        let [i, j] = u16_bytes(self.network);
        let [k, l] = u16_bytes(self.network2);
        [a, b, c, d, e, f, g, h, i, j, k, l]
    }

    /// Writes the timing to the front of the buffer and returns how many bytes it has: 13, or 12
    /// without flags. The bytes after the data stay as they were. It requires room for 13 bytes.
    pub fn write_to(&self, buf: &mut [u8]) -> usize
        requires room { 13 ≤ length buf.old }
        ensures length { result ≡ length (timing_data self.now) }
        ensures written { buf.new ≡ overwritten buf.old 0 (timing_data self.now) }
        ensures back { timing_in (timing_data self.now) ≡ self.now }
    {
        let times = self.times();
        match self.flags {
            Some(flags) => {
                let at = put(buf, 0, &[flags]);
                put(buf, at, &times)
            }
            None => put(buf, 0, &times),
        }
    }
}
