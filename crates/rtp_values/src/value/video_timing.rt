//! Video timing.

ghost use Rattle.rtp_values.specs.declared.kind.Extension.TheVariants.{VideoTiming as TimingKind};
ghost use Rattle.rtp_values.specs.KindBytes.{SetsFields, WritesData};
ghost use Rattle.rtp_values.specs.Spelling.{HasRoom};

use super::front::{u16_at, u16_bytes};
use super::{GetValues, SetValues};
use rtp_base::put;

/// When a frame passed each step on its way out, in milliseconds after its capture.
#[derive(Clone, Copy, Debug, PartialEq, Eq)]
pub struct VideoTiming {
    /// Why the times were sent: bit 0 for a timer, bit 1 for a large frame.
    pub flags: u8,
    /// When its encoding began.
    pub encode_start: u16,
    /// When its encoding ended.
    pub encode_finish: u16,
    /// When its last packet was made.
    pub packetize_complete: u16,
    /// When its last packet left the pacer.
    pub last_left_pacer: u16,
}

pub(super) fn read<V: SetValues>(buf: &[u8], ev: &mut V) -> Option<()>
    ensures { SetsFields V.shows TimingKind buf.now ev.old ev.new result }
{
    if buf.len() < 9 {
        return None;
    }
    ev.set_video_timing(VideoTiming {
        flags: buf[0],
        encode_start: u16_at(buf, 1),
        encode_finish: u16_at(buf, 3),
        packetize_complete: u16_at(buf, 5),
        last_left_pacer: u16_at(buf, 7),
    });
    Some(())
}

// It stays out of line, since few packets have it and the other kinds need the registers.
#[inline(never)]
pub(super) fn write<V: GetValues>(buf: &mut [u8], ev: &V) -> Option<usize>
    requires room { HasRoom TimingKind (V.values ev.now) buf.old }
    ensures { WritesData TimingKind (V.values ev.now) buf.old buf.new result }
{
    let timing = ev.video_timing()?;
    let start = u16_bytes(timing.encode_start);
    let finish = u16_bytes(timing.encode_finish);
    let complete = u16_bytes(timing.packetize_complete);
    let left = u16_bytes(timing.last_left_pacer);
    let bytes = [
        timing.flags,
        start[0],
        start[1],
        finish[0],
        finish[1],
        complete[0],
        complete[1],
        left[0],
        left[1],
        0,
        0,
        0,
        0,
    ];
    Some(put(buf, 0, &bytes))
}
