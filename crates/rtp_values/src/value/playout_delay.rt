//! Playout delay: the least and the greatest, each in twelve bits of hundredths of a second.

ghost use Rattle.std.specs.Prelude.{◌≡◌};
ghost use Rattle.rtp_values.specs.Spelling.{HasRoom, delay_of};
ghost use Rattle.rtp_values.specs.declared.kind.Extension.TheVariants.{PlayoutDelay};
ghost use Rattle.rtp_values.specs.KindBytes.{SetsFields, WritesData};

use super::front::{first_u24, put_u24};
use super::{GetValues, SetValues};
use rtp_base::MediaTime;

// The whole hundredths of a second in a time, modulo 4096: those of its whole seconds, and those of
// what is left.
fn delay_of(time: MediaTime) -> u32
    ensures { result ≡ delay_of time }
{
    let hertz = u64::from(time.denom());
    let seconds = time.numer() / hertz % 4096;
    let left = time.numer() % hertz * 100 / hertz;
    ((seconds * 100 + left) % 4096) as u32
}

pub(super) fn read<V: SetValues>(buf: &[u8], ev: &mut V) -> Option<()>
    ensures { SetsFields V.shows PlayoutDelay buf.now ev.old ev.new result }
{
    let delays = first_u24(buf)?;
    ev.set_playout_delay(
        MediaTime::from_hundredths(u64::from(delays >> 12)),
        MediaTime::from_hundredths(u64::from(delays & 0xFFF)),
    );
    Some(())
}

// It stays out of line, since few packets have it and the other kinds need the registers.
#[inline(never)]
pub(super) fn write<V: GetValues>(buf: &mut [u8], ev: &V) -> Option<usize>
    requires room { HasRoom PlayoutDelay (V.values ev.now) buf.old }
    ensures { WritesData PlayoutDelay (V.values ev.now) buf.old buf.new result }
{
    let min = ev.playout_delay_min()?;
    let max = ev.playout_delay_max()?;
    Some(put_u24(buf, delay_of(min) * 4096 + delay_of(max)))
}
