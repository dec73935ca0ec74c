//! Absolute send time: the low six bits of the seconds, and 18 fractional bits.

ghost use Rattle.std.specs.Prelude.{◌≡◌, ℕ, ◌+◌, ◌<◌, ◌≤◌, IfSome, IsSomeAnd};
ghost use Rattle.rtp_values.specs.Spelling.{HasRoom, send_ticks, carried_send_time};
ghost use Rattle.rtp_values.specs.SendTime.{IsPossible, IsLatest, IsRecovered};
ghost use Rattle.rtp_values.specs.declared.kind.Extension.TheVariants.{AbsoluteSendTime};
ghost use Rattle.rtp_values.specs.KindBytes.{SetsFields, WritesData};

use super::front::{first_u24, put_u24};
use super::{ExtensionValues, GetValues, SetValues};

const MICROS_PER_SECOND: u64 = 1_000_000;

const TICKS_PER_SECOND: u64 = 1 << 18;

// The microseconds after which the six bits of the seconds begin again.
const PERIOD: u64 = 64 * MICROS_PER_SECOND;

// The whole ticks of a time in microseconds, modulo 64 seconds.
fn ticks_of(micros: u64) -> u32
    ensures { result ≡ send_ticks micros }
{
    (micros % PERIOD * TICKS_PER_SECOND / MICROS_PER_SECOND) as u32
}

pub(super) fn read<V: SetValues>(buf: &[u8], ev: &mut V) -> Option<()>
    ensures { SetsFields V.shows AbsoluteSendTime buf.now ev.old ev.new result }
{
    let ticks = first_u24(buf)?;
    ev.set_send_time(u64::from(ticks) * MICROS_PER_SECOND / TICKS_PER_SECOND);
    Some(())
}

pub(super) fn write<V: GetValues>(buf: &mut [u8], ev: &V) -> Option<usize>
    requires room { HasRoom AbsoluteSendTime (V.values ev.now) buf.old }
    ensures { WritesData AbsoluteSendTime (V.values ev.now) buf.old buf.new result }
{
    let micros = ev.send_time()?;
    Some(put_u24(buf, ticks_of(micros)))
}

// The latest moment not after `now` that is equal to the value modulo 64 seconds, if there is one.
fn latest_moment(value: u64, now: u64) -> Option<u64>
    ensures found { IfSome result (λ moment. IsLatest now value moment) }
    ensures none { result ≡ None → (moment : ℕ) → IsPossible now value moment → ⊥ }
{
    let age = (now % PERIOD + PERIOD - value % PERIOD) % PERIOD;
    now.checked_sub(age)
}

impl ExtensionValues {
    /// Replaces the absolute send time that was read, which is known modulo 64 seconds only, by the
    /// moment that it means: the latest one not after `now` that is equal to it modulo 64 seconds.
    /// A receiver that estimates delays needs the moment, since the 24 bits of the extension wrap
    /// every 64 seconds. Where `now` is so early that there is no such moment, the value stays as
    /// it is; where there is no value, nothing changes. No other field changes.
    ///
    /// `now` is when the packet arrived, in microseconds of the sender's clock. If the packet was
    /// sent less than 63,999,996 microseconds before, the moment is the one at which it was sent or
    /// up to 4 microseconds earlier, since a tick is 2^-18 seconds. Call it once for a packet: a
    /// later `now` finds a later moment once 64 seconds have passed.
    ///
    /// ```
    /// // Sent at 1,000 seconds, 15 times 64 seconds and 40, and there 50 milliseconds later.
    /// values.abs_send_time = Some(40_000_000);
    /// values.update_absolute_send_time(1_000_050_000);
    /// assert_eq!(values.abs_send_time, Some(1_000_000_000));
    /// ```
    pub fn update_absolute_send_time(&mut self, now: u64)
        ensures absent { self.old.abs_send_time ≡ None → self.new ≡ self.old }

        // A value becomes the moment that it means, and every other value is as it was.
        ensures recovered { IfSome self.old.abs_send_time (λ value. (moment : ℕ)
            × IsRecovered now value moment
            × (self.new ≡ record self.old { abs_send_time = Some moment })) }

        // What is read from the bytes of a time becomes that time, or up to 4 microseconds less.
        ensures near { (time : ℕ) → time ≤ now → now < time + 63999996
            → self.old.abs_send_time ≡ Some (carried_send_time time)
            → IsSomeAnd self.new.abs_send_time (λ moment. (moment ≤ time) × (time ≤ moment + 4)) }
    {
        let Some(value) = self.abs_send_time else {
            return;
        };
        if let Some(moment) = latest_moment(value, now) {
            self.abs_send_time = Some(moment);
        }
    }
}
