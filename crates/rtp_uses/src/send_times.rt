//! A send time on its way from a sender to a receiver.

ghost use Rattle.std.specs.Prelude.{◌≡◌, ◌+◌, ◌<◌, ◌≤◌, Some, IfOk, IsSomeAnd, ℕ};

use rtp_wire::{Extension, ExtensionValues};
use std::alloc::{AllocError, Global};

/// The values that a receiver has of a send time alone: the time is written as the data of an
/// element and read from them, and its moment is found when the packet arrives at `now`.
///
/// It is the time again, or up to 4 microseconds less, where the packet was sent less than
/// 63,999,996 microseconds before. A time of 1,000,000,000 with a `now` of 1,000,050,000 is found
/// as 1,000,000,000.
pub fn received_send_time(
    alloc: Global,
    sent: &ExtensionValues,
    now: u64,
) -> Result<ExtensionValues, AllocError>
    ensures { (time : ℕ) → sent.now.abs_send_time ≡ Some time → time ≤ now →
        now < time + 63999996 → IfOk result (λ received. IsSomeAnd received.abs_send_time (λ moment.
        (moment ≤ time) × (time ≤ moment + 4))) }
{
    let mut data = [0; 255];
    let mut received = ExtensionValues::default();
    let Some(len) = Extension::AbsoluteSendTime.write_to(&mut data, sent) else {
        return Ok(received);
    };
    Extension::AbsoluteSendTime.parse_value(alloc, &data[..len], &mut received)?;
    received.update_absolute_send_time(now);
    Ok(received)
}
