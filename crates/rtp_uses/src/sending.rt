//! A sender's packets, as they are received.

ghost use Rattle.std.specs.Prelude.{◌≡◌, ◌≤◌, ℕ, length, IfOk, OnOk};
ghost use Rattle.rtp_base.specs.Window.{Numbers, including};
ghost use Rattle.rtp_receive.specs.Receiver.{Holds, IsFresh};
ghost use Rattle.rtp_receive.specs.TrueNumbers.{IsTrueNumber};
ghost use Rattle.rtp_wire.specs.Written.{wire_bytes};
ghost use Rattle.rtp_receive.specs.declared.receiver.Verdict.TheVariants.{Taken};

use crate::headers::written_and_read;
use rtp_wire::{ExtensionMap, Receiver, RtpHeader, Verdict};
use std::alloc::{AllocError, Global};

/// The verdict on a packet that arrives as it was written. It is taken with the number that its
/// sender gave it, where that is in reach and new, and then recorded.
pub fn sent_and_received(
    alloc: Global,
    header: &RtpHeader,
    buf: &mut [u8],
    exts: &ExtensionMap,
    receiver: &mut Receiver,
) -> Result<Verdict, AllocError>
    requires payload_type { header.now.payload_type ≤ 127 }
    requires sources { header.now.csrc_count ≤ 15 }
    requires room { length (wire_bytes exts.now header.now) ≤ length buf.old }
    ensures taken { (count : ℕ) → (numbers : Numbers) → (number : ℕ) →
        Holds receiver.old count numbers →
        IsTrueNumber count numbers header.now.sequence_number number → IsFresh numbers number →
        IfOk result (λ verdict. verdict ≡ Taken number) }
    ensures recorded { (count : ℕ) → (numbers : Numbers) → (number : ℕ) →
        Holds receiver.old count numbers →
        IsTrueNumber count numbers header.now.sequence_number number →
        OnOk result (Holds receiver.new count (including numbers number)) }
{
    match written_and_read(alloc, header, buf, exts)? {
        None => Ok(Verdict::Unreadable),
        Some(received) => Ok(receiver.receive(received.sequence_number)),
    }
}
