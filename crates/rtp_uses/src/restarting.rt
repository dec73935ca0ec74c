//! Packets of a source whose sender may start again.

ghost use Rattle.std.specs.Prelude.{◌≡◌, length, IfOk};
ghost use Rattle.rtp_receive.specs.Restarting.{IsRestartingRun};
ghost use Rattle.rtp_receive.specs.EpochRun.{IsRunInEpoch, AreRising};
ghost use Rattle.rtp_uses.specs.Arriving.{usual_bounds, arrivals_of};

use rtp_wire::{RestartingReceiver, RestartingVerdict};
use std::alloc::{AllocError, Global};

/// The verdict on each packet of one source, by its sequence number, in the order in which they
/// came (RFC 3550, appendix A.1). Those of the last epoch are judged as by a
/// [`WideReceiver`](rtp_wire::WideReceiver) that its first packet is the first one of, and their
/// numbers are above those of the epochs before it.
pub fn receive_each_epoch(
    alloc: Global,
    sequence_numbers: &[u16],
) -> Result<Vec<RestartingVerdict>, AllocError>
    ensures as_many { IfOk result (λ found.
        length found.items ≡ length sequence_numbers.now) }
    ensures run { IfOk result (λ found.
        IsRestartingRun usual_bounds (arrivals_of sequence_numbers.now found.items)) }
    ensures in_epoch { IfOk result (λ found.
        IsRunInEpoch usual_bounds (arrivals_of sequence_numbers.now found.items)) }
    ensures rising { IfOk result (λ found.
        AreRising (arrivals_of sequence_numbers.now found.items)) }
{
    let mut verdicts = Vec::with_capacity(alloc, sequence_numbers.len())?;
    let mut receiver = RestartingReceiver::<16>::new();
    for sequence_number in sequence_numbers {
        verdicts.push_reserved(receiver.receive(*sequence_number));
    }
    Ok(verdicts)
}
