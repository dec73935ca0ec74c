//! Video layers allocations.

ghost use Rattle.std.specs.Prelude.{◌≡◌, ◌<◌, ◌≤◌, ◌⊎◌, ◌++◌, length, drop, IfSome, IfNone, IfOk};
ghost use Rattle.rtp_wire.specs.AllocationWritten.{Writable, trimmed, written_of};

use rtp_wire::vla::{self, VideoLayersAllocation};
use std::alloc::{AllocError, Global};

/// An allocation is written where it can be, and where the buffer has room for it.
pub fn written_in(buf: &mut [u8], allocation: &VideoLayersAllocation) -> Option<usize>
    ensures written { IfSome result (λ len.
        buf.new ≡ written_of allocation.now ++ drop len buf.old) }
    ensures unchanged { IfNone result (buf.new ≡ buf.old) }
    ensures refused { IfNone result ((Writable allocation.now → ⊥)
        ⊎ (length buf.old < length (written_of allocation.now))) }
    ensures writable { IfSome result (λ _. Writable allocation.now) }
    ensures room { IfSome result (λ len. len ≤ length buf.old) }
    ensures length { IfSome result (λ len. len ≡ length (written_of allocation.now)) }
{
    let len = vla::checked_wire_len(allocation)?;
    if len > buf.len() {
        return None;
    }
    Some(vla::write_to(allocation, buf))
}

/// What is written of an allocation is read back without the layers at the end of its streams that
/// have neither temporal layers nor a resolution.
pub fn written_and_read(
    alloc: Global,
    allocation: &VideoLayersAllocation,
    buf: &mut [u8],
) -> Result<Option<VideoLayersAllocation>, AllocError>
    requires writable { Writable allocation.now }
    requires room { length (written_of allocation.now) ≡ length buf.old }
    ensures { IfOk result (λ read. read ≡ Some (trimmed allocation.now)) }
{
    vla::write_to(allocation, buf);
    vla::parse(alloc, buf)
}
