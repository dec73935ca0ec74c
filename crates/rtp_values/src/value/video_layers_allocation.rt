//! Video layers allocation (`video-layers-allocation00`): what the module `vla` reads and writes.

ghost use Rattle.std.specs.Prelude.{◌≡◌, ◌≤◌, length, Some, None, IfSome, IfNone, IfOk, IsErr};
ghost use Rattle.std.specs.Option.{option_map};
ghost use Rattle.rtp_values.specs.declared.kind.Extension.TheVariants as kind;
ghost use Rattle.rtp_vla.specs.Allocation.{Allocation};
ghost use Rattle.rtp_vla.specs.AllocationWritten.{Writable, written_of};
ghost use Rattle.rtp_values.specs.Spelling.{HasRoom, spelled_data, element_allocation};
ghost use Rattle.rtp_values.specs.WithLayers.{values_with_layers};
ghost use Rattle.rtp_values.specs.KindBytes.{SetsFields, WritesData, IsWireLen};

use super::{ExtensionValues, SetValues, WithLayers};
use rtp_vla::vla;
use rtp_vla::vla::{Layered, LentAllocation, MeasuredAllocation};
use std::alloc::AllocError;

// The longest data that an element can have (RFC 8285, 4.3).
pub(super) const MAX_LEN: usize = 255;

// It is inlined, since an allocation of one byte costs less than a call.
#[inline(always)]
pub(super) fn read<V: SetValues>(
    memory: V::Memory,
    buf: &[u8],
    ev: &mut V,
) -> Result<Option<()>, AllocError>
    ensures read { IfOk result (SetsFields V.shows kind.VideoLayersAllocation buf.now ev.old ev.new) }
    ensures unchanged { IsErr result → ev.new ≡ ev.old }
    ensures refused { IsErr result → V.may_be_refused × (2 ≤ length buf.now) }
{
    ev.read_layers(memory, buf)
}

// How many bytes of data an element has that carries an allocation of this length: `None` where the
// allocation can't be written, or where no element can carry it.
fn carried_len(len: Option<usize>) -> Option<usize>
    ensures { (a : Allocation) → IsWireLen a len → result
        ≡ option_map length (option_map written_of (element_allocation (Some a))) }
{
    let len = len?;
    (len <= MAX_LEN).then_some(len)
}

// The allocation, measured, where an element can carry it.
#[inline(always)]
pub(super) fn carried<'a, S: Layered>(
    allocation: LentAllocation<'a, S>,
) -> Option<MeasuredAllocation<'a, S>>
    ensures found { IfSome result (λ measured. (measured ≡ allocation.entry)
        × Writable allocation.entry × (length (written_of allocation.entry) ≤ 255)) }
    ensures none { IfNone result (Writable allocation.entry →
        length (written_of allocation.entry) ≤ 255 → ⊥) }
    ensures no_data { IfNone result (element_allocation (Some allocation.entry) ≡ None) }
{
    let measured = allocation.measure()?;
    if measured.wire_len() > MAX_LEN {
        return None;
    }
    Some(measured)
}

// How many bytes the data have, where an element can carry the allocation.
pub(super) fn data_len(ev: &ExtensionValues) -> Option<usize>
    ensures { result ≡ option_map length (spelled_data kind.VideoLayersAllocation ev.now) }
{
    carried_len(vla::checked_wire_len(ev.video_layers_allocation.as_ref()?))
}

// It stays out of line, since few packets have it and the other kinds need the registers.
#[inline(never)]
pub(super) fn write(buf: &mut [u8], ev: &ExtensionValues) -> Option<usize>
    requires room { HasRoom kind.VideoLayersAllocation ev.now buf.old }
    ensures { WritesData kind.VideoLayersAllocation ev.now buf.old buf.new result }
{
    let allocation = ev.video_layers_allocation.as_ref()?;
    let measured = carried(LentAllocation::listed(allocation))?;
    Some(measured.write_to(buf))
}

// How many bytes the data have, where an element can carry the layers.
pub(super) fn held_len(ev: &WithLayers) -> Option<usize>
    ensures { result ≡ option_map length
        (spelled_data kind.VideoLayersAllocation (values_with_layers ev.now)) }
{
    carried_len(ev.layers?.checked_wire_len())
}

// It stays out of line, since few packets have it and the other kinds need the registers.
#[inline(never)]
pub(super) fn write_held(buf: &mut [u8], ev: &WithLayers) -> Option<usize>
    requires room { HasRoom kind.VideoLayersAllocation (values_with_layers ev.now) buf.old }
    ensures { WritesData kind.VideoLayersAllocation (values_with_layers ev.now)
        buf.old buf.new result }
{
    let layers = ev.layers?;
    let measured = carried(LentAllocation::held(layers))?;
    Some(measured.write_to(buf))
}
