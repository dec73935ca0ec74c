//! From an allocation to bytes.

ghost use Rattle.std.specs.Prelude.{◌≡◌, ◌↔◌, true, false, ◌+◌, ◌*◌, ◌/◌, ◌%◌, ◌<◌, ◌≤◌, ◌∷◌, [], ◌++◌, List, length, take, drop, map, is_some, IsTrue, IfSome, IfNone};
ghost use Rattle.std.specs.List.{AllByRecursion, flat_map};
ghost use Rattle.rtp_base.specs.Overwriting.{overwritten};
ghost use Rattle.rtp_vla.specs.Allocation.{Means};
ghost use Rattle.rtp_vla.specs.AllocationWritten as written;
ghost use Rattle.rtp_vla.specs.Measuring.{AreMasksOf, IsMeasureOf};

use super::allocation::VideoLayersAllocation;
use super::lent::Layered;
use super::lent_allocation::LentAllocation;
use super::measuring::{Measured, writable_len};
use super::putting::{put_counts_and_rates, put_resolutions};
use super::video_layers::VideoLayers;
use rtp_base::put;

// Puts the masks, two in a byte.
fn put_halves(buf: &mut [u8], at: usize, masks: &[u8]) -> usize
    requires few { length masks.now ≤ 4 }
    requires fit { AllByRecursion (λ mask. mask ≤ 15) masks.now }
    requires room { at + length (written.halves_of 0 masks.now) ≤ length buf.old }
    ensures written { buf.new ≡ overwritten buf.old at (written.halves_of 0 masks.now) }
    ensures end { result ≡ at + length (written.halves_of 0 masks.now) }
{
    match masks {
        [] => at,
        [a] => put(buf, at, &[16 * *a]),
        [a, b] => put(buf, at, &[16 * *a + *b]),
        [a, b, c] => put(buf, at, &[16 * *a + *b, 16 * *c + 15]),
        [a, b, c, d, ..] => put(buf, at, &[16 * *a + *b, 16 * *c + *d]),
    }
}

// Puts the masks, unless the head has one that all streams share.
fn put_masks(buf: &mut [u8], at: usize, masks: &[u8], shared: u8) -> usize
    requires few { length masks.now ≤ 4 }
    requires shared { shared ≡ written.shared_of masks.now }
    requires fit { AllByRecursion (λ mask. mask ≤ 15) masks.now }
    requires room { at + length (written.mask_bytes masks.now) ≤ length buf.old }
    ensures written { buf.new ≡ overwritten buf.old at (written.mask_bytes masks.now) }
    ensures end { result ≡ at + length (written.mask_bytes masks.now) }
{
    if shared == 0 {
        put_halves(buf, at, masks)
    } else {
        at
    }
}

// Puts streams, of which there are some, and returns how many bytes they have. It stays out of
// line, since few packets have an allocation and the other kinds of values need the registers.
#[inline(never)]
fn put_streams<S: Layered>(
    buf: &mut [u8],
    index: usize,
    streams: &[S],
    measured: &Measured,
) -> usize
    requires some { 1 ≤ length (map S.stream streams.now) }
    requires fit { written.streams_fit index (map S.stream streams.now) ≡ true }
    requires masks { AreMasksOf (map S.stream streams.now)
        measured.now.masks measured.now.shared measured.now.active }
    requires len { measured.now.len
        ≡ length (written.packed_bytes index (map S.stream streams.now)) }
    requires room { length (written.packed_bytes index (map S.stream streams.now))
        ≤ length buf.old }
    ensures written { buf.new ≡ overwritten buf.old 0
        (written.packed_bytes index (map S.stream streams.now)) }
    ensures end { result ≡ length (written.packed_bytes index (map S.stream streams.now)) }
{
    let head = (64 * index + 16 * (streams.len() - 1)) as u8 + measured.shared;
    let end = put(buf, 0, &[head]);
    let end = put_masks(buf, end, &measured.masks[..streams.len()], measured.shared);
    let end = put_counts_and_rates(buf, end, streams, usize::from(measured.active));
    if end == usize::from(measured.len) {
        return end;
    }
    put_resolutions(buf, end, streams)
}

// Puts an allocation of this measure, and returns how many bytes it has.
pub(super) fn put_allocation<S: Layered>(
    v: &LentAllocation<S>,
    measured: &Measured,
    buf: &mut [u8],
) -> usize
    requires writable { written.can_be_written v.now ≡ true }
    requires measured { IsMeasureOf v.now
        measured.now.masks measured.now.shared measured.now.active measured.now.len }
    requires room { length (written.written_of v.now) ≤ length buf.old }
    ensures written { buf.new ≡ written.written_of v.now ++ drop result buf.old }
    ensures length { result ≡ length (written.written_of v.now) }
{
    if v.streams.is_empty() {
        return put(buf, 0, &[0]);
    }
    put_streams(buf, v.index, v.streams, measured)
}

/// Whether the allocation can be written: some bytes mean it, once the layers at the end of each
/// stream are dropped that have neither temporal layers nor a resolution. It can where it has index
/// 0 and no streams, or else an index of at most 3; 1 to 4 streams; at most 4 layers a stream up to
/// the last active one; at most 4 temporal layers a layer, with rates below 2^63; no resolution on
/// a layer without temporal layers or after an active layer without one; and no width or height of
/// 0.
pub fn is_writable(v: &VideoLayersAllocation) -> bool
    ensures writable { IsTrue result ↔ written.Writable v.now }

    // The same by the cases above.
    ensures cases { result ≡ written.can_be_written v.now }
{
    checked_wire_len(v).is_some()
}

/// How many bytes [`write_to`] writes. It requires an allocation that [`is_writable`].
pub fn wire_len(v: &VideoLayersAllocation) -> usize
    requires { written.Writable v.now }
    ensures { result ≡ length (written.written_of v.now) }
{
    checked_wire_len(v).unwrap_or(0)
}

/// How many bytes [`write_to`] writes, and `None` exactly when the allocation isn't writable:
/// [`is_writable`] and [`wire_len`] in one walk over the layers.
pub fn checked_wire_len(v: &VideoLayersAllocation) -> Option<usize>
    ensures found { IfSome result (λ len.
        written.Writable v.now × (len ≡ length (written.written_of v.now))) }
    ensures none { IfNone result (written.Writable v.now → ⊥) }

    // The same by the cases of `is_writable`.
    ensures cases { is_some result ≡ written.can_be_written v.now }
{
    writable_len(&LentAllocation::listed(v))
}

/// Writes the allocation to the front of the buffer, and returns how many bytes it has; the bytes
/// after them stay. Every rate is written, in its shortest spelling; the head has the mask of all
/// streams where they have one, and spare bits are 0, except for the half of a byte after a third
/// mask, which is 15. What is written is read as the allocation without the layers at the end of
/// each stream that have neither temporal layers nor a resolution.
///
/// It requires an allocation that [`is_writable`], and room for [`wire_len`] bytes. Index 0, one
/// stream of one layer of 5 kilobits per second is written as `01 00 05`.
pub fn write_to(v: &VideoLayersAllocation, buf: &mut [u8]) -> usize
    requires writable { written.Writable v.now }
    requires room { length (written.written_of v.now) ≤ length buf.old }
    ensures written { buf.new ≡ written.written_of v.now ++ drop result buf.old }
    ensures length { result ≡ length (written.written_of v.now) }
    ensures means { Means (written.written_of v.now) (written.trimmed v.now) }
{
    LentAllocation::listed(v).write_to(buf)
}

impl VideoLayers {
    /// How many bytes [`write_to`](Self::write_to) writes, and `None` exactly when the allocation
    /// isn't writable, for the causes of [`is_writable`].
    pub fn checked_wire_len(&self) -> Option<usize>
        ensures found { IfSome result (λ len.
            written.Writable self.now × (len ≡ length (written.written_of self.now))) }
        ensures none { IfNone result (written.Writable self.now → ⊥) }

        // The same by the cases of `is_writable`.
        ensures cases { is_some result ≡ written.can_be_written self.now }
    {
        writable_len(&LentAllocation::held(self))
    }

    /// Writes the allocation to the front of the buffer, as [`write_to`] does, and returns how many
    /// bytes it has; the bytes after them stay. It requires an allocation that is writable, and room
    /// for [`checked_wire_len`](Self::checked_wire_len) bytes.
    pub fn write_to(&self, buf: &mut [u8]) -> usize
        requires writable { written.Writable self.now }
        requires room { length (written.written_of self.now) ≤ length buf.old }
        ensures written { buf.new ≡ written.written_of self.now ++ drop result buf.old }
        ensures length { result ≡ length (written.written_of self.now) }
        ensures means { Means (written.written_of self.now) (written.trimmed self.now) }
    {
        LentAllocation::held(self).write_to(buf)
    }
}
