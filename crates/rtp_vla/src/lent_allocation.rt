//! An allocation that is lent, measured and written where its streams lie.

ghost use Rattle.std.specs.Prelude.{◌≡◌, ◌++◌, ◌≤◌, drop, length, map, IfSome, IfNone};
ghost use Rattle.rtp_vla.specs.AllocationWritten as written;

use super::allocation::{SimulcastStreamAllocation, VideoLayersAllocation};
use super::lent::Layered;
use super::measuring::{Measured, measure_of, writable_len};
use super::video_layers::{VideoLayers, VideoStream};
use super::writing::put_allocation;
use std::marker::Model;

/// An allocation whose streams lie elsewhere: in lists, in a value of fixed size, or in types of
/// the caller's own ([`Layered`]), from which it is measured and written without a copy. A clause
/// sees the allocation.
#[derive(Drop)]
pub struct LentAllocation<'a, S: Layered> {
    pub(super) index: usize,
    pub(super) streams: &'a [S],
}

impl<'a, S: Layered> Model for LentAllocation<'a, S> {
    ghost use Rattle.std.specs.Prelude.{map};
    ghost use Rattle.rtp_vla.specs.Allocation.{Allocation};

    ghost Value = { Allocation };

    ghost view = { λ allocation. record {
      current_simulcast_stream_index = allocation.index;
      simulcast_streams = map S.stream allocation.streams.now;
    } };
}

impl<'a> LentAllocation<'a, SimulcastStreamAllocation> {
    /// One in lists.
    #[inline(always)]
    pub fn listed(v: &'a VideoLayersAllocation) -> Self
        ensures { result ≡ v.now }
    {
        LentAllocation {
            index: usize::from(v.current_simulcast_stream_index),
            streams: &v.simulcast_streams,
        }
    }
}

impl<'a> LentAllocation<'a, VideoStream> {
    /// One in a value of fixed size.
    #[inline(always)]
    pub fn held(v: &'a VideoLayers) -> Self
        ensures { result ≡ v.now }
    {
        LentAllocation {
            index: usize::from(v.current_simulcast_stream_index()),
            streams: v.simulcast_streams(),
        }
    }
}

impl<'a, S: Layered> LentAllocation<'a, S> {
    /// The allocation of these streams, of which the packet is of the one at this index, from 0.
    #[inline(always)]
    pub fn new(index: u8, streams: &'a [S]) -> Self
        ensures { result ≡ record {
          current_simulcast_stream_index = index;
          simulcast_streams = map S.stream streams.now;
        } }
    {
        LentAllocation {
            index: usize::from(index),
            streams,
        }
    }

    /// How many bytes [`write_to`](Self::write_to) writes, and `None` exactly when the allocation
    /// isn't writable, for the causes of [`is_writable`](super::writing::is_writable).
    pub fn checked_wire_len(&self) -> Option<usize>
        ensures found { IfSome result (λ len.
            written.Writable self.now × (len ≡ length (written.written_of self.now))) }
        ensures none { IfNone result (written.Writable self.now → ⊥) }
    {
        writable_len(self)
    }

    /// Writes the allocation to the front of the buffer, as [`write_to`](super::writing::write_to)
    /// does, and returns how many bytes it has; the bytes after them stay. It requires an
    /// allocation that is writable, and room for [`checked_wire_len`](Self::checked_wire_len) bytes.
    pub fn write_to(&self, buf: &mut [u8]) -> usize
        requires writable { written.Writable self.now }
        requires room { length (written.written_of self.now) ≤ length buf.old }
        ensures written { buf.new ≡ written.written_of self.now ++ drop result buf.old }
        ensures length { result ≡ length (written.written_of self.now) }
    {
        let lent = LentAllocation {
            index: self.index,
            streams: self.streams,
        };
        match lent.measure() {
            Some(measured) => measured.write_to(buf),
            None => 0,
        }
    }

    /// This allocation, measured; `None` exactly when it isn't writable.
    #[inline(always)]
    pub fn measure(self) -> Option<MeasuredAllocation<'a, S>>
        ensures found { IfSome result (λ measured.
            written.Writable self.entry × (measured ≡ self.entry)) }
        ensures none { IfNone result (written.Writable self.entry → ⊥) }
    {
        let measured = measure_of(&self)?;
        Some(MeasuredAllocation {
            allocation: self,
            measured,
        })
    }
}

/// An allocation that can be written, and is measured already, so that it is written without being measured
/// again. A clause sees the allocation.
#[derive(Drop)]
pub struct MeasuredAllocation<'a, S: Layered> {
    allocation: LentAllocation<'a, S>,
    measured: Measured,
}

impl<'a, S: Layered> Model for MeasuredAllocation<'a, S> {
    ghost use Rattle.std.specs.Prelude.{◌≡◌, true};
    ghost use Rattle.rtp_vla.specs.Allocation.{Allocation};
    ghost use Rattle.rtp_vla.specs.AllocationWritten.{can_be_written};
    ghost use Rattle.rtp_vla.specs.Measuring.{IsMeasureOf};

    ghost Value = { Allocation };

    ghost view = { λ measured. measured.allocation };

    ghost invariant = { λ measured. (can_be_written measured.allocation ≡ true)
        × IsMeasureOf measured.allocation measured.measured.masks measured.measured.shared
        measured.measured.active measured.measured.len };
}

impl<'a, S: Layered> MeasuredAllocation<'a, S> {
    /// How many bytes [`write_to`](Self::write_to) writes.
    #[inline(always)]
    pub fn wire_len(&self) -> usize
        ensures writable { written.Writable self.now }
        ensures length { result ≡ length (written.written_of self.now) }
    {
        usize::from(self.measured.len)
    }

    /// Writes the allocation to the front of the buffer, as [`LentAllocation::write_to`] does, and returns
    /// how many bytes it has; the bytes after them stay. It requires room for
    /// [`wire_len`](Self::wire_len) bytes.
    pub fn write_to(&self, buf: &mut [u8]) -> usize
        requires { length (written.written_of self.now) ≤ length buf.old }
        ensures written { buf.new ≡ written.written_of self.now ++ drop result buf.old }
        ensures length { result ≡ length (written.written_of self.now) }
    {
        put_allocation(&self.allocation, &self.measured, buf)
    }
}
