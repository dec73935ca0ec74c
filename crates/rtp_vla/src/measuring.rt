//! Which allocations can be written, and in how many bytes.

ghost use Rattle.std.specs.Prelude.{◌≡◌, ◌↔◌, ◌+◌, ◌*◌, ◌/◌, ◌<◌, ◌≤◌, ◌==◌, ◌&&◌, ◌∷◌, ◌++◌, true, false, Some, None, List, length, map, IsTrue, IfSome, IfNone};
ghost use Rattle.std.specs.Bool.{OnTrue};
ghost use Rattle.std.specs.List.{filter, flat_map, list_all};
ghost use Rattle.rtp_vla.specs.Allocation.{Layer, is_active, active_layers, mask_of};
ghost use Rattle.rtp_vla.specs.AllocationWritten as written;
ghost use Rattle.rtp_vla.specs.Leb.{shortest_of};
ghost use Rattle.rtp_vla.specs.Measuring.{AreMeasured, IsMeasureOf};

use super::allocation::{ResolutionAndFramerate, TemporalLayerAllocation};
use super::leb::checked_leb_len;
use super::lent::{Layered, Lendable, LentLayer, LentLayers};
use super::lent_allocation::LentAllocation;

// How many bytes the rates of a layer have that can be written.
fn rates_len(rates: &[TemporalLayerAllocation]) -> Option<usize>
    ensures fits { IfSome result (λ len. (written.rates_fit rates.now ≡ true)
        × (len ≡ length (flat_map shortest_of rates.now))) }
    ensures unfit { IfNone result (written.rates_fit rates.now ≡ false) }
    ensures few { IfSome result (λ len. len ≤ 36) }
{
    if rates.len() > 4 {
        return None;
    }
    let mut len = 0;
    for rate in rates {
        let Some(rate_len) = checked_leb_len(rate.cumulative_kbps) else {
            return None;
        };
        len += rate_len;
    }
    Some(len)
}

// How many bytes the resolution of a layer has that can be written before others with resolutions.
fn resolution_len(resolution: Option<ResolutionAndFramerate>) -> Option<usize>
    ensures fits { IfSome result (λ len. (written.resolution_fits false resolution ≡ true)
        × (len ≡ length (written.resolution_field resolution))) }
    ensures unfit { IfNone result (written.resolution_fits false resolution ≡ false) }
    ensures few { IfSome result (λ len. len ≤ 5) }
{
    let Some(resolution) = resolution else {
        return Some(0);
    };
    if resolution.width == 0 {
        return None;
    }
    if resolution.height == 0 {
        return None;
    }
    Some(5)
}

/// What is measured of active layers, from the last one on.
#[derive(Drop)]
struct Measure {
    // How many they are, and how many bytes their rates and resolutions have.
    active: usize,
    len: usize,
    // Whether one of them has a resolution.
    is_sized: bool,
}

impl Measure {
    // Measures the layer before them, and returns `None` where it can't be written there: without a
    // resolution none can follow.
    #[inline(always)]
    fn add(&mut self, layer: &LentLayer) -> Option<()>
        requires active { self.old.active ≤ 15 }
        requires few { self.old.len ≤ 41 * self.old.active }
        ensures fits { (layers : List Layer) →
            AreMeasured layers self.old.active self.old.len self.old.is_sized → IfSome result (λ _.
            AreMeasured (layer.now ∷ layers) self.new.active self.new.len self.new.is_sized) }
        ensures unfit { (layers : List Layer) →
            AreMeasured layers self.old.active self.old.len self.old.is_sized → IfNone result (
            written.layers_fit (layer.now ∷ layers) ≡ false) }
        ensures active { IfSome result (λ _. self.new.active ≡ self.old.active + 1) }
        ensures few { IfSome result (λ _. self.new.len ≤ 41 * self.new.active) }
    {
        let rates = rates_len(layer.temporal_layers)?;
        if layer.resolution_and_framerate.is_none() {
            if self.is_sized {
                return None;
            }
            self.active += 1;
            self.len += rates;
            return Some(());
        }
        let resolution = resolution_len(layer.resolution_and_framerate)?;
        self.active += 1;
        self.len += rates + resolution;
        self.is_sized = true;
        Some(())
    }
}

// Measures a stream before others, and returns its mask; `None` where it can't be written there.
#[inline(always)]
fn add_stream<L: Lendable>(mut layers: LentLayers<L>, measure: &mut Measure) -> Option<u8>
    requires active { measure.old.active ≤ 12 }
    requires few { measure.old.len ≤ 41 * measure.old.active }
    ensures fits { (after : List Layer) →
        AreMeasured after measure.old.active measure.old.len measure.old.is_sized →
        IfSome result (λ mask. (written.stream_fits layers.entry ≡ true)
        × (mask ≡ mask_of layers.entry)
        × AreMeasured (filter is_active layers.entry ++ after)
        measure.new.active measure.new.len measure.new.is_sized) }
    ensures unfit { (after : List Layer) →
        AreMeasured after measure.old.active measure.old.len measure.old.is_sized →
        IfNone result ((written.stream_fits layers.entry
        && written.layers_fit (filter is_active layers.entry ++ after)) ≡ false) }
    ensures few { IfSome result (λ mask. (mask ≤ 15)
        × (measure.new.len ≤ 41 * measure.new.active)) }
{
    let mut mask = 0;
    while let Some(layer) = layers.next_back() {
        if mask > 7 {
            return None;
        }
        if layer.temporal_layers.is_empty() {
            if layer.resolution_and_framerate.is_some() {
                return None;
            }
            mask *= 2;
        } else {
            measure.add(&layer)?;
            mask = 2 * mask + 1;
        }
    }
    Some(mask)
}

// Measures streams, from the last one on, and puts their masks; `None` where they can't be written.
fn measure_streams<S: Layered>(streams: &[S], masks: &mut [u8]) -> Option<Measure>
    requires len { length streams.now ≡ length masks.old }
    requires few { length streams.now ≤ 4 }
    ensures fits { IfSome result (λ measure.
        (list_all written.stream_fits (map S.stream streams.now) ≡ true)
        × AreMeasured (active_layers (map S.stream streams.now))
        measure.active measure.len measure.is_sized) }
    ensures masks { IfSome result (λ _. masks.new ≡ map mask_of (map S.stream streams.now)) }
    ensures unfit { IfNone result ((list_all written.stream_fits (map S.stream streams.now)
        && written.layers_fit (active_layers (map S.stream streams.now))) ≡ false) }
    ensures few { IfSome result (λ measure. (measure.active ≤ 16) × (measure.len ≤ 656)) }
{
    let mut measure = Measure {
        active: 0,
        len: 0,
        is_sized: false,
    };
    let mut i = streams.len();
    while i > 0 {
        i -= 1;
        masks[i] = add_stream(streams[i].layers(), &mut measure)?;
    }
    Some(measure)
}

// Whether all masks are this one.
fn all_are(masks: &[u8], mask: u8) -> bool
    ensures { result ≡ list_all (λ other. other == mask) masks.now }
{
    masks.iter().all(|other| *other == mask)
}

// The mask that all streams have, or 0.
fn shared_of(masks: &[u8]) -> u8
    ensures { result ≡ written.shared_of masks.now }
{
    let Some((first, others)) = masks.split_first() else {
        return 0;
    };
    if all_are(others, *first) { *first } else { 0 }
}

// How many bytes the masks have after the head, which has the one that all streams have.
fn masks_len(masks: &[u8], shared: u8) -> usize
    requires few { length masks.now ≤ 4 }
    requires shared { shared ≡ written.shared_of masks.now }
    ensures len { result ≡ length (written.mask_bytes masks.now) }
    ensures few { result ≤ 2 }
{
    if shared == 0 {
        (masks.len() + 1) / 2
    } else {
        0
    }
}

/// What is measured of an allocation that can be written.
#[derive(Drop)]
pub(super) struct Measured {
    // The masks of its streams, and the one that all of them have, or 0.
    pub(super) masks: [u8; 4],
    pub(super) shared: u8,
    // How many layers are active, and how many bytes the allocation has.
    pub(super) active: u8,
    pub(super) len: u16,
}

// The allocation, measured, where it can be written: the test and the measure in one. It is inlined,
// so that nothing sent costs little besides the call.
#[inline(always)]
#[tactic(auto, unfolding(crate::specs::AllocationWritten::written_of))]
pub(super) fn measure_of<S: Layered>(v: &LentAllocation<S>) -> Option<Measured>
    ensures fits { IfSome result (λ found. (written.can_be_written v.now ≡ true)
        × IsMeasureOf v.now found.masks found.shared found.active found.len) }
    ensures unfit { IfNone result (written.can_be_written v.now ≡ false) }
{
    let mut masks = [0; 4];
    let streams = v.streams.len();
    if streams == 0 {
        if v.index > 0 {
            return None;
        }
        return Some(Measured {
            masks,
            shared: 0,
            active: 0,
            len: 1,
        });
    }
    if v.index > 3 {
        return None;
    }
    if streams > 4 {
        return None;
    }
    let layers = measure_streams(v.streams, &mut masks[..streams])?;
    let shared = shared_of(&masks[..streams]);
    let len = 1 + masks_len(&masks[..streams], shared) + (layers.active + 3) / 4 + layers.len;
    Some(Measured {
        masks,
        shared,
        active: layers.active as u8,
        len: len as u16,
    })
}

// How many bytes the allocation has, where it can be written.
pub(super) fn writable_len<S: Layered>(v: &LentAllocation<S>) -> Option<usize>
    ensures fits { IfSome result (λ len. (written.can_be_written v.now ≡ true)
        × (len ≡ length (written.written_of v.now))) }
    ensures unfit { IfNone result (written.can_be_written v.now ≡ false) }
{
    Some(usize::from(measure_of(v)?.len))
}
