//! The streams that masks make of the active layers, in lists or where a caller wants them.

ghost use Rattle.std.specs.Prelude.{◌≡◌, ◌≤◌, ◌++◌, [], length, drop, IfOk, OnOk};
ghost use Rattle.std.specs.List.{AllByRecursion};
ghost use Rattle.rtp_vla.specs.Allocation.{Allocation};
ghost use Rattle.rtp_vla.specs.AllocationReading as reading;

use super::allocation::{SimulcastStreamAllocation, SpatialLayerAllocation};
use super::layers::LayerReader;
use super::set_layers::SetLayers;
use super::up_to::UpTo;
use super::video_layers::VideoLayer;
use std::alloc::{AllocError, Global};

// The layers of a mask in a list: the next of the active ones wherever the mask marks one.
fn stream_of(
    alloc: Global,
    mask: u8,
    left: &mut LayerReader,
) -> Result<SimulcastStreamAllocation, AllocError>
    requires fits { mask ≤ 15 }
    requires enough { reading.active_in mask ≤ length left.old }
    ensures dealt { IfOk result (λ stream.
        stream ≡ reading.dealt (reading.marks_of mask) left.old) }
    ensures left { OnOk result (left.new ≡ drop (reading.active_in mask) left.old) }
{
    let len = 8 - mask.leading_zeros() as usize;
    let mut spatial_layers = Vec::with_capacity(alloc, len)?;
    let mut marks = mask;
    while marks > 0 {
        let is_active = marks % 2 == 1;
        let mut temporal_layers = Vec::with_capacity(alloc, left.next_len(is_active))?;
        let resolution_and_framerate = left.next(is_active, &mut temporal_layers);
        spatial_layers.push_reserved(SpatialLayerAllocation {
            temporal_layers,
            resolution_and_framerate,
        });
        marks /= 2;
    }
    Ok(SimulcastStreamAllocation { spatial_layers })
}

// The streams of the masks in lists.
pub(super) fn streams_of(
    alloc: Global,
    masks: &[u8],
    mut left: LayerReader,
) -> Result<Vec<SimulcastStreamAllocation>, AllocError>
    requires fit { AllByRecursion (λ mask. mask ≤ 15) masks.now }
    requires enough { reading.active_count masks.now ≤ length left }
    ensures { IfOk result (λ streams. streams.items ≡ reading.dealt_streams masks.now left.entry) }
{
    let mut streams = Vec::with_capacity(alloc, masks.len())?;
    for mask in masks {
        streams.push_reserved(stream_of(alloc, *mask, &mut left)?);
    }
    Ok(streams)
}

// Puts the layers of a mask into the last stream, which has none.
#[inline(always)]
fn put_layers<L: SetLayers>(layers: &mut L, mask: u8, left: &mut LayerReader)
    requires fits { mask ≤ 15 }
    requires enough { reading.active_in mask ≤ length left.old }
    requires room { 4 ≤ L.layer_room layers.old }
    ensures put { (a : Allocation) → L.shows layers.old (reading.and_stream a []) →
        L.shows layers.new
        (reading.and_stream a (reading.dealt (reading.marks_of mask) left.old)) }
    ensures left { left.new ≡ drop (reading.active_in mask) left.old }
    ensures streams { L.stream_room layers.new ≡ L.stream_room layers.old }
{
    let mut marks = mask;
    while marks > 0 {
        let mut rates = UpTo::new();
        let resolution_and_framerate = left.next(marks % 2 == 1, &mut rates);
        layers.put_layer(&VideoLayer::of(rates, resolution_and_framerate));
        marks /= 2;
    }
}

// Puts a stream for each mask after the others.
#[inline(always)]
pub(super) fn put_streams<L: SetLayers>(layers: &mut L, masks: &[u8], mut left: LayerReader)
    requires fit { AllByRecursion (λ mask. mask ≤ 15) masks.now }
    requires enough { reading.active_count masks.now ≤ length left }
    requires room { length masks.now ≤ L.stream_room layers.old }
    ensures { (a : Allocation) → L.shows layers.old a → L.shows layers.new (record a {
      simulcast_streams = a.simulcast_streams ++ reading.dealt_streams masks.now left.entry;
    }) }
{
    for mask in masks {
        layers.put_stream();
        put_layers(layers, *mask, &mut left);
    }
}
