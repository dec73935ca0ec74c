//! Calls that could take memory, where they need none.

ghost use Rattle.std.specs.Prelude.{◌≡◌, [], Ok, IsOk, IfSome};
ghost use Rattle.rtp_ext.specs.ExtensionMap.{HasNoText};
ghost use Rattle.rtp_wire.specs.Header.{default_header};

use rtp_wire::vla::{
    self, SimulcastStreamAllocation, SpatialLayerAllocation, VideoLayersAllocation,
};
use rtp_wire::{Extension, ExtensionMap, ExtensionValues, RtpHeader};
use std::alloc::{AllocError, Global};

/// A copy of a map of known extensions alone is always made.
pub fn copied_map(alloc: Global, exts: &ExtensionMap) -> Result<ExtensionMap, AllocError>
    ensures { HasNoText exts.now → result ≡ Ok exts.now }
{
    exts.clone(alloc)
}

/// A copy of the default header is always made.
pub fn copied_default(alloc: Global) -> Result<RtpHeader, AllocError>
    ensures { result ≡ Ok default_header }
{
    RtpHeader::default().clone(alloc)
}

/// A copy of a layer without temporal layers is always made.
pub fn copied_layer(
    alloc: Global,
    layer: &SpatialLayerAllocation,
) -> Result<SpatialLayerAllocation, AllocError>
    ensures { layer.now.temporal_layers ≡ [] → result ≡ Ok layer.now }
{
    layer.clone(alloc)
}

/// A copy of a stream without layers is always made.
pub fn copied_stream(
    alloc: Global,
    stream: &SimulcastStreamAllocation,
) -> Result<SimulcastStreamAllocation, AllocError>
    ensures { stream.now ≡ [] → result ≡ Ok stream.now }
{
    stream.clone(alloc)
}

/// A copy of an allocation without streams is always made.
pub fn copied_allocation(
    alloc: Global,
    allocation: &VideoLayersAllocation,
) -> Result<VideoLayersAllocation, AllocError>
    ensures { allocation.now.simulcast_streams ≡ [] → result ≡ Ok allocation.now }
{
    allocation.clone(alloc)
}

/// A copy of values is always made where they have no allocation, or one without streams.
pub fn copied_values(alloc: Global, values: &ExtensionValues) -> Result<ExtensionValues, AllocError>
    ensures { IfSome values.now.video_layers_allocation (λ a. a.simulcast_streams ≡ []) →
        result ≡ Ok values.now }
{
    values.clone(alloc)
}

/// One byte of a layer allocation is always read, by itself.
pub fn allocation_in(alloc: Global, byte: u8) -> Result<Option<VideoLayersAllocation>, AllocError>
    ensures { IsOk result }
{
    vla::parse(alloc, &[byte])
}

/// One byte of a layer allocation is always read, as the data of an element.
pub fn read_allocation_in(
    alloc: Global,
    byte: u8,
    values: &mut ExtensionValues,
) -> Result<Option<()>, AllocError>
    ensures { IsOk result }
{
    Extension::VideoLayersAllocation.parse_value(alloc, &[byte], values)
}
