//! When allocations and their parts are the same: where all that they hold is.

ghost use Rattle.std.specs.Prelude.{◌≡◌, ◌↔◌, IsTrue};
ghost use Rattle.std.specs.Cmp.{partial_equiv_from_equiv};
ghost use Rattle.rtp_vla.specs.AllocationEqual.{same_layer, same_stream, same_allocation, same_layer-equiv, same_stream-equiv, same_allocation-equiv};

use super::allocation::{SimulcastStreamAllocation, SpatialLayerAllocation, VideoLayersAllocation};
use super::lent::{Lendable, LentLayer};
use super::video_layers::{VideoLayer, VideoLayers, VideoStream};

// Whether the rates and the resolutions are the same.
fn same_layers(layer: &LentLayer, other: &LentLayer) -> bool
    ensures { result ≡ same_layer layer.now other.now }
{
    layer.temporal_layers == other.temporal_layers
        && layer.resolution_and_framerate == other.resolution_and_framerate
}

impl PartialEq for SpatialLayerAllocation {
    ghost eq = { same_layer };

    ghost laws = { partial_equiv_from_equiv same_layer-equiv };

    /// Whether the rates and the resolutions are the same.
    #[tactic(auto, using(crate::specs::AllocationEqual::is_same_layer))]
    fn eq(&self, other: &SpatialLayerAllocation) -> bool
        ensures test { result ≡ same_layer self.now other.now }
        ensures same { IsTrue result ↔ (self.now ≡ other.now) }
    {
        same_layers(&self.lend(), &other.lend())
    }
}

impl Eq for SpatialLayerAllocation {
    ghost laws = { same_layer-equiv };
}

impl PartialEq for VideoLayer {
    ghost eq = { same_layer };

    ghost laws = { partial_equiv_from_equiv same_layer-equiv };

    /// Whether the rates and the resolutions are the same.
    #[tactic(auto, using(crate::specs::AllocationEqual::is_same_layer))]
    fn eq(&self, other: &VideoLayer) -> bool
        ensures test { result ≡ same_layer self.now other.now }
        ensures same { IsTrue result ↔ (self.now ≡ other.now) }
    {
        same_layers(&self.lend(), &other.lend())
    }
}

impl Eq for VideoLayer {
    ghost laws = { same_layer-equiv };
}

impl PartialEq for SimulcastStreamAllocation {
    ghost eq = { same_stream };

    ghost laws = { partial_equiv_from_equiv same_stream-equiv };

    /// Whether the layers are the same.
    #[tactic(auto, using(crate::specs::AllocationEqual::is_same_stream))]
    fn eq(&self, other: &SimulcastStreamAllocation) -> bool
        ensures test { result ≡ same_stream self.now other.now }
        ensures same { IsTrue result ↔ (self.now ≡ other.now) }
    {
        self.spatial_layers == other.spatial_layers
    }
}

impl Eq for SimulcastStreamAllocation {
    ghost laws = { same_stream-equiv };
}

impl PartialEq for VideoStream {
    ghost eq = { same_stream };

    ghost laws = { partial_equiv_from_equiv same_stream-equiv };

    /// Whether the layers are the same.
    #[tactic(auto, using(crate::specs::AllocationEqual::is_same_stream))]
    fn eq(&self, other: &VideoStream) -> bool
        ensures test { result ≡ same_stream self.now other.now }
        ensures same { IsTrue result ↔ (self.now ≡ other.now) }
    {
        self.spatial_layers() == other.spatial_layers()
    }
}

impl Eq for VideoStream {
    ghost laws = { same_stream-equiv };
}

impl PartialEq for VideoLayersAllocation {
    ghost eq = { same_allocation };

    ghost laws = { partial_equiv_from_equiv same_allocation-equiv };

    /// Whether the index and the streams are the same.
    #[tactic(auto, using(crate::specs::AllocationEqual::is_same_allocation))]
    fn eq(&self, other: &VideoLayersAllocation) -> bool
        ensures test { result ≡ same_allocation self.now other.now }
        ensures same { IsTrue result ↔ (self.now ≡ other.now) }
    {
        let own = (self.current_simulcast_stream_index, &self.simulcast_streams);
        own == (
            other.current_simulcast_stream_index,
            &other.simulcast_streams,
        )
    }
}

impl Eq for VideoLayersAllocation {
    ghost laws = { same_allocation-equiv };
}

impl PartialEq for VideoLayers {
    ghost eq = { same_allocation };

    ghost laws = { partial_equiv_from_equiv same_allocation-equiv };

    /// Whether the index and the streams are the same.
    #[tactic(auto, using(crate::specs::AllocationEqual::is_same_allocation))]
    fn eq(&self, other: &VideoLayers) -> bool
        ensures test { result ≡ same_allocation self.now other.now }
        ensures same { IsTrue result ↔ (self.now ≡ other.now) }
    {
        let own = (
            self.current_simulcast_stream_index(),
            self.simulcast_streams(),
        );
        own == (
            other.current_simulcast_stream_index(),
            other.simulcast_streams(),
        )
    }
}

impl Eq for VideoLayers {
    ghost laws = { same_allocation-equiv };
}
