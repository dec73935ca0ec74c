//! The allocation in a value of fixed size.

ghost use Rattle.std.specs.Prelude.{◌≡◌, ◌+◌, ◌-◌, ◌<◌, ◌≤◌, ◌∷◌, ◌++◌, [], length, replicate};

use super::allocation::{ResolutionAndFramerate, TemporalLayerAllocation};
use super::up_to::{Unused, UpTo};
use std::marker::Model;

impl Unused for TemporalLayerAllocation {
    ghost use Rattle.std.proofs.Common.{rules};

    ghost UNUSED = { 0 };

    ghost only = { Prim.search rules };
}

/// What is active of one spatial layer, without memory.
#[derive(Clone, Copy, Debug)]
pub struct VideoLayer {
    temporal_layers: UpTo<TemporalLayerAllocation, 4>,
    resolution_and_framerate: Option<ResolutionAndFramerate>,
}

impl Model for VideoLayer {
    ghost use Rattle.rtp_vla.specs.Allocation.{Layer};

    ghost Value = { Layer };

    ghost view = { λ layer. record {
      temporal_layers = layer.temporal_layers;
      resolution_and_framerate = layer.resolution_and_framerate;
    } };

    ghost inverse = { λ layer. record {
      temporal_layers = layer.temporal_layers;
      resolution_and_framerate = layer.resolution_and_framerate;
    } };
}

impl Unused for VideoLayer {
    ghost use Rattle.rtp_vla.specs.AllocationReading.{idle_layer};

    ghost UNUSED = { idle_layer };

    ghost only = { λ _ same. same };
}

impl Default for VideoLayer {
    ghost use Rattle.std.specs.Prelude.{◌≡◌};
    ghost use Rattle.rtp_vla.specs.AllocationReading.{idle_layer};

    ghost is_default = { λ layer. layer ≡ idle_layer };

    /// A layer that isn't active: it has no temporal layers and no resolution.
    fn default() -> Self {
        VideoLayer::new(None)
    }
}

impl VideoLayer {
    // With these temporal layers and this resolution.
    pub(super) fn of(
        temporal_layers: UpTo<TemporalLayerAllocation, 4>,
        resolution_and_framerate: Option<ResolutionAndFramerate>,
    ) -> Self
        ensures { result ≡ record {
          temporal_layers = temporal_layers;
          resolution_and_framerate = resolution_and_framerate;
        } }
    {
        VideoLayer {
            temporal_layers,
            resolution_and_framerate,
        }
    }

    /// Without temporal layers, and with this resolution.
    pub fn new(resolution_and_framerate: Option<ResolutionAndFramerate>) -> Self
        ensures { result ≡ record {
          temporal_layers = [];
          resolution_and_framerate = resolution_and_framerate;
        } }
    {
        VideoLayer {
            temporal_layers: UpTo::new(),
            resolution_and_framerate,
        }
    }

    /// Puts a temporal layer after the others. It requires that there are at most three.
    pub fn push(&mut self, layer: TemporalLayerAllocation)
        requires { length self.old.temporal_layers < 4 }
        ensures { self.new ≡ record self.old {
          temporal_layers = self.old.temporal_layers ++ layer ∷ [];
        } }
    {
        self.temporal_layers.push(layer);
    }

    /// The temporal layers by rising frame rate, up to 4: none where the layer isn't active.
    pub fn temporal_layers(&self) -> &[TemporalLayerAllocation]
        ensures layers { result.now ≡ self.now.temporal_layers }
        ensures few { length result.now ≤ 4 }
    {
        self.temporal_layers.as_slice()
    }

    /// The temporal layers in four places; a place after the last has the rate 0.
    #[inline(always)]
    pub fn places(&self) -> [TemporalLayerAllocation; 4]
        ensures { result ≡ self.now.temporal_layers
            ++ replicate (4 - length self.now.temporal_layers) 0 }
    {
        self.temporal_layers.places()
    }

    /// The resolution, where the sender tells it.
    pub fn resolution_and_framerate(&self) -> Option<ResolutionAndFramerate>
        ensures { result ≡ self.now.resolution_and_framerate }
    {
        self.resolution_and_framerate
    }
}

/// What is active of one simulcast stream, without memory.
#[derive(Clone, Copy, Debug)]
pub struct VideoStream {
    spatial_layers: UpTo<VideoLayer, 4>,
}

impl Model for VideoStream {
    ghost use Rattle.rtp_vla.specs.Allocation.{Stream};

    ghost Value = { Stream };

    ghost view = { λ stream. stream.spatial_layers };

    ghost inverse = { λ stream. record { spatial_layers = stream } };
}

impl Unused for VideoStream {
    ghost use Rattle.std.specs.Prelude.{[]};

    ghost UNUSED = { [] };

    ghost only = { λ _ same. same };
}

impl Default for VideoStream {
    ghost use Rattle.std.specs.Prelude.{◌≡◌, []};

    ghost is_default = { λ stream. stream ≡ [] };

    /// No layers.
    fn default() -> Self {
        VideoStream::new()
    }
}

impl VideoStream {
    /// No layers.
    pub fn new() -> Self
        ensures { result ≡ [] }
    {
        VideoStream {
            spatial_layers: UpTo::new(),
        }
    }

    /// Puts a layer after the others. It requires that there are at most three.
    pub fn push(&mut self, layer: VideoLayer)
        requires { length self.old < 4 }
        ensures { self.new ≡ self.old ++ layer ∷ [] }
    {
        self.spatial_layers.push(layer);
    }

    /// The spatial layers by rising resolution, up to 4.
    pub fn spatial_layers(&self) -> &[VideoLayer]
        ensures layers { result.now ≡ self.now }
        ensures few { length result.now ≤ 4 }
    {
        self.spatial_layers.as_slice()
    }
}

/// What a sender of video keeps active, without memory: what
/// [`VideoLayersAllocation`](super::allocation::VideoLayersAllocation) has in lists, as far as it is
/// up to 4 streams of up to 4 layers of up to 4 rates.
#[derive(Clone, Copy, Debug)]
pub struct VideoLayers {
    current_simulcast_stream_index: u8,
    pub(super) simulcast_streams: UpTo<VideoStream, 4>,
}

impl Model for VideoLayers {
    ghost use Rattle.rtp_vla.specs.Allocation.{Allocation};

    ghost Value = { Allocation };

    ghost view = { λ layers. record {
      current_simulcast_stream_index = layers.current_simulcast_stream_index;
      simulcast_streams = layers.simulcast_streams;
    } };

    ghost inverse = { λ allocation. record {
      current_simulcast_stream_index = allocation.current_simulcast_stream_index;
      simulcast_streams = allocation.simulcast_streams;
    } };
}

impl Default for VideoLayers {
    ghost use Rattle.std.specs.Prelude.{◌≡◌};
    ghost use Rattle.rtp_vla.specs.Allocation.{nothing_sent};

    ghost is_default = { λ layers. layers ≡ nothing_sent };

    /// Nothing is sent.
    fn default() -> Self {
        VideoLayers::new(0)
    }
}

impl VideoLayers {
    /// Without streams, and with this index of the packet's stream.
    pub fn new(current_simulcast_stream_index: u8) -> Self
        ensures { result ≡ record {
          current_simulcast_stream_index = current_simulcast_stream_index;
          simulcast_streams = [];
        } }
    {
        VideoLayers {
            current_simulcast_stream_index,
            simulcast_streams: UpTo::new(),
        }
    }

    /// Puts a stream after the others. It requires that there are at most three.
    pub fn push(&mut self, stream: VideoStream)
        requires { length self.old.simulcast_streams < 4 }
        ensures { self.new ≡ record self.old {
          simulcast_streams = self.old.simulcast_streams ++ stream ∷ [];
        } }
    {
        self.simulcast_streams.push(stream);
    }

    /// Which of the streams the packet is of, from 0. It is 0 where nothing is sent.
    pub fn current_simulcast_stream_index(&self) -> u8
        ensures { result ≡ self.now.current_simulcast_stream_index }
    {
        self.current_simulcast_stream_index
    }

    /// The simulcast streams: none where nothing is sent, else up to 4.
    pub fn simulcast_streams(&self) -> &[VideoStream]
        ensures streams { result.now ≡ self.now.simulcast_streams }
        ensures few { length result.now ≤ 4 }
    {
        self.simulcast_streams.as_slice()
    }
}
