//! The allocation and its parts.

ghost use Rattle.std.specs.Prelude.{◌≡◌, [], IsOk, IfOk};

use std::alloc::{AllocError, Global};
use std::marker::Model;

/// The URI that names the extension in SDP.
pub const URI: &str = "http://www.webrtc.org/experiments/rtp-hdrext/video-layers-allocation00";

/// What a sender of video keeps active.
#[derive(Debug, Drop)]
pub struct VideoLayersAllocation {
    /// Which of the streams the packet is of, from 0. It is 0 where nothing is sent.
    pub current_simulcast_stream_index: u8,
    /// The simulcast streams: none where nothing is sent, else up to 4.
    pub simulcast_streams: Vec<SimulcastStreamAllocation>,
}

/// What is active of one simulcast stream.
#[derive(Debug, Drop)]
pub struct SimulcastStreamAllocation {
    /// The spatial layers by rising resolution, up to 4.
    pub spatial_layers: Vec<SpatialLayerAllocation>,
}

/// What is active of one spatial layer.
#[derive(Debug, Drop)]
pub struct SpatialLayerAllocation {
    /// The temporal layers by rising frame rate, up to 4: none where the layer isn't active.
    pub temporal_layers: Vec<TemporalLayerAllocation>,
    /// The resolution, where the sender tells it.
    pub resolution_and_framerate: Option<ResolutionAndFramerate>,
}

/// One temporal layer: eight bytes, those of its rate.
#[repr(C)]
#[derive(Clone, Copy, Debug, Default, PartialEq, Eq)]
pub struct TemporalLayerAllocation {
    /// The rate that it takes to receive this layer, in kilobits per second: with all temporal layers
    /// below it, and with the spatial layers below it where it can't be decoded without them.
    pub cumulative_kbps: u64,
}

/// The resolution and the frame rate of a spatial layer.
#[derive(Clone, Copy, Debug, PartialEq, Eq)]
pub struct ResolutionAndFramerate {
    /// The width in pixels, from 1 on where it is written.
    pub width: u16,
    /// The height in pixels, from 1 on where it is written.
    pub height: u16,
    /// The highest frame rate, in frames per second.
    pub framerate: u8,
}

impl Model for TemporalLayerAllocation {
    ghost use Rattle.std.specs.Prelude.{ℕ};

    ghost Value = { ℕ };

    ghost view = { λ layer. layer.cumulative_kbps };

    ghost inverse = { λ rate. record { cumulative_kbps = rate } };
}

impl Model for SpatialLayerAllocation {
    ghost use Rattle.rtp_vla.specs.Allocation.{Layer};

    ghost Value = { Layer };

    ghost view = { λ layer. record {
      temporal_layers = layer.temporal_layers.items;
      resolution_and_framerate = layer.resolution_and_framerate;
    } };
}

impl Model for SimulcastStreamAllocation {
    ghost use Rattle.rtp_vla.specs.Allocation.{Stream};

    ghost Value = { Stream };

    ghost view = { λ stream. stream.spatial_layers.items };
}

impl Model for VideoLayersAllocation {
    ghost use Rattle.rtp_vla.specs.Allocation.{Allocation};

    ghost Value = { Allocation };

    ghost view = { λ allocation. record {
      current_simulcast_stream_index = allocation.current_simulcast_stream_index;
      simulcast_streams = allocation.simulcast_streams.items;
    } };
}

impl SpatialLayerAllocation {
    /// The same layer in memory of its own, which is taken where it has temporal layers. Where that
    /// is refused nothing is returned.
    pub fn clone(&self, alloc: Global) -> Result<Self, AllocError>
        ensures same { IfOk result (λ copy. copy ≡ self.now) }
        ensures succeeds { self.now.temporal_layers ≡ [] → IsOk result }
    {
        let mut temporal_layers = Vec::with_capacity(alloc, self.temporal_layers.len())?;
        temporal_layers.extend_from_slice(&self.temporal_layers)?;
        Ok(SpatialLayerAllocation {
            temporal_layers,
            resolution_and_framerate: self.resolution_and_framerate,
        })
    }
}

impl SimulcastStreamAllocation {
    /// The same stream in memory of its own, which is taken where it has layers. Where that is
    /// refused nothing is returned.
    pub fn clone(&self, alloc: Global) -> Result<Self, AllocError>
        ensures same { IfOk result (λ copy. copy ≡ self.now) }
        ensures succeeds { self.now ≡ [] → IsOk result }
    {
        let mut spatial_layers = Vec::with_capacity(alloc, self.spatial_layers.len())?;
        for layer in &self.spatial_layers {
            spatial_layers.push(layer.clone(alloc)?)?;
        }
        Ok(SimulcastStreamAllocation { spatial_layers })
    }
}

impl VideoLayersAllocation {
    /// The same allocation in memory of its own, which is taken where it has streams. Where that is
    /// refused nothing is returned.
    pub fn clone(&self, alloc: Global) -> Result<Self, AllocError>
        ensures same { IfOk result (λ copy. copy ≡ self.now) }
        ensures succeeds { self.now.simulcast_streams ≡ [] → IsOk result }
    {
        let mut simulcast_streams = Vec::with_capacity(alloc, self.simulcast_streams.len())?;
        for stream in &self.simulcast_streams {
            simulcast_streams.push(stream.clone(alloc)?)?;
        }
        Ok(VideoLayersAllocation {
            current_simulcast_stream_index: self.current_simulcast_stream_index,
            simulcast_streams,
        })
    }
}
