//! The streams and layers of an allocation that is lent: those of lists, of values of fixed size,
//! or of a caller's own types.

ghost use Rattle.std.specs.Prelude.{◌≡◌, ◌∷◌, ◌++◌, [], map, IfSome, IfNone};
ghost use Rattle.std.specs.List.{filter};
ghost use Rattle.rtp_vla.specs.Allocation.{is_active};

use super::allocation::{
    ResolutionAndFramerate, SimulcastStreamAllocation, SpatialLayerAllocation,
    TemporalLayerAllocation,
};
use super::video_layers::{VideoLayer, VideoStream};
use std::marker::Model;

/// A spatial layer that is lent: one of a list, of a value of fixed size, or of a caller's own
/// type. A clause sees the layer.
#[derive(Drop)]
pub struct LentLayer<'a> {
    /// Its temporal layers by rising frame rate: none where the layer isn't active.
    pub temporal_layers: &'a [TemporalLayerAllocation],
    /// The resolution, where the sender tells it.
    pub resolution_and_framerate: Option<ResolutionAndFramerate>,
}

impl<'a> Model for LentLayer<'a> {
    ghost use Rattle.rtp_vla.specs.Allocation.{Layer};

    ghost Value = { Layer };

    ghost view = { λ layer. record {
      temporal_layers = layer.temporal_layers.now;
      resolution_and_framerate = layer.resolution_and_framerate;
    } };
}

/// A spatial layer that can be lent: one of a list, one in a value of fixed size, or a type of the
/// caller's own that has its rates as [`TemporalLayerAllocation`]s.
pub trait Lendable {
    ghost use Rattle.std.specs.Prelude.{◌≡◌};
    ghost use Rattle.rtp_vla.specs.Allocation.{Layer};

    // What it is.
    ghost layer: { Self → Layer };

    /// It, lent.
    fn lend(&self) -> LentLayer<'_>
        ensures { result ≡ layer self.now };
}

impl Lendable for SpatialLayerAllocation {
    ghost layer = { λ layer. layer };

    #[inline(always)]
    fn lend(&self) -> LentLayer<'_> {
        LentLayer {
            temporal_layers: &self.temporal_layers,
            resolution_and_framerate: self.resolution_and_framerate,
        }
    }
}

impl Lendable for VideoLayer {
    ghost layer = { λ layer. layer };

    #[inline(always)]
    fn lend(&self) -> LentLayer<'_> {
        LentLayer {
            temporal_layers: self.temporal_layers(),
            resolution_and_framerate: self.resolution_and_framerate(),
        }
    }
}

/// The layers of a stream that are lent. A clause sees them as a list.
#[derive(Drop)]
pub struct LentLayers<'a, L: Lendable> {
    left: &'a [L],
}

impl<'a, L: Lendable> Model for LentLayers<'a, L> {
    ghost use Rattle.std.specs.Prelude.{map};
    ghost use Rattle.rtp_vla.specs.Allocation.{Stream};

    ghost Value = { Stream };

    ghost view = { λ layers. map L.layer layers.left.now };
}

impl<'a, L: Lendable> LentLayers<'a, L> {
    /// These layers.
    #[inline(always)]
    pub fn of(left: &'a [L]) -> Self
        ensures { result ≡ map L.layer left.now }
    {
        LentLayers { left }
    }

    // Takes the last layer.
    #[inline(always)]
    pub(super) fn next_back(&mut self) -> Option<LentLayer<'a>>
        ensures found { IfSome result (λ layer. self.old ≡ self.new ++ layer ∷ []) }
        ensures none { IfNone result ((self.old ≡ []) × (self.new ≡ [])) }
    {
        let (layer, before) = self.left.split_last()?;
        self.left = before;
        Some(layer.lend())
    }

    // Takes the first layer.
    #[inline(always)]
    fn next(&mut self) -> Option<LentLayer<'a>>
        ensures found { IfSome result (λ layer. self.old ≡ layer ∷ self.new) }
        ensures none { IfNone result ((self.old ≡ []) × (self.new ≡ [])) }
    {
        let (layer, after) = self.left.split_first()?;
        self.left = after;
        Some(layer.lend())
    }

    // Takes the first active layer, and the layers before it.
    #[inline(always)]
    pub(super) fn next_active(&mut self) -> Option<LentLayer<'a>>
        ensures found { IfSome result (λ layer.
            filter is_active self.old ≡ layer ∷ filter is_active self.new) }
        ensures none { IfNone result ((filter is_active self.old ≡ [])
            × (filter is_active self.new ≡ [])) }
    {
        while let Some(layer) = self.next() {
            if !layer.temporal_layers.is_empty() {
                return Some(layer);
            }
        }
        None
    }
}

/// A simulcast stream whose layers can be lent: one of a list, one in a value of fixed size, or a
/// type of the caller's own. A [`LentAllocation`](super::lent_allocation::LentAllocation) of such
/// streams is measured and written where they lie.
pub trait Layered {
    ghost use Rattle.std.specs.Prelude.{◌≡◌};
    ghost use Rattle.rtp_vla.specs.Allocation.{Stream};

    /// The layers that it has.
    type Layer: Lendable;

    // What it is.
    ghost stream: { Self → Stream };

    /// Its layers, lent.
    fn layers(&self) -> LentLayers<'_, Self::Layer>
        ensures { result ≡ stream self.now };
}

impl Layered for SimulcastStreamAllocation {
    type Layer = SpatialLayerAllocation;

    ghost stream = { λ stream. stream };

    #[inline(always)]
    fn layers(&self) -> LentLayers<'_, SpatialLayerAllocation> {
        LentLayers::of(&self.spatial_layers)
    }
}

impl Layered for VideoStream {
    type Layer = VideoLayer;

    ghost stream = { λ stream. stream };

    #[inline(always)]
    fn layers(&self) -> LentLayers<'_, VideoLayer> {
        LentLayers::of(self.spatial_layers())
    }
}
