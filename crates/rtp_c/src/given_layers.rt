//! The layer allocation that C gives to be written, lent where it lies.

ghost use Rattle.std.specs.Prelude.{◌≡◌, ◌↔◌, ◌≤◌, take, Some, IsTrue, IfSome, IfNone};
ghost use Rattle.std.specs.List.{All};
ghost use Rattle.rtp_vla.specs.Allocation as vla;
ghost use Rattle.rtp_c.specs.GivenLayers.{IsGivenLayers, AreCarriedLayers, HasFewLayers, layer_in, allocation_in};

use super::layers::{Layer, Layers, Stream};
use rtp_values::{CarriedLayers, ElementValues};
use rtp_vla::vla::{
    Layered, Lendable, LentAllocation, LentLayer, LentLayers, ResolutionAndFramerate,
    TemporalLayerAllocation,
};

// The resolution, where it is given.
#[inline(always)]
fn given_resolution(view: &Layer) -> Option<ResolutionAndFramerate>
    ensures { result ≡ (layer_in view.now).resolution_and_framerate }
{
    if view.has_resolution == 0 {
        return None;
    }
    Some(ResolutionAndFramerate {
        width: view.width,
        height: view.height,
        framerate: view.framerate,
    })
}

// The first of the values, as many as count.
#[inline(always)]
fn counted<T, const N: usize>(values: &[T; N], count: u8) -> &[T]
    ensures { result.now ≡ take count values.now }
{
    match values.get(..usize::from(count)) {
        Some(counted) => counted,
        None => values,
    }
}

impl Lendable for Layer {
    ghost use Rattle.rtp_c.specs.GivenLayers.{layer_in};

    ghost layer = { layer_in };

    #[inline(always)]
    fn lend(&self) -> LentLayer<'_> {
        LentLayer {
            temporal_layers: counted(&self.kbps, self.rates),
            resolution_and_framerate: given_resolution(self),
        }
    }
}

impl Layered for Stream {
    ghost use Rattle.rtp_c.specs.GivenLayers.{stream_in};

    type Layer = Layer;

    ghost stream = { stream_in };

    #[inline(always)]
    fn layers(&self) -> LentLayers<'_, Layer> {
        LentLayers::of(counted(&self.layers, self.count))
    }
}

// Whether the stream, and each of its layers that counts, has a count of at most four.
#[inline(always)]
fn has_few_layers(view: &Stream) -> bool
    ensures { IsTrue result ↔ HasFewLayers view.now }
{
    view.count <= 4
        && counted(&view.layers, view.count)
            .iter()
            .all(|layer| layer.rates <= 4)
}

// Whether each of the streams, and each of its layers that counts, has a count of at most four.
#[inline(always)]
fn have_few_layers(streams: &[Stream]) -> bool
    ensures { IsTrue result ↔ All HasFewLayers streams.now }
{
    streams.iter().all(has_few_layers)
}

// Whether no count of what counts is above four.
fn has_few(view: &Layers) -> bool
    ensures { IsTrue result ↔ IsGivenLayers view.now (allocation_in view.now) }
{
    view.count <= 4 && have_few_layers(counted(&view.streams, view.count))
}

// The values with the layers that are given, where an element can carry them.
pub fn with_given_layers<'a, V: ElementValues>(
    values: &'a V,
    view: &'a Layers,
) -> Option<CarriedLayers<'a, V, Stream>>
    ensures found { IfSome result (λ with_layers. (a : vla.Allocation)
        × AreCarriedLayers view.now a × (with_layers
        ≡ record (V.values values.now) { video_layers_allocation = Some a })) }
    ensures none { IfNone result ((a : vla.Allocation) → AreCarriedLayers view.now a → ⊥) }
{
    if !has_few(view) {
        return None;
    }
    CarriedLayers::measure(
        values,
        LentAllocation::new(view.current, counted(&view.streams, view.count)),
    )
}
