//! The layer allocation of a sender of video.

ghost use Rattle.std.specs.Prelude.{◌≡◌, ◌<◌, ◌+◌, ◌∷◌, ◌++◌, [], length, slice_index_or, slice_set};
ghost use Rattle.rtp_vla.specs.Allocation as vla;
ghost use Rattle.rtp_c.specs.LayersView as spec;
ghost use Rattle.rtp_c.specs.declared.layers.Layer.{Layer};
ghost use Rattle.rtp_c.specs.declared.layers.Stream.{Stream};

use rtp_vla::vla::{SetLayers, TemporalLayerAllocation, VideoLayer};

/// What is active of one spatial layer: `rtpw_layer` in C, 40 bytes.
#[repr(C)]
#[derive(Clone, Copy)]
pub struct Layer {
    /// The rates of its temporal layers by rising frame rate, in kilobits per second, each with the
    /// rates of those below it. Those after the first `rates` are 0 as read.
    pub kbps: [TemporalLayerAllocation; 4],
    /// The width in pixels, and 0 where `has_resolution` is 0.
    pub width: u16,
    /// The height in pixels.
    pub height: u16,
    /// The highest frame rate, in frames per second.
    pub framerate: u8,
    /// Whether the sender tells the resolution and the frame rate: 0 or 1.
    pub has_resolution: u8,
    /// How many temporal layers it has, 0 to 4: none where the layer isn't active.
    pub rates: u8,
}

// The rate in a place after the last.
const NO_RATE: TemporalLayerAllocation = TemporalLayerAllocation { cumulative_kbps: 0 };

impl Layer {
    // A layer without rates and resolution.
    const BARE: Layer = Layer {
        kbps: [NO_RATE; 4],
        width: 0,
        height: 0,
        framerate: 0,
        has_resolution: 0,
        rates: 0,
    };
}

/// What is active of one simulcast stream: `rtpw_stream` in C, 168 bytes.
#[repr(C)]
#[derive(Clone, Copy)]
pub struct Stream {
    /// The spatial layers by rising resolution, of which the first `count` count.
    pub layers: [Layer; 4],
    /// How many spatial layers there are, 0 to 4.
    pub count: u8,
}

impl Stream {
    // A stream without layers.
    const EMPTY: Stream = Stream {
        layers: [Layer::BARE; 4],
        count: 0,
    };

    // Puts a layer after the others.
    #[inline(always)]
    fn push(&mut self, layer: &VideoLayer)
        requires { self.old.count < 4 }
        ensures put { (stream : vla.Stream) → spec.IsViewOfStream stream self.old →
            spec.IsViewOfStream (stream ++ layer.now ∷ []) self.new }
        ensures count { self.new.count ≡ self.old.count + 1 }
    {
        put_layer_at(&mut self.layers, usize::from(self.count), layer);
        self.count += 1;
    }
}

/// What a sender of video keeps active (`video-layers-allocation00`): `rtpw_layers` in C, 680
/// bytes.
#[repr(C)]
#[derive(Clone, Copy)]
pub struct Layers {
    /// The simulcast streams, of which the first `count` count.
    pub streams: [Stream; 4],
    /// How many streams there are, 0 to 4: none where nothing is sent.
    pub count: u8,
    /// Which of the streams the packet is of, from 0.
    pub current: u8,
}

impl Layers {
    // No streams.
    const NONE: Layers = Layers {
        streams: [Stream::EMPTY; 4],
        count: 0,
        current: 0,
    };
}

impl Layer {
    // Tells of a layer where nothing is told: zeros, which stay where it has no resolution.
    #[inline(always)]
    fn tell(&mut self, layer: &VideoLayer)
        ensures { spec.IsViewOfLayer spec.bare_layer self.old →
            spec.IsViewOfLayer layer.now self.new }
    {
        self.kbps = layer.places();
        self.rates = layer.temporal_layers().len() as u8;
        if let Some(known) = layer.resolution_and_framerate() {
            self.width = known.width;
            self.height = known.height;
            self.framerate = known.framerate;
            self.has_resolution = 1;
        }
    }
}

// Puts a layer at a place of a stream of which nothing is told.
#[inline(always)]
fn put_layer_at(layers: &mut [Layer; 4], index: usize, layer: &VideoLayer)
    requires { index < 4 }
    ensures places { length layers.old ≡ 4 }
    ensures put { (unused : Layer) → (view : Layer)
        × (layers.new ≡ slice_set layers.old index view)
        × (spec.IsViewOfLayer spec.bare_layer (slice_index_or layers.old index unused) →
        spec.IsViewOfLayer layer.now view) }
{
    layers[index].tell(layer);
}

// Takes the layers out of the stream at this place.
#[inline(always)]
fn clear_stream(streams: &mut [Stream; 4], index: usize)
    requires { index < 4 }
    ensures places { length streams.old ≡ 4 }
    ensures cleared { (unused : Stream) → streams.new ≡ slice_set streams.old index
        (record (slice_index_or streams.old index unused) { count = 0 }) }
{
    streams[index].count = 0;
}

// Puts a layer after the others of the stream at this place.
#[inline(always)]
fn push_layer(streams: &mut [Stream; 4], index: usize, layer: &VideoLayer)
    requires within { index < length streams.old }
    requires room { (unused : Stream) → (slice_index_or streams.old index unused).count < 4 }
    ensures put { (unused : Stream) → (view : Stream)
        × (streams.new ≡ slice_set streams.old index view)
        × (view.count ≡ (slice_index_or streams.old index unused).count + 1)
        × ((stream : vla.Stream) →
        spec.IsViewOfStream stream (slice_index_or streams.old index unused) →
        spec.IsViewOfStream (stream ++ layer.now ∷ []) view) }
{
    streams[index].push(layer);
}

impl SetLayers for Layers {
    ghost use Rattle.std.specs.Prelude.{◌-◌};
    ghost use Rattle.rtp_c.specs.LayersView.{IsViewOfLayers, layer_room};

    ghost shows = { λ view allocation. IsViewOfLayers allocation view };

    ghost stream_room = { λ view. 4 - view.count };

    ghost layer_room = { λ view. layer_room view.count view.streams };

    #[inline(always)]
    fn begin(&mut self, index: u8) {
        *self = Layers::NONE;
        self.current = index;
    }

    #[inline(always)]
    fn put_stream(&mut self) {
        clear_stream(&mut self.streams, usize::from(self.count));
        self.count += 1;
    }

    #[inline(always)]
    fn put_layer(&mut self, layer: &VideoLayer) {
        let stream = usize::from(self.count) - 1;
        push_layer(&mut self.streams, stream, layer);
    }
}

// Puts what C is told where nothing is sent.
pub fn put_no_layers(view: &mut Layers)
    ensures { spec.IsViewOfLayers vla.nothing_sent view.new }
{
    *view = Layers::NONE;
}
