//! What an allocation is read into, without memory.

use super::video_layers::{VideoLayer, VideoLayers, VideoStream};

/// What a layer allocation is read into where it lies, as [`VideoLayers`]: it is begun anew, and then each
/// stream is put after the others, and each layer after the others of the last stream.
pub trait SetLayers {
    ghost use Rattle.std.specs.Prelude.{ℕ, ◌≡◌, ◌+◌, ◌≤◌, ◌++◌, ◌∷◌, []};
    ghost use Rattle.rtp_vla.specs.Allocation.{Allocation, Stream};
    ghost use Rattle.rtp_vla.specs.AllocationReading.{and_stream};

    // Whether it shows this allocation.
    ghost shows: { Self → Allocation → Type 0 };

    // How many streams more there is room for, and how many layers more in the last stream.
    ghost stream_room: { Self → ℕ };

    ghost layer_room: { Self → ℕ };

    /// Begins an allocation without streams, whose packet is of the stream at this index, from 0. Nothing
    /// of what it showed stays.
    fn begin(&mut self, index: u8)
        ensures begun { shows self.new (record {
          current_simulcast_stream_index = index;
          simulcast_streams = [];
        }) }
        ensures room { 4 ≤ stream_room self.new };

    /// Puts a stream without layers after the others.
    fn put_stream(&mut self)
        requires { 1 ≤ stream_room self.old }
        ensures put { (a : Allocation) → shows self.old a → shows self.new (and_stream a []) }
        ensures streams { stream_room self.new + 1 ≡ stream_room self.old }
        ensures layers { 4 ≤ layer_room self.new };

    /// Puts a layer after the others of the last stream.
    fn put_layer(&mut self, layer: &VideoLayer)
        requires { 1 ≤ layer_room self.old }
        ensures put { (a : Allocation) (stream : Stream) → shows self.old (and_stream a stream) →
            shows self.new (and_stream a (stream ++ layer.now ∷ [])) }
        ensures streams { stream_room self.new ≡ stream_room self.old }
        ensures layers { layer_room self.new + 1 ≡ layer_room self.old };
}

impl SetLayers for VideoLayers {
    ghost use Rattle.std.specs.Prelude.{◌≡◌, ◌-◌, length};
    ghost use Rattle.rtp_vla.specs.AllocationReading as reading;

    ghost shows = { λ layers a. layers ≡ a };

    ghost stream_room = { λ layers. 4 - length layers.simulcast_streams };

    ghost layer_room = { λ layers. reading.layer_room layers.simulcast_streams };

    #[inline(always)]
    fn begin(&mut self, index: u8) {
        *self = VideoLayers::new(index);
    }

    #[inline(always)]
    fn put_stream(&mut self) {
        self.push(VideoStream::new());
    }

    #[inline(always)]
    fn put_layer(&mut self, layer: &VideoLayer) {
        self.simulcast_streams.push_layer(layer);
    }
}
