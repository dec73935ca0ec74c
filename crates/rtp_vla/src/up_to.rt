//! Lists of at most so many items, without memory.

ghost use Rattle.std.specs.Prelude.{◌≡◌, ◌<◌, ◌≤◌, ◌∷◌, ◌++◌, List, [], length};
ghost use Rattle.rtp_vla.specs.Allocation.{Stream};
ghost use Rattle.rtp_vla.specs.AllocationReading.{layer_room};
ghost use Rattle.rtp_vla.specs.UpTo.{padded};

use super::allocation::TemporalLayerAllocation;
use super::leb::parse_leb_u63;
use super::parts::Rates;
use super::video_layers::{VideoLayer, VideoStream};
use std::alloc::AllocError;
use std::marker::Model;

/// What stands in the places of an array that aren't used: the default, of which there is one.
pub(super) trait Unused: Copy + Default {
    ghost UNUSED: { Self };

    ghost only: { (x : Self) → Self.is_default x → x ≡ UNUSED };
}

/// A list of at most `N` items.
#[derive(Debug)]
pub(super) struct UpTo<T: Unused, const N: usize> {
    // The items, and after them what isn't used.
    items: [T; N],
    // How many items there are.
    len: usize,
}

impl<T: Unused, const N: usize> Model for UpTo<T, N> {
    ghost use Rattle.std.specs.Prelude.{◌≡◌, ◌-◌, ◌≤◌, List, length, take, drop, replicate};
    ghost use Rattle.rtp_vla.specs.UpTo.{padded, padded-front, length-front};

    ghost Value = { List T };

    ghost view = { λ list. take list.len list.items };

    ghost invariant = { λ list. (length list.items ≡ N)
        × (list.len ≤ N)
        × (drop list.len list.items ≡ replicate (N - list.len) T.UNUSED) };

    ghost inverse = { λ items. record { items = padded N T.UNUSED items; len = length items } };

    ghost inverse_ok = { λ list known i. record {
      items = padded-front T.UNUSED list.items list.len N known.0 known.1 known.2 i;
      len = length-front list.items list.len N known.0 known.1 i;
    } };
}

impl<T: Unused, const N: usize> Copy for UpTo<T, N> {}

impl<T: Unused, const N: usize> Clone for UpTo<T, N> {
    ghost use Rattle.std.specs.Prelude.{◌≡◌, ⊤};

    ghost is_clone = { λ list copy. list ≡ copy };

    ghost is_infallible = { λ _. ⊤ };

    fn clone(&self) -> Result<Self, AllocError> {
        Ok(*self)
    }
}

impl<T: Unused, const N: usize> UpTo<T, N> {
    // No items.
    pub(super) fn new() -> Self
        ensures { result ≡ [] }
    {
        UpTo {
            items: [T::default(); N],
            len: 0,
        }
    }

    // Puts an item after the others.
    pub(super) fn push(&mut self, item: T)
        requires { length self.old < N }
        ensures { self.new ≡ self.old ++ item ∷ [] }
    {
        self.items[self.len] = item;
        self.len += 1;
    }

    // The items, and after them what isn't used.
    #[inline(always)]
    pub(super) fn places(&self) -> [T; N]
        ensures { result ≡ padded N T.UNUSED self.now }
    {
        self.items
    }

    // The items.
    pub(super) fn as_slice(&self) -> &[T]
        ensures items { result.now ≡ self.now }
        ensures few { length result.now ≤ N }
    {
        &self.items[..self.len]
    }
}

impl UpTo<VideoStream, 4> {
    // Puts a layer after the others of the last stream.
    #[inline(always)]
    pub(super) fn push_layer(&mut self, layer: &VideoLayer)
        requires { 1 ≤ layer_room self.old }
        ensures { (before : List Stream) (stream : Stream) → self.old ≡ before ++ stream ∷ [] →
            self.new ≡ before ++ (stream ++ layer.now ∷ []) ∷ [] }
    {
        self.items[self.len - 1].push(*layer);
    }
}

// The rates go straight into their places, and how many there are is stored once.
impl Rates for UpTo<TemporalLayerAllocation, 4> {
    ghost use Rattle.std.specs.Prelude.{◌-◌, length};

    ghost rates = { λ list. list };

    ghost room = { λ list. 4 - length list };

    #[inline]
    fn put_rates<'a>(&mut self, bytes: &'a [u8], count: usize) -> &'a [u8] {
        let mut after = bytes;
        for i in 0..count {
            let (cumulative_kbps, next) = parse_leb_u63(after);
            self.items[i] = TemporalLayerAllocation { cumulative_kbps };
            after = next;
        }
        self.len = count;
        after
    }
}
