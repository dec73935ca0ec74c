//! The counts, rates and resolutions of the active layers, from an allocation to bytes.

ghost use Rattle.std.specs.Prelude.{◌≡◌, ◌+◌, ◌*◌, ◌/◌, ◌%◌, ◌<◌, ◌≤◌, ◌∷◌, [], ◌++◌, length, map, take};
ghost use Rattle.std.specs.List.{AllByRecursion, filter, flat_map};
ghost use Rattle.rtp_base.specs.Overwriting.{overwritten};
ghost use Rattle.rtp_vla.specs.Allocation.{IsCounted, active_layers, count_of, is_active};
ghost use Rattle.rtp_vla.specs.AllocationWritten as written;
ghost use Rattle.rtp_vla.specs.AllocationPutting as putting;
ghost use Rattle.rtp_vla.specs.Leb.{shortest_of};

use super::allocation::{ResolutionAndFramerate, TemporalLayerAllocation};
use super::leb::put_leb;
use super::lent::{Layered, Lendable, LentLayers};
use rtp_base::put;

/// The counts of the layers so far: two bits for each, those of the first one on top.
#[derive(Drop)]
struct CountBits {
    bits: u32,
    // What the next count weighs.
    weight: u32,
    ghost room: { bits + 4 * weight ≤ 4294967296 },
}

impl CountBits {
    // Adds a count.
    #[inline(always)]
    fn add(&mut self, count: u32)
        requires { count ≤ 3 }
        ensures bits { self.new.bits ≡ self.old.bits + count * self.old.weight }
        ensures weight { self.new.weight ≡ self.old.weight / 4 }
    {
        self.bits += count * self.weight;
        self.weight /= 4;
    }
}

// Puts the rates of a layer.
fn put_layer_rates(buf: &mut [u8], at: usize, rates: &[TemporalLayerAllocation]) -> usize
    requires small { AllByRecursion (λ rate. rate < 9223372036854775808) rates.now }
    requires room { at + length (flat_map shortest_of rates.now) ≤ length buf.old }
    ensures written { buf.new ≡ overwritten buf.old at (flat_map shortest_of rates.now) }
    ensures end { result ≡ at + length (flat_map shortest_of rates.now) }
{
    let mut end = at;
    for rate in rates {
        end = put_leb(buf, end, rate.cumulative_kbps);
    }
    end
}

// Puts the rates of the active layers of a stream, and adds their counts to those before them.
#[inline(always)]
fn put_stream_rates<L: Lendable>(
    buf: &mut [u8],
    at: usize,
    mut layers: LentLayers<L>,
    counts: &mut CountBits,
) -> usize
    requires fit { AllByRecursion IsCounted (filter is_active layers) }
    requires small { AllByRecursion putting.HasSmallRates (filter is_active layers) }
    requires room { at + length (flat_map written.rate_bytes (filter is_active layers))
        ≤ length buf.old }
    ensures written { buf.new ≡ overwritten buf.old at
        (flat_map written.rate_bytes (filter is_active layers.entry)) }
    ensures end { result ≡ at + length
        (flat_map written.rate_bytes (filter is_active layers.entry)) }
    ensures bits { counts.new.bits ≡ counts.old.bits
        + putting.count_bits counts.old.weight (filter is_active layers.entry) }
    ensures weight { counts.new.weight
        ≡ putting.weight_after counts.old.weight (filter is_active layers.entry) }
{
    let mut end = at;
    while let Some(layer) = layers.next_active() {
        counts.add(layer.temporal_layers.len().saturating_sub(1) as u32);
        end = put_layer_rates(buf, end, layer.temporal_layers);
    }
    end
}

// Puts the rates of the active layers of all streams, and adds their counts.
fn put_rates<S: Layered>(buf: &mut [u8], at: usize, streams: &[S], counts: &mut CountBits) -> usize
    requires fit { AllByRecursion IsCounted (active_layers (map S.stream streams.now)) }
    requires small { AllByRecursion putting.HasSmallRates
        (active_layers (map S.stream streams.now)) }
    requires room { at + length (flat_map written.rate_bytes
        (active_layers (map S.stream streams.now))) ≤ length buf.old }
    ensures written { buf.new ≡ overwritten buf.old at
        (flat_map written.rate_bytes (active_layers (map S.stream streams.now))) }
    ensures end { result ≡ at + length
        (flat_map written.rate_bytes (active_layers (map S.stream streams.now))) }
    ensures bits { counts.new.bits ≡ counts.old.bits
        + putting.count_bits counts.old.weight (active_layers (map S.stream streams.now)) }
{
    let mut end = at;
    for stream in streams {
        end = put_stream_rates(buf, end, stream.layers(), counts);
    }
    end
}

// The four bytes of a number.
fn four_bytes(number: u32) -> [u8; 4]
    ensures { result ≡ putting.four_bytes number }
{
    number.to_be_bytes()
}

// Puts so many counts, four in a byte.
#[inline(always)]
fn put_counts(buf: &mut [u8], at: usize, bits: u32, count: usize)
    requires few { count ≤ 16 }
    requires room { at + (count + 3) / 4 ≤ length buf.old }
    ensures { buf.new ≡ overwritten buf.old at (take ((count + 3) / 4) (putting.four_bytes bits)) }
{
    let [a, b, c, d] = four_bytes(bits);
    match (count + 3) / 4 {
        0 => at,
        1 => put(buf, at, &[a]),
        2 => put(buf, at, &[a, b]),
        3 => put(buf, at, &[a, b, c]),
        _ => put(buf, at, &[a, b, c, d]),
    };
}

// Puts the counts of the active layers, and after them the rates.
pub(super) fn put_counts_and_rates<S: Layered>(
    buf: &mut [u8],
    at: usize,
    streams: &[S],
    active: usize,
) -> usize
    requires active { active ≡ length (active_layers (map S.stream streams.now)) }
    requires few { active ≤ 16 }
    requires fit { AllByRecursion IsCounted (active_layers (map S.stream streams.now)) }
    requires small { AllByRecursion putting.HasSmallRates
        (active_layers (map S.stream streams.now)) }
    requires room { at + length (written.quarters_of
        (map count_of (active_layers (map S.stream streams.now)))
        ++ flat_map written.rate_bytes (active_layers (map S.stream streams.now)))
        ≤ length buf.old }
    ensures written { buf.new ≡ overwritten buf.old at
        (written.quarters_of (map count_of (active_layers (map S.stream streams.now)))
        ++ flat_map written.rate_bytes (active_layers (map S.stream streams.now))) }
    ensures end { result ≡ at + length
        (written.quarters_of (map count_of (active_layers (map S.stream streams.now)))
        ++ flat_map written.rate_bytes (active_layers (map S.stream streams.now))) }
{
    let mut counts = CountBits {
        bits: 0,
        weight: 1 << 30,
    };
    let end = put_rates(buf, at + (active + 3) / 4, streams, &mut counts);
    put_counts(buf, at, counts.bits, active);
    end
}

// The two bytes of a number.
fn high_and_low(number: u16) -> [u8; 2]
    ensures { result ≡ (number / 256) ∷ (number % 256) ∷ [] }
{
    number.to_be_bytes()
}

// Puts the resolution of a layer, if it has one.
fn put_resolution(buf: &mut [u8], at: usize, resolution: &Option<ResolutionAndFramerate>) -> usize
    requires some { putting.IsSized resolution.now }
    requires room { at + length (written.resolution_field resolution.now) ≤ length buf.old }
    ensures written { buf.new ≡ overwritten buf.old at (written.resolution_field resolution.now) }
    ensures end { result ≡ at + length (written.resolution_field resolution.now) }
{
    let Some(resolution) = resolution else {
        return at;
    };
    let [x, y] = high_and_low(resolution.width - 1);
    let [z, u] = high_and_low(resolution.height - 1);
    put(buf, at, &[x, y, z, u, resolution.framerate])
}

// Puts the resolutions of the active layers of a stream.
#[inline(always)]
fn put_stream_resolutions<L: Lendable>(
    buf: &mut [u8],
    at: usize,
    mut layers: LentLayers<L>,
) -> usize
    requires some { AllByRecursion putting.HasSizedResolution (filter is_active layers) }
    requires room { at + length (flat_map written.resolution_bytes (filter is_active layers))
        ≤ length buf.old }
    ensures written { buf.new ≡ overwritten buf.old at
        (flat_map written.resolution_bytes (filter is_active layers.entry)) }
    ensures end { result ≡ at + length
        (flat_map written.resolution_bytes (filter is_active layers.entry)) }
{
    let mut end = at;
    while let Some(layer) = layers.next_active() {
        end = put_resolution(buf, end, &layer.resolution_and_framerate);
    }
    end
}

// Puts the resolutions of the active layers of all streams.
pub(super) fn put_resolutions<S: Layered>(buf: &mut [u8], at: usize, streams: &[S]) -> usize
    requires some { AllByRecursion putting.HasSizedResolution
        (active_layers (map S.stream streams.now)) }
    requires room { at + length (flat_map written.resolution_bytes
        (active_layers (map S.stream streams.now))) ≤ length buf.old }
    ensures written { buf.new ≡ overwritten buf.old at
        (flat_map written.resolution_bytes (active_layers (map S.stream streams.now))) }
    ensures end { result ≡ at + length
        (flat_map written.resolution_bytes (active_layers (map S.stream streams.now))) }
{
    let mut end = at;
    for stream in streams {
        end = put_stream_resolutions(buf, end, stream.layers());
    }
    end
}
