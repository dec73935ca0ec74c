//! The parts of an allocation, each read by itself.

ghost use Rattle.std.specs.Prelude.{◌≡◌, ◌↔◌, ℕ, ◌+◌, ◌*◌, ◌/◌, ◌<◌, ◌≤◌, length, take, slice_index, Some, IsTrue, IfSome, IfNone};
ghost use Rattle.std.specs.List.{AllByRecursion};
ghost use Rattle.rtp_vla.specs.AllocationReading as reading;

use super::allocation::{ResolutionAndFramerate, TemporalLayerAllocation};
use super::leb::parse_leb_u63;

/// Where the rates of a layer are put.
pub(super) trait Rates {
    ghost use Rattle.std.specs.Prelude.{ℕ, ◌≡◌, ◌≤◌, [], List};
    ghost use Rattle.rtp_vla.specs.AllocationReading as reading;

    // The rates so far.
    ghost rates: { Self → List ℕ };

    // How many more there is room for.
    ghost room: { Self → ℕ };

    // Puts the first `count` rates, and returns the bytes after them.
    fn put_rates<'a>(&mut self, bytes: &'a [u8], count: usize) -> &'a [u8]
        requires none { rates self.old ≡ [] }
        requires room { count ≤ room self.old }
        ensures rates { rates self.new ≡ reading.rates_of count bytes.now }
        ensures after { result.now ≡ reading.after_rates count bytes.now };
}

impl Rates for Vec<TemporalLayerAllocation> {
    ghost use Rattle.std.specs.Prelude.{◌-◌, vec_len, vec_capacity};

    ghost rates = { λ list. list.items };

    ghost room = { λ list. vec_capacity list - vec_len list };

    #[inline]
    fn put_rates<'a>(&mut self, bytes: &'a [u8], count: usize) -> &'a [u8] {
        let mut after = bytes;
        for _i in 0..count {
            let (cumulative_kbps, next) = parse_leb_u63(after);
            self.push_reserved(TemporalLayerAllocation { cumulative_kbps });
            after = next;
        }
        after
    }
}

// The bytes after the first `count` rates.
pub(super) fn after_rates(bytes: &[u8], count: usize) -> &[u8]
    ensures { result.now ≡ reading.after_rates count bytes.now }
{
    let mut after = bytes;
    for _i in 0..count {
        after = parse_leb_u63(after).1;
    }
    after
}

// Whether the number in two bytes has a next one in two bytes.
fn has_next(high: u8, low: u8) -> bool
    ensures { IsTrue result ↔ (256 * high + low < 65535) }
{
    u16::from_be_bytes([high, low]) < u16::MAX
}

// The number after the one in two bytes.
fn next_of(high: u8, low: u8) -> u16
    requires { 256 * high + low < 65535 }
    ensures { result ≡ 256 * high + low + 1 }
{
    u16::from_be_bytes([high, low]) + 1
}

// Whether no width or height of the first `count` resolutions is too large.
pub(super) fn resolutions_fit(bytes: &[u8], count: usize) -> bool
    ensures { IsTrue result ↔ reading.FitResolutions count bytes.now }
{
    let mut after = bytes;
    for _i in 0..count {
        let Some((field, next)) = after.split_first_chunk::<5>() else {
            return true;
        };
        if !has_next(field[0], field[1]) {
            return false;
        }
        if !has_next(field[2], field[3]) {
            return false;
        }
        after = next;
    }
    true
}

// The resolution at the front, where there are five bytes, and the bytes after it.
pub(super) fn resolution_at(bytes: &[u8]) -> (Option<ResolutionAndFramerate>, &[u8])
    requires { reading.FitResolutions 1 bytes.now }
    ensures resolution { result.0 ≡ reading.resolution_in bytes.now }
    ensures after { result.1.now ≡ reading.after_resolution bytes.now }
{
    let Some((field, after)) = bytes.split_first_chunk::<5>() else {
        return (None, bytes);
    };
    let resolution = ResolutionAndFramerate {
        width: next_of(field[0], field[1]),
        height: next_of(field[2], field[3]),
        framerate: field[4],
    };
    (Some(resolution), after)
}

// One of the masks, two of which stand in each byte.
pub(super) fn half_at(bytes: &[u8], i: usize) -> u8
    requires { i < 2 * length bytes.now }
    ensures { result ≡ slice_index (reading.halves bytes.now) i }
{
    bytes[i / 2] >> (4 - 4 * (i % 2)) & 15
}

// How many layers a mask marks.
fn active_in(mask: u8) -> usize
    requires { mask ≤ 15 }
    ensures active { result ≡ reading.active_in mask }
    ensures few { result ≤ 4 }
{
    mask.count_ones() as usize
}

// How many layers some masks mark.
pub(super) fn active_count(masks: &[u8]) -> usize
    requires fit { AllByRecursion (λ mask. mask ≤ 15) masks.now }
    requires few { length masks.now ≤ 4 }
    ensures active { result ≡ reading.active_count masks.now }
    ensures few { result ≤ 16 }
{
    let mut active = 0;
    for mask in masks {
        active += active_in(*mask);
    }
    active
}

// The same, where a shared mask above 0 is each of them.
#[inline(always)]
pub(super) fn active_under(shared: u8, masks: &[u8]) -> usize
    requires within { shared ≤ 15 }
    requires shared { 0 < shared → AllByRecursion (λ mask. mask ≡ shared) masks.now }
    requires fit { AllByRecursion (λ mask. mask ≤ 15) masks.now }
    requires few { length masks.now ≤ 4 }
    ensures active { result ≡ reading.active_count masks.now }
    ensures few { result ≤ 16 }
{
    if shared == 0 {
        return active_count(masks);
    }
    masks.len() * active_in(shared)
}
