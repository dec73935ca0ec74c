//! The counts of temporal layers, four of which stand in each byte.

ghost use Rattle.std.specs.Prelude.{◌≡◌, ℕ, ◌+◌, ◌*◌, ◌≤◌, ◌∷◌, List, length, take};
ghost use Rattle.rtp_vla.specs.AllocationReading as reading;

use std::marker::Model;

// The high bit of each count.
const HIGH_BITS: u64 = 0xAAAA_AAAA;

/// The counts that are left, at most 16.
#[derive(Drop)]
pub(super) struct Counts {
    // Two bits for each count, those of the next one on top.
    bits: u32,
    left: usize,
}

impl Model for Counts {
    ghost use Rattle.std.specs.Prelude.{ℕ, ◌≤◌, List};
    ghost use Rattle.rtp_vla.specs.AllocationReading.{counts_in};

    ghost Value = { List ℕ };

    ghost view = { λ counts. counts_in counts.left counts.bits };

    ghost invariant = { λ counts. counts.left ≤ 16 };
}

// The number in four bytes.
fn word(a: u8, b: u8, c: u8, d: u8) -> u32
    ensures { result ≡ 16777216 * a + 65536 * b + 256 * c + d }
{
    u32::from_be_bytes([a, b, c, d])
}

// The counts of up to four bytes, those of the first byte on top.
fn bits_of(bytes: &[u8]) -> u32
    requires few { length bytes.now ≤ 4 }
    ensures { (n : ℕ) → n ≤ 4 * length bytes.now →
        reading.counts_in n result ≡ take n (reading.quarters bytes.now) }
{
    match bytes {
        [] => 0,
        [a] => word(*a, 0, 0, 0),
        [a, b] => word(*a, *b, 0, 0),
        [a, b, c] => word(*a, *b, *c, 0),
        [a, b, c, d, ..] => word(*a, *b, *c, *d),
    }
}

impl Counts {
    // The first counts of up to four bytes.
    pub(super) fn new(bytes: &[u8], count: usize) -> Self
        requires within { count ≤ 4 * length bytes.now }
        requires few { length bytes.now ≤ 4 }
        ensures { result ≡ take count (reading.quarters bytes.now) }
    {
        Counts {
            bits: bits_of(bytes),
            left: count,
        }
    }

    // The next count, of which there is one.
    pub(super) fn first(&self) -> u8
        requires { 1 ≤ length self.now }
        ensures first { (count : ℕ) (left : List ℕ) → self.now ≡ count ∷ left → result ≡ count }
        ensures few { result ≤ 3 }
    {
        (self.bits >> 30) as u8
    }

    // Takes the next count, of which there is one.
    pub(super) fn next(&mut self) -> u8
        requires { 1 ≤ length self.old }
        ensures next { self.old ≡ result ∷ self.new }
        ensures few { result ≤ 3 }
    {
        let count = self.first();
        self.bits <<= 2;
        self.left -= 1;
        count
    }

    // How many rates the counts announce, for each one more than it says. A bit that is set adds
    // one, and the high bit of a count one more. Without counts no bits are looked at, since data of
    // other kinds often mean an allocation without active layers.
    pub(super) fn rate_count(&self) -> usize
        ensures { result ≡ reading.rate_count self.now }
    {
        if self.left == 0 {
            return 0;
        }
        let counts = u64::from(self.bits) >> (32 - 2 * self.left);
        let sum = counts.count_ones() + (counts & HIGH_BITS).count_ones();
        self.left + sum as usize
    }
}
