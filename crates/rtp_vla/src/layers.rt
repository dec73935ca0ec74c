//! The active layers that bytes have.

ghost use Rattle.std.specs.Prelude.{◌≡◌, ◌≤◌, ◌∷◌, ◌⊎◌, [], length};
ghost use Rattle.std.specs.Bool.{OnTrue};
ghost use Rattle.rtp_vla.specs.AllocationReading as reading;

use super::allocation::ResolutionAndFramerate;
use super::counts::Counts;
use super::parts::{Rates, resolution_at};
use std::marker::Model;

/// The active layers that are left to read.
#[derive(Drop)]
pub(super) struct LayerReader<'a> {
    counts: Counts,
    rates: &'a [u8],
    resolutions: &'a [u8],
}

impl<'a> Model for LayerReader<'a> {
    ghost use Rattle.std.specs.Prelude.{List, length};
    ghost use Rattle.rtp_vla.specs.Allocation.{Layer};
    ghost use Rattle.rtp_vla.specs.AllocationReading.{layers_read, FitResolutions};

    ghost Value = { List Layer };

    ghost view = { λ reader.
        layers_read reader.counts reader.rates.now reader.resolutions.now };

    ghost invariant = { λ reader. FitResolutions (length reader.counts) reader.resolutions.now };
}

impl<'a> LayerReader<'a> {
    // The first layers, one for each count.
    pub(super) fn new(counts: Counts, rates: &'a [u8], resolutions: &'a [u8]) -> Self
        requires fit { reading.FitResolutions (length counts) resolutions.now }
        ensures { result ≡ reading.layers_read counts rates.now resolutions.now }
    {
        LayerReader {
            counts,
            rates,
            resolutions,
        }
    }

    // How many temporal layers the next layer has where it is active; an idle one has none.
    pub(super) fn next_len(&self, is_active: bool) -> usize
        requires { OnTrue is_active (1 ≤ length self.now) }
        ensures { result ≡ reading.next_len is_active self.now }
    {
        if is_active {
            usize::from(self.counts.first()) + 1
        } else {
            0
        }
    }

    // Takes the next layer where it is active, and an idle one where it isn't: puts its rates, and
    // returns its resolution.
    #[inline]
    pub(super) fn next<R: Rates>(
        &mut self,
        is_active: bool,
        rates: &mut R,
    ) -> Option<ResolutionAndFramerate>
        requires some { OnTrue is_active (1 ≤ length self.old) }
        requires none { R.rates rates.old ≡ [] }
        requires room { (4 ≤ R.room rates.old)
            ⊎ (reading.next_len is_active self.old ≤ R.room rates.old) }
        ensures { reading.Deals is_active self.old (record {
          temporal_layers = R.rates rates.new;
          resolution_and_framerate = result;
        }) self.new }
    {
        if !is_active {
            return None;
        }
        let count = usize::from(self.counts.next()) + 1;
        self.rates = rates.put_rates(self.rates, count);
        let (resolution_and_framerate, resolutions) = resolution_at(self.resolutions);
        self.resolutions = resolutions;
        resolution_and_framerate
    }
}
