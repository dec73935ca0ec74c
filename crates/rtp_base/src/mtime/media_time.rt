//! Media times as ticks of a clock.

ghost use Rattle.std.specs.Prelude.{◌≡◌, ◌*◌, ◌<◌, ◌^◌, ◌↔◌, IsTrue};
ghost use Rattle.std.specs.Option.{SomeIff};
ghost use Rattle.rtp_base.specs.MediaTime.{Fraction, IsLess, IsAtMost, whole_ticks, in_ticks, next_tick};

use super::frequency::Frequency;
use std::marker::Model;

/// A media time as a number of ticks of a clock, the way RTP timestamps count it (RFC 3550, 5.1):
/// the ticks divided by the clock's frequency are the time in seconds. It is never negative.
///
/// Times are compared exactly, as fractions, whatever their frequencies are. A sum or a difference
/// has whole ticks of the greater of the two frequencies.
///
/// ```
/// let frame = MediaTime::from_millis(20);
/// assert_eq!(frame.rebase(Frequency::FORTY_EIGHT_KHZ).numer(), 960);
/// assert!(frame == MediaTime::from_90khz(1_800));
/// let sum = frame + MediaTime::from_90khz(1_800);
/// assert_eq!((sum.numer(), sum.denom()), (3_600, 90_000));
/// ```
#[derive(Clone, Copy, Debug)]
pub struct MediaTime {
    numer: u64,
    frequency: Frequency,
}

impl Model for MediaTime {
    ghost use Rattle.rtp_base.specs.MediaTime.{Fraction};

    ghost Value = { Fraction };

    ghost view = { λ t. record { numer = t.numer; denom = t.frequency } };

    ghost inverse = { λ a. record { numer = a.numer; frequency = a.denom } };
}

// The product, which always fits 128 bits.
pub(super) fn product(numer: u64, hertz: u32) -> u128
    ensures { result ≡ numer * hertz }
{
    u128::from(numer) * u128::from(hertz)
}

impl MediaTime {
    /// Zero seconds, 0 at 1.
    pub const ZERO: MediaTime = MediaTime {
        numer: 0,
        frequency: Frequency::SECONDS,
    };

    /// Returns the time of this many ticks at a frequency.
    pub fn new(numer: u64, denom: Frequency) -> MediaTime
        ensures { result ≡ record { numer = numer; denom = denom } }
    {
        MediaTime {
            numer,
            frequency: denom,
        }
    }

    /// Returns the number of ticks.
    pub fn numer(self) -> u64
        ensures { result ≡ self.numer }
    {
        self.numer
    }

    /// Returns the number of ticks in a second, which is at least 1.
    pub fn denom(self) -> u32
        ensures value { result ≡ self.denom }
        ensures positive { 0 < result }
    {
        self.frequency.get()
    }

    /// Returns the frequency of the ticks.
    pub fn frequency(self) -> Frequency
        ensures { result ≡ self.denom }
    {
        self.frequency
    }

    /// Returns the time of this many microseconds.
    pub fn from_micros(micros: u64) -> MediaTime
        ensures { result ≡ record { numer = micros; denom = 1000000 } }
    {
        MediaTime::new(micros, Frequency::MICROS)
    }

    /// Returns the time of this many units of 2^-18 seconds.
    pub fn from_fixed_point_6_18(units: u64) -> MediaTime
        ensures { result ≡ record { numer = units; denom = 262144 } }
    {
        MediaTime::new(units, Frequency::FIXED_POINT_6_18)
    }

    /// Returns the time of this many ticks of a 90 kHz clock.
    pub fn from_90khz(ticks: u64) -> MediaTime
        ensures { result ≡ record { numer = ticks; denom = 90000 } }
    {
        MediaTime::new(ticks, Frequency::NINETY_KHZ)
    }

    /// Returns the time of this many milliseconds.
    pub fn from_millis(millis: u64) -> MediaTime
        ensures { result ≡ record { numer = millis; denom = 1000 } }
    {
        MediaTime::new(millis, Frequency::MILLIS)
    }

    /// Returns the time of this many hundredths of a second.
    pub fn from_hundredths(hundredths: u64) -> MediaTime
        ensures { result ≡ record { numer = hundredths; denom = 100 } }
    {
        MediaTime::new(hundredths, Frequency::HUNDREDTHS)
    }

    /// Returns the time of this many seconds.
    pub fn from_secs(secs: u64) -> MediaTime
        ensures { result ≡ record { numer = secs; denom = 1 } }
    {
        MediaTime::new(secs, Frequency::SECONDS)
    }

    /// Returns whether the time is zero, at any frequency.
    pub fn is_zero(self) -> bool
        ensures { IsTrue result ↔ (self.numer ≡ 0) }
    {
        self.numer == 0
    }

    // The time in whole ticks of this frequency, rounded down: not above the time, and less than
    // one tick below it.
    fn ticks_at(self, frequency: Frequency) -> u128
        ensures ticks { result ≡ whole_ticks self frequency }
        ensures not_above { IsAtMost (in_ticks self frequency) self }
        ensures near { IsLess self (next_tick (in_ticks self frequency)) }
    {
        let (from, to) = (self.denom(), frequency.get());
        if from == to {
            return u128::from(self.numer);
        }
        match self.numer.checked_mul(u64::from(to)) {
            Some(product) => u128::from(product / u64::from(from)),
            None => product(self.numer, to) / u128::from(from),
        }
    }

    /// Returns the time as [`rebase`](Self::rebase) does, or `None` where the number of ticks does
    /// not fit 64 bits: `Some` exactly where the precondition of `rebase` holds.
    pub fn checked_rebase(self, frequency: Frequency) -> Option<MediaTime>
        ensures { SomeIff result (whole_ticks self frequency < 2 ^ 64) (in_ticks self frequency) }
    {
        match u64::try_from(self.ticks_at(frequency)) {
            Ok(numer) => Some(MediaTime { numer, frequency }),
            Err(_) => None,
        }
    }

    /// Returns the time in whole ticks of this frequency, rounded down. Precondition: the number of
    /// ticks fits 64 bits; [`checked_rebase`](Self::checked_rebase) tests it.
    pub fn rebase(self, frequency: Frequency) -> MediaTime
        requires fits { whole_ticks self frequency < 2 ^ 64 }
        ensures ticks { result ≡ in_ticks self frequency }
        ensures not_above { IsAtMost result self }
        ensures near { IsLess self (next_tick result) }
    {
        let numer = self.ticks_at(frequency) as u64;
        MediaTime { numer, frequency }
    }

    /// Returns the time in whole microseconds, rounded down. Precondition: their number fits 64
    /// bits; [`checked_rebase`](Self::checked_rebase) to [`Frequency::MICROS`] tests it.
    pub fn as_micros(self) -> u64
        requires fits { whole_ticks self 1000000 < 2 ^ 64 }
        ensures { result ≡ whole_ticks self 1000000 }
    {
        self.rebase(Frequency::MICROS).numer
    }
}
