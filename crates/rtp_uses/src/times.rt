//! Frequencies and media times.

ghost use Rattle.std.specs.Prelude.{◌≡◌, ◌<◌, ◌↔◌, IsTrue, Ok};

use rtp_base::{Frequency, MediaTime};
use std::alloc::AllocError;

/// The frequency of microseconds is 1,000,000 Hz.
pub fn micros() -> Frequency
    ensures { result ≡ 1000000 }
{
    Frequency::MICROS
}

/// The frequency of units of 2^-18 seconds is 262,144 Hz.
pub fn fixed_point_6_18() -> Frequency
    ensures { result ≡ 262144 }
{
    Frequency::FIXED_POINT_6_18
}

/// 90 kHz are 90,000 Hz.
pub fn ninety_khz() -> Frequency
    ensures { result ≡ 90000 }
{
    Frequency::NINETY_KHZ
}

/// 48 kHz are 48,000 Hz.
pub fn forty_eight_khz() -> Frequency
    ensures { result ≡ 48000 }
{
    Frequency::FORTY_EIGHT_KHZ
}

/// 16 kHz are 16,000 Hz.
pub fn sixteen_khz() -> Frequency
    ensures { result ≡ 16000 }
{
    Frequency::SIXTEEN_KHZ
}

/// 8 kHz are 8,000 Hz.
pub fn eight_khz() -> Frequency
    ensures { result ≡ 8000 }
{
    Frequency::EIGHT_KHZ
}

/// The frequency of milliseconds is 1,000 Hz.
pub fn millis() -> Frequency
    ensures { result ≡ 1000 }
{
    Frequency::MILLIS
}

/// The frequency of hundredths of a second is 100 Hz.
pub fn hundredths() -> Frequency
    ensures { result ≡ 100 }
{
    Frequency::HUNDREDTHS
}

/// The frequency of seconds is 1 Hz.
pub fn seconds() -> Frequency
    ensures { result ≡ 1 }
{
    Frequency::SECONDS
}

/// Frequencies are ordered by their hertz.
pub fn is_less_frequency(a: Frequency, b: Frequency) -> bool
    ensures { IsTrue result ↔ (a < b) }
{
    a < b
}

/// The time zero is 0 ticks at 1 Hz.
pub fn zero() -> MediaTime
    ensures { result ≡ record { numer = 0; denom = 1 } }
{
    MediaTime::ZERO
}

/// The clone of a time has the same ticks at the same frequency.
pub fn cloned_time(time: &MediaTime) -> Result<MediaTime, AllocError>
    ensures { result ≡ Ok time.now }
{
    time.clone()
}
