//! The frequency of a media clock.

ghost use Rattle.std.specs.Prelude.{◌≡◌, ℕ, ◌<◌, IfOk, Ok};
ghost use Rattle.std.specs.Option.{SomeIff};
ghost use Rattle.rtp_base.specs.Frequency.{IsFrequencyText};

use std::fmt;
use std::marker::Model;
use std::str::FromStr;
use thiserror::Error;

/// The frequency of a media clock in hertz, 1 to 2^32 - 1. SDP gives that of each payload type
/// (RFC 8866, 6.6), and RTP timestamps count the ticks of it (RFC 3550, 5.1).
#[derive(Clone, Copy, Debug, PartialEq, Eq, Hash, PartialOrd, Ord)]
pub struct Frequency {
    hertz: u32,
}

impl Model for Frequency {
    ghost use Rattle.std.specs.Prelude.{ℕ, ◌<◌};

    ghost Value = { ℕ };

    ghost view = { λ f. f.hertz };

    ghost invariant = { λ f. 0 < f.hertz };

    ghost inverse = { λ n. record { hertz = n } };
}

impl Frequency {
    /// 1 MHz, whose ticks are microseconds.
    pub const MICROS: Frequency = Frequency { hertz: 1_000_000 };

    /// 2^18 Hz, whose ticks are the units of a fixed-point number of seconds with 18 bits after the
    /// point.
    pub const FIXED_POINT_6_18: Frequency = Frequency { hertz: 262_144 };

    /// 90 kHz, the clock of most video (RFC 3551, 5).
    pub const NINETY_KHZ: Frequency = Frequency { hertz: 90_000 };

    /// 48 kHz, the clock of Opus (RFC 7587, 4.1).
    pub const FORTY_EIGHT_KHZ: Frequency = Frequency { hertz: 48_000 };

    /// 16 kHz, as for wideband speech.
    pub const SIXTEEN_KHZ: Frequency = Frequency { hertz: 16_000 };

    /// 8 kHz, the clock of telephone speech (RFC 3551, 4.5).
    pub const EIGHT_KHZ: Frequency = Frequency { hertz: 8_000 };

    /// 1 kHz, whose ticks are milliseconds.
    pub const MILLIS: Frequency = Frequency { hertz: 1_000 };

    /// 100 Hz, whose ticks are hundredths of a second.
    pub const HUNDREDTHS: Frequency = Frequency { hertz: 100 };

    /// 1 Hz, whose ticks are seconds.
    pub const SECONDS: Frequency = Frequency { hertz: 1 };

    /// Returns the frequency of this many hertz, or `None` for 0.
    pub fn new(hertz: u32) -> Option<Frequency>
        ensures { SomeIff result (0 < hertz) hertz }
    {
        if hertz == 0 {
            return None;
        }
        Some(Frequency { hertz })
    }

    /// Returns the number of hertz, which is at least 1.
    pub fn get(self) -> u32
        ensures value { result ≡ self }
        ensures positive { 0 < result }
    {
        self.hertz
    }
}

/// The text is not a frequency.
#[derive(Clone, Copy, Debug, PartialEq, Eq, Error)]
#[error("not a frequency")]
pub struct ParseFrequencyError;

impl FromStr for Frequency {
    type Err = ParseFrequencyError;

    // A frequency that is returned is the text's, and each text of a frequency returns it.
    ghost from_str_gives = { λ text result. IfOk result (IsFrequencyText text)
        × ((hertz : ℕ) → IsFrequencyText text hertz → result ≡ Ok hertz) };

    /// Reads decimal digits, with an optional plus before them; leading zeros are allowed. Returns
    /// an error for every other text, for 0, and for a number above 2^32 - 1.
    fn from_str(s: &str) -> Result<Frequency, ParseFrequencyError> {
        match s.parse::<u32>() {
            Ok(hertz) => Frequency::new(hertz).ok_or(ParseFrequencyError),
            Err(_) => Err(ParseFrequencyError),
        }
    }
}

impl fmt::Display for Frequency {
    ghost use Rattle.std.specs.Prelude.{Some};
    ghost use Rattle.std.specs.Fmt.{decimal};

    ghost output = { λ f. Some (decimal f) };

    fn fmt<W: fmt::Write>(&self, f: &mut fmt::Formatter<W>) -> fmt::Result {
        let hertz = self.get();
        write!(f, "{hertz}")
    }
}
