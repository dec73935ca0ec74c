//! The synchronization source of a packet.

ghost use Rattle.std.specs.Prelude.{◌≡◌, ◌↔◌, IsTrue};

use std::fmt;
use std::marker::Model;

/// The synchronization source (SSRC) of a packet, which identifies one stream of one sender in a
/// session (RFC 3550, 3 and 5.1). Each number of 32 bits is one.
#[derive(Clone, Copy, Debug, PartialEq, Eq, Hash, PartialOrd, Ord)]
pub struct Ssrc {
    number: u32,
}

impl Model for Ssrc {
    ghost use Rattle.std.specs.Prelude.{ℕ};

    ghost Value = { ℕ };

    ghost view = { λ s. s.number };

    ghost inverse = { λ n. record { number = n } };
}

impl From<u32> for Ssrc {
    ghost from_gives = { λ number ssrc. ssrc ≡ number };

    fn from(number: u32) -> Self {
        Ssrc { number }
    }
}

impl Ssrc {
    /// Returns the number.
    pub fn get(self) -> u32
        ensures { result ≡ self }
    {
        self.number
    }

    /// Returns whether this is 0, the source of the probes that libwebrtc sends before any media.
    pub fn is_probe(&self) -> bool
        ensures { IsTrue result ↔ (self.now ≡ 0) }
    {
        self.get() == 0
    }
}

impl fmt::Display for Ssrc {
    ghost use Rattle.std.specs.Prelude.{Some};
    ghost use Rattle.std.specs.Fmt.{decimal};

    ghost output = { λ s. Some (decimal s) };

    fn fmt<W: fmt::Write>(&self, f: &mut fmt::Formatter<W>) -> fmt::Result {
        let number = self.get();
        write!(f, "{number}")
    }
}
