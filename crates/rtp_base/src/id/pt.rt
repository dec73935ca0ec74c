//! The payload type of a packet.

ghost use Rattle.std.specs.Prelude.{◌≡◌};

use std::fmt;
use std::marker::Model;

/// The payload type (PT) of a packet, which stands for a codec and its parameters as they were
/// signalled (RFC 3550, 5.1). The header has 7 bits for it: a number above 127 is kept as it is
/// given, but no header can be written with it.
#[derive(Clone, Copy, Debug, PartialEq, Eq, Hash, PartialOrd, Ord)]
pub struct Pt {
    number: u8,
}

impl Model for Pt {
    ghost use Rattle.std.specs.Prelude.{ℕ};

    ghost Value = { ℕ };

    ghost view = { λ p. p.number };

    ghost inverse = { λ n. record { number = n } };
}

impl From<u8> for Pt {
    ghost from_gives = { λ number pt. pt ≡ number };

    fn from(number: u8) -> Self {
        Pt { number }
    }
}

impl Pt {
    /// Returns the payload type of this number, as `From` does.
    pub fn new_with_value(v: u8) -> Pt
        ensures { result ≡ v }
    {
        Pt::from(v)
    }

    /// Returns the number.
    pub fn get(self) -> u8
        ensures { result ≡ self }
    {
        self.number
    }
}

impl fmt::Display for Pt {
    ghost use Rattle.std.specs.Prelude.{Some};
    ghost use Rattle.std.specs.Fmt.{decimal};

    ghost output = { λ p. Some (decimal p) };

    fn fmt<W: fmt::Write>(&self, f: &mut fmt::Formatter<W>) -> fmt::Result {
        let number = self.get();
        write!(f, "{number}")
    }
}
