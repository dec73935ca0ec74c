//! The identifier of a cluster of probes.

ghost use Rattle.std.specs.Prelude.{◌≡◌, ◌+◌, ◌%◌, ◌^◌};

use std::fmt;
use std::marker::Model;

/// The identifier of a cluster of probing packets, which tells the feedback on different clusters
/// apart.
#[derive(Clone, Copy, Debug, PartialEq, Eq, Hash, Default)]
pub struct TwccClusterId {
    number: u64,
}

impl Model for TwccClusterId {
    ghost use Rattle.std.specs.Prelude.{ℕ};

    ghost Value = { ℕ };

    ghost view = { λ id. id.number };

    ghost inverse = { λ n. record { number = n } };
}

impl From<u64> for TwccClusterId {
    ghost from_gives = { λ number id. id ≡ number };

    fn from(number: u64) -> Self {
        TwccClusterId { number }
    }
}

impl TwccClusterId {
    /// Returns the number.
    pub fn get(self) -> u64
        ensures { result ≡ self }
    {
        self.number
    }

    /// Adds one, and returns the identifier as it was. After the greatest number comes 0.
    pub fn inc(&mut self) -> TwccClusterId
        ensures answer { result ≡ self.old }
        ensures after { self.new ≡ (self.old + 1) % 2 ^ 64 }
    {
        let before = *self;
        *self = TwccClusterId::from(before.get().wrapping_add(1));
        before
    }
}

impl fmt::Display for TwccClusterId {
    ghost use Rattle.std.specs.Prelude.{Some};
    ghost use Rattle.std.specs.Fmt.{decimal};

    ghost output = { λ id. Some (decimal id) };

    fn fmt<W: fmt::Write>(&self, f: &mut fmt::Formatter<W>) -> fmt::Result {
        let number = self.get();
        write!(f, "{number}")
    }
}
