//! The identifier of a session.

ghost use Rattle.std.specs.Prelude.{◌≡◌};

use std::fmt;
use std::marker::Model;

/// The identifier of an SDP session, which its `o=` line carries (RFC 8866, 5.2).
#[derive(Clone, Copy, Debug, PartialEq, Eq, Hash, PartialOrd, Ord)]
pub struct SessionId {
    number: u64,
}

impl Model for SessionId {
    ghost use Rattle.std.specs.Prelude.{ℕ};

    ghost Value = { ℕ };

    ghost view = { λ id. id.number };

    ghost inverse = { λ n. record { number = n } };
}

impl From<u64> for SessionId {
    ghost from_gives = { λ number id. id ≡ number };

    fn from(number: u64) -> Self {
        SessionId { number }
    }
}

impl SessionId {
    /// Returns the number.
    pub fn get(self) -> u64
        ensures { result ≡ self }
    {
        self.number
    }
}

impl fmt::Display for SessionId {
    ghost use Rattle.std.specs.Prelude.{Some};
    ghost use Rattle.std.specs.Fmt.{decimal};

    ghost output = { λ id. Some (decimal id) };

    fn fmt<W: fmt::Write>(&self, f: &mut fmt::Formatter<W>) -> fmt::Result {
        let number = self.get();
        write!(f, "{number}")
    }
}
