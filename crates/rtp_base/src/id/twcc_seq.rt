//! The transport-wide sequence number of a packet.

ghost use Rattle.std.specs.Prelude.{◌≡◌, ◌+◌, ◌*◌, ◌/◌, ◌%◌, ◌<◌, ◌↔◌, IsTrue};

use super::wide::{follows, rollovers, wire_part};
use std::fmt;
use std::marker::Model;

/// The extended sequence number of a packet in transport-wide congestion control, in 64 bits. It
/// counts the packets of all streams of a transport together, apart from the streams' own sequence
/// numbers.
#[derive(Clone, Copy, Debug, PartialEq, Eq, Hash, PartialOrd, Ord, Default)]
pub struct TwccSeq {
    number: u64,
}

impl Model for TwccSeq {
    ghost use Rattle.std.specs.Prelude.{ℕ};

    ghost Value = { ℕ };

    ghost view = { λ seq. seq.number };

    ghost inverse = { λ n. record { number = n } };
}

impl From<u64> for TwccSeq {
    ghost from_gives = { λ number seq. seq ≡ number };

    fn from(number: u64) -> Self {
        TwccSeq { number }
    }
}

impl TwccSeq {
    /// Returns the number.
    pub fn get(self) -> u64
        ensures { result ≡ self }
    {
        self.number
    }

    /// Returns whether `other` is this number plus one. No number is next to the greatest.
    pub fn is_next(&self, other: TwccSeq) -> bool
        ensures { IsTrue result ↔ (other ≡ self.now + 1) }
    {
        follows(self.get(), other.get())
    }

    /// Adds one, and returns the number as it was. Precondition: the number is below the greatest,
    /// 2^64 - 1.
    pub fn inc(&mut self) -> TwccSeq
        requires { self.old < u64.MAX }
        ensures answer { result ≡ self.old }
        ensures after { self.new ≡ self.old + 1 }
    {
        let before = *self;
        *self = TwccSeq::from(before.get() + 1);
        before
    }

    /// Returns the low 16 bits, which the header extension carries.
    pub fn as_u16(&self) -> u16
        ensures { result ≡ self.now % 65536 }
    {
        wire_part(self.get())
    }

    /// Returns the rollover count: how often the low 16 bits have rolled over.
    pub fn roc(&self) -> u64
        ensures rollovers { result ≡ self.now / 65536 }
        ensures whole { result * 65536 + self.now % 65536 ≡ self.now }
    {
        rollovers(self.get())
    }
}

impl fmt::Display for TwccSeq {
    ghost use Rattle.std.specs.Prelude.{Some};
    ghost use Rattle.std.specs.Fmt.{decimal};

    ghost output = { λ seq. Some (decimal seq) };

    fn fmt<W: fmt::Write>(&self, f: &mut fmt::Formatter<W>) -> fmt::Result {
        let number = self.get();
        write!(f, "{number}")
    }
}
