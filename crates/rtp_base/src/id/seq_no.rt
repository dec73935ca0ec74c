//! The extended sequence number of a packet.

ghost use Rattle.std.specs.Prelude.{◌≡◌, ◌+◌, ◌*◌, ◌/◌, ◌%◌, ◌<◌, ◌↔◌, IsTrue};

use super::wide::{follows, rollovers, wire_part};
use std::fmt;
use std::marker::Model;

/// The extended sequence number of an RTP packet, in 64 bits: the low 16 bits are those of its
/// header, and the bits above them are the rollover count. SRTP's packet index has 48 bits of it,
/// since the rollover count has 32 bits there (RFC 3711, 3.3.1).
#[derive(Clone, Copy, Debug, PartialEq, Eq, Hash, PartialOrd, Ord)]
pub struct SeqNo {
    number: u64,
}

impl Model for SeqNo {
    ghost use Rattle.std.specs.Prelude.{ℕ};

    ghost Value = { ℕ };

    ghost view = { λ seq. seq.number };

    ghost inverse = { λ n. record { number = n } };
}

impl From<u64> for SeqNo {
    ghost from_gives = { λ number seq. seq ≡ number };

    fn from(number: u64) -> Self {
        SeqNo { number }
    }
}

impl SeqNo {
    /// The greatest number, 2^64 - 1.
    pub const MAX: SeqNo = SeqNo { number: u64::MAX };

    /// Returns the number.
    pub fn get(self) -> u64
        ensures { result ≡ self }
    {
        self.number
    }

    /// Returns whether this is the greatest number.
    pub fn is_max(&self) -> bool
        ensures { IsTrue result ↔ (self.now ≡ u64.MAX) }
    {
        *self == Self::MAX
    }

    /// Returns whether `other` is this number plus one. No number is next to the greatest.
    pub fn is_next(&self, other: SeqNo) -> bool
        ensures { IsTrue result ↔ (other ≡ self.now + 1) }
    {
        follows(self.get(), other.get())
    }

    /// Adds one, and returns the number as it was. Precondition: the number is below the greatest,
    /// 2^64 - 1.
    pub fn inc(&mut self) -> SeqNo
        requires { self.old < u64.MAX }
        ensures answer { result ≡ self.old }
        ensures after { self.new ≡ self.old + 1 }
    {
        let before = *self;
        *self = SeqNo::from(before.get() + 1);
        before
    }

    /// Returns the low 16 bits, which the RTP header carries.
    pub fn as_u16(&self) -> u16
        ensures { result ≡ self.now % 65536 }
    {
        wire_part(self.get())
    }

    /// Returns the rollover count: how often the low 16 bits have rolled over.
    pub fn roc(&self) -> u64
        ensures rollovers { result ≡ self.now / 65536 }
        ensures whole { result * 65536 + self.now % 65536 ≡ self.now }
    {
        rollovers(self.get())
    }
}

impl fmt::Display for SeqNo {
    ghost use Rattle.std.specs.Prelude.{Some};
    ghost use Rattle.std.specs.Fmt.{decimal};

    ghost output = { λ seq. Some (decimal seq) };

    fn fmt<W: fmt::Write>(&self, f: &mut fmt::Formatter<W>) -> fmt::Result {
        let number = self.get();
        write!(f, "{number}")
    }
}
