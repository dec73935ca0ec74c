//! The direction of media.

ghost use Rattle.std.specs.Prelude.{◌≡◌, ◌⊎◌, ◌↔◌, IsTrue};
ghost use Rattle.rtp_base.specs.Direction.{direction_text, opposite, IsDirectionName};

use std::fmt;

/// The direction of a media section or of a header extension, as this side of the session sees it
/// (RFC 8866, 6.7; RFC 8285, 5).
#[derive(Clone, Copy, Debug, PartialEq, Eq)]
pub enum Direction {
    /// This side only sends.
    SendOnly,
    /// This side only receives.
    RecvOnly,
    /// Both sides send and receive.
    SendRecv,
    /// Neither side sends.
    Inactive,
}

impl Direction {
    /// Returns the direction as the other side sees it: `SendOnly` and `RecvOnly` are exchanged,
    /// and the other two stay.
    pub fn invert(&self) -> Self
        ensures answer { result ≡ opposite self.now }
        ensures twice { opposite result ≡ self.now }
    {
        match self {
            Direction::SendOnly => Direction::RecvOnly,
            Direction::RecvOnly => Direction::SendOnly,
            both => *both,
        }
    }

    /// Returns whether this side sends: true for `SendOnly` and `SendRecv`.
    pub fn is_sending(&self) -> bool
        ensures { IsTrue result
            ↔ ((self.now ≡ Direction.SendOnly) ⊎ (self.now ≡ Direction.SendRecv)) }
    {
        matches!(self, Direction::SendOnly | Direction::SendRecv)
    }

    /// Returns whether this side receives: true for `RecvOnly` and `SendRecv`.
    pub fn is_receiving(&self) -> bool
        ensures { IsTrue result
            ↔ ((self.now ≡ Direction.RecvOnly) ⊎ (self.now ≡ Direction.SendRecv)) }
    {
        matches!(self, Direction::RecvOnly | Direction::SendRecv)
    }

    /// Returns whether this side counts as receiving while an SDP answer is made: true where it
    /// receives, and also for `Inactive`, because the formats of the answer are then taken from the
    /// offer (RFC 3264, 6.1).
    pub fn sdp_is_receiving(&self) -> bool
        ensures { IsTrue result ↔ ((self.now ≡ Direction.RecvOnly)
            ⊎ ((self.now ≡ Direction.SendRecv) ⊎ (self.now ≡ Direction.Inactive))) }
    {
        matches!(
            self,
            Direction::RecvOnly | Direction::SendRecv | Direction::Inactive
        )
    }
}

impl From<&str> for Direction {
    ghost from_gives = { λ text direction. IsDirectionName text.now direction };

    /// Returns the direction that the text names, in lower case, and `Inactive` for every other
    /// text.
    fn from(v: &str) -> Self {
        match v {
            "sendonly" => Direction::SendOnly,
            "recvonly" => Direction::RecvOnly,
            "sendrecv" => Direction::SendRecv,
            _ => Direction::Inactive,
        }
    }
}

impl fmt::Display for Direction {
    ghost use Rattle.std.specs.Prelude.{Some};

    ghost output = { λ direction. Some (direction_text direction) };

    // The text is plain, whatever width and flags are set.
    ghost styled_output = { λ direction _. Some (direction_text direction) };

    fn fmt<W: fmt::Write>(&self, f: &mut fmt::Formatter<W>) -> fmt::Result {
        f.write_str(match self {
            Direction::SendOnly => "sendonly",
            Direction::RecvOnly => "recvonly",
            Direction::SendRecv => "sendrecv",
            Direction::Inactive => "inactive",
        })
    }
}
