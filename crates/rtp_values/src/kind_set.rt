//! Sets of the known header extensions.

ghost use Rattle.std.specs.Prelude.{◌≡◌, ◌≢◌, ◌↔◌, true, false, IsTrue};
ghost use Rattle.rtp_values.specs.declared.known_kind.KnownKind.{KnownKind};
ghost use Rattle.rtp_values.specs.KindSet.{has};

use super::KnownKind;
use super::known_kind::KINDS;
use std::marker::Model;

/// A set of the known header extensions (RFC 8285, 5), as the kinds of which a header has a value.
#[derive(Clone, Copy, Debug, PartialEq, Eq)]
pub struct KindSet {
    // Whether each kind is in it, in the order of `KnownKind`.
    pub(super) flags: [bool; KINDS],
}

impl Model for KindSet {
    ghost use Rattle.std.specs.Prelude.{Bool, List};

    ghost Value = { List Bool };

    ghost view = { λ set. set.flags };

    ghost inverse = { λ flags. record { flags = flags } };
}

impl KindSet {
    /// The set without kinds.
    pub fn new() -> Self
        ensures { (kind : KnownKind) → has result kind ≡ false }
    {
        KindSet {
            flags: [false; KINDS],
        }
    }

    /// The set of the kinds that have a flag which is set, in the order of [`KnownKind`].
    pub fn from_flags(flags: [bool; KINDS]) -> Self
        ensures { (kind : KnownKind) → has result kind ≡ has flags kind }
    {
        KindSet { flags }
    }

    /// Whether the kind is in the set.
    pub fn contains(&self, kind: KnownKind) -> bool
        ensures { result ≡ has self.now kind }
    {
        self.flags[kind as usize]
    }

    /// Puts the kind into the set, where it may be already.
    pub fn insert(&mut self, kind: KnownKind)
        ensures this { has self.new kind ≡ true }
        ensures others { (other : KnownKind) → other ≢ kind →
            has self.new other ≡ has self.old other }
    {
        self.flags[kind as usize] = true;
    }

    /// Takes the kind out of the set, where it may not be.
    pub fn remove(&mut self, kind: KnownKind)
        ensures this { has self.new kind ≡ false }
        ensures others { (other : KnownKind) → other ≢ kind →
            has self.new other ≡ has self.old other }
    {
        self.flags[kind as usize] = false;
    }

    /// Whether no kind is in the set.
    pub fn is_empty(&self) -> bool
        ensures { IsTrue result ↔ ((kind : KnownKind) → has self.now kind ≡ false) }
    {
        !self.flags.contains(&true)
    }
}
