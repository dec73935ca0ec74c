//! Walks over the mapped ids of a map.

ghost use Rattle.std.specs.Prelude.{◌≡◌, ◌≤◌, ◌∷◌, [], length, IfSome, IfNone};
ghost use Rattle.std.specs.Bool.{OnTrue};
ghost use Rattle.std.specs.List.{list_any};
ghost use Rattle.rtp_values.specs.KnownKind.{extension_of_kind};
ghost use Rattle.rtp_ext.specs.ExtensionMap.{items_from};
ghost use Rattle.rtp_ext.specs.KindsById.{is_long_item, known_slots};

use super::kinds::Kinds;
use rtp_values::KnownKind;
use std::marker::Model;

/// The ids that a map maps to a known extension (RFC 8285, 5), found once for several walks over
/// them. A clause sees what the map maps.
#[derive(Drop)]
pub struct KnownIds<'a, K: Kinds> {
    exts: &'a K,
    // The end with which each walk begins.
    end: usize,
}

impl<'a, K: Kinds> Model for KnownIds<'a, K> {
    ghost use Rattle.std.specs.Prelude.{◌≡◌, ◌≤◌, length};
    ghost use Rattle.rtp_ext.specs.ExtensionMap.{Slots, items_from};

    ghost Value = { Slots };

    ghost view = { λ ids. K.slots ids.exts.now };

    ghost invariant = { λ ids. (K.left ids.exts.now 0 ids.end ≡ items_from 0 (K.known ids.exts.now))
        × (length (items_from 0 (K.known ids.exts.now)) ≤ 255)
        × (ids.end ≤ 255) };
}

/// A walk over the ids of [`KnownIds`], each higher than the one before it, with its kind. A clause
/// sees those that are left.
#[derive(Drop)]
pub struct KnownItems<'a, K: Kinds> {
    exts: &'a K,
    // Where the walk looks next, and the end that it has.
    at: usize,
    end: usize,
}

impl<'a, K: Kinds> Model for KnownItems<'a, K> {
    ghost use Rattle.std.specs.Prelude.{◌≤◌, ℕ, List};
    ghost use Rattle.rtp_values.specs.declared.kind.Extension.{Extension};

    ghost Value = { List (ℕ × Extension) };

    ghost view = { λ walk. K.left walk.exts.now walk.at walk.end };

    ghost invariant = { λ walk. walk.end ≤ 255 };
}

impl<'a, K: Kinds> KnownItems<'a, K> {
    /// The next id and its kind.
    #[inline(always)]
    pub fn next(&mut self) -> Option<(u8, KnownKind)>
        ensures some { IfSome result (λ item.
            self.old ≡ (item.0, extension_of_kind item.1) ∷ self.new) }
        ensures none { IfNone result (self.old ≡ []) }
    {
        self.exts.next(&mut self.at, &mut self.end)
    }
}

impl<'a, K: Kinds> KnownIds<'a, K> {
    /// Those of the map.
    #[inline(always)]
    pub fn of(exts: &'a K) -> Self
        ensures { result ≡ K.slots exts.now }
    {
        KnownIds {
            exts,
            end: exts.walk_end(),
        }
    }

    /// A walk over all of them.
    #[inline(always)]
    pub fn iter(&self) -> KnownItems<'a, K>
        ensures all { result ≡ items_from 0 (known_slots self.now) }
        ensures few { length result ≤ 255 }
    {
        KnownItems {
            exts: self.exts,
            at: 0,
            end: self.end,
        }
    }

    /// Whether the one-byte form can't carry a mapped id or the longest data of a mapped kind.
    #[inline(always)]
    pub fn has_long(&self) -> bool
        ensures { result ≡ list_any is_long_item (items_from 0 self.now) }
    {
        self.exts.has_long(self.end)
    }

    /// At most so many ids are mapped to a known extension.
    #[inline(always)]
    pub fn at_most(&self) -> usize
        ensures most { length (items_from 0 (known_slots self.now)) ≤ result }
        ensures few { result ≤ 255 }
    {
        self.exts.at_most(self.end)
    }

    /// Whether it is known without a walk that no id is mapped to a known extension.
    #[inline(always)]
    pub fn are_none(&self) -> bool
        ensures { OnTrue result (items_from 0 (known_slots self.now) ≡ []) }
    {
        self.at_most() == 0
    }
}
