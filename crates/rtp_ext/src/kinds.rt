//! What says which known extension each id means.

ghost use Rattle.std.specs.Prelude.{◌≡◌, ◌≢◌, ◌≤◌, ◌∷◌, [], ℕ, List, length, IfSome, IfNone};
ghost use Rattle.std.specs.Option.{option_map};
ghost use Rattle.std.specs.List.{list_any};
ghost use Rattle.rtp_values.specs.declared.kind.Extension.{Extension};
ghost use Rattle.rtp_values.specs.KnownKind.{extension_of_kind};
ghost use Rattle.rtp_ext.specs.ExtensionMap.{IsId, Slots, HasNoIdAbove, extension_at, items_from};
ghost use Rattle.rtp_ext.specs.KindsById.{is_long_item, known_slots};
ghost use Rattle.rtp_ext.specs.NewIds.{IsNewId, AreNewBytes, Renames};

use super::renamed_ids::renamed;
use rtp_values::KnownKind;

/// A map from ids to known extensions (RFC 8285, 5): all that reading and writing the elements of a
/// packet needs of it. [`ExtensionMap`](super::ExtensionMap) is one.
pub trait Kinds {
    // What each id is mapped to.
    ghost slots: { Self → Slots };

    // The known extensions of it.
    ghost known: { Self → Slots };

    // The mapped ids that a walk has not passed yet, at this place of it and with this end.
    ghost left: { Self → ℕ → ℕ → List (ℕ × Extension) };

    /// The kind that the id is mapped to, and `None` where there is none, as always for 0.
    fn get(&self, id: u8) -> Option<KnownKind>
        ensures { option_map extension_of_kind result ≡ extension_at (known self.now) id };

    /// The end with which a walk over all ids that are mapped to a known extension begins at 0.
    /// `next` may move it.
    fn walk_end(&self) -> usize
        ensures all { left self.now 0 result ≡ items_from 0 (known self.now) }
        ensures few { length (items_from 0 (known self.now)) ≤ 255 }
        ensures within { result ≤ 255 };

    /// The next such id of a walk, each higher than the one before it, and its kind.
    fn next(&self, at: &mut usize, end: &mut usize) -> Option<(u8, KnownKind)>
        requires { end.old ≤ 255 }
        ensures some { IfSome result (λ item. left self.now at.old end.old
            ≡ (item.0, extension_of_kind item.1) ∷ left self.now at.new end.new) }
        ensures none { IfNone result (left self.now at.old end.old ≡ []) }
        ensures within { end.new ≤ 255 };

    /// Whether the one-byte form can't carry a mapped id or the longest data of a mapped kind. The
    /// end is that of a walk over all of them.
    fn has_long(&self, end: usize) -> bool
        requires all { left self.now 0 end ≡ items_from 0 (known self.now) }
        requires within { end ≤ 255 }
        ensures { result ≡ list_any is_long_item (items_from 0 (slots self.now)) };

    /// At most so many ids are mapped to a known extension. The end is that of a walk over all of
    /// them.
    fn at_most(&self, end: usize) -> usize
        requires all { left self.now 0 end ≡ items_from 0 (known self.now) }
        requires within { end ≤ 255 }
        ensures most { length (items_from 0 (known self.now)) ≤ result }
        ensures few { result ≤ 255 };

    /// The lowest id that the other map has for the extension of this id.
    fn id_under(&self, other: &Self, id: u8) -> Option<u8>
        ensures new { IsNewId (slots self.now) (slots other.now) id result }
        ensures valid { IfSome result IsId }
        ensures no_others { HasNoIdAbove 255 (slots self.now) };

    /// The new id of each id where elements go from this map to the other, each at the index of the
    /// old one: the lowest id that the other map has for its extension, and 0 where it has none.
    fn new_ids(&self, other: &Self) -> [u8; 256]
        ensures { AreNewBytes (slots self.now) (slots other.now) result }
    {
        let mut ids = [0; 256];
        for (id, new) in ids.iter_mut().enumerate() {
            *new = self.id_under(other, id as u8).unwrap_or(0);
        }
        ids
    }

    /// Puts `lowest` at the index of each id that is mapped to the first kind, and 0 at that of
    /// each id that is mapped to the second. Precondition: the kinds are two.
    fn rename(&self, from: KnownKind, to: KnownKind, lowest: u8, ids: &mut [u8; 256])
        requires { from ≢ to }
        ensures { Renames (known self.now) (extension_of_kind from)
            (extension_of_kind to) lowest ids.old ids.new }
    {
        let mut at = 0;
        let mut end = self.walk_end();
        while let Some((id, kind)) = self.next(&mut at, &mut end) {
            let index = usize::from(id);
            ids[index] = renamed(Some(kind), from, to, lowest, ids[index]);
        }
    }

    ghost known_is: { (map : Self) → known map ≡ known_slots (slots map) };
}
