//! The known extensions of a map by their ids.

ghost use Rattle.std.specs.Prelude.{◌≡◌, ◌≢◌, ◌-◌, ◌≤◌, ◌∷◌, ℕ, [], drop, replicate, None, IfSome, IfNone, slice_set};
ghost use Rattle.std.specs.Option.{option_map};
ghost use Rattle.std.specs.List.{list_any, swap};
ghost use Rattle.rtp_values.specs.KnownKind.{extension_of_kind};
ghost use Rattle.rtp_ext.specs.ExtensionMap.{IsId, IsLowest, IsUnmapped, Slots, entry_at, extension_at, items_from, mapped_count};
ghost use Rattle.rtp_ext.specs.KindsById.{slots_of, entry_of_kind, is_layers, has_long_data};
ghost use Rattle.rtp_ext.specs.MapSlots.{next_ids};

use super::map::MAX_ID;
use rtp_values::KnownKind;
use std::marker::Model;

// How many ids there are, with that of padding.
pub(super) const IDS: usize = MAX_ID as usize + 1;

// The known extensions of a map by their ids (RFC 8285, 5): what reading and writing the elements
// of a packet needs of it.
#[derive(Clone, Copy)]
pub(super) struct KindsById {
    // What each id is mapped to, the id 0 to nothing.
    kinds: [Option<KnownKind>; IDS],
    // The lowest mapped id above each id, so that a walk goes over the mapped ids alone, and 0 where
    // there is none.
    next: [u8; IDS],
    // How many ids are mapped.
    count: u16,
    // How many ids are mapped to the layer allocation, the one kind that may have more than 16
    // bytes of data.
    layers: u16,
}

impl Model for KindsById {
    ghost use Rattle.std.specs.Prelude.{◌≡◌, List, Option, None, length, slice_index_or};
    ghost use Rattle.rtp_values.specs.declared.known_kind.KnownKind.{KnownKind};
    ghost use Rattle.rtp_ext.specs.ExtensionMap.{mapped_count};
    ghost use Rattle.rtp_ext.specs.KindsById.{slots_of, layers_count};
    ghost use Rattle.rtp_ext.specs.MapSlots.{next_ids};
    ghost use Rattle.rtp_ext.specs.declared.kinds_by_id.TheConstants.{IDS};
    ghost use Rattle.std.proofs.Common.{sym};

    ghost Value = { List (Option KnownKind) };

    ghost view = { λ table. table.kinds };

    ghost invariant = { λ table. (length table.kinds ≡ IDS)
        × (slice_index_or table.kinds 0 None ≡ None)
        × (table.next ≡ next_ids 0 (slots_of table.kinds))
        × (table.count ≡ mapped_count (slots_of table.kinds))
        × (table.layers ≡ layers_count table.kinds) };

    ghost inverse = { λ kinds. record {
      kinds = kinds;
      next = next_ids 0 (slots_of kinds);
      count = mapped_count (slots_of kinds);
      layers = layers_count kinds;
    } };

    ghost inverse_ok = { λ table known i. record {
      kinds = table.kinds;
      next = sym known.2 i;
      count = sym known.3 i;
      layers = sym known.4 i;
    } };
}

impl KindsById {
    // A table in which no id is mapped.
    pub(super) fn empty() -> Self
        ensures { slots_of result ≡ replicate MAX_ID None }
    {
        KindsById {
            kinds: [None; IDS],
            next: [0; IDS],
            count: 0,
            layers: 0,
        }
    }

    // How many ids are mapped.
    pub(super) fn len(&self) -> usize
        ensures count { result ≡ mapped_count (slots_of self.now) }
        ensures few { result ≤ MAX_ID }
    {
        usize::from(self.count)
    }

    // The kind that the id is mapped to, and `None` where there is none, as always for 0.
    pub(super) fn get(&self, id: u8) -> Option<KnownKind>
        ensures { option_map extension_of_kind result ≡ extension_at (slots_of self.now) id }
    {
        self.kinds[usize::from(id)]
    }

    // Maps the id to the kind, or to nothing, instead of what it was mapped to.
    pub(super) fn set(&mut self, id: u8, kind: Option<KnownKind>)
        requires { IsId id }
        ensures { slots_of self.new ≡ slice_set (slots_of self.old) (id - 1) (entry_of_kind kind) }
    {
        let old = self.kinds[usize::from(id)];
        self.kinds[usize::from(id)] = kind;
        self.layers += u16::from(is_layers(kind));
        self.layers -= u16::from(is_layers(old));
        self.count += u16::from(kind.is_some());
        self.count -= u16::from(old.is_some());
        if kind.is_some() != old.is_some() {
            set_next(&self.kinds, id, &mut self.next);
        }
    }

    // Puts the kinds of two ids in each other's place.
    pub(super) fn exchange(&mut self, from: u8, to: u8)
        requires ids { IsId from × IsId to }
        requires apart { from ≢ to }
        ensures { slots_of self.new ≡ swap (slots_of self.old) (from - 1) (to - 1) }
    {
        let kind = self.kinds[usize::from(from)];
        self.set(from, self.kinds[usize::from(to)]);
        self.set(to, kind);
    }

    // The lowest id that is mapped to the kind: the first, since the ids of a walk rise.
    pub(super) fn lowest_id(&self, kind: KnownKind) -> Option<u8>
        ensures found { IfSome result (IsLowest (slots_of self.now) (extension_of_kind kind)) }
        ensures valid { IfSome result IsId }
        ensures none { IfNone result (IsUnmapped (slots_of self.now) (extension_of_kind kind)) }
    {
        let mut passed = 0;
        while let Some((id, found)) = self.next(passed) {
            if found == kind {
                return Some(id);
            }
            passed = usize::from(id);
        }
        None
    }

    // The lowest mapped id above this one, and its kind.
    #[inline(always)]
    pub(super) fn next(&self, id: usize) -> Option<(u8, KnownKind)>
        ensures some { IfSome result (λ item. items_from id (drop id (slots_of self.now))
            ≡ (item.0, extension_of_kind item.1) ∷ items_from item.0 (drop item.0 (slots_of self.now))) }
        ensures none { IfNone result (items_from id (drop id (slots_of self.now)) ≡ []) }
    {
        let next = *self.next.get(id)?;
        // Where there is none, it is 0, which has no kind.
        Some((next, self.kinds[usize::from(next)]?))
    }

    // Whether a mapped kind may have more than 16 bytes of data.
    #[tactic(auto, using(crate::proofs::TableLemmas::any_layers))]
    pub(super) fn has_layers(&self) -> bool
        ensures { result ≡ list_any has_long_data (items_from 0 (slots_of self.now)) }
    {
        self.layers > 0
    }
}

// Whether the kind is the layer allocation.
#[inline(always)]
fn is_layers(kind: Option<KnownKind>) -> bool
    ensures { result ≡ is_layers kind }
{
    matches!(kind, Some(KnownKind::VideoLayersAllocation))
}

// Sets the next ids of those below this one, which got a kind or lost it: down to the next mapped
// one, as the others have theirs below it.
fn set_next(kinds: &[Option<KnownKind>; IDS], id: u8, next: &mut [u8; IDS])
    requires id { IsId id }
    requires others { (old : Slots) × ((k : ℕ) → k ≢ id →
        entry_at (slots_of kinds.now) k ≡ entry_at old k) × (next.old ≡ next_ids 0 old) }
    ensures { next.new ≡ next_ids 0 (slots_of kinds.now) }
{
    let mut below = usize::from(id);
    let to = if kinds[below].is_some() {
        id
    } else {
        next[below]
    };
    while below > 0 {
        below -= 1;
        next[below] = to;
        if kinds[below].is_some() {
            return;
        }
    }
}
