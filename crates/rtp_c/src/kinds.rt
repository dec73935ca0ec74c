//! The map that C fills, as it stands, as a map of kinds.

ghost use Rattle.std.specs.Prelude.{◌≡◌, ◌+◌, ℕ, ◌<◌, ◌≤◌, slice_index, None};
ghost use Rattle.std.specs.Bool.{OnTrue};
ghost use Rattle.rtp_c.specs.KindNumbers.{kind_numbered};
ghost use Rattle.rtp_c.specs.StoredMap.{IsNumberAt, IsIdOf};

use super::numbers::{
    LAYERS, are_zeros, has_kind, has_number, index_of, is_named, kind_numbered, last_of_16,
    number_of, renamed,
};
use rtp_ext::Kinds;
use rtp_values::KnownKind;

/// The extensions by their ids (RFC 8285, 5): `rtpw_map` in C, 256 bytes, which C may fill itself.
/// Each value is one: a number from 128 on is one of the caller's own, whose id is mapped to no
/// kind; any other that is no kind's maps its id to nothing, and what stands at index 0 is passed
/// over.
#[repr(C)]
#[derive(Clone, Copy)]
pub struct StoredMap {
    /// The number of the kind of each id.
    pub kind: [u8; 256],
}

// How many slots the one-byte form has, and how many there are.
const LOW_SLOTS: usize = 14;

const ALL_SLOTS: usize = 255;

// So many slots are tested at once for a kind.
const AT_ONCE: usize = 16;

impl StoredMap {
    // The number that the id means, and 0 where it means none.
    #[inline(always)]
    pub fn number_at(&self, id: u8) -> u8
        ensures { IsNumberAt self.now.kind id result }
    {
        let number = self.kind[usize::from(id)];
        if id != 0 && is_named(number) {
            number
        } else {
            0
        }
    }

    // Whether no id from 16 on means a number, as under most maps.
    #[inline(always)]
    fn has_low_ids_alone(&self) -> bool
        ensures { OnTrue result ((id : ℕ) → 16 ≤ id → slice_index self.now.kind id ≡ 0) }
    {
        are_zeros(&self.kind[16..32]) & are_zeros(&self.kind[32..])
    }

    // The index from which on each number is 0: 16 where all from there on are, or the end.
    pub(super) fn numbers_end(&self) -> usize
        ensures zeros { (id : ℕ) → result ≤ id → id < 256 → slice_index self.now.kind id ≡ 0 }
        ensures few { result ≤ 256 }
    {
        if self.has_low_ids_alone() { 16 } else { 256 }
    }

    // A slot such that each from the given one up to it is mapped to no kind: the first behind
    // which one of 16 is, or fewer than 16 are left. The slot of an id stands at the index below
    // it.
    #[inline(never)]
    fn past_unmapped(&self, from: usize) -> usize
        requires { from < 255 }
        ensures after { from ≤ result }
        ensures within { result ≤ 255 }
        ensures unmapped { (slot : ℕ) → from ≤ slot → slot < result →
            kind_numbered (slice_index self.now.kind (slot + 1)) ≡ None }
    {
        let mut slot = from;
        while slot + AT_ONCE <= ALL_SLOTS && !has_kind(&self.kind[slot + 1..slot + 1 + AT_ONCE]) {
            slot += AT_ONCE;
        }
        slot
    }

    // The lowest id that means the number, and 0 where none does.
    pub fn id_of(&self, number: u8) -> u8
        ensures { IsIdOf self.now.kind number result }
    {
        if !is_named(number) {
            return 0;
        }
        match index_of(&self.kind[1..], number) {
            Some(index) => index as u8 + 1,
            None => 0,
        }
    }
}

impl Kinds for StoredMap {
    ghost use Rattle.std.specs.Prelude.{take, drop, map};
    ghost use Rattle.rtp_ext.specs.ExtensionMap.{items_from};
    ghost use Rattle.rtp_ext.specs.KindsById.{known_of_kinds};
    ghost use Rattle.rtp_c.specs.KindNumbers.{kind_numbered};
    ghost use Rattle.rtp_c.specs.StoredMap.{numbered_slots, last_end};

    ghost slots = { λ map. numbered_slots map.kind };

    ghost known = { λ map. numbered_slots map.kind };

    // A walk that ends within the slots of the one-byte form ends there, and any other at the last
    // slot.
    ghost left = { λ map at end.
        items_from at (drop at (take (last_end end) (numbered_slots map.kind))) };

    #[inline(always)]
    fn get(&self, id: u8) -> Option<KnownKind> {
        if id == 0 {
            return None;
        }
        kind_numbered(self.kind[usize::from(id)])
    }

    // The end is that of the slots that are looked at one by one: where only low ids are mapped that
    // of the last of these, and else the first 15, behind which those without a kind are passed over.
    #[inline(always)]
    fn walk_end(&self) -> usize {
        if self.has_low_ids_alone() {
            last_of_16(&self.kind[..16])
        } else {
            LOW_SLOTS + 1
        }
    }

    #[inline(always)]
    fn next(&self, at: &mut usize, end: &mut usize) -> Option<(u8, KnownKind)> {
        let mut slot = *at;
        let mut slots = *end;
        loop {
            if slot < slots {
                let found = kind_numbered(self.kind[slot + 1]);
                slot += 1;
                if let Some(kind) = found {
                    *at = slot;
                    *end = slots;
                    return Some((slot as u8, kind));
                }
            } else if slots <= LOW_SLOTS || slot >= ALL_SLOTS {
                return None;
            } else {
                slot = self.past_unmapped(slot);
                slots = ALL_SLOTS.min(slot + AT_ONCE);
            }
        }
    }

    // An id above 14 that is mapped to a kind is long, and so is the layer allocation at any id.
    #[inline(always)]
    fn has_long(&self, end: usize) -> bool {
        has_number(&self.kind[1..17], LAYERS) || (end > LOW_SLOTS && has_kind(&self.kind[15..]))
    }

    #[inline(always)]
    fn at_most(&self, end: usize) -> usize {
        if end <= LOW_SLOTS { end } else { ALL_SLOTS }
    }

    fn id_under(&self, other: &Self, id: u8) -> Option<u8> {
        let kind = self.get(id)?;
        let index = index_of(&other.kind[1..], number_of(kind))?;
        Some(index as u8 + 1)
    }

    // By the numbers, so that many are looked at at once. What stands at index 0 is that of no id.
    fn rename(&self, from: KnownKind, to: KnownKind, lowest: u8, ids: &mut [u8; 256]) {
        let from = number_of(from);
        let to = number_of(to);
        for id in 1..256 {
            ids[id] = renamed(self.kind[id], from, to, lowest, ids[id]);
        }
    }

    ghost known_is = { λ numbered. known_of_kinds (map kind_numbered numbered.kind) };
}
