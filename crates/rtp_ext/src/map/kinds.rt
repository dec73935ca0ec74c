//! A map as the kinds of its ids, by which elements are read and written.

use super::ExtensionMap;
use crate::kinds::Kinds;
use crate::{MAX_ID_ONE_BYTE_FORM, slots};
use rtp_values::KnownKind;

impl Kinds for ExtensionMap {
    ghost use Rattle.std.specs.Prelude.{drop, refl};
    ghost use Rattle.rtp_ext.specs.KindsById.{known_slots};
    ghost use Rattle.rtp_ext.specs.ExtensionMap.{items_from};

    ghost slots = { λ map. map };

    ghost known = { λ map. known_slots map };

    ghost left = { λ map at end. items_from at (drop at (known_slots map)) };

    #[inline(always)]
    fn get(&self, id: u8) -> Option<KnownKind> {
        self.kinds.get(id)
    }

    #[inline(always)]
    fn walk_end(&self) -> usize {
        self.kinds.len()
    }

    #[inline(always)]
    fn next(&self, at: &mut usize, _end: &mut usize) -> Option<(u8, KnownKind)> {
        let (id, kind) = self.kinds.next(*at)?;
        *at = usize::from(id);
        Some((id, kind))
    }

    // An unknown extension too may have an id above 14.
    #[inline(always)]
    fn has_long(&self, _end: usize) -> bool {
        self.last > MAX_ID_ONE_BYTE_FORM || self.kinds.has_layers()
    }

    #[inline(always)]
    fn at_most(&self, _end: usize) -> usize {
        self.kinds.len()
    }

    fn id_under(&self, other: &Self, id: u8) -> Option<u8> {
        other.lowest_id(slots::extension(&self.slots, id)?)
    }

    // An id that isn't mapped has no new one.
    fn new_ids(&self, other: &Self) -> [u8; 256] {
        let mut ids = [0; 256];
        for (id, ext) in self.iter() {
            ids[usize::from(id)] = other.lowest_id(ext).unwrap_or(0);
        }
        ids
    }

    ghost known_is = { λ map. refl };
}
