//! A map taken through a renegotiation.

ghost use Rattle.std.specs.Prelude.{◌≡◌, ◌≢◌, ◌↔◌, IsTrue, map};
ghost use Rattle.std.specs.Option.{option_map};
ghost use Rattle.rtp_ext.specs.ExtensionMap as spec;
ghost use Rattle.rtp_ext.specs.MapSlots.{Puts, Swaps};

use super::ExtensionMap;
use crate::slots;
use rtp_values::Extension;

impl ExtensionMap {
    /// Takes up the pairs of a renegotiation, one step after another: for each pair the peer maps
    /// the id to the extension. A pair whose id is 0, or whose extension isn't mapped, changes
    /// nothing. The lowest id of the extension counts. Where that is the id, its entry is locked.
    /// Where it is another and locked, nothing changes. Else the entry moves to the id and is
    /// locked there, and the entry of that id, locked or not, moves to the other.
    ///
    /// A map of 3 to the transport number, 4 to the video orientation and 5 to the content type,
    /// after the pairs of 12 and the video orientation, and of 14 and the transport number, maps 5
    /// to the content type, 12 to the video orientation and 14 to the transport number, the last
    /// two locked.
    pub fn remap(&mut self, steps: &[(u8, &Extension)])
        ensures steps { spec.AreRemapped self.old
            (map (λ step. (step.0, step.1.now)) steps.now) self.new }
        ensures renumbered { spec.IsRenumbered self.old self.new }
    {
        for (id, ext) in steps {
            self.remap_one(*id, ext);
        }
    }

    // One step of a renegotiation.
    fn remap_one(&mut self, id: u8, ext: &Extension)
        ensures step { spec.Remaps self.old id ext.now self.new }
        ensures renumbered { spec.IsRenumbered self.old self.new }
    {
        if id == 0 {
            return;
        }
        let Some(lowest) = self.lowest_id(ext) else {
            return
        };
        if lowest == id {
            self.lock(id);
            return;
        }
        if self.is_locked(lowest) {
            return;
        }
        self.exchange(lowest, id);
        self.lock(id);
    }

    // Puts the entries of two ids in each other's place.
    fn exchange(&mut self, from: u8, to: u8)
        requires ids { spec.IsId from × spec.IsId to }
        requires apart { from ≢ to }
        ensures { Swaps self.old self.new from to }
    {
        self.kinds.exchange(from, to);
        let here = usize::from(from) - 1;
        let there = usize::from(to) - 1;
        self.slots.swap(here, there);
        self.last = slots::last_id(&self.slots, self.last.max(from).max(to));
    }

    // Whether the entry of the id is locked.
    fn is_locked(&self, id: u8) -> bool
        requires { spec.IsId id }
        ensures { IsTrue result ↔ spec.IsLockedAt self.now id }
    {
        self.slots[usize::from(id) - 1].is_locked()
    }

    // Locks the entry of the id, if it has one.
    fn lock(&mut self, id: u8)
        requires { spec.IsId id }
        ensures { Puts self.old self.new id
            (option_map (λ entry. spec.locked entry.extension) (spec.entry_at self.old id)) }
    {
        self.slots[usize::from(id) - 1].lock();
    }
}
