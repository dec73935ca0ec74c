//! The slots of a map, one for each id from 1 on: what the id is mapped to.

ghost use Rattle.std.specs.Prelude.{◌≡◌, ◌≤◌, ◌↔◌, length, IsTrue, IsOk, IfOk, Some, None};
ghost use Rattle.std.specs.Cmp.{partial_equiv_from_equiv};
ghost use Rattle.std.specs.Option.{is_some, option_copied, option_map};
ghost use Rattle.rtp_values.specs.Kind.{IsKnown};
ghost use Rattle.rtp_ext.specs.EqualMaps.{same_slot, same_slot-equiv};
ghost use Rattle.rtp_ext.specs.KindsById.{entry_of_kind, known_entry};
ghost use Rattle.rtp_ext.specs.MapSlots.{IsLastId};
ghost use Rattle.rtp_ext.specs.ExtensionMap as spec;

use rtp_values::{Extension, KnownKind};
use std::alloc::{AllocError, Global};
use std::marker::Model;
use std::mem;

// Whether the extension is one of audio, or else of video.
pub(super) fn is_of_medium(ext: &Extension, audio: bool) -> bool
    ensures { result ≡ spec.is_of_medium audio ext.now }
{
    if audio {
        ext.is_audio()
    } else {
        ext.is_video()
    }
}

// How an id is mapped: not at all, or to an extension, which may be locked there.
#[derive(Debug, PartialEq, Eq, Drop)]
enum Mapping {
    Unmapped,
    Free(Extension),
    Locked(Extension),
}

/// The slot of an id: nothing, or an extension. The extension is locked once a renegotiation has
/// overwritten it: a later step for it doesn't move it.
#[derive(Debug, Drop)]
pub(super) struct Slot {
    mapping: Mapping,
}

impl Model for Slot {
    ghost use Rattle.std.specs.Prelude.{Option};
    ghost use Rattle.rtp_ext.specs.ExtensionMap.{Entry};
    ghost use Rattle.rtp_ext.specs.MapSlots.{entry_of};

    ghost Value = { Option Entry };

    ghost view = { λ slot. entry_of slot.mapping };
}

impl PartialEq for Slot {
    ghost eq = { same_slot };

    ghost laws = { partial_equiv_from_equiv same_slot-equiv };

    fn eq(&self, other: &Slot) -> bool
        ensures answer { result ≡ same_slot self.now other.now }
        ensures same { IsTrue result ↔ (self.now ≡ other.now) }
    {
        self.mapping == other.mapping
    }
}

impl Eq for Slot {
    ghost laws = { same_slot-equiv };
}

impl From<Extension> for Slot {
    ghost from_gives = { λ extension slot. slot ≡ Some (spec.unlocked extension) };

    fn from(extension: Extension) -> Self {
        Slot {
            mapping: Mapping::Free(extension),
        }
    }
}

impl Slot {
    // Of an id that isn't mapped.
    pub(super) fn unmapped() -> Self
        ensures { result ≡ None }
    {
        Slot {
            mapping: Mapping::Unmapped,
        }
    }

    // Whether the id is mapped.
    pub(super) fn is_mapped(&self) -> bool
        ensures { result ≡ is_some self.now }
    {
        self.extension().is_some()
    }

    // The extension that the id is mapped to.
    pub(super) fn extension(&self) -> Option<&Extension>
        ensures { option_copied result ≡ spec.extension_of self.now }
    {
        match &self.mapping {
            Mapping::Unmapped => None,
            Mapping::Free(extension) | Mapping::Locked(extension) => Some(extension),
        }
    }

    // The known kind that the id is mapped to.
    pub(super) fn known_kind(&self) -> Option<KnownKind>
        ensures { entry_of_kind result ≡ known_entry self.now }
    {
        self.extension()?.known_kind()
    }

    // Whether the id is mapped to an extension that is locked.
    pub(super) fn is_locked(&self) -> bool
        ensures { IsTrue result ↔ spec.IsLocked self.now }
    {
        matches!(self.mapping, Mapping::Locked(_))
    }

    // Locks the extension.
    pub(super) fn lock(&mut self)
        ensures { self.new ≡ option_map (λ entry. spec.locked entry.extension) self.old }
    {
        let old = mem::replace(&mut self.mapping, Mapping::Unmapped);
        self.mapping = match old {
            Mapping::Free(extension) => Mapping::Locked(extension),
            other => other,
        };
    }

    // A copy of the slot. Only the text of an unknown extension takes memory, and where that is
    // refused nothing is returned.
    pub(super) fn clone(&self, alloc: Global) -> Result<Self, AllocError>
        ensures same { IfOk result (λ copy. copy ≡ self.now) }
        ensures known { ((ext : Extension) → spec.extension_of self.now ≡ Some ext → IsKnown ext) →
            IsOk result }
    {
        let mapping = match &self.mapping {
            Mapping::Unmapped => Mapping::Unmapped,
            Mapping::Free(extension) => Mapping::Free(extension.clone(alloc)?),
            Mapping::Locked(extension) => Mapping::Locked(extension.clone(alloc)?),
        };
        Ok(Slot { mapping })
    }
}

// The extension of an id.
pub(super) fn extension(slots: &[Slot], id: u8) -> Option<&Extension>
    ensures { option_copied result ≡ spec.extension_at slots.now id }
{
    slots.get(usize::from(id).checked_sub(1)?)?.extension()
}

// The highest mapped id, where none above this one is mapped.
pub(super) fn last_id(slots: &[Slot], highest: u8) -> u8
    requires within { highest ≤ length slots.now }
    requires none_above { spec.HasNoIdAbove highest slots.now }
    ensures { IsLastId slots.now result }
{
    let mut last = highest;
    while last > 0 && !slots[usize::from(last) - 1].is_mapped() {
        last -= 1;
    }
    last
}

// Copies the entries of the ids up to the highest mapped one into the slots of an empty map.
pub(super) fn copy(
    alloc: Global,
    from: &[Slot],
    last: u8,
    to: &mut [Slot],
) -> Result<(), AllocError>
    requires length { length from.now ≡ length to.old }
    requires within { last ≤ length from.now }
    requires none_above { spec.HasNoIdAbove last from.now }
    requires empty { spec.IsEmpty to.old }
    ensures same { IfOk result (λ _. to.new ≡ from.now) }
    ensures known { spec.HasNoText from.now → IsOk result }
{
    for index in 0..usize::from(last) {
        to[index] = from[index].clone(alloc)?;
    }
    Ok(())
}
