//! Which id is mapped to which extension.

mod kinds;
mod remap;

ghost use Rattle.std.specs.Prelude.{◌≡◌, ◌≢◌, ◌↔◌, ℕ, true, false, IsTrue, IfOk, IfSome, IfNone, length, ◌≤◌};
ghost use Rattle.std.specs.Option.{option_copied};
ghost use Rattle.rtp_ext.specs.ExtensionMap as spec;
ghost use Rattle.rtp_ext.specs.ExtensionMap.{items_from};
ghost use Rattle.rtp_ext.specs.EqualMaps.{same_slots, same_slots-equiv};

use super::iter::write_entries;
use super::kinds_by_id::KindsById;
use super::slots::Slot;
use super::{Iter, IterByMediaType, slots};
use rtp_values::Extension;
use std::alloc::{AllocError, Global};
use std::marker::Model;
use std::{array, fmt};

/// The greatest id that a map has room for, and that an element can have: that of the two-byte form
/// (RFC 8285, 4.3).
pub const MAX_ID: u8 = 255;

/// The extensions that two peers have agreed on, by their id (RFC 8285, 5): a map from the ids 1 to
/// [`MAX_ID`] to extensions. Several ids may be mapped to one extension. An entry is locked once a
/// renegotiation has overwritten it: a later step for its extension doesn't move it, though it is
/// moved where a step for another extension has its id.
///
/// Two maps are equal exactly when the same ids are mapped to the same extensions, locked alike. A
/// map has its entries in place, some 10 KB, so lend it and don't move it for each packet.
#[derive(Drop)]
pub struct ExtensionMap {
    // What the ids from 1 on are mapped to.
    slots: [Slot; MAX_ID as usize],
    // The highest mapped id, at which a walk ends, and 0 where none is mapped.
    last: u8,
    // The known extensions, by which elements are read and written.
    kinds: KindsById,
}

impl Model for ExtensionMap {
    ghost use Rattle.std.specs.Prelude.{◌≡◌, length};
    ghost use Rattle.rtp_ext.specs.ExtensionMap.{Slots};
    ghost use Rattle.rtp_ext.specs.MapSlots.{IsLastId};
    ghost use Rattle.rtp_ext.specs.KindsById.{slots_of, known_slots};
    ghost use Rattle.rtp_ext.specs.declared.map.TheConstants.{MAX_ID};

    ghost Value = { Slots };

    ghost view = { λ map. map.slots };

    ghost invariant = { λ map. (length map.slots ≡ MAX_ID)
        × (IsLastId map.slots map.last)
        × (slots_of map.kinds ≡ known_slots map.slots) };
}

impl PartialEq for ExtensionMap {
    ghost use Rattle.std.specs.Cmp.{partial_equiv_from_equiv};

    ghost eq = { same_slots };

    ghost laws = { partial_equiv_from_equiv same_slots-equiv };

    /// Whether the same ids are mapped to the same extensions, locked alike.
    fn eq(&self, other: &ExtensionMap) -> bool
        ensures answer { result ≡ same_slots self.now other.now }
        ensures same { IsTrue result ↔ (self.now ≡ other.now) }
    {
        self.slots == other.slots
    }
}

impl Eq for ExtensionMap {
    ghost laws = { same_slots-equiv };
}

impl ExtensionMap {
    /// A map in which no id is mapped. Takes no memory.
    pub fn empty() -> Self
        ensures { spec.IsEmpty result }
    {
        ExtensionMap {
            slots: array::from_fn(|_| Slot::unmapped()),
            last: 0,
            kinds: KindsById::empty(),
        }
    }

    /// The usual ids of the usual extensions, for audio and video: 1 audio level, 2 absolute send
    /// time, 3 transport sequence number, 4 mid, 10 stream id, 11 repaired stream id, 13 video
    /// orientation. Nothing is locked. Takes no memory.
    pub fn standard() -> Self
        ensures items { spec.ListsItems result (λ _. true) spec.standard_items }
        ensures unlocked { spec.IsUnlocked result }
    {
        let mut exts = Self::empty();
        exts.set(1, Extension::AudioLevel);
        exts.set(2, Extension::AbsoluteSendTime);
        exts.set(3, Extension::TransportSequenceNumber);
        exts.set(4, Extension::RtpMid);
        exts.set(10, Extension::RtpStreamId);
        exts.set(11, Extension::RepairedRtpStreamId);
        exts.set(13, Extension::VideoOrientation);
        exts
    }

    /// Takes every extension out of the map.
    pub fn clear(&mut self)
        ensures { spec.IsEmpty self.new }
    {
        *self = Self::empty();
    }

    /// Whether no id is mapped.
    pub fn is_empty(&self) -> bool
        ensures { IsTrue result ↔ spec.IsEmpty self.now }
    {
        self.last == 0
    }

    /// How many ids are mapped.
    pub fn len(&self) -> usize
        ensures count { result ≡ spec.mapped_count self.now }
        ensures few { result ≤ MAX_ID }
    {
        let mut count = 0;
        for _ in self.iter() {
            count += 1;
        }
        count
    }

    /// Maps the id to the extension, unlocked, instead of what it was mapped to. The id 0, which a
    /// map has no room for, changes nothing.
    #[inline(never)]
    pub fn set(&mut self, id: u8, ext: Extension)
        ensures within { spec.IsId id → spec.Sets self.old self.new id (spec.unlocked ext) }
        ensures outside { (spec.IsId id → ⊥) → self.new ≡ self.old }
    {
        // It is a call, so that what makes a map stays small enough to be made in its place.
        if id != 0 {
            self.put(id, ext);
        }
    }

    // Maps the id to the extension, unlocked, instead of what it was mapped to.
    #[inline(always)]
    fn put(&mut self, id: u8, ext: Extension)
        requires { spec.IsId id }
        ensures { spec.Sets self.old self.new id (spec.unlocked ext) }
    {
        let new = Slot::from(ext);
        self.kinds.set(id, new.known_kind());
        self.slots[usize::from(id) - 1] = new;
        self.last = self.last.max(id);
    }

    /// The extension that the id is mapped to, and `None` where there is none, as always for 0.
    pub fn lookup(&self, id: u8) -> Option<&Extension>
        ensures { option_copied result ≡ spec.extension_at self.now id }
    {
        slots::extension(&self.slots, id)
    }

    /// The lowest id that is mapped to the extension.
    pub fn id_of(&self, ext: Extension) -> Option<u8>
        ensures found { IfSome result (spec.IsLowest self.now ext) }
        ensures none { IfNone result (spec.IsUnmapped self.now ext) }
    {
        self.lowest_id(&ext)
    }

    // The lowest id that is mapped to the extension.
    fn lowest_id(&self, ext: &Extension) -> Option<u8>
        ensures found { IfSome result (spec.IsLowest self.now ext.now) }
        ensures valid { IfSome result spec.IsId }
        ensures none { IfNone result (spec.IsUnmapped self.now ext.now) }
    {
        match ext.known_kind() {
            Some(kind) => self.kinds.lowest_id(kind),
            None => self.lowest_unknown(ext),
        }
    }

    // The lowest id that is mapped to any extension, known or not: the first that is found, since the
    // ids rise.
    fn lowest_unknown(&self, ext: &Extension) -> Option<u8>
        ensures found { IfSome result (spec.IsLowest self.now ext.now) }
        ensures valid { IfSome result spec.IsId }
        ensures none { IfNone result (spec.IsUnmapped self.now ext.now) }
    {
        for (id, held) in self.iter() {
            if held == ext {
                return Some(id);
            }
        }
        None
    }

    /// The mapped ids by rising id, each with its extension.
    pub fn iter(&self) -> Iter<'_>
        ensures listing { spec.ListsItems self.now (λ _. true) result }
        ensures items { result ≡ items_from 0 self.now }
        ensures few { length result ≤ MAX_ID }
    {
        Iter::new(&self.slots[..usize::from(self.last)])
    }

    /// The ids whose extensions are for audio, or else for video, by rising id, each with its
    /// extension. Most extensions are for both, and an unknown one is for neither.
    pub fn iter_by_media_type(&self, audio: bool) -> IterByMediaType<'_>
        ensures { spec.ListsItems self.now (spec.is_of_medium audio) result }
    {
        IterByMediaType::new(self.iter(), audio)
    }

    /// The ids whose extensions are for audio, by rising id, each with its extension.
    pub fn iter_audio(&self) -> IterByMediaType<'_>
        ensures { spec.ListsItems self.now (spec.is_of_medium true) result }
    {
        self.iter_by_media_type(true)
    }

    /// The ids whose extensions are for video, by rising id, each with its extension.
    pub fn iter_video(&self) -> IterByMediaType<'_>
        ensures { spec.ListsItems self.now (spec.is_of_medium false) result }
    {
        self.iter_by_media_type(false)
    }

    /// The entries of the extensions for audio, or else for video, all unlocked. Takes no memory,
    /// since an unknown extension is for neither.
    pub fn cloned_with_type(&self, audio: bool) -> Self
        ensures { (id : ℕ) →
            spec.entry_at result id ≡ spec.of_medium audio (spec.entry_at self.now id) }
    {
        let mut exts = Self::empty();
        for (id, ext) in self.iter_by_media_type(audio) {
            if let Some(kind) = ext.known_kind() {
                exts.put(id, Extension::from(kind));
            }
        }
        exts
    }

    /// A copy of the map. Only the texts of unknown extensions take memory, and where that is refused
    /// nothing is returned.
    pub fn clone(&self, alloc: Global) -> Result<Self, AllocError>
        ensures same { IfOk result (λ copy. copy ≡ self.now) }
        ensures known { spec.HasNoText self.now → result ≡ Ok self.now }
    {
        let mut copy = Self::empty();
        slots::copy(alloc, &self.slots, self.last, &mut copy.slots)?;
        copy.last = self.last;
        copy.kinds = self.kinds;
        Ok(copy)
    }
}

/// The entries by rising id, each as its number and the extension's text.
impl fmt::Debug for ExtensionMap {
    ghost use Rattle.std.specs.Prelude.{Some, [], ◌++◌, codes};
    ghost use Rattle.rtp_ext.specs.ExtensionMap.{items_from, items_text};

    ghost debug_output = { λ map. Some (codes "Extensions(" ++ items_text [] (items_from 0 map)
        ++ codes ")") };

    fn fmt<W: fmt::Write>(&self, f: &mut fmt::Formatter<W>) -> fmt::Result {
        f.write_str("Extensions(")?;
        write_entries(f, self.iter())?;
        f.write_str(")")
    }
}
