//! Which ids elements have under another map.

ghost use Rattle.std.specs.Prelude.{◌≡◌, ◌≢◌, ◌<◌, ◌≤◌, ◌↔◌, ℕ, IsTrue, IfSome, All, length, slice_index, slice_index_or};
ghost use Rattle.std.specs.Bool.{OnTrue};
ghost use Rattle.rtp_values.specs.declared.kind.Extension.TheVariants.{RtpStreamId, RepairedRtpStreamId};
ghost use Rattle.rtp_values.specs.KnownKind.{extension_of_kind};
ghost use Rattle.rtp_ext.specs.declared.form.ExtensionsForm.TheVariants.{OneByte};
ghost use Rattle.rtp_ext.specs.ElementReading.{elements_left};
ghost use Rattle.rtp_ext.specs.ElementsInPlace.{CanRenumber};
ghost use Rattle.rtp_ext.specs.NewIds.{new_id, AreNewIds, CarriesExtensions, AreRenamedIds, id_in_byte, ids_in_bytes};
ghost use Rattle.rtp_ext.specs.IdChanges.{carries_id};

use super::kinds::Kinds;
use super::renamed_ids::renamed_ids;
use super::{Elements, ExtensionsForm, MAX_ID, MAX_ID_ONE_BYTE_FORM};
use rtp_values::KnownKind;
use std::marker::Model;
use std::simd::prelude::*;

// How many ids an element can have, with 0.
const IDS: usize = MAX_ID as usize + 1;

/// The ids that elements get where a block goes from one map of extensions to another, as in a
/// server that forwards packets: a table of 256 bytes, made once for the two maps.
#[derive(Clone, Copy)]
pub struct NewIds {
    // The new id of each id from 0 on, and 0 where it has none: no extension has the id 0.
    ids: [u8; IDS],
}

impl Model for NewIds {
    ghost use Rattle.std.specs.Prelude.{◌≡◌, ◌<◌, ℕ, List, Option, length, map, slice_index_or};
    ghost use Rattle.rtp_ext.specs.NewIds.{id_in_byte, byte_of_id, bytes_back};

    ghost Value = { List (Option ℕ) };

    ghost view = { λ new. map id_in_byte new.ids };

    ghost invariant = { λ new. (length new.ids ≡ 256)
        × (slice_index_or new.ids 0 0 ≡ 0)
        × ((id : ℕ) → slice_index_or new.ids id 0 < 256) };

    ghost inverse = { λ ids. record { ids = map byte_of_id ids } };

    ghost inverse_ok = { λ new known i. record { ids = bytes_back new.ids i } };
}

// Whether the one-byte form can carry the new id in a byte of a table, if there is one.
#[tactic(auto, using(crate::proofs::NewIdLemmas::carried_byte))]
fn fits_one_byte_form(byte: u8) -> bool
    ensures { result ≡ carries_id OneByte (id_in_byte byte) }
{
    byte <= MAX_ID_ONE_BYTE_FORM
}

// Whether each of these eight bytes is at most the greatest id of the one-byte form. They are
// looked at at once.
#[inline(always)]
fn are_short(ids: &[u8]) -> bool
    requires { length ids.now ≡ 8 }
    ensures { OnTrue result ((k : ℕ) → k < 8 → slice_index ids.now k ≤ 14) }
{
    let above = u8x8::from_slice(ids).simd_gt(u8x8::splat(MAX_ID_ONE_BYTE_FORM));
    above.to_bitmask() == 0
}

impl NewIds {
    /// For each id that `from` maps to an extension that `to` maps as well, the lowest id that `to`
    /// has for it (RFC 8285, 5). Every other id has no new one. Takes no memory.
    pub fn between<K: Kinds>(from: &K, to: &K) -> Self
        ensures ids { AreNewIds (K.slots from.now) (K.slots to.now) result }
        ensures carries { CarriesExtensions (K.slots from.now) (K.slots to.now) result }
    {
        NewIds {
            ids: from.new_ids(to),
        }
    }

    /// The ids that elements get where a packet becomes a retransmission (RFC 4588, 4; RFC 8852,
    /// 3): the element of an RTP stream id becomes that of a repaired RTP stream id, and one that
    /// was there before goes. So where the map has both, each id of the first becomes the lowest of
    /// the second, and the ids of the second have no new one. Every other id keeps itself, also one
    /// that is mapped to nothing; so does each where the map hasn't both. Takes no memory.
    ///
    /// With 10 mapped to the RTP stream id and 11 to the repaired one, 10 becomes 11, 11 has no new
    /// id, and 4 stays 4.
    pub fn to_retransmission<K: Kinds>(exts: &K) -> Self
        ensures { AreRenamedIds (K.slots exts.now) RtpStreamId RepairedRtpStreamId result }
    {
        Self::renaming(exts, KnownKind::RtpStreamId, KnownKind::RepairedRtpStreamId)
    }

    /// The ids that elements get on the way back, where a retransmission becomes the packet that it
    /// repeats: as with [`to_retransmission`](Self::to_retransmission), but the element of a
    /// repaired RTP stream id becomes that of an RTP stream id.
    pub fn from_retransmission<K: Kinds>(exts: &K) -> Self
        ensures { AreRenamedIds (K.slots exts.now) RepairedRtpStreamId RtpStreamId result }
    {
        Self::renaming(exts, KnownKind::RepairedRtpStreamId, KnownKind::RtpStreamId)
    }

    // The table in which the ids of one kind become the lowest id of another, where both are
    // mapped.
    #[inline(always)]
    fn renaming<K: Kinds>(exts: &K, from: KnownKind, to: KnownKind) -> Self
        requires { from ≢ to }
        ensures { AreRenamedIds (K.slots exts.now) (extension_of_kind from)
            (extension_of_kind to) result }
    {
        NewIds {
            ids: renamed_ids(exts, from, to),
        }
    }

    /// The table of these new ids, each at the index of the old one, with 0 where an id has none.
    /// What stands at index 0 is passed over: an element whose id is 0 has no new one, since 0 is
    /// the id of no extension.
    pub fn from_ids(ids: &[u8; 256]) -> Self
        ensures { result ≡ ids_in_bytes ids.now }
    {
        let given = &ids[..];
        let mut ids = [0; IDS];
        ids.copy_from_slice(given);
        ids[0] = 0;
        NewIds { ids }
    }

    /// The new ids, each at the index of the old one, with 0 where an id has none, as at index 0:
    /// [`from_ids`](Self::from_ids) makes the same table of them.
    pub fn ids(&self) -> [u8; 256]
        ensures ids { ids_in_bytes result ≡ self.now }
        ensures first { slice_index_or result 0 0 ≡ 0 }
    {
        self.ids
    }

    /// The new id of an id, and `None` where it has none, as always for 0.
    pub fn new_id(&self, id: u8) -> Option<u8>
        ensures { result ≡ new_id self.now id }
    {
        match self.ids[usize::from(id)] {
            0 => None,
            new => Some(new),
        }
    }

    // Whether the one-byte form can carry the new id of each id up to 14, if it has one.
    #[inline(always)]
    pub(super) fn fit_one_byte_form(&self) -> bool
        ensures { OnTrue result ((id : ℕ) → id ≤ 14 →
            IfSome (new_id self.now id) (λ new. (1 ≤ new) × (new ≤ 14))) }
    {
        are_short(&self.ids[..8]) && are_short(&self.ids[7..15])
    }

    // Whether the form can carry the new ids of a body's elements.
    pub(super) fn can_renumber(&self, form: ExtensionsForm, body: &[u8]) -> bool
        ensures { IsTrue result
            ↔ All (CanRenumber form (new_id self.now)) (elements_left form body.now) }
    {
        let ids = &self.ids;
        match form {
            ExtensionsForm::TwoByte => true,
            ExtensionsForm::OneByte => Elements::new(body, form).all(|(id, _)| fits_one_byte_form(
                ids[usize::from(id)],
            )),
        }
    }
}
