//! A receiver for each source, and how it is found.

ghost use Rattle.std.specs.Prelude.{◌≡◌, ◌≢◌, ◌+◌, ◌<◌, ◌≤◌, ◌++◌, ◌∷◌, [], ℕ, length, Some, None, IsSome, OnOk, OnErr, IfSome, IfNone};
ghost use Rattle.std.specs.Option.{option_copied};
ghost use Rattle.std.specs.Ordering.{nat_cmp};
ghost use Rattle.std.specs.BTreeMap.{get, Updates};
ghost use Rattle.rtp_receive.specs.SourcePlaces.{source_at, held_of, ArePlaces};

use super::Receiver;
use super::hints::Hints;
use rtp_base::Ssrc;
use std::alloc::{AllocError, Global};
use std::collections::BTreeMap;
use std::fmt;

// So few sources are gone through one by one, which takes less than the map does.
const FEW: usize = 16;

// A look that changes nothing may be for a forged packet, of which there is no hint. Among no more
// sources than these, a look at the hints in vain would add too much to what the map takes.
const MANY: usize = 4_096;

// The sources with their receivers, in a list that has any order, and the place of each source in
// it. Packets come in bursts of one source, so the place of the last one's source is tried first.
// Few sources are gone through then. Among more it is tried where a hint says, and a source is
// looked up in the map only where another one stands there.
#[derive(Drop)]
pub(super) struct Sources {
    pub(super) list: Vec<(Ssrc, Receiver)>,
    pub(super) places: BTreeMap<Ssrc, usize>,
    pub(super) hints: Hints,
}

// Hints aren't shown: they say nothing that the list doesn't.
impl fmt::Debug for Sources {
    fn fmt<W: fmt::Write>(&self, f: &mut fmt::Formatter<W>) -> fmt::Result {
        f.debug_struct("Sources")
            .field("list", &self.list)
            .field("places", &self.places)
            .field("last", &self.hints.last_place)
            .finish()
    }
}

impl Sources {
    // No source yet.
    pub(super) fn new(alloc: Global) -> Self
        ensures list { result.list.items ≡ [] }
        ensures places { result.places.entries ≡ [] }
    {
        Sources {
            list: Vec::new(alloc),
            places: BTreeMap::new(alloc),
            hints: Hints::new(alloc),
        }
    }

    // The place of the source in the list, and `None` where it has none.
    pub(super) fn place_of(&self, ssrc: Ssrc) -> Option<usize>
        requires { ArePlaces self.now.places self.now.list.items }
        ensures { result ≡ get nat_cmp self.now.places ssrc }
    {
        let last = self.hints.last_place;
        match self.list.get(last) {
            Some((source, _)) if *source == ssrc => Some(last),
            _ => self.place_of_another(ssrc),
        }
    }

    // The same, where the source isn't the last packet's.
    fn place_of_another(&self, ssrc: Ssrc) -> Option<usize>
        requires { ArePlaces self.now.places self.now.list.items }
        ensures { result ≡ get nat_cmp self.now.places ssrc }
    {
        if self.list.len() > MANY {
            if let Some(place) = hinted_place(&self.hints, &self.list, ssrc) {
                return Some(place);
            }
        } else if self.list.len() <= FEW {
            return place_among(&self.list, ssrc);
        }
        self.places.get(&ssrc).copied()
    }

    // The same for the source of a packet, which then is the last packet's. The hints alone are
    // lent to be written, so that a caller knows that the rest stays as it is.
    #[inline(always)]
    pub(super) fn find(
        hints: &mut Hints,
        list: &Vec<(Ssrc, Receiver)>,
        places: &BTreeMap<Ssrc, usize>,
        ssrc: Ssrc,
    ) -> Option<usize>
        requires { ArePlaces places.now list.now.items }
        ensures { result ≡ get nat_cmp places.now ssrc }
    {
        match list.get(hints.last_place) {
            Some((source, _)) if *source == ssrc => Some(hints.last_place),
            _ => Self::find_another(hints, list, places, ssrc),
        }
    }

    // The same, where the source isn't the last packet's. What the map says becomes a hint.
    #[inline(always)]
    fn find_another(
        hints: &mut Hints,
        list: &Vec<(Ssrc, Receiver)>,
        places: &BTreeMap<Ssrc, usize>,
        ssrc: Ssrc,
    ) -> Option<usize>
        requires { ArePlaces places.now list.now.items }
        ensures { result ≡ get nat_cmp places.now ssrc }
    {
        if hints.has_rows() {
            if let Some(place) = hinted_place(hints, list, ssrc) {
                hints.last_place = place;
                return Some(place);
            }
        } else if list.len() <= FEW {
            let found = place_among(list, ssrc);
            if let Some(place) = found {
                hints.last_place = place;
            }
            return found;
        }
        let place = *places.get(&ssrc)?;
        hints.last_place = place;
        hints.learn(list, ssrc, place);
        Some(place)
    }

    // Puts a source that has no receiver at the end of the list.
    pub(super) fn add(&mut self, ssrc: Ssrc, receiver: Receiver) -> Result<(), AllocError>
        requires { get nat_cmp self.old.places ssrc ≡ None }
        ensures list { OnOk result
            (self.new.list.items ≡ self.old.list.items ++ (ssrc, receiver) ∷ []) }
        ensures places { OnOk result (Updates nat_cmp self.old.places self.new.places
            ssrc (Some (length self.old.list.items))) }
        ensures more { OnOk result
            (length self.new.places.entries ≡ length self.old.places.entries + 1) }
        ensures same_list { OnErr result (self.new.list.items ≡ self.old.list.items) }
        ensures same_places { OnErr result (self.new.places.entries ≡ self.old.places.entries) }
    {
        self.list.reserve(1)?;
        self.places.insert(ssrc, self.list.len())?;
        self.list.push_reserved((ssrc, receiver));
        Ok(())
    }

    // Takes the source out of the list, where the last source then has its place, and returns its
    // receiver; `None`, and nothing changes, where it has none.
    pub(super) fn remove(&mut self, ssrc: Ssrc) -> Option<Receiver>
        requires { ArePlaces self.old.places self.old.list.items }
        ensures index { ArePlaces self.new.places self.new.list.items }
        ensures value { result ≡ held_of self.old.places self.old.list.items ssrc }
        ensures gone { held_of self.new.places self.new.list.items ssrc ≡ None }
        ensures others { (source : ℕ) → source ≢ ssrc →
            held_of self.new.places self.new.list.items source
            ≡ held_of self.old.places self.old.list.items source }
        ensures same_list { IfNone result (self.new.list.items ≡ self.old.list.items) }
        ensures same_places { IfNone result
            (self.new.places.entries ≡ self.old.places.entries) }
        ensures fewer { IfSome result (λ _.
            length self.new.places.entries + 1 ≡ length self.old.places.entries) }
    {
        let Some(place) = self.places.remove(&ssrc) else {
            return None;
        };
        let (_, receiver) = self.list.swap_remove(place);
        self.renumber(place);
        Some(receiver)
    }

    // Writes this place for the source that stands there, if one does.
    fn renumber(&mut self, place: usize)
        requires { place < length self.old.list.items →
            IsSome (get nat_cmp self.old.places (source_at self.old.list.items place)) }
        ensures list { self.new.list ≡ self.old.list }
        ensures moved { place < length self.old.list.items →
            Updates nat_cmp self.old.places self.new.places
            (source_at self.old.list.items place) (Some place) }
        ensures none { length self.old.list.items ≤ place →
            self.new.places.entries ≡ self.old.places.entries }
        ensures as_many { length self.new.places.entries ≡ length self.old.places.entries }
    {
        let Some((source, _)) = self.list.get(place) else {
            return;
        };
        if let Some(found) = self.places.get_mut(source) {
            *found = place;
        }
    }
}

// The place of the source in the list, and `None` where it has none. The list is gone through.
#[inline(always)]
fn place_among(list: &Vec<(Ssrc, Receiver)>, ssrc: Ssrc) -> Option<usize>
    ensures place { IfSome result (λ place. (place < length list.now.items)
        × (source_at list.now.items place ≡ ssrc)) }
    ensures none { IfNone result ((place : ℕ) → place < length list.now.items →
        source_at list.now.items place ≢ ssrc) }
{
    list.iter().position(|(source, _)| *source == ssrc)
}

// The place of the source in the list, where a hint says it.
#[inline(always)]
fn hinted_place(hints: &Hints, list: &Vec<(Ssrc, Receiver)>, ssrc: Ssrc) -> Option<usize>
    ensures { IfSome result (λ place. (place < length list.now.items)
        × (source_at list.now.items place ≡ ssrc)) }
{
    let place = hints.place_of(ssrc)?;
    match list.get(place) {
        Some((source, _)) if *source == ssrc => Some(place),
        _ => None,
    }
}
