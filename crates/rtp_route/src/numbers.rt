//! The numbers of a group's elements, by their ids.

ghost use Rattle.std.specs.Prelude.{◌≡◌, ◌↔◌, ◌+◌, ◌≤◌, length, replicate, slice_index, IsTrue, IfSome, IfNone};
ghost use Rattle.std.specs.Bool.{OnTrue};
ghost use Rattle.rtp_route.specs.Template.{HaveOwnIds};
ghost use Rattle.rtp_route.specs.Walk.{AreNumbersOf};

use rtp_ext::{ElementList, MAX_ID};

/// How many ids an element can have, with 0.
pub const IDS: usize = MAX_ID as usize + 1;

/// Puts the number of each element into a table of zeros, at its id, from 1 on, so that the walk
/// finds an element in one step; returns whether no two have one id. Requires at most 255.
#[inline(always)]
pub fn number_elements<L: ElementList>(elements: L, numbers: &mut [u8; IDS]) -> bool
    requires few { length (L.elements elements) ≤ 255 }
    requires fresh { numbers.old ≡ replicate 256 0 }
    ensures own { IsTrue result ↔ HaveOwnIds (L.elements elements) }
    ensures numbers { OnTrue result (AreNumbersOf (L.elements elements) numbers.new) }
{
    for index in 0..elements.count() {
        let (id, _) = elements.at(index);
        let at = usize::from(id);
        if numbers[at] != 0 {
            return false;
        }
        numbers[at] = index as u8 + 1;
    }
    true
}

/// The index of the element that has the id.
#[inline(always)]
pub fn index_of(numbers: &[u8; IDS], id: u8) -> Option<usize>
    ensures some { IfSome result (λ index. slice_index numbers.now id ≡ index + 1) }
    ensures none { IfNone result (slice_index numbers.now id ≡ 0) }
{
    match numbers[usize::from(id)] {
        0 => None,
        number => Some(usize::from(number) - 1),
    }
}
