//! A group that was prepared, in the form in which headers are made for it.

ghost use Rattle.std.specs.Prelude.{◌≡◌, ◌≤◌, length, slice_index, IfSome, IfNone};
ghost use Rattle.rtp_route.specs.StoredGroup.{IsGroup, AreNumbered, AreTotals, elements_in, ids_in, form_of};

use super::slots::MAX_ELEMENTS;
use super::stored_group::StoredGroup;
use super::table::GroupTable;
use rtp_ext::{ElementList, ExtensionsForm, NewIds};

// The data of the elements, in whose place each receiver's come.
const ZEROS: [u8; 255] = [0; 255];

/// The numbers of a group, read where they lie.
#[derive(Clone, Copy)]
pub struct KnownGroup<'a> {
    group: &'a StoredGroup,
    ghost is_group: { IsGroup group.now },
    ghost ids: { length group.now.element_ids ≡ 16 },
    ghost lens: { length group.now.data_lens ≡ 16 },
}

// How many bytes of data the elements have together, and whether the one-byte form can carry each;
// `None` where one's number doesn't stand at its id.
#[inline(always)]
pub(super) fn totals_of(group: &StoredGroup) -> Option<(u16, bool)>
    requires few { group.now.count ≤ 16 }
    requires no_number { slice_index group.now.numbers 0 ≡ 0 }
    ensures totals { IfSome result (λ totals. AreTotals group.now totals.0 totals.1) }
    ensures none { IfNone result (AreNumbered group.now → ⊥) }
{
    let mut total = 0;
    let mut one_byte = true;
    for index in 0..usize::from(group.count) {
        let (id, len) = (group.element_ids[index], group.data_lens[index]);
        if usize::from(group.numbers[usize::from(id)]) != index + 1 {
            return None;
        }
        total += u16::from(len);
        if !ExtensionsForm::OneByte.can_carry(id, &ZEROS[..usize::from(len)]) {
            one_byte = false;
        }
    }
    Some((total, one_byte))
}

impl<'a> KnownGroup<'a> {
    /// The group, where these are the numbers of one.
    #[inline(always)]
    pub fn new(group: &'a StoredGroup) -> Option<Self>
        ensures same { IfSome result (λ known. known.group.now ≡ group.now) }
        ensures none { IfNone result (IsGroup group.now → ⊥) }
    {
        if usize::from(group.count) > MAX_ELEMENTS || group.allowed > 2 {
            return None;
        }
        if group.new_ids[0] != 0 || group.numbers[0] != 0 {
            return None;
        }
        let (total, one_byte) = totals_of(group)?;
        if total != group.data_total || one_byte != (group.one_byte != 0) {
            return None;
        }
        Some(KnownGroup { group })
    }

    /// The numbers.
    #[inline(always)]
    pub fn numbers(&self) -> &'a StoredGroup
        ensures same { result.now ≡ self.now.group.now }
        ensures is_group { IsGroup result.now }
    {
        self.group
    }
}

impl ElementList for KnownGroup<'_> {
    ghost elements = { λ known. elements_in known.group.now };

    #[inline(always)]
    fn count(&self) -> usize {
        usize::from(self.group.count)
    }

    #[inline(always)]
    fn at(&self, index: usize) -> (u8, &[u8]) {
        let len = usize::from(self.group.data_lens[index]);
        (self.group.element_ids[index], &ZEROS[..len])
    }
}

impl GroupTable for KnownGroup<'_> {
    ghost use Rattle.rtp_route.specs.GroupLaws.{can-be-put};

    ghost ids = { λ known. ids_in known.group.now };

    ghost allows = { λ known. form_of known.group.now.allowed };

    ghost is_table = { λ known. Unit {0} };

    ghost can_be_put = { λ known _. can-be-put known.group.now known.is_group known.ids known.lens };

    #[inline(always)]
    fn new_id(&self, id: u8) -> Option<u8> {
        match self.group.new_ids[usize::from(id)] {
            0 => None,
            new => Some(new),
        }
    }

    #[inline(always)]
    fn index_of(&self, id: u8) -> Option<usize> {
        let number = usize::from(self.group.numbers[usize::from(id)]);
        if number == 0 || number > usize::from(self.group.count) {
            return None;
        }
        if self.group.element_ids[number - 1] != id {
            return None;
        }
        Some(number - 1)
    }

    #[inline(always)]
    fn fits_one_byte(&self) -> bool {
        self.group.one_byte != 0
    }

    #[inline(always)]
    fn two_byte_len(&self) -> usize {
        2 * usize::from(self.group.count) + usize::from(self.group.data_total)
    }

    fn new_ids(&self) -> NewIds {
        NewIds::from_ids(&self.group.new_ids)
    }

    #[inline(always)]
    fn allowed(&self) -> Option<ExtensionsForm> {
        match self.group.allowed {
            0 => None,
            1 => Some(ExtensionsForm::OneByte),
            _ => Some(ExtensionsForm::TwoByte),
        }
    }
}
