//! A group as it is given, with a table of its elements.

ghost use Rattle.std.specs.Prelude.{◌≤◌, length, IfSome};
ghost use Rattle.rtp_route.specs.Walk.{AreMeasured, IsTabled};

use super::GroupOf;
use super::numbers::{IDS, index_of};
use super::table::GroupTable;
use rtp_ext::{ElementList, ExtensionsForm, NewIds, form_to_put};

/// A group beside the numbers of its elements, by their ids, how many bytes these take in the two-byte
/// form, and whether the one-byte form can carry each.
#[derive(Clone, Copy)]
pub struct TabledGroup<'a, 'b, L: ElementList> {
    pub group: &'a GroupOf<'b, L>,
    pub numbers: &'a [u8; IDS],
    pub two_byte_len: usize,
    pub fits_one_byte: bool,
}

/// How many bytes the elements take in the two-byte form, and whether the one-byte form can carry
/// each; `None` where the two-byte form can't carry one.
#[inline(always)]
pub fn measured<L: ElementList>(elements: L) -> Option<(usize, bool)>
    requires { length (L.elements elements) ≤ 16 }
    ensures { IfSome result (λ measured. AreMeasured (L.elements elements) measured.0 measured.1) }
{
    let mut len = 0;
    let mut fits_one_byte = true;
    for index in 0..elements.count() {
        let (id, data) = elements.at(index);
        if !ExtensionsForm::TwoByte.can_carry(id, data) {
            return None;
        }
        if !ExtensionsForm::OneByte.can_carry(id, data) {
            fits_one_byte = false;
        }
        len += 2 + data.len();
    }
    Some((len, fits_one_byte))
}

impl<L: ElementList> ElementList for TabledGroup<'_, '_, L> {
    ghost elements = { λ tabled. L.elements tabled.group.now.elements };

    fn count(&self) -> usize {
        self.group.elements.count()
    }

    fn at(&self, index: usize) -> (u8, &[u8]) {
        self.group.elements.at(index)
    }
}

impl<L: ElementList> GroupTable for TabledGroup<'_, '_, L> {
    ghost ids = { λ tabled. tabled.group.now.ids.now };

    ghost allows = { λ tabled. tabled.group.now.allowed };

    ghost is_table = { λ tabled. IsTabled (L.elements tabled.group.now.elements) tabled.numbers.now
        tabled.two_byte_len tabled.fits_one_byte };

    ghost can_be_put = { λ tabled is. is.can };

    #[inline(always)]
    fn new_id(&self, id: u8) -> Option<u8> {
        self.group.ids.new_id(id)
    }

    #[inline(always)]
    fn index_of(&self, id: u8) -> Option<usize> {
        index_of(self.numbers, id)
    }

    #[inline(always)]
    fn fits_one_byte(&self) -> bool {
        self.fits_one_byte
    }

    #[inline(always)]
    fn two_byte_len(&self) -> usize {
        self.two_byte_len
    }

    fn new_ids(&self) -> NewIds {
        *self.group.ids
    }

    #[inline(always)]
    fn allowed(&self) -> Option<ExtensionsForm> {
        self.group.allowed
    }
}
