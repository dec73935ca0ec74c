//! What the walk over a packet's elements asks of a group.

ghost use Rattle.std.specs.Prelude.{◌≡◌, ◌↔◌, ℕ, List, Option, Some, length, slice_get, All, IsTrue, IfSome, IfNone};
ghost use Rattle.rtp_ext.specs.declared.form.ExtensionsForm.{ExtensionsForm};
ghost use Rattle.rtp_ext.specs.declared.form.ExtensionsForm.TheVariants.{OneByte, TwoByte};
ghost use Rattle.rtp_ext.specs.Elements.{elements_bytes};
ghost use Rattle.rtp_ext.specs.ElementsInARow.{IsWritable};
ghost use Rattle.rtp_ext.specs.ElementsInPlace.{HasNone};
ghost use Rattle.rtp_ext.specs.NewIds.{new_id};
ghost use Rattle.rtp_route.specs.Routing.{IsFormAfter};
ghost use Rattle.rtp_route.specs.Walk.{CanBePut};

use rtp_ext::{ElementList, ExtensionsForm, NewIds};

/// A group whose new ids and elements are found in few steps, as the walk over a packet's elements
/// looks for them. There are at most sixteen elements, each of an id of its own, and the two-byte
/// form can carry each.
pub trait GroupTable: ElementList {
    // The new ids.
    ghost ids: { Self → List (Option ℕ) };

    // The form that alone is allowed, if one is.
    ghost allows: { Self → Option ExtensionsForm };

    // The table is one of the new ids and elements.
    ghost is_table: { Self → Type 0 };

    /// The new id of an id, and `None` where it has none.
    fn new_id(&self, id: u8) -> Option<u8>
        requires { is_table self.now }
        ensures { result ≡ new_id (ids self.now) id };

    /// The index of the element that has the id.
    fn index_of(&self, id: u8) -> Option<usize>
        requires { is_table self.now }
        ensures some { IfSome result (λ index. (was : List ℕ)
            × (slice_get (Self.elements self.now) index ≡ Some (id, was))) }
        ensures none { IfNone result (HasNone (Self.elements self.now) id) };

    /// Whether the one-byte form can carry each element.
    fn fits_one_byte(&self) -> bool
        requires { is_table self.now }
        ensures { IsTrue result ↔ All (IsWritable OneByte) (Self.elements self.now) };

    /// How many bytes the elements take in the two-byte form.
    fn two_byte_len(&self) -> usize
        requires { is_table self.now }
        ensures { result ≡ length (elements_bytes TwoByte (Self.elements self.now)) };

    /// The new ids, as a table of their own.
    fn new_ids(&self) -> NewIds
        ensures { result ≡ ids self.now };

    /// The form that alone is allowed, if one is.
    fn allowed(&self) -> Option<ExtensionsForm>
        requires { is_table self.now }
        ensures { result ≡ allows self.now };

    // The elements can be put into a block of the two-byte form.
    ghost can_be_put: { (group : Self) → is_table group → CanBePut TwoByte (Self.elements group) };
}

// The form that a block of this form gets with the group's elements put into it one after another;
// `None` where the one form that is allowed can't carry one of them.
#[inline(always)]
pub(super) fn form_after<G: GroupTable>(group: G, was: ExtensionsForm) -> Option<ExtensionsForm>
    requires { G.is_table group }
    ensures { IfSome result (λ form.
        IsFormAfter (G.allows group) (Some was) (G.elements group) (Some form)) }
{
    if group.count() == 0 {
        return Some(was);
    }
    let needed = if group.fits_one_byte() {
        was
    } else {
        ExtensionsForm::TwoByte
    };
    let Some(allowed) = group.allowed() else {
        return Some(needed);
    };
    match (allowed, needed) {
        (ExtensionsForm::TwoByte, _) => Some(ExtensionsForm::TwoByte),
        (ExtensionsForm::OneByte, ExtensionsForm::OneByte) => Some(ExtensionsForm::OneByte),
        (ExtensionsForm::OneByte, ExtensionsForm::TwoByte) => None,
    }
}
