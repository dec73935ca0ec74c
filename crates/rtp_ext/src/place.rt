//! Where the elements of a body lie, and other ids that they get there, without memory.

ghost use Rattle.std.specs.Prelude.{◌≡◌, ◌↔◌, ◌+◌, ◌<◌, ◌≤◌, ◌++◌, List, length, drop, IsTrue, IfSome, IfNone, All};
ghost use Rattle.rtp_ext.specs.declared.form.ExtensionsForm.TheVariants.{OneByte};
ghost use Rattle.rtp_ext.specs.Elements.{Element, AreElements};
ghost use Rattle.rtp_ext.specs.ElementReading.{BeginsWithNoElement, elements_left};
ghost use Rattle.rtp_ext.specs.ElementWriting.{element_header};
ghost use Rattle.rtp_ext.specs.ElementsInPlace.{HasNone, bytes_under, ChangesIds, CanRenumber, renumbered, all_but};
ghost use Rattle.rtp_ext.specs.ElementPlaces.{LiesAt, IsNextPlace, IsLastPlace, LiesLast};
ghost use Rattle.std.specs.Bool.{OnTrue, OnFalse};
ghost use Rattle.rtp_ext.specs.ExtensionMap.{Slots};
ghost use Rattle.rtp_ext.specs.BlockValues.{SaysValues};
ghost use Rattle.rtp_values.specs.declared.value.values.ExtensionValues.{ExtensionValues};
ghost use Rattle.std.specs.List.{filter_map};
ghost use Rattle.rtp_ext.specs.NewIds.{new_id, CarriesExtensions};
ghost use Rattle.rtp_ext.specs.IdChanges.{ids_of, CanChangeIds, HasOtherIds};
ghost use Rattle.rtp_ext.specs.WrittenBlock.{mapped_fields};

use super::elements::{first_element, next_element};
use super::form::{element_header_len, write_header};
use super::raw_writing::clear;
use super::survey::survey_by;
use super::{ExtensionsForm, NewIds};

/// Where an element lies in the body of a block, as offsets from the body's first byte.
#[derive(Clone, Copy, Drop)]
pub struct Place {
    /// The element's id.
    pub id: u8,
    /// Where its header begins.
    pub start: usize,
    /// Where its data begin.
    pub data_start: usize,
    /// Where its data end, and with them the element.
    pub end: usize,
}

// The place of an element with so many bytes of data, behind which so many bytes of the body are
// left.
#[inline(always)]
pub(super) fn place_before(
    form: ExtensionsForm,
    body_len: usize,
    left: usize,
    id: u8,
    data_len: usize,
) -> Place
    requires { length (element_header form id data_len) + data_len + left ≤ body_len }
    ensures id { result.id ≡ id }
    ensures start { result.start + length (element_header form id data_len) ≡ result.data_start }
    ensures data_start { result.data_start + data_len ≡ result.end }
    ensures end { result.end + left ≡ body_len }
{
    let end = body_len - left;
    let data_start = end - data_len;
    let start = data_start - element_header_len(form);
    Place {
        id,
        start,
        data_start,
        end,
    }
}

/// The place of the first element of a block's body from the offset on, and `None` where reading
/// ends before one (RFC 8285, 4.2 and 4.3). The elements of the body are found one after another
/// from the offset 0 on, each from the end of the one before it.
///
/// Requires an offset within the body.
pub fn next_place(form: ExtensionsForm, body: &[u8], at: usize) -> Option<Place>
    requires { at ≤ length body.now }
    ensures found { IfSome result (IsNextPlace form body.now at) }
    ensures further { IfSome result (λ place. (at < place.end) × (place.end ≤ length body.now)) }
    ensures none { IfNone result (BeginsWithNoElement form (drop at body.now)) }
{
    let (id, data, after) = first_element(&body[at..], form)?;
    Some(place_before(form, body.len(), after.len(), id, data.len()))
}

// The place of the first element from the offset on, and `None` where reading ends before one. The
// front is tried first, before any padding is passed over, where that takes fewer steps.
#[inline(always)]
pub(super) fn next_place_by(
    form: ExtensionsForm,
    body: &[u8],
    at: usize,
    front_first: bool,
) -> Option<Place>
    requires { at ≤ length body.now }
    ensures found { IfSome result (IsNextPlace form body.now at) }
    ensures further { IfSome result (λ place. (at < place.end) × (place.end ≤ length body.now)) }
    ensures none { IfNone result (BeginsWithNoElement form (drop at body.now)) }
{
    if !front_first {
        return next_place(form, body, at);
    }
    let (id, data, after) = next_element(&body[at..], form, true)?;
    Some(place_before(form, body.len(), after.len(), id, data.len()))
}

/// The place of the last element of the id in a block's body, and `None` where no element has it.
#[inline(always)]
pub fn last_place(form: ExtensionsForm, body: &[u8], id: u8) -> Option<Place>
    ensures found { IfSome result (IsLastPlace (AreElements form) id body.now) }
    ensures id { IfSome result (λ place. place.id ≡ id) }
    ensures lies { IfSome result (LiesLast form (AreElements form) id body.now) }
    ensures within { IfSome result (λ place. place.end ≤ length body.now) }
    ensures none { (elements : List Element) → AreElements form body.now elements →
        IfNone result (HasNone elements id) }
{
    survey_by(form, body, id, false).last
}

// Gives the element at the place another id, or makes it padding.
fn write_id(form: ExtensionsForm, body: &mut [u8], place: &Place, id: Option<u8>)
    requires lies { LiesAt form body.old place.now }
    requires fits { IfSome id (λ id. form ≡ OneByte → id ≤ 14) }
    ensures { (lies : LiesAt form body.old place.now) →
        body.new ≡ lies.front ++ (bytes_under form (place.now.id, lies.bytes) id ++ lies.after) }
{
    let Place {
        start,
        data_start,
        end,
        ..
    } = *place;
    match id {
        // Its header is there already.
        Some(id) if id == place.id => {}
        Some(id) => write_header(body, start, form, id, (end - data_start) as u8),
        None => clear(body, start, end - start),
    }
}

// Which id each element gets.
#[derive(Clone, Copy, Drop)]
enum IdChange<'a> {
    // Its own, and none where that is this one.
    AllBut(u8),
    // The one that the table has for it.
    Table(&'a NewIds),
}

impl IdChange<'_> {
    // The id that elements of an id get.
    fn new_id(&self, id: u8) -> Option<u8>
        ensures { result ≡ ids_of self.now id }
    {
        match self {
            IdChange::AllBut(removed) if id == *removed => None,
            IdChange::AllBut(_) => Some(id),
            IdChange::Table(ids) => ids.new_id(id),
        }
    }
}

// Whether the form can carry the new ids of a body's elements. These aren't looked at where it can
// carry those of all ids that they can have, as with most tables.
fn carries_new_ids(form: ExtensionsForm, body: &[u8], ids: &NewIds) -> bool
    ensures { IsTrue result
        ↔ All (CanRenumber form (new_id ids.now)) (elements_left form body.now) }
{
    match form {
        ExtensionsForm::OneByte if ids.fit_one_byte_form() => true,
        _ => ids.can_renumber(form, body),
    }
}

// Gives each element its new id, or makes it padding, and returns whether one has become padding.
// It is inlined, so that a removal and a table have loops of their own.
#[inline(always)]
fn change_ids(form: ExtensionsForm, body: &mut [u8], change: IdChange<'_>) -> bool
    requires { CanChangeIds form (ids_of change) body.old }
    ensures { HasOtherIds form (ids_of change.entry) body.old body.new result }
{
    match form {
        ExtensionsForm::OneByte => change_ids_in(ExtensionsForm::OneByte, body, change),
        ExtensionsForm::TwoByte => change_ids_in(ExtensionsForm::TwoByte, body, change),
    }
}

// Gives each element of a body of one form its new id, or makes it padding, and returns whether one
// has become padding. It is inlined, so that each form has a loop of its own.
#[inline(always)]
fn change_ids_in(form: ExtensionsForm, body: &mut [u8], change: IdChange<'_>) -> bool
    requires { CanChangeIds form (ids_of change) body.old }
    ensures { HasOtherIds form (ids_of change.entry) body.old body.new result }
{
    let mut lost = false;
    let mut at = 0;
    while let Some(place) = next_place(form, body, at) {
        let id = change.new_id(place.id);
        write_id(form, body, &place, id);
        lost |= id.is_none();
        at = place.end;
    }
    lost
}

/// Makes each element of the id in a block's body padding, and returns whether there is one; all
/// other bytes stay (RFC 8285, 4.2 and 4.3). Only elements that [`Elements`](super::Elements)
/// yields are removed, so what follows the end of reading stays as well.
///
/// In the body `10 AA 21 BB CC 10 DD 00` (hexadecimal) of the one-byte form the removal of id 1
/// leaves `00 00 21 BB CC 00 00 00`.
#[inline(never)]
pub fn remove_element(form: ExtensionsForm, body: &mut [u8], id: u8) -> bool
    ensures removed { ChangesIds form (all_but id) body.old body.new }
    ensures unchanged { OnFalse result (body.new ≡ body.old) }
    ensures answer { (elements : List Element) → AreElements form body.old elements →
        IsTrue result ↔ (HasNone elements id → ⊥) }
    ensures elements { (elements : List Element) → AreElements form body.old elements →
        AreElements form body.new (filter_map (renumbered (all_but id)) elements) }
{
    // It is a call, so that a packet without a block costs little.
    change_ids(form, body, IdChange::AllBut(id))
}

/// Whether [`renumber`] can give the elements of a block's body their new ids: whether the form can
/// carry the new id of each that has one (RFC 8285, 4.2 and 4.3).
///
/// The one-byte form can't where an element gets an id above
/// [`MAX_ID_ONE_BYTE_FORM`](super::MAX_ID_ONE_BYTE_FORM), and the two-byte form always can.
pub fn can_renumber(form: ExtensionsForm, body: &[u8], ids: &NewIds) -> bool
    ensures { (elements : List Element) → AreElements form body.now elements →
        IsTrue result ↔ All (CanRenumber form (new_id ids.now)) elements }
{
    carries_new_ids(form, body, ids)
}

/// Gives each element of a block's body its new id where it lies, and makes an element whose id has
/// no new one padding; the data of elements and all other bytes stay (RFC 8285, 4.2 and 4.3).
/// Returns `false`, and nothing changes, where the form can't carry the new id of an element: one
/// above [`MAX_ID_ONE_BYTE_FORM`](super::MAX_ID_ONE_BYTE_FORM) in the one-byte form.
///
/// The body has the same length afterwards, and says under the second map what it said under the
/// first, of the kinds that the second maps and no other. Where id 1 becomes 3, and 2 has no new
/// id, the body `10 AA 21 BB CC 00` (hexadecimal) of the one-byte form becomes `30 AA 00 00 00 00`.
pub fn renumber(form: ExtensionsForm, body: &mut [u8], ids: &NewIds) -> bool
    ensures renumbered { OnTrue result (ChangesIds form (new_id ids.now) body.old body.new) }
    ensures unchanged { OnFalse result (body.new ≡ body.old) }
    ensures answer { (elements : List Element) → AreElements form body.old elements →
        IsTrue result ↔ All (CanRenumber form (new_id ids.now)) elements }
    ensures elements { (elements : List Element) → AreElements form body.old elements →
        OnTrue result
        (AreElements form body.new (filter_map (renumbered (new_id ids.now)) elements)) }
    ensures values { (from to : Slots) (values : ExtensionValues) →
        CarriesExtensions from to ids.now → SaysValues form from body.old values →
        OnTrue result (SaysValues form to body.new (mapped_fields to values)) }
{
    if !carries_new_ids(form, body, ids) {
        return false;
    }
    change_ids(form, body, IdChange::Table(ids));
    true
}
