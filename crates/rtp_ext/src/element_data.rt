//! The data of an element, found and set where they lie, without memory.

ghost use Rattle.std.specs.Prelude.{◌≡◌, ◌↔◌, List, length, IsTrue, Some, IfSome, IfNone};
ghost use Rattle.std.specs.Bool.{OnTrue, OnFalse};
ghost use Rattle.rtp_values.specs.declared.kind.Extension.{Extension};
ghost use Rattle.rtp_values.specs.declared.value.values.ExtensionValues.{ExtensionValues};
ghost use Rattle.rtp_values.specs.Values.{Reads, with_fields, IsWellFormed};
ghost use Rattle.rtp_ext.specs.declared.form.ExtensionsForm.{ExtensionsForm};
ghost use Rattle.rtp_ext.specs.Elements.{Element, AreElements};
ghost use Rattle.rtp_ext.specs.ElementsInPlace.{HasNone, HasLast, HasLastOf, SetsLast};
ghost use Rattle.rtp_ext.specs.ElementPlaces.{WritesLast};
ghost use Rattle.rtp_ext.specs.ExtensionMap.{Slots, extension_at, IsOnlyId};
ghost use Rattle.rtp_ext.specs.BlockValues.{SaysValues};
ghost use Rattle.rtp_ext.specs.BodySurvey.{IsSurvey};
ghost use Rattle.rtp_ext.specs.PutElement.{put_element, IsSole};

use super::ExtensionsForm;
use super::place::last_place;
use super::survey::Survey;
use rtp_base::put_few;

/// The data of the last element of the id in a block's body, and `None` exactly where no element
/// has it (RFC 8285, 4.2 and 4.3). An element of the two-byte form may be without data, and then
/// they are `Some` of no bytes.
///
/// The last element of id 1 in the body `10 AA 21 BB CC 10 DD 00` (hexadecimal) of the one-byte
/// form has the data `DD`.
pub fn element_of(form: ExtensionsForm, body: &[u8], id: u8) -> Option<&[u8]>
    ensures found { (elements : List Element) → AreElements form body.now elements →
        IfSome result (λ bytes. HasLast elements id bytes.now) }
    ensures none { (elements : List Element) → AreElements form body.now elements →
        IfNone result (HasNone elements id) }
{
    let place = last_place(form, body, id)?;
    Some(&body[place.data_start..place.end])
}

/// Gives the last element of the id in a block's body these data, where it has as many bytes of
/// them, and returns whether it has; all other bytes stay. Else nothing changes.
///
/// Under a map in which a kind has this id and no other, the body then says what it said, except
/// for the fields of that kind; these are what the data say, where they are well-formed for it.
///
/// In the body `10 AA 21 BB CC 10 DD 00` (hexadecimal) of the one-byte form the data `EE` of id 1
/// give `10 AA 21 BB CC 10 EE 00`.
pub fn set_element(form: ExtensionsForm, body: &mut [u8], id: u8, data: &[u8]) -> bool
    ensures set { OnTrue result (SetsLast form id «data».now body.old body.new) }
    ensures written { OnTrue result (WritesLast form id «data».now body.old body.new) }
    ensures unchanged { OnFalse result (body.new ≡ body.old) }
    ensures answer { (elements : List Element) → AreElements form body.old elements →
        IsTrue result ↔ HasLastOf elements id (length «data».now) }
    ensures other_values { (exts : Slots) (kind : Extension) (old new : ExtensionValues) →
        extension_at exts id ≡ Some kind → SaysValues form exts body.old old →
        SaysValues form exts body.new new → OnTrue result (new ≡ with_fields kind old new) }
    ensures values { (exts : Slots) (kind : Extension) (new : ExtensionValues) →
        IsOnlyId exts kind id →
        IsWellFormed kind «data».now → SaysValues form exts body.new new →
        OnTrue result (Reads kind «data».now new) }
{
    let Some(place) = last_place(form, body, id) else {
        return false;
    };
    if place.end - place.data_start != data.len() {
        return false;
    }
    put_few(body, place.data_start, data);
    true
}

/// Gives the element of the id these data where it lies, where it is the only one, no other has the
/// id 0, and it has as many bytes; returns whether that is so. All other bytes stay. Else nothing
/// changes.
pub fn set_sole(body: &mut [u8], survey: &Survey, id: u8, data: &[u8]) -> bool
    requires { (form : ExtensionsForm) × IsSurvey form body.old id survey.now }
    ensures set { (form : ExtensionsForm) → IsSurvey form body.old id survey.now →
        OnTrue result (SetsLast form id «data».now body.old body.new) }
    ensures unchanged { OnFalse result (body.new ≡ body.old) }
    ensures answer { (form : ExtensionsForm) (elements : List Element) →
        IsSurvey form body.old id survey.now →
        AreElements form body.old elements → IsTrue result ↔ IsSole elements (id, «data».now) }
    ensures elements { (form : ExtensionsForm) (elements : List Element) →
        IsSurvey form body.old id survey.now →
        AreElements form body.old elements →
        OnTrue result (AreElements form body.new (put_element (id, «data».now) elements)) }
{
    let Some(place) = survey.last else {
        return false;
    };
    if survey.count != 1 || place.end - place.data_start != data.len() {
        return false;
    }
    put_few(body, place.data_start, data);
    true
}
