//! A body that is made anew where it lies, without memory: which of its elements go, which one
//! comes, and the form.

ghost use Rattle.std.specs.Prelude.{◌≡◌, ◌+◌, ◌*◌, ◌≤◌, ◌++◌, ◌⊎◌, List, length, take, slice_range, IfSome, IfNone};
ghost use Rattle.std.specs.Bool.{OnTrue, OnFalse};
ghost use Rattle.std.specs.List.{AllByRecursion};
ghost use Rattle.rtp_base.specs.Overwriting.{overwritten};
ghost use Rattle.rtp_ext.specs.Elements.{Element, AreElements, elements_bytes};
ghost use Rattle.rtp_ext.specs.ElementsInARow.{IsWritable, elements_added};
ghost use Rattle.rtp_ext.specs.BodySurvey.{IsSurvey, HasRows, others, other_form, start_around, end_around};
ghost use Rattle.rtp_ext.specs.PutElement.{rewritten_elements, row_to};

use super::ExtensionsForm;
use super::form::element_header_len;
use super::form_change::{change_rows, row_len};
use super::gathering::gather_around;
use super::raw_writing::{clear_after, put_element};
use super::survey::Survey;

// How many bytes the element that comes takes, and none where none comes.
#[inline(always)]
fn added_len(form: ExtensionsForm, comes: Option<(u8, &[u8])>) -> usize
    requires { IfSome comes (λ element. IsWritable form (element.0, element.1.now)) }
    ensures length { result ≡ length (elements_bytes form (elements_added comes.entry)) }
    ensures few { result ≤ 257 }
{
    match comes {
        Some((_, data)) => element_header_len(form) + data.len(),
        None => 0,
    }
}

// Puts the element that comes at the offset, if one comes.
#[inline(always)]
fn put_added(form: ExtensionsForm, body: &mut [u8], at: usize, comes: Option<(u8, &[u8])>)
    requires writable { IfSome comes (λ element. IsWritable form (element.0, element.1.now)) }
    requires room { at + length (elements_bytes form (elements_added comes)) ≤ length body.old }
    ensures { body.new ≡ overwritten body.old at (elements_bytes form (elements_added comes.entry)) }
{
    if let Some((id, data)) = comes {
        put_element(body, at, form, id, data);
    }
}

// Puts the element that comes after so many bytes at the front of the body, and behind it the
// `count` bytes at the offset. Returns where these end.
fn put_between(
    form: ExtensionsForm,
    body: &mut [u8],
    front: usize,
    at: usize,
    count: usize,
    comes: Option<(u8, &[u8])>,
) -> usize
    requires writable { IfSome comes (λ element. IsWritable form (element.0, element.1.now)) }
    requires order { front ≤ at }
    requires within { at + count ≤ length body.old }
    requires room { front + length (elements_bytes form (elements_added comes)) + count
        ≤ length body.old }
    ensures row { take result body.new ≡ take front body.old
        ++ (elements_bytes form (elements_added comes.entry)
        ++ slice_range body.old at (at + count)) }
    ensures end { result
        ≡ front + length (elements_bytes form (elements_added comes.entry)) + count }
{
    let end = front + added_len(form, comes);
    body.copy_within(at..at + count, end);
    put_added(form, body, front, comes);
    end + count
}

// Puts the elements that stay in two rows, around what goes last. Where they stand in rows already
// nothing is moved. Returns how many bytes the rows take.
#[inline(always)]
fn put_in_rows(
    form: ExtensionsForm,
    body: &mut [u8],
    body_len: usize,
    survey: &Survey,
    goes: u8,
    start: usize,
    end: usize,
) -> (usize, usize)
    requires within { body_len ≤ length body.old }
    requires survey { IsSurvey form (take body_len body.old) goes survey.now }
    requires start { start ≡ start_around goes survey.now.end survey.now.last }
    requires end { end ≡ end_around goes survey.now.end survey.now.last }
    ensures { HasRows form goes body.old body.new start end body_len result.0 result.1 }
{
    if survey.others_len + (end - start) == survey.end {
        return (start, survey.end - end);
    }
    gather_around(form, body, start, end, body_len, goes)
}

// Whether the elements that stay are put in another form: not where there are none.
#[inline(always)]
fn changes_form(form: ExtensionsForm, new_form: ExtensionsForm, survey: &Survey) -> bool
    ensures stays { OnFalse result ((new_form ≡ form) ⊎ (survey.now.others_len ≡ 0)) }
    ensures changes { OnTrue result (new_form ≡ other_form form) }
{
    new_form != form && survey.others_len > 0
}

// How many bytes the elements that stay take in a row in the new form. `None` where it can't carry
// one of them.
#[inline(always)]
fn others_len(
    form: ExtensionsForm,
    new_form: ExtensionsForm,
    body: &[u8],
    survey: &Survey,
    goes: u8,
) -> Option<usize>
    requires few { length body.now ≤ 262140 }
    requires survey { IsSurvey form body.now goes survey.now }
    ensures length { (elements : List Element) → AreElements form body.now elements →
        IfSome result (λ len. len ≡ length (elements_bytes new_form (others goes elements))) }
    ensures carried { (elements : List Element) → AreElements form body.now elements →
        IfSome result (λ len. AllByRecursion (IsWritable new_form) (others goes elements)) }
    ensures few { IfSome result (λ len. len ≤ 2 * length body.now) }
    ensures none { (elements : List Element) → AreElements form body.now elements →
        IfNone result (AllByRecursion (IsWritable new_form) (others goes elements) → ⊥) }
{
    if changes_form(form, new_form, survey) {
        return row_len(form, new_form, &body[..survey.end], goes);
    }
    Some(survey.others_len)
}

/// How many bytes the elements of a body take in a row once it is rewritten in a form: without
/// those of the id 0, which is padding's, and of the id that goes, and with the one that comes, if
/// one does (RFC 8285, 4.2 and 4.3). `None` where the form can't carry one of those that stay.
#[inline(always)]
pub fn rewritten_len(
    form: ExtensionsForm,
    new_form: ExtensionsForm,
    body: &[u8],
    survey: &Survey,
    goes: u8,
    comes: Option<(u8, &[u8])>,
) -> Option<usize>
    requires few { length body.now ≤ 262140 }
    requires survey { IsSurvey form body.now goes survey.now }
    requires writable { IfSome comes (λ element. IsWritable new_form (element.0, element.1.now)) }
    ensures length { (elements : List Element) → AreElements form body.now elements →
        IfSome result (λ len. len ≡ length (elements_bytes new_form
        (rewritten_elements goes (elements_added comes.entry) elements))) }
    ensures carried { (elements : List Element) → AreElements form body.now elements →
        IfSome result (λ len. AllByRecursion (IsWritable new_form)
        (rewritten_elements goes (elements_added comes.entry) elements)) }
    ensures few { IfSome result (λ len. len ≤ 2 * length body.now + 257) }
    ensures none { (elements : List Element) → AreElements form body.now elements →
        IfNone result (AllByRecursion (IsWritable new_form)
        (rewritten_elements goes (elements_added comes.entry) elements) → ⊥) }
{
    let Some(len) = others_len(form, new_form, body, survey, goes) else {
        return None;
    };
    Some(len + added_len(new_form, comes))
}

// Makes a body of the element that comes, if one comes, and zeros.
#[inline(always)]
fn put_alone(form: ExtensionsForm, body: &mut [u8], comes: Option<(u8, &[u8])>)
    requires writable { IfSome comes (λ element. IsWritable form (element.0, element.1.now)) }
    requires room { length (elements_bytes form (elements_added comes)) ≤ length body.old }
    ensures { body.new ≡ row_to form (elements_added comes.entry) (length body.old) }
{
    put_added(form, body, 0, comes);
    clear_after(body, added_len(form, comes));
}

/// Rewrites a body in a form that can carry its elements (RFC 8285, 4.2 and 4.3): without those of
/// the id 0, which is padding's, and of the id that goes, the others in a row, the one that comes in
/// place of the last one that goes, or behind all, and zeros to the end of the slice, at whose
/// front the body lies. With the id 0 no others go, and the one that comes is the last.
#[inline(always)]
pub fn rewrite_body(
    form: ExtensionsForm,
    new_form: ExtensionsForm,
    body: &mut [u8],
    body_len: usize,
    survey: &Survey,
    goes: u8,
    comes: Option<(u8, &[u8])>,
)
    requires within { body_len ≤ length body.old }
    requires survey { IsSurvey form (take body_len body.old) goes survey.now }
    requires carried { (elements : List Element) →
        AreElements form (take body_len body.old) elements →
        AllByRecursion (IsWritable new_form) (rewritten_elements goes (elements_added comes) elements) }
    requires writable { IfSome comes (λ element. IsWritable new_form (element.0, element.1.now)) }
    requires room { (elements : List Element) → AreElements form (take body_len body.old) elements →
        length (elements_bytes new_form (rewritten_elements goes (elements_added comes) elements))
        ≤ length body.old }
    ensures row { (elements : List Element) → AreElements form (take body_len body.old) elements →
        body.new ≡ row_to new_form (rewritten_elements goes (elements_added comes.entry) elements)
        (length body.old) }
    ensures elements { (elements : List Element) →
        AreElements form (take body_len body.old) elements →
        AreElements new_form body.new (rewritten_elements goes (elements_added comes.entry) elements) }
{
    if body_len == 0 {
        put_alone(new_form, body, comes);
        return;
    }
    let (start, end) = survey.around(goes);
    let (front, count) = put_in_rows(form, body, body_len, survey, goes, start, end);
    let (front, at, count) = if changes_form(form, new_form, survey) {
        let (front, count) = change_rows(form, body, front, end, count);
        (front, front, count)
    } else {
        (front, end, count)
    };
    let len = put_between(new_form, body, front, at, count, comes);
    clear_after(body, len);
}
