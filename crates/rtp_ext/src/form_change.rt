//! Elements in a row that are put in the other form, where they lie.

ghost use Rattle.std.specs.Prelude.{◌≡◌, ◌+◌, ◌*◌, ◌≤◌, List, length, IfSome, IfNone};
ghost use Rattle.std.specs.List.{AllByRecursion};
ghost use Rattle.rtp_ext.specs.Elements.{Element, AreElements, elements_bytes};
ghost use Rattle.rtp_ext.specs.ElementsInARow.{IsWritable};
ghost use Rattle.rtp_ext.specs.BodySurvey.{HasRowsFor, StandInRows, IsRowFor, ChangesRow, other_form, others};

use super::ExtensionsForm;
use super::form::{element_header_len, write_header};
use super::place::next_place;

// How many bytes the elements of other ids take in a row in a form, without those of the id 0.
// `None` where the form can't carry one of them. It stays out of line, since few blocks change
// their form.
#[inline(never)]
pub(super) fn row_len(
    form: ExtensionsForm,
    new_form: ExtensionsForm,
    body: &[u8],
    id: u8,
) -> Option<usize>
    requires { length body.now ≤ 262140 }
    ensures length { (elements : List Element) → AreElements form body.now elements →
        IfSome result (λ len. len ≡ length (elements_bytes new_form (others id elements))) }
    ensures carried { (elements : List Element) → AreElements form body.now elements →
        IfSome result (λ len. AllByRecursion (IsWritable new_form) (others id elements)) }
    ensures few { IfSome result (λ len. len ≤ 2 * length body.now) }
    ensures none { (elements : List Element) → AreElements form body.now elements →
        IfNone result (AllByRecursion (IsWritable new_form) (others id elements) → ⊥) }
{
    let mut len = 0;
    let mut at = 0;
    while let Some(place) = next_place(form, body, at) {
        at = place.end;
        if place.id == id || place.id == 0 {
            continue;
        }
        let data = &body[place.data_start..place.end];
        if !new_form.can_carry(place.id, data) {
            return None;
        }
        len += element_header_len(new_form) + data.len();
    }
    Some(len)
}

// Puts elements of a form in a row, which are the last `len` bytes of the room, to its front in
// another form. Returns how many bytes they then take. It is inlined, so that each form has a loop
// of its own.
#[inline(always)]
fn change_row_in(
    form: ExtensionsForm,
    new_form: ExtensionsForm,
    room: &mut [u8],
    len: usize,
) -> usize
    requires { IsRowFor form new_form room.old len }
    ensures { ChangesRow form new_form room.old room.new len result }
{
    let mut end = 0;
    let mut at = room.len() - len;
    while let Some(place) = next_place(form, room, at) {
        at = place.end;
        let data_len = place.end - place.data_start;
        let data_at = end + element_header_len(new_form);
        room.copy_within(place.data_start..place.end, data_at);
        write_header(room, end, new_form, place.id, data_len as u8);
        end = data_at + data_len;
    }
    end
}

// Puts the elements in the last `len` bytes of the room to its front in the other form. Returns how
// many bytes they then take.
fn change_row(form: ExtensionsForm, room: &mut [u8], len: usize) -> usize
    requires { IsRowFor form (other_form form) room.old len }
    ensures { ChangesRow form (other_form form) room.old room.new len result }
{
    match form {
        ExtensionsForm::OneByte => {
            change_row_in(ExtensionsForm::OneByte, ExtensionsForm::TwoByte, room, len)
        }
        ExtensionsForm::TwoByte => {
            change_row_in(ExtensionsForm::TwoByte, ExtensionsForm::OneByte, room, len)
        }
    }
}

// Puts the elements in so many bytes at the front of the body, and those in the `count` bytes at
// the offset, in the other form: these behind those, at the front. Returns how many bytes the first
// take, and how many the others take behind them. It stays out of line, since few blocks change
// their form.
#[inline(never)]
pub(super) fn change_rows(
    form: ExtensionsForm,
    body: &mut [u8],
    front: usize,
    at: usize,
    count: usize,
) -> (usize, usize)
    requires { HasRowsFor form (other_form form) body.old front at count }
    ensures { (rows : HasRowsFor form (other_form form) body.old front at count) →
        StandInRows (other_form form) rows.before rows.after body.new result.0 result.0 result.1 }
{
    let rest = body.len() - count;
    body.copy_within(at..at + count, rest);
    body.copy_within(..front, rest - front);
    let front = change_row(form, &mut body[..rest], front);
    let count = change_row(form, &mut body[front..], count);
    (front, count)
}
