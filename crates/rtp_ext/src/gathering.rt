//! The elements of a body without those of an id, and of the id 0, in a row at its front.

ghost use Rattle.std.specs.Prelude.{◌≤◌, length};
ghost use Rattle.rtp_ext.specs.BodySurvey.{IsGathered, HasRows, IsCompacted};

use super::ExtensionsForm;
use super::form::is_paddings;
use super::place::next_place_by;
use super::raw_writing::clear_after;

// Puts the elements of other ids, but those of the id 0, in a row at the front, in order, and
// returns how many bytes they take.
fn gather(form: ExtensionsForm, body: &mut [u8], id: u8) -> usize
    ensures { IsGathered form id body.old body.new result }
{
    match form {
        ExtensionsForm::OneByte => gather_in(ExtensionsForm::OneByte, body, id, true),
        ExtensionsForm::TwoByte => gather_in(ExtensionsForm::TwoByte, body, id, true),
    }
}

// Puts all elements but those of the id 0 in a row at the front, in order, and returns how many
// bytes they take.
fn gather_all(form: ExtensionsForm, body: &mut [u8]) -> usize
    ensures { IsGathered form 0 body.old body.new result }
{
    match form {
        ExtensionsForm::OneByte => gather_in(ExtensionsForm::OneByte, body, 0, false),
        ExtensionsForm::TwoByte => gather_in(ExtensionsForm::TwoByte, body, 0, false),
    }
}

// Puts the elements of other ids, but those of the id 0, in a row in one form. It is inlined, so that
// each form has a loop of its own. Trying the front first takes fewer steps for an element that goes,
// and more for one that stays.
#[inline(always)]
fn gather_in(form: ExtensionsForm, body: &mut [u8], id: u8, front_first: bool) -> usize
    ensures { IsGathered form id body.old body.new result }
{
    let mut len = 0;
    let mut at = 0;
    while let Some(place) = next_place_by(form, body, at, front_first) {
        at = place.end;
        if place.id == id || is_paddings(form, place.id) {
            continue;
        }
        if len < place.start {
            body.copy_within(place.start..place.end, len);
        }
        len += place.end - place.start;
    }
    len
}

// Puts the elements of other ids, but those of the id 0, before an offset in a row at the front, and
// those between two further offsets in a row from the first of these on. Returns how many bytes each
// of the two rows has. It stays out of line, since the elements of most blocks stand in a row.
#[inline(never)]
pub(super) fn gather_around(
    form: ExtensionsForm,
    body: &mut [u8],
    start: usize,
    end: usize,
    body_len: usize,
    id: u8,
) -> (usize, usize)
    requires order { start ≤ end }
    requires after { end ≤ body_len }
    requires within { body_len ≤ length body.old }
    ensures { HasRows form id body.old body.new start end body_len result.0 result.1 }
{
    let front = gather(form, &mut body[..start], id);
    let count = gather(form, &mut body[end..body_len], id);
    (front, count)
}

/// Makes a body anew without the elements of the id 0, which is padding's (RFC 8285, 4.2 and 4.3):
/// the others in a row, and zeros to its end. Returns how many bytes the row takes. It stays out of
/// line, so that the walk over the elements has the registers for itself.
#[inline(never)]
pub fn compact_body(form: ExtensionsForm, body: &mut [u8]) -> usize
    ensures { IsCompacted form body.old body.new result }
{
    let len = gather_all(form, body);
    clear_after(body, len);
    len
}
