//! What the body of a block has of an id.

ghost use Rattle.std.specs.Prelude.{◌≡◌, ℕ, ◌+◌, ◌-◌, ◌^◌, ◌<◌, ◌≤◌, length, drop, Option, Some, IfSome, IfNone};
ghost use Rattle.rtp_ext.specs.ElementReading.{BeginsWithNoElement};
ghost use Rattle.rtp_ext.specs.ElementPlaces.{IsLeft};
ghost use Rattle.rtp_ext.specs.BodySurvey.{IsSurvey, IsSurveyedTo, start_around, end_around};

use super::ExtensionsForm;
use super::elements::next_element;
use super::form::{element_header_len, is_paddings};
use super::place::{Place, place_before};

/// What a body has of an id, and how much besides.
#[derive(Clone, Copy, Drop)]
pub struct Survey {
    /// The place of its last element, and `None` where no element has the id.
    pub last: Option<Place>,
    /// How many elements have the id, or the id 0, which is padding's.
    pub count: usize,
    /// How many bytes the elements of other ids take, without those of the id 0.
    pub others_len: usize,
    /// Where the last element of any id ends, and 0 where there is none.
    pub end: usize,
}

impl Survey {
    // Where the bytes before what goes last end, and those after it begin: before and after the
    // last element of the id. With the id 0, or without such an element, all elements are before
    // it.
    #[inline(always)]
    pub(super) fn around(&self, goes: u8) -> (usize, usize)
        ensures start { result.0 ≡ start_around goes self.now.end self.now.last }
        ensures end { result.1 ≡ end_around goes self.now.end self.now.last }
    {
        match self.last {
            Some(place) if goes != 0 => (place.start, place.end),
            _ => (self.end, self.end),
        }
    }
}

/// What a block's body has of an id (RFC 8285, 4.2 and 4.3), found in one walk.
#[inline(always)]
pub fn survey_of(form: ExtensionsForm, body: &[u8], id: u8) -> Survey
    ensures { IsSurvey form body.now id result }
{
    survey_by(form, body, id, true)
}

// What a body has of an id, by trying the front first or not. Trying it takes fewer steps where
// elements are counted, and more where only the last place is asked for, which has a tighter loop.
#[inline(always)]
pub(super) fn survey_by(form: ExtensionsForm, body: &[u8], id: u8, front_first: bool) -> Survey
    ensures { IsSurvey form body.now id result }
{
    match form {
        ExtensionsForm::OneByte => survey_in(ExtensionsForm::OneByte, body, id, front_first),
        ExtensionsForm::TwoByte => survey_in(ExtensionsForm::TwoByte, body, id, front_first),
    }
}

// One more than a count. It stays out of line, since next to no element has the id 0: a walk over
// those that have another does nothing for it.
#[cold]
#[inline(never)]
fn one_more(count: usize) -> usize
    requires { count + 1 < 2 ^ 64 }
    ensures { result ≡ count + 1 }
{
    count + 1
}

// How far a walk over a body has come.
#[derive(Drop)]
struct Walk<'a> {
    // The bytes that are left of the body.
    left: &'a [u8],
    // How many elements before them have the id, or the id 0.
    count: usize,
    // How many bytes the other elements before them take.
    others_len: usize,
}

impl Walk<'_> {
    // Goes on after the next element of the id, and returns its place; where none is left, to the
    // end of reading. It has a loop of its own, so that less is kept from one element of another id
    // to the next.
    #[inline(always)]
    fn next_of(
        &mut self,
        form: ExtensionsForm,
        body: &[u8],
        id: u8,
        front_first: bool,
    ) -> Option<Place>
        requires left { IsLeft body.now self.old.left.now }
        requires few { self.old.others_len ≤ length body.now - length self.old.left.now }
        requires counted { self.old.count ≤ length body.now - length self.old.left.now }
        ensures left { IsLeft body.now self.new.left.now }
        ensures few { self.new.others_len ≤ length body.now - length self.new.left.now }
        ensures counted { self.new.count ≤ length body.now - length self.new.left.now }
        ensures fewer { IfSome result (λ _. length self.new.left.now < length self.old.left.now) }
        ensures some { (last : Option Place) → IsSurveyedTo form body.now
            (length body.now - length self.old.left.now) id last self.old.count
            self.old.others_len →
            IfSome result (λ place. IsSurveyedTo form body.now
            (length body.now - length self.new.left.now) id (Some place) self.new.count
            self.new.others_len) }
        ensures none { (last : Option Place) → IsSurveyedTo form body.now
            (length body.now - length self.old.left.now) id last self.old.count
            self.old.others_len →
            IfNone result (IsSurveyedTo form body.now
            (length body.now - length self.new.left.now) id last self.new.count
            self.new.others_len) }
        ensures end { IfNone result
            (BeginsWithNoElement form
            (drop (length body.now - length self.new.left.now) body.now)) }
    {
        while let Some((other, data, after)) = next_element(self.left, form, front_first) {
            self.left = after;
            if other == id {
                self.count += 1;
                return Some(place_before(form, body.len(), after.len(), id, data.len()));
            }
            if is_paddings(form, other) {
                self.count = one_more(self.count);
            } else {
                self.others_len += element_header_len(form) + data.len();
            }
        }
        None
    }
}

// What a body of one form has of an id. It is inlined, so that each form has loops of its own.
#[inline(always)]
fn survey_in(form: ExtensionsForm, body: &[u8], id: u8, front_first: bool) -> Survey
    ensures { IsSurvey form body.now id result }
{
    let mut last = None;
    let mut walk = Walk {
        left: body,
        count: 0,
        others_len: 0,
    };
    while let Some(place) = walk.next_of(form, body, id, front_first) {
        last = Some(place);
    }
    Survey {
        last,
        count: walk.count,
        others_len: walk.others_len,
        end: body.len() - walk.left.len(),
    }
}
