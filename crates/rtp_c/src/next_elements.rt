//! Where the elements of a block lie, several told in one call.

ghost use Rattle.std.specs.Prelude.{◌≡◌, ◌≢◌, ◌-◌, ◌<◌, ◌≤◌, ◌⊎◌, Option, Some, length, take, drop};
ghost use Rattle.rtp_ext.specs.declared.form.ExtensionsForm.{ExtensionsForm};
ghost use Rattle.rtp_ext.specs.ElementReading.{BeginsWithNoElement};
ghost use Rattle.rtp_c.specs.ElementView.{AreNextElements, end_after};
ghost use Rattle.rtp_c.specs.PacketView.{form_number};

use super::packet::{ElementView, form_of};
use rtp_ext::{ExtensionsForm, Place, next_place};

// Tells where an element lies, field by field, since a whole struct would have the bytes behind its id
// written too.
#[inline(always)]
fn put_place(view: &mut ElementView, place: &Place)
    requires { place.now.data_start ≤ place.now.end }
    ensures { view.new ≡ record {
      data_at = place.now.data_start;
      data_len = place.now.end - place.now.data_start;
      end = place.now.end;
      id = place.now.id;
    } }
{
    view.data_at = place.data_start;
    view.data_len = place.end - place.data_start;
    view.end = place.end;
    view.id = place.id;
}

// Tells the elements from the offset on, as many as there is room for, and returns how many.
fn put_elements(form: ExtensionsForm, body: &[u8], at: usize, elements: &mut [ElementView]) -> usize
    requires { at ≤ length body.now }
    ensures found { AreNextElements form body.now at (take result elements.new) }
    ensures ended { result < length elements.new →
        BeginsWithNoElement form (drop (end_after at (take result elements.new)) body.now) }
    ensures room { result ≤ length elements.new }
    ensures unchanged { drop result elements.new ≡ drop result elements.old }
{
    let mut count = 0;
    let mut from = at;
    while count < elements.len() {
        let Some(place) = next_place(form, body, from) else {
            return count;
        };
        put_place(&mut elements[count], &place);
        from = place.end;
        count += 1;
    }
    count
}

/// Finds the elements of a block's body from an offset on, in order, as `rtpw_next_element` does
/// one by one: as many as there is room for. Returns how many they are; where these are fewer than
/// there is room for, reading ends behind them, and else it goes on at the `end` of the last one.
/// None where the form is neither of the two, or the offset is past the body's end. What is behind
/// them in the room stays.
#[unsafe(no_mangle)]
pub extern "C" fn rtpw_next_elements(
    body: &[u8],
    form: u8,
    at: usize,
    elements: &mut [ElementView],
) -> usize
    ensures found { (f : ExtensionsForm) → form_number (Some f) ≡ form →
        AreNextElements f body.now at (take result elements.new) }
    ensures ended { (f : ExtensionsForm) → form_number (Some f) ≡ form → at ≤ length body.now →
        result < length elements.new →
        BeginsWithNoElement f (drop (end_after at (take result elements.new)) body.now) }
    ensures none { (length body.now < at) ⊎ ((f : ExtensionsForm) → form_number (Some f) ≢ form) →
        result ≡ 0 }
    ensures room { result ≤ length elements.new }
    ensures unchanged { drop result elements.new ≡ drop result elements.old }
{
    match form_of(form) {
        Some(form) if at <= body.len() => put_elements(form, body, at, elements),
        _ => 0,
    }
}
