//! A block of header extensions as it is written: the word of its form, the number of its words,
//! and its body.

ghost use Rattle.std.specs.Prelude.{◌≡◌, ◌⊎◌, ℕ, ◌+◌, ◌*◌, ◌≤◌, ◌<◌, List, ◌++◌, length, drop, replicate, true, IsTrue, ◌↔◌, IfSome, IfNone};
ghost use Rattle.std.specs.Int.{w16, to_be_bytes};
ghost use Rattle.rtp_base.specs.Overwriting.{overwritten};
ghost use Rattle.rtp_ext.specs.Form.{form_word};
ghost use Rattle.rtp_ext.specs.Elements.{AreElements, elements_bytes};
ghost use Rattle.rtp_ext.specs.ElementsInARow.{form_given, AreWritableIn, AreNotWritableIn};
ghost use Rattle.rtp_wire.specs.Header.{IsExtensionPart};
ghost use Rattle.rtp_wire.specs.WrittenWith.{body_with};
ghost use Rattle.rtp_ext.specs.WrittenBlock.{TakesAtMost17Each, HasFewData, form_of, block_of, filled, image_values, whole_words};
ghost use Rattle.rtp_wire.specs.WrittenInForm.{block_bytes_in, IsWithinMap};
ghost use Rattle.rtp_ext.specs.KindsById.{known_slots};
ghost use Rattle.rtp_ext.specs.declared.form.ExtensionsForm.TheVariants.{OneByte};

use rtp_base::{fill_word, put};
use rtp_ext::{
    ElementList, ElementValues, ExtensionsForm, Kinds, KnownIds, put_elements, values_len,
    values_len_at_most, write_values,
};

// How many bytes stand before a block's body.
pub(crate) const BLOCK_HEADER_LEN: usize = 4;

// The four bytes before a body of `words` words.
fn block_header(form: ExtensionsForm, words: u16) -> [u8; BLOCK_HEADER_LEN]
    ensures { result ≡ to_be_bytes w16 (form_word form) ++ to_be_bytes w16 words }
{
    let [form_high, form_low] = form.serialize();
    let [words_high, words_low] = words.to_be_bytes();
    [form_high, form_low, words_high, words_low]
}

// So many bytes, with the zeros that fill their last word.
#[inline(always)]
pub(crate) fn in_words(len: usize) -> usize
    requires { len ≤ 1048576 }
    ensures { result ≡ whole_words len }
{
    (len + 3) / 4 * 4
}

// The length of the block that `write_block` writes.
#[inline(always)]
pub(super) fn block_len<K: Kinds, V: ElementValues>(
    ids: &KnownIds<'_, K>,
    ev: &V,
    form: ExtensionsForm,
) -> usize
    ensures length { result ≡ length (block_bytes_in form ids.now (V.values ev.now)) }
    ensures few { IsWithinMap ids.now result }
{
    if ids.are_none() {
        return BLOCK_HEADER_LEN;
    }
    BLOCK_HEADER_LEN + in_words(values_len(ids, ev, form))
}

// How many bytes a block of the longest layer allocation alone has at least.
const LAYERS_LEN: usize = BLOCK_HEADER_LEN + 257;

// Whether the block that `write_block` writes has room. Most buffers have it whatever the values
// are, so that no length is asked for. Where layers may be written, those that are too short for the
// longest ones aren't such.
#[inline(always)]
pub(super) fn block_fits<K: Kinds, V: ElementValues>(
    ids: &KnownIds<'_, K>,
    ev: &V,
    form: ExtensionsForm,
    room: usize,
) -> bool
    requires short { form ≡ OneByte → TakesAtMost17Each (known_slots ids.now) (V.values ev.now) }
    requires few { HasFewData (V.values ev.now) }
    ensures { IsTrue result
        ↔ (length (block_bytes_in form ids.now (V.values ev.now)) ≤ room) }
{
    let may_be_long = form == ExtensionsForm::TwoByte && ev.layers_at_most() > 0;
    // At most three zeros fill the last word.
    if !(may_be_long && room < LAYERS_LEN)
        && BLOCK_HEADER_LEN + values_len_at_most(ids, ev, form) + 3 <= room
    {
        return true;
    }
    block_len(ids, ev, form) <= room
}

// Puts the four bytes before a body in front of elements that stand after these, and after them the
// zeros that fill their last word, and returns the block's length.
fn close_block(buf: &mut [u8], form: ExtensionsForm, elements_len: usize) -> usize
    requires few { elements_len ≤ 262140 }
    requires room { 4 + whole_words elements_len ≤ length buf.old }
    ensures closed { (before row : List ℕ) → buf.old ≡ overwritten before 4 row →
        length buf.old ≡ length before → elements_len ≡ length row →
        buf.new ≡ block_of form (filled row) ++ drop result before }
    ensures length { result ≡ 4 + whole_words elements_len }
{
    let body_len = in_words(elements_len);
    let len = fill_word(
        buf,
        BLOCK_HEADER_LEN + elements_len,
        body_len - elements_len,
    );
    put(buf, 0, &block_header(form, (body_len / 4) as u16));
    len
}

// Writes the block of these values in the form to the front of the buffer, and returns its length.
#[inline(always)]
pub(super) fn write_block<K: Kinds, V: ElementValues>(
    ids: &KnownIds<'_, K>,
    ev: &V,
    form: ExtensionsForm,
    buf: &mut [u8],
) -> usize
    requires form { form ≡ form_of ids.now (V.values ev.now) }
    requires room { length (block_bytes_in form ids.now (V.values ev.now))
        ≤ length buf.old }
    ensures written { buf.new
        ≡ block_bytes_in form ids.now (V.values ev.now) ++ drop result buf.old }
    ensures length { result ≡ length (block_bytes_in form ids.now (V.values ev.now)) }
    ensures few { IsWithinMap ids.now result }

    // What was written is read as the image of the values.
    ensures read_back { IsExtensionPart ids.now true
        (block_bytes_in form ids.now (V.values ev.now))
        (image_values ids.now (V.values ev.now)) }
{
    let elements_len = write_values(ids, ev, form, &mut buf[BLOCK_HEADER_LEN..]);
    close_block(buf, form, elements_len)
}

// Writes the block of these elements in the form to the front of the buffer, and returns its
// length.
pub(super) fn write_block_of<L: ElementList>(
    buf: &mut [u8],
    form: ExtensionsForm,
    elements: L,
) -> usize
    requires fit { AreWritableIn form (L.elements elements) 262140 }
    requires room { length (block_of form (filled (elements_bytes form (L.elements elements))))
        ≤ length buf.old }
    ensures written { buf.new
        ≡ block_of form (filled (elements_bytes form (L.elements elements)))
        ++ drop result buf.old }
    ensures length { result
        ≡ length (block_of form (filled (elements_bytes form (L.elements elements)))) }
    ensures elements { AreElements form (filled (elements_bytes form (L.elements elements)))
        (L.elements elements) }
{
    let elements_len = put_elements(&mut buf[BLOCK_HEADER_LEN..], form, elements);
    close_block(buf, form, elements_len)
}

// The form of a block of these elements that has room: the one that serves, or that alone is
// allowed.
pub(super) fn block_form<L: ElementList>(
    room: usize,
    elements: L,
    allowed: Option<ExtensionsForm>,
) -> Option<ExtensionsForm>
    ensures refused { IfNone result (
        AreNotWritableIn (form_given allowed (L.elements elements)) (L.elements elements) 262140
        ⊎ (room < length (block_of (form_given allowed (L.elements elements))
        (body_with allowed (L.elements elements))))) }
    ensures form { IfSome result (λ form. form ≡ form_given allowed (L.elements elements)) }
    ensures fit { IfSome result (λ form. AreWritableIn form (L.elements elements) 262140) }
    ensures room { IfSome result (λ form.
        length (block_of form (filled (elements_bytes form (L.elements elements)))) ≤ room) }
{
    let words = (room / 4).checked_sub(1)?.min(usize::from(u16::MAX));
    ExtensionsForm::for_elements(elements, allowed, 4 * words)
}
