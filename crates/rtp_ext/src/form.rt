//! The form of a header extension block, what an element takes in it, and the form that serves for
//! elements as they are given.

ghost use Rattle.std.specs.Prelude.{◌≡◌, ◌↔◌, ℕ, ◌+◌, ◌≤◌, List, length, IsTrue, IsNone, IfSome, if◌then◌else◌};
ghost use Rattle.std.specs.Bool.{OnFalse};
ghost use Rattle.std.specs.Int.{w16, from_be_bytes, to_be_bytes};
ghost use Rattle.rtp_ext.specs.Form.{form_word, IsFormWord};
ghost use Rattle.rtp_ext.specs.declared.form.ExtensionsForm.TheVariants.{OneByte, TwoByte};
ghost use Rattle.rtp_base.specs.Overwriting.{overwritten};
ghost use Rattle.rtp_ext.specs.ElementWriting.{element_header};
ghost use Rattle.rtp_ext.specs.Elements.{Element, elements_bytes};
ghost use Rattle.rtp_ext.specs.PutElement.{needed_form, allowed_form};
ghost use Rattle.rtp_ext.specs.ElementsInARow.{serves_one_byte, form_given, IsWritable, IsUnwritable, AreWritableIn, AreNotWritableIn};

use super::ElementList;

/// The greatest id that an element of the one-byte form can have (RFC 8285, 4.2).
pub const MAX_ID_ONE_BYTE_FORM: u8 = 14;

/// How the elements of a header extension block are laid out (RFC 8285, 4.2 and 4.3).
#[derive(Clone, Copy, Debug, PartialEq, Eq, Hash)]
pub enum ExtensionsForm {
    /// A header of one byte: 1 to 16 bytes of data, and an id of 1 to 14. An element of id 0 that
    /// has two bytes of data or more is read too, and no map has an extension for it.
    OneByte,
    /// A header of two bytes: ids 1 to 255, and 0 to 255 bytes of data.
    TwoByte,
}

impl ExtensionsForm {
    /// The word that a writer puts at the front of the block: 0xBEDE, or 0x1000, whose low four
    /// bits are left to the application.
    pub fn as_u16(self) -> u16
        ensures { result ≡ form_word self }
    {
        match self {
            ExtensionsForm::OneByte => 0xBEDE,
            ExtensionsForm::TwoByte => 0x1000,
        }
    }

    /// The two bytes of [`as_u16`](Self::as_u16), the high one first.
    pub fn serialize(self) -> [u8; 2]
        ensures { result ≡ to_be_bytes w16 (form_word self) }
    {
        self.as_u16().to_be_bytes()
    }

    /// The form that a block with these first two bytes has, whatever the application bits of the
    /// two-byte form are; None where they begin a block of another kind (RFC 3550, 5.3.1).
    pub fn parse(bytes: [u8; 2]) -> Option<Self>
        ensures found { IfSome result (IsFormWord (from_be_bytes w16 bytes)) }
        ensures only { (form : ExtensionsForm) → IsFormWord (from_be_bytes w16 bytes) form →
            result ≡ Some form }
    {
        match u16::from_be_bytes(bytes) {
            0xBEDE => Some(ExtensionsForm::OneByte),
            0x1000..=0x100F => Some(ExtensionsForm::TwoByte),
            _ => None,
        }
    }

    /// Whether an element of this id and these data can be written in the form: the one-byte form
    /// carries ids 1 to 14 with 1 to 16 bytes of data, the two-byte form ids 1 to 255 with 0 to 255
    /// bytes (RFC 8285, 4.2 and 4.3). What the two-byte form can't carry, neither form can.
    pub fn can_carry(self, id: u8, data: &[u8]) -> bool
        ensures carried { IsTrue result ↔ IsWritable self (id, «data».now) }
        ensures neither { self ≡ TwoByte → OnFalse result (IsUnwritable (id, «data».now)) }
    {
        match self {
            ExtensionsForm::OneByte => {
                (1..=MAX_ID_ONE_BYTE_FORM).contains(&id) && (1..=16).contains(&data.len())
            }
            ExtensionsForm::TwoByte => id != 0 && data.len() <= 255,
        }
    }
}

// How many bytes stand before an element's data.
pub(super) fn element_header_len(form: ExtensionsForm) -> usize
    ensures { (id len : ℕ) → result ≡ length (element_header form id len) }
{
    match form {
        ExtensionsForm::OneByte => 1,
        ExtensionsForm::TwoByte => 2,
    }
}

// Whether this id of an element is 0, which is padding's: only the one-byte form has such elements.
#[inline(always)]
pub(super) fn is_paddings(form: ExtensionsForm, id: u8) -> bool
    requires { form ≡ TwoByte → 1 ≤ id }
    ensures { IsTrue result ↔ (id ≡ 0) }
{
    match form {
        ExtensionsForm::OneByte => id == 0,
        ExtensionsForm::TwoByte => false,
    }
}

// Writes the header of an element at the offset, by its id and the length of its data.
pub(super) fn write_header(buf: &mut [u8], at: usize, form: ExtensionsForm, id: u8, len: u8)
    requires room { at + length (element_header form id len) ≤ length buf.old }
    requires fits { form ≡ OneByte → (id ≤ 14) × (1 ≤ len) × (len ≤ 16) }
    ensures { buf.new ≡ overwritten buf.old at (element_header form id len) }
{
    match form {
        // By a rotation, since a compiler would count the products of ids along with the ids of a
        // walk.
        ExtensionsForm::OneByte => buf[at] = id.rotate_left(4) + (len - 1),
        ExtensionsForm::TwoByte => {
            buf[at] = id;
            buf[at + 1] = len;
        }
    }
}

// The form that serves where there is one more element than the form served for.
pub(super) fn form_with(form: ExtensionsForm, id: u8, bytes: &[u8]) -> ExtensionsForm
    ensures { result ≡ (if serves_one_byte (id, bytes.now) then form else TwoByte) }
{
    if ExtensionsForm::OneByte.can_carry(id, bytes) {
        form
    } else {
        ExtensionsForm::TwoByte
    }
}

/// The form that a block gets with an element put into it, where it has this form or there is none
/// yet (RFC 8285, 4.1.2): the one that it needs, which is the two-byte form where it has that, or
/// the one-byte form can't carry the element; or the one form that is allowed, where that serves.
/// `None` where it doesn't: the block needs the two-byte form, and only the one-byte form is
/// allowed.
pub fn form_to_put(
    block: Option<ExtensionsForm>,
    allowed: Option<ExtensionsForm>,
    id: u8,
    data: &[u8],
) -> Option<ExtensionsForm>
    ensures { result ≡ allowed_form allowed (needed_form block (id, «data».now)) }
{
    let needed = form_with(block.unwrap_or(ExtensionsForm::OneByte), id, data);
    match (allowed, needed) {
        (None, needed) => Some(needed),
        (Some(ExtensionsForm::TwoByte), _) => Some(ExtensionsForm::TwoByte),
        (Some(ExtensionsForm::OneByte), ExtensionsForm::OneByte) => Some(ExtensionsForm::OneByte),
        (Some(ExtensionsForm::OneByte), ExtensionsForm::TwoByte) => None,
    }
}

// How many bytes more so many elements take than in the one-byte form, whose headers are shorter.
fn longer_by(form: ExtensionsForm, count: usize) -> usize
    ensures { (elements : List Element) → length elements ≡ count →
        length (elements_bytes form elements)
        ≡ length (elements_bytes OneByte elements) + result }
{
    match form {
        ExtensionsForm::OneByte => 0,
        ExtensionsForm::TwoByte => count,
    }
}

impl ExtensionsForm {
    /// The form that these elements are written in (RFC 8285, 4.1.2, 4.2 and 4.3): the one that is
    /// allowed, where one alone is; else the one that serves, which is the one-byte form exactly
    /// where that can carry every element, ids 1 to 14 with 1 to 16 bytes of data.
    ///
    /// `None` where the form can't carry one of them, or where they take more than `room` bytes in
    /// it. Neither form carries the id 0 or more than 255 bytes of data.
    pub fn for_elements<L: ElementList>(
        elements: L,
        allowed: Option<ExtensionsForm>,
        room: usize,
    ) -> Option<Self>
        ensures refused { IsNone result
            ↔ AreNotWritableIn (form_given allowed (L.elements elements))
            (L.elements elements) room }
        ensures form { IfSome result (λ form. form ≡ form_given allowed (L.elements elements)) }
        ensures fit { IfSome result (λ form. AreWritableIn form (L.elements elements) room) }
    {
        let widest = allowed.unwrap_or(ExtensionsForm::TwoByte);
        let mut form = allowed.unwrap_or(ExtensionsForm::OneByte);
        let mut left = room;
        let count = elements.count();
        for index in 0..count {
            let (id, bytes) = elements.at(index);
            if !widest.can_carry(id, bytes) {
                return None;
            }
            form = form_with(form, id, bytes);
            left = left.checked_sub(1 + bytes.len())?;
        }
        if left < longer_by(form, count) {
            return None;
        }
        Some(form)
    }
}
