//! The elements of a block, from values to bytes.

ghost use Rattle.std.specs.Prelude.{◌≡◌, ◌⊎◌, ℕ, ◌+◌, ◌*◌, ◌≤◌, ◌∷◌, [], ◌++◌, length, drop, replicate, IfSome, IfNone};
ghost use Rattle.rtp_ext.specs.declared.form.ExtensionsForm.TheVariants.{OneByte, TwoByte};
ghost use Rattle.rtp_ext.specs.Elements.{AreElements, elements_bytes};
ghost use Rattle.rtp_ext.specs.ExtensionMap.{mapped_count};
ghost use Rattle.rtp_ext.specs.ElementWriting.{element_header, element_or_nothing, items_bytes, CanCarry, IsCarried};
ghost use Rattle.rtp_values.specs.Spelling.{spelled_data};
ghost use Rattle.rtp_values.specs.declared.value.values.ExtensionValues.{ExtensionValues};
ghost use Rattle.rtp_values.specs.KnownKind.{extension_of_kind};
ghost use Rattle.rtp_ext.specs.KindsById.{known_slots};
ghost use Rattle.rtp_base.specs.Overwriting.{overwritten};
ghost use Rattle.rtp_ext.specs.BlockValues.{AreValues};
ghost use Rattle.rtp_values.specs.Values.{no_values};
ghost use Rattle.rtp_ext.specs.WrittenBlock.{written_elements, form_of, image_values, HasFewData, TakesAtMost17Each};

use super::form::{element_header_len, write_header};
use super::kinds::Kinds;
use super::known_ids::{KnownIds, KnownItems};
use super::{ExtensionMap, ExtensionsForm, values_form};
use rtp_values::{ElementValues, ExtensionValues, KnownKind};

// Most buffers have room for so many bytes.
const MOST_BUFFERS: usize = 1_024;

// A length with that of a kind's element added to it, which takes no bytes where a value that it
// needs is absent.
fn with_element<V: ElementValues>(
    len: usize,
    kind: KnownKind,
    ev: &V,
    form: ExtensionsForm,
) -> usize
    requires few { len ≤ 65278 }
    ensures length { (id : ℕ) → result ≡ len + length
        (element_or_nothing form id (spelled_data (extension_of_kind kind) (V.values ev.now))) }
    ensures few { result ≤ len + 257 }
{
    match ev.data_len(kind) {
        Some(data) => len + (element_header_len(form) + data),
        None => len,
    }
}

// Writes the element of a mapped id at the offset, where the values that its kind needs are there,
// and returns the offset after it. There is room for its header.
#[inline(always)]
fn write_element<V: ElementValues>(
    id: u8,
    kind: KnownKind,
    ev: &V,
    form: ExtensionsForm,
    buf: &mut [u8],
    at: usize,
) -> usize
    requires header { at + length (element_header form id 0) ≤ length buf.old }
    requires room { at + length
        (element_or_nothing form id (spelled_data (extension_of_kind kind) (V.values ev.now)))
        ≤ length buf.old }
    requires id { 1 ≤ id }
    requires fits { CanCarry form (id, extension_of_kind kind)
        (spelled_data (extension_of_kind kind) (V.values ev.now)) }
    ensures written { buf.new ≡ overwritten buf.old at
        (element_or_nothing form id (spelled_data (extension_of_kind kind) (V.values ev.now))) }
    ensures end { result ≡ at + length
        (element_or_nothing form id (spelled_data (extension_of_kind kind) (V.values ev.now))) }
    ensures carried { IsCarried form (V.values ev.now) (id, extension_of_kind kind) }
{
    let start = at + element_header_len(form);
    let Some(len) = ev.write_data(kind, &mut buf[start..]) else {
        return at;
    };
    write_header(buf, at, form, id, len as u8);
    start + len
}

// The next id and its kind, where data that begin at `start` are within the room. Where they can't
// be, nothing is written of those that are left.
#[inline(always)]
fn next_within<K: Kinds>(
    items: &mut KnownItems<'_, K>,
    start: usize,
    room: usize,
) -> Option<(u8, KnownKind)>
    ensures some { IfSome result (λ item. (start ≤ room)
        × (items.old ≡ (item.0, extension_of_kind item.1) ∷ items.new)) }
    ensures none { IfNone result (start ≤ room → items.old ≡ []) }
{
    if start > room {
        return None;
    }
    items.next()
}

// At most how many bytes the elements of the two-byte form take, by their kinds alone: only a layer
// allocation has data of more than 16 bytes.
fn most_in_two_byte_form<K: Kinds>(mut items: KnownItems<'_, K>) -> usize
    requires { length items ≤ 255 }
    ensures most { (values : ExtensionValues) → HasFewData values →
        length (items_bytes TwoByte values items.entry) ≤ result }
    ensures bound { result ≤ 65535 }
{
    let mut most = 0;
    while let Some((_, kind)) = items.next() {
        most += if kind == KnownKind::VideoLayersAllocation {
            257
        } else {
            18
        };
    }
    most
}

/// An upper bound of how many bytes [`write_values`] writes in the form, told by the mapped kinds
/// and by how long the layers are at most, so that no other value is looked at. The form is what
/// [`values_form`] returned.
#[inline(always)]
pub fn values_len_at_most<K: Kinds, V: ElementValues>(
    ids: &KnownIds<'_, K>,
    ev: &V,
    form: ExtensionsForm,
) -> usize
    requires short { form ≡ OneByte → TakesAtMost17Each (known_slots ids.now) (V.values ev.now) }
    requires few { HasFewData (V.values ev.now) }
    ensures most { length
        (elements_bytes form (written_elements ids.now (V.values ev.now))) ≤ result }
    ensures bound { result ≤ 65535 }
{
    match form {
        ExtensionsForm::OneByte => 17 * ids.at_most(),
        ExtensionsForm::TwoByte => {
            let layers = ev.layers_at_most();
            let longest = layers.max(16);
            let most = (2 + longest) * ids.at_most();
            let is_told = layers == 0 || most <= MOST_BUFFERS;
            if is_told {
                most
            } else {
                most_in_two_byte_form(ids.iter())
            }
        }
    }
}

/// How many bytes [`write_values`] writes in the form, as [`ExtensionMap::wire_len`] has it.
pub fn values_len<K: Kinds, V: ElementValues>(
    ids: &KnownIds<'_, K>,
    ev: &V,
    form: ExtensionsForm,
) -> usize
    ensures length { result
        ≡ length (elements_bytes form (written_elements ids.now (V.values ev.now))) }
    ensures by_map { result ≤ 257 * mapped_count ids.now }
    ensures bound { result ≤ 65535 }
{
    let mut items = ids.iter();
    let mut len = 0;
    while let Some((_, kind)) = items.next() {
        len = with_element(len, kind, ev, form);
    }
    len
}

/// Writes an element for each mapped id whose kind has its values, under any map, as
/// [`ExtensionMap::write_to`] does.
pub fn write_values<K: Kinds, V: ElementValues>(
    ids: &KnownIds<'_, K>,
    ev: &V,
    form: ExtensionsForm,
    buf: &mut [u8],
) -> usize
    requires form { (form ≡ form_of ids.now (V.values ev.now)) ⊎ (form ≡ TwoByte) }
    requires room { length
        (elements_bytes form (written_elements ids.now (V.values ev.now)))
        ≤ length buf.old }
    ensures length { result
        ≡ length (elements_bytes form (written_elements ids.now (V.values ev.now))) }
    ensures written { buf.new
        ≡ elements_bytes form (written_elements ids.now (V.values ev.now))
        ++ drop result buf.old }
    ensures by_map { result ≤ 257 * mapped_count ids.now }
    ensures bound { result ≤ 65535 }

    // What was written, and any zeros that follow it, are a block's body with these elements.
    ensures elements { (zeros : ℕ) → AreElements form
        (elements_bytes form (written_elements ids.now (V.values ev.now))
        ++ replicate zeros 0)
        (written_elements ids.now (V.values ev.now)) }

    // These elements are read as the image of the values.
    ensures values { AreValues ids.now
        (written_elements ids.now (V.values ev.now)) no_values
        (image_values ids.now (V.values ev.now)) }
{
    let mut items = ids.iter();
    let header_len = element_header_len(form);
    let mut at = 0;
    // The room is looked at before the kind, which then goes straight from the map to its data.
    while let Some((id, kind)) = next_within(&mut items, at + header_len, buf.len()) {
        at = write_element(id, kind, ev, form, buf, at);
    }
    at
}

impl ExtensionMap {
    /// The form that a block of these values needs: the two-byte form exactly when an id above
    /// [`MAX_ID_ONE_BYTE_FORM`] is mapped, the layer allocation is mapped, or a text that is
    /// written is empty (RFC 8285, 4.2 and 4.3). In the one-byte form the elements take at most 17
    /// bytes for each mapped id.
    pub fn form(&self, ev: &ExtensionValues) -> ExtensionsForm
        ensures form { result ≡ form_of self.now ev.now }

        // An element of the one-byte form has at most 17 bytes.
        ensures short { result ≡ OneByte → TakesAtMost17Each self.now ev.now }
        ensures known { result ≡ OneByte → TakesAtMost17Each (known_slots self.now) ev.now }
    {
        values_form(&KnownIds::of(self), ev)
    }

    /// How many bytes [`write_to`](Self::write_to) writes in the form, which is
    /// [`form`](Self::form) or the two-byte form: at most 257 for each mapped id, so at most
    /// 65,535, which is 255 elements of 257 bytes.
    pub fn wire_len(&self, ev: &ExtensionValues, form: ExtensionsForm) -> usize
        requires { (form ≡ form_of self.now ev.now) ⊎ (form ≡ TwoByte) }
        ensures length { result ≡ length (elements_bytes form (written_elements self.now ev.now)) }
        ensures by_map { result ≤ 257 * mapped_count self.now }
        ensures bound { result ≤ 65535 }
    {
        values_len(&KnownIds::of(self), ev, form)
    }

    /// Writes an element for each mapped id whose kind has its values, by rising id, to the front
    /// of the buffer and returns how many bytes they take; the bytes after them stay as they were
    /// (RFC 8285, 4.2 and 4.3). Two ids of one kind are both written. It requires the form that
    /// [`form`](Self::form) returns or the two-byte form, and a buffer of at least
    /// [`wire_len`](Self::wire_len) bytes.
    ///
    /// Under a map of 1 to the audio level a level of -43 with voice is written as `10 AB` (hex) in
    /// the one-byte form, and as `01 01 AB` in the two-byte form.
    pub fn write_to(&self, buf: &mut [u8], ev: &ExtensionValues, form: ExtensionsForm) -> usize
        requires form { (form ≡ form_of self.now ev.now) ⊎ (form ≡ TwoByte) }
        requires room { length (elements_bytes form (written_elements self.now ev.now))
            ≤ length buf.old }
        ensures length { result ≡ length (elements_bytes form (written_elements self.now ev.now)) }
        ensures written { buf.new
            ≡ elements_bytes form (written_elements self.now ev.now) ++ drop result buf.old }
        ensures by_map { result ≤ 257 * mapped_count self.now }
        ensures bound { result ≤ 65535 }

        // What was written, and any zeros that follow it, are a block's body with these elements.
        ensures elements { (zeros : ℕ) → AreElements form
            (elements_bytes form (written_elements self.now ev.now) ++ replicate zeros 0)
            (written_elements self.now ev.now) }

        // These elements are read as the image of the values.
        ensures values { AreValues self.now (written_elements self.now ev.now) no_values
            (image_values self.now ev.now) }
    {
        write_values(&KnownIds::of(self), ev, form, buf)
    }
}
