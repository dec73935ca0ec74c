//! From the fields of a header and values to bytes.

ghost use Rattle.std.specs.Prelude.{◌≡◌, ℕ, ◌+◌, ◌*◌, ◌%◌, ◌<◌, ◌≤◌, ◌↔◌, ◌++◌, List, length, drop, Some, IsTrue, IsNone, IfSome, IfNone};
ghost use Rattle.rtp_ext.specs.declared.form.ExtensionsForm.TheVariants.{OneByte};
ghost use Rattle.rtp_ext.specs.ExtensionMap.{Slots, mapped_count, HasNoIdAbove};
ghost use Rattle.rtp_values.specs.declared.value.values.ExtensionValues.{ExtensionValues};
ghost use Rattle.rtp_ext.specs.KindsById.{known_slots};
ghost use Rattle.rtp_ext.specs.WrittenBlock.{TakesAtMost17Each, HasFewData, whole_words};
ghost use Rattle.rtp_wire.specs.Header.{IsWire};
ghost use Rattle.rtp_wire.specs.Written.{extension_bytes, wire_bytes, image_of, with_values, CannotBeWritten};
ghost use Rattle.rtp_wire.specs.WrittenInForm.{announced_form, IsWithinMap};

use super::block::{BLOCK_HEADER_LEN, block_fits, block_len, write_block};
use super::fixed_part::{fixed_bytes, put_csrc};
use super::get_fields::GetFields;
use rtp_base::put;
use rtp_ext::{ElementValues, ExtensionsForm, Kinds, KnownIds, values_form};

/// Returns how many bytes [`try_write_values`] writes, within the bounds of
/// [`RtpHeader::wire_len`](super::RtpHeader::wire_len). Requires at most 15 contributing sources.
pub fn values_wire_len<F: GetFields, K: Kinds, V: ElementValues>(
    fields: &F,
    values: &V,
    exts: &K,
) -> usize
    requires sources { (F.header fields.now).csrc_count ≤ 15 }
    ensures length { result ≡ length
        (wire_bytes (K.slots exts.now) (with_values (F.header fields.now) (V.values values.now))) }
    ensures words { result % 4 ≡ 0 }
    ensures by_map { result ≤ 76 + whole_words (257 * mapped_count (K.slots exts.now)) }
    ensures small { HasNoIdAbove 16 (K.slots exts.now) → result ≤ 4188 }
    ensures bound { result ≤ 65612 }
{
    let fixed = fields.fixed();
    let before = 12 + 4 * fixed.csrc_count;
    if !fixed.has_extension {
        return before;
    }
    let ids = KnownIds::of(exts);
    before + block_len(&ids, values, values_form(&ids, values))
}

/// Writes a header with these fields and these values as
/// [`RtpHeader::try_write_to`](super::RtpHeader::try_write_to) does: of an
/// [`RtpHeader`](super::RtpHeader) they take the place of `ext_vals`, and those of
/// [`WithLayers`](crate::WithLayers) have a layer allocation that took no memory. `None` where the
/// payload type is above 127, there are more than 15 contributing sources, or the buffer has fewer
/// than [`values_wire_len`] bytes, and then nothing is written.
#[inline(always)]
pub fn try_write_values<F: GetFields, K: Kinds, V: ElementValues>(
    fields: &F,
    buf: &mut [u8],
    values: &V,
    exts: &K,
) -> Option<usize>
    ensures refused { IsNone result ↔ CannotBeWritten (K.slots exts.now)
        (with_values (F.header fields.now) (V.values values.now)) (length buf.old) }
    ensures unchanged { IfNone result (buf.new ≡ buf.old) }
    ensures written { IfSome result (λ len. buf.new
        ≡ wire_bytes (K.slots exts.now) (with_values (F.header fields.now) (V.values values.now))
        ++ drop len buf.old) }
    ensures length { IfSome result (λ len. len ≡ length (wire_bytes
        (K.slots exts.now) (with_values (F.header fields.now) (V.values values.now)))) }

    // What was written, followed by anything, is read as the image of the header with them.
    ensures read_back { IfSome result (λ _. (rest : List ℕ) → IsWire (K.slots exts.now)
        (wire_bytes (K.slots exts.now)
        (with_values (F.header fields.now) (V.values values.now)) ++ rest)
        (image_of (K.slots exts.now) (with_values (F.header fields.now) (V.values values.now)))) }
{
    let fixed = fields.fixed();
    if fixed.csrc_count > 15 || fixed.payload_type.get() > 127 {
        return None;
    }
    if buf.len() < least_len(fields) {
        return None;
    }
    if !fixed.has_extension {
        // So nothing of the map is looked at.
        return Some(write_in(fields, &KnownIds::of(exts), values, None, buf));
    }
    let ids = KnownIds::of(exts);
    let form = values_form(&ids, values);
    let before = 12 + 4 * fixed.csrc_count;
    if !block_fits(&ids, values, form, buf.len() - before) {
        return None;
    }
    Some(write_in(fields, &ids, values, Some(form), buf))
}

// At least so many bytes are written, whatever the map and the values are.
#[inline(always)]
fn least_len<F: GetFields>(fields: &F) -> usize
    requires { (F.header fields.now).csrc_count ≤ 15 }
    ensures least { (exts : Slots) (values : ExtensionValues) →
        result ≤ length (wire_bytes exts (with_values (F.header fields.now) values)) }
    ensures before { 12 + 4 * (F.header fields.now).csrc_count ≤ result }
{
    let fixed = fields.fixed();
    let before = 12 + 4 * fixed.csrc_count;
    if fixed.has_extension {
        before + BLOCK_HEADER_LEN
    } else {
        before
    }
}

// Writes the header, with its block in this form, to the front of the buffer, and returns its
// length.
#[inline(always)]
pub(super) fn write_in<F: GetFields, K: Kinds, V: ElementValues>(
    fields: &F,
    ids: &KnownIds<'_, K>,
    values: &V,
    form: Option<ExtensionsForm>,
    buf: &mut [u8],
) -> usize
    requires payload_type { (F.header fields.now).payload_type ≤ 127 }
    requires sources { (F.header fields.now).csrc_count ≤ 15 }
    requires form { form
        ≡ announced_form ids.now (F.header fields.now).has_extension (V.values values.now) }
    requires room { length (wire_bytes
        ids.now (with_values (F.header fields.now) (V.values values.now))) ≤ length buf.old }
    ensures written { buf.new
        ≡ wire_bytes ids.now (with_values (F.header fields.now) (V.values values.now))
        ++ drop result buf.old }
    ensures length { result ≡ length (wire_bytes
        ids.now (with_values (F.header fields.now) (V.values values.now))) }
    ensures few { IsWithinMap ids.now (length
        (extension_bytes ids.now (F.header fields.now).has_extension (V.values values.now))) }
    ensures read_back { (rest : List ℕ) → IsWire ids.now (wire_bytes ids.now
        (with_values (F.header fields.now) (V.values values.now)) ++ rest)
        (image_of ids.now (with_values (F.header fields.now) (V.values values.now))) }
{
    let end = put(buf, 0, &fixed_bytes(fields, fields.fixed().has_extension));
    let end = put_csrc(fields, buf, end);
    let Some(form) = form else {
        return end;
    };
    end + write_block(ids, values, form, &mut buf[end..])
}
