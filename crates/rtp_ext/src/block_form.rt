//! The form that a block of values needs.

ghost use Rattle.std.specs.Prelude.{◌≡◌, false};
ghost use Rattle.std.specs.List.{list_any};
ghost use Rattle.rtp_ext.specs.declared.form.ExtensionsForm.TheVariants.{OneByte};
ghost use Rattle.rtp_ext.specs.ExtensionMap.{items_from};
ghost use Rattle.rtp_ext.specs.KindsById.{known_slots, has_empty};
ghost use Rattle.rtp_ext.specs.WrittenBlock.{form_of, needs_two, HasFewData, TakesAtMost17Each};

use super::ExtensionsForm;
use super::kinds::Kinds;
use super::known_ids::KnownIds;
use rtp_values::ElementValues;

// Whether a text is written that is empty. It stays out of line, since few values have an empty
// text and its loop would make every other call save registers.
#[inline(never)]
fn has_empty_data<K: Kinds, V: ElementValues>(ids: &KnownIds<'_, K>, ev: &V) -> bool
    ensures { result ≡ has_empty (items_from 0 (known_slots ids.now)) (V.values ev.now) }
{
    if ids.are_none() {
        return false;
    }
    let mut items = ids.iter();
    while let Some((_, kind)) = items.next() {
        if ev.has_empty_data(kind) {
            return true;
        }
    }
    false
}

// Whether the one-byte form doesn't serve.
#[inline(always)]
fn needs_two_bytes<K: Kinds, V: ElementValues>(ids: &KnownIds<'_, K>, ev: &V) -> bool
    ensures needed { result
        ≡ list_any (needs_two (V.values ev.now)) (items_from 0 ids.now) }
    ensures short { result ≡ false → TakesAtMost17Each (known_slots ids.now) (V.values ev.now) }
    ensures few { HasFewData (V.values ev.now) }
{
    let has_empty = ev.has_empty_text();
    if ids.has_long() {
        return true;
    }
    has_empty && has_empty_data(ids, ev)
}

/// The form that a block of these values needs under any map, as [`ExtensionMap::form`] has it.
#[inline(always)]
pub fn values_form<K: Kinds, V: ElementValues>(ids: &KnownIds<'_, K>, ev: &V) -> ExtensionsForm
    ensures form { result ≡ form_of ids.now (V.values ev.now) }
    ensures short { result ≡ OneByte → TakesAtMost17Each (known_slots ids.now) (V.values ev.now) }

    // Only a layer allocation has data of more than 16 bytes.
    ensures few { HasFewData (V.values ev.now) }
{
    if needs_two_bytes(ids, ev) {
        ExtensionsForm::TwoByte
    } else {
        ExtensionsForm::OneByte
    }
}
