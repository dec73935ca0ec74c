//! A group that is checked and tabled once for all packets.

ghost use Rattle.std.specs.Prelude.{◌≡◌, ◌≤◌, ◌↔◌, length, take, All, IsErr, IfOk, IfErr, IfSome, IfNone};
ghost use Rattle.rtp_ext.specs.declared.form.ExtensionsForm.TheVariants.{TwoByte};
ghost use Rattle.rtp_ext.specs.ElementsInARow.{IsWritable};
ghost use Rattle.rtp_route.specs.declared.not_routed.NotRouted.{NotRouted};
ghost use Rattle.rtp_route.specs.StoredGroup.{IsGroupOf, IsFirstUnwritable, KeepsFromGroup, blank, blank_elements, form_of};

use super::known_group::totals_of;
use super::numbers::{IDS, number_elements};
use super::slots::MAX_ELEMENTS;
use super::{GroupOf, NotRouted, StoredGroup};
use rtp_ext::{ElementList, ExtensionsForm};
use rtp_wire::NotPut;

// Why no form can carry one of the elements, of the first that is so; `None` where the two-byte form
// can carry each.
fn first_unwritable<L: ElementList>(elements: L) -> Option<NotPut>
    ensures first { IfSome result (IsFirstUnwritable (L.elements elements)) }
    ensures none { IfNone result (All (IsWritable TwoByte) (L.elements elements)) }
{
    for index in 0..elements.count() {
        let (id, data) = elements.at(index);
        if id == 0 {
            return Some(NotPut::ZeroId);
        }
        if data.len() > 255 {
            return Some(NotPut::LongData);
        }
    }
    None
}

// The number of the form that alone is allowed, and 0 where any is.
fn number_of(allowed: Option<ExtensionsForm>) -> u8
    ensures form { form_of result ≡ allowed }
    ensures few { result ≤ 2 }
{
    match allowed {
        None => 0,
        Some(ExtensionsForm::OneByte) => 1,
        Some(ExtensionsForm::TwoByte) => 2,
    }
}

// Puts the id and the length of each element at its index.
fn put_shapes<L: ElementList>(
    elements: L,
    ids: &mut [u8; MAX_ELEMENTS],
    lens: &mut [u8; MAX_ELEMENTS],
)
    requires few { length (L.elements elements) ≤ 16 }
    requires carried { All (IsWritable TwoByte) (L.elements elements) }
    ensures { take (length (L.elements elements)) (blank_elements ids.new lens.new)
        ≡ blank (L.elements elements) }
{
    for index in 0..elements.count() {
        let (id, data) = elements.at(index);
        ids[index] = id;
        lens[index] = data.len() as u8;
    }
}

/// Checks and tables what receivers have in common, once for all packets: the headers that are made
/// from it are those of the group, with zeros in the place of the elements' data, which each receiver
/// brings.
///
/// The cause is [`NotRouted::ManyElements`] for more than 16 elements, else
/// [`NotRouted::RepeatedId`] for two of one id, and else [`NotRouted::NotPut`] of
/// [`NotPut::ZeroId`] or [`NotPut::LongData`], of the first element that has the id 0 or more than
/// 255 bytes of data.
pub fn prepare_group<L: ElementList>(group: &GroupOf<'_, L>) -> Result<StoredGroup, NotRouted>
    ensures prepared { IfOk result (IsGroupOf group.now.ids.now
        (L.elements group.now.elements) group.now.allowed) }
    ensures cause { IfErr result (KeepsFromGroup (L.elements group.now.elements)) }
    ensures refused { IsErr result ↔ ((cause : NotRouted)
        × KeepsFromGroup (L.elements group.now.elements) cause) }
{
    let elements = group.elements;
    if elements.count() > MAX_ELEMENTS {
        return Err(NotRouted::ManyElements);
    }
    let mut numbers = [0; IDS];
    if !number_elements(elements, &mut numbers) {
        return Err(NotRouted::RepeatedId);
    }
    if let Some(cause) = first_unwritable(elements) {
        return Err(NotRouted::NotPut(cause));
    }
    let (mut element_ids, mut data_lens) = ([0; MAX_ELEMENTS], [0; MAX_ELEMENTS]);
    put_shapes(elements, &mut element_ids, &mut data_lens);
    let shapes = StoredGroup {
        new_ids: group.ids.ids(),
        numbers,
        element_ids,
        data_lens,
        data_total: 0,
        count: elements.count() as u8,
        allowed: number_of(group.allowed),
        one_byte: 0,
    };
    // The numbers were put at the ids.
    let (data_total, one_byte) = totals_of(&shapes).unwrap();
    Ok(StoredGroup {
        data_total,
        one_byte: u8::from(one_byte),
        ..shapes
    })
}
