//! The values of a block of header extensions, as the map's kinds read them.

ghost use Rattle.std.specs.Prelude.{◌≡◌, ◌<◌, ◌≤◌, ◌∷◌, ℕ, List, true, false, length, is_some, Some, IsOk, IsErr, IfOk, IfSome, OnOk, OnErr, IsTrue, ◌↔◌};
ghost use Rattle.std.specs.Bool.{OnTrue, OnFalse};
ghost use Rattle.rtp_ext.specs.Elements.{Element, AreElements};
ghost use Rattle.rtp_ext.specs.Memory.{HasAllocation, IsStopped, ReadUntilRefused};
ghost use Rattle.rtp_values.specs.declared.value.values.ExtensionValues.{ExtensionValues};
ghost use Rattle.rtp_values.specs.declared.kind.Extension.TheVariants.{VideoLayersAllocation};
ghost use Rattle.rtp_ext.specs.BlockValues.{AreValues, ReadElements, SaysValues, ShowsApart};
ghost use Rattle.rtp_ext.specs.ExtensionMap.{extension_at};
ghost use Rattle.rtp_vla.specs.Allocation.{Allocation, Means};
ghost use Rattle.rtp_ext.specs.LastAllocation.{EndsRow, EndsBefore};

use super::kinds::Kinds;
use super::{Elements, ExtensionMap, ExtensionsForm};
use rtp_values::{ExtensionValues, KnownKind, SetValues};
use rtp_vla::vla;
use rtp_vla::vla::SetLayers;
use std::alloc::{AllocError, Global};

/// Reads the elements of a block's body into the values, under any map, as [`ExtensionMap::parse`]
/// does; into values that take no memory nothing is refused.
#[inline(never)]
pub fn read_values<K: Kinds, V: SetValues>(
    exts: &K,
    memory: V::Memory,
    buf: &[u8],
    form: ExtensionsForm,
    ev: &mut V,
) -> Result<(), AllocError>
    ensures values { OnOk result ((elements : List Element) → AreElements form buf.now elements →
        ReadElements V.shows (K.slots exts.now) elements ev.old ev.new) }
    ensures refused { OnErr result ((elements : List Element) → AreElements form buf.now elements →
        V.may_be_refused × ReadUntilRefused V.shows (K.slots exts.now) elements ev.old ev.new) }
    ensures succeeds { (elements : List Element) → AreElements form buf.now elements →
        (V.may_be_refused → HasAllocation (K.slots exts.now) elements → ⊥) → IsOk result }
{
    match form {
        ExtensionsForm::OneByte => read_in(exts, memory, buf, ExtensionsForm::OneByte, ev),
        ExtensionsForm::TwoByte => read_in(exts, memory, buf, ExtensionsForm::TwoByte, ev),
    }
}

// Reads the elements of a body of one form into the values, up to an allocation for which memory is
// refused. It is inlined, so that each form has a loop of its own.
#[inline(always)]
fn read_in<K: Kinds, V: SetValues>(
    exts: &K,
    memory: V::Memory,
    buf: &[u8],
    form: ExtensionsForm,
    ev: &mut V,
) -> Result<(), AllocError>
    ensures values { OnOk result ((elements : List Element) → AreElements form buf.now elements →
        ReadElements V.shows (K.slots exts.now) elements ev.old ev.new) }
    ensures refused { OnErr result ((elements : List Element) → AreElements form buf.now elements →
        V.may_be_refused × ReadUntilRefused V.shows (K.slots exts.now) elements ev.old ev.new) }
    ensures succeeds { (elements : List Element) → AreElements form buf.now elements →
        (V.may_be_refused → HasAllocation (K.slots exts.now) elements → ⊥) → IsOk result }
{
    let mut elements = Elements::new(buf, form);
    while let Some((id, bytes)) = elements.next() {
        if let Some(kind) = exts.get(id) {
            match kind {
                KnownKind::VideoLayersAllocation => {
                    let last = last_in_row(exts, bytes, &mut elements);
                    KnownKind::VideoLayersAllocation.parse_value(memory, last, ev)?;
                }
                _ => {
                    kind.parse_value(memory, bytes, ev)?;
                }
            }
        }
    }
    Ok(())
}

// The data that count where layer allocations follow one another: the last well-formed ones of
// those that follow an allocation of these data, or else these. Those that follow are passed over,
// so that of a row of allocations one alone takes memory. Data that take none are read by
// themselves.
#[inline(always)]
fn last_in_row<'a, K: Kinds>(exts: &K, first: &'a [u8], elements: &mut Elements<'a>) -> &'a [u8]
    ensures row { EndsRow (K.known exts.now) first.now elements.old elements.new result.now }
    ensures whole { 2 ≤ length first.now → EndsBefore (K.known exts.now) elements.new }
    ensures short { length first.now < 2 → elements.new ≡ elements.old }
{
    let mut last = first;
    if first.len() < 2 {
        return last;
    }
    let mut ahead = elements.rest();
    while let Some((id, data)) = ahead.next() {
        if exts.get(id) != Some(KnownKind::VideoLayersAllocation) {
            return last;
        }
        if is_another_allocation(data) {
            last = data;
        }
        *elements = ahead.rest();
    }
    *elements = ahead;
    last
}

// Whether the data mean an allocation. It is a call, since few blocks have a second one.
#[inline(never)]
fn is_another_allocation(data: &[u8]) -> bool
    ensures { IsTrue result ↔ ((a : Allocation) × Means «data».now a) }
{
    vla::is_allocation(data)
}

/// Reads the layer allocation among the values that the elements of a block's body give into what
/// the caller gives, which takes no memory: that of the last element whose id is mapped to it and
/// whose data mean one. `false` exactly where the elements give none, and then nothing is changed.
pub fn read_layers<K: Kinds, L: SetLayers>(
    exts: &K,
    buf: &[u8],
    form: ExtensionsForm,
    layers: &mut L,
) -> bool
    ensures found { (values : ExtensionValues) → SaysValues form (K.slots exts.now) buf.now values →
        result ≡ is_some values.video_layers_allocation }
    ensures shown { (values : ExtensionValues) → SaysValues form (K.slots exts.now) buf.now values →
        IfSome values.video_layers_allocation (L.shows layers.new) }
    ensures unchanged { result ≡ false → layers.new ≡ layers.old }
{
    let mut found = false;
    for (id, element) in Elements::new(buf, form) {
        if exts.get(id) == Some(KnownKind::VideoLayersAllocation)
            && vla::read_into(element, layers)
        {
            found = true;
        }
    }
    found
}

/// Reads the elements of a block's body in one walk into values and layers that lie apart: the layer
/// allocation into the layers, as [`read_layers`] does, and all else into the values, as [`read_values`]
/// does. Neither takes memory for it. Returns whether the elements give an allocation; where they give
/// none, the layers are as before.
#[inline(never)]
pub fn read_apart<K: Kinds, V: SetValues, L: SetLayers>(
    exts: &K,
    memory: V::Memory,
    buf: &[u8],
    form: ExtensionsForm,
    ev: &mut V,
    layers: &mut L,
) -> bool
    ensures read { (elements : List Element) → AreElements form buf.now elements →
        ReadElements (ShowsApart V.shows L.shows) (K.slots exts.now) elements
        (ev.old, layers.old, false) (ev.new, layers.new, result) }
    ensures unchanged { result ≡ false → layers.new ≡ layers.old }
{
    match form {
        ExtensionsForm::OneByte => {
            read_apart_in(exts, memory, buf, ExtensionsForm::OneByte, ev, layers)
        }
        ExtensionsForm::TwoByte => {
            read_apart_in(exts, memory, buf, ExtensionsForm::TwoByte, ev, layers)
        }
    }
}

// Reads the elements of a body of one form into the values, and its layer allocation apart, and
// returns whether there is one. It is inlined, so that each form has a loop of its own.
#[inline(always)]
fn read_apart_in<K: Kinds, V: SetValues, L: SetLayers>(
    exts: &K,
    memory: V::Memory,
    buf: &[u8],
    form: ExtensionsForm,
    ev: &mut V,
    layers: &mut L,
) -> bool
    ensures read { (elements : List Element) → AreElements form buf.now elements →
        ReadElements (ShowsApart V.shows L.shows) (K.slots exts.now) elements
        (ev.old, layers.old, false) (ev.new, layers.new, result) }
    ensures unchanged { result ≡ false → layers.new ≡ layers.old }
{
    let mut found = false;
    let mut elements = Elements::new(buf, form);
    while let Some((id, bytes)) = elements.next() {
        if let Some(kind) = exts.get(id) {
            match kind {
                KnownKind::VideoLayersAllocation => {
                    let last = last_in_row(exts, bytes, &mut elements);
                    if read_into(last, layers) {
                        found = true;
                    }
                }
                _ => {
                    // Data of no other kind take memory.
                    let _ = kind.parse_value(memory, bytes, ev);
                }
            }
        }
    }
    found
}

// Whether the bytes are too few to mean an allocation: none, or one that isn't 0.
#[inline(always)]
fn are_too_few(bytes: &[u8]) -> bool
    ensures { result ≡ true → (a : Allocation) → Means bytes.now a → ⊥ }
{
    match bytes.len() {
        0 => true,
        1 => bytes[0] != 0,
        _ => false,
    }
}

// Reads the layer allocation that the bytes mean, if they mean one.
#[inline(always)]
fn read_into<L: SetLayers>(bytes: &[u8], layers: &mut L) -> bool
    ensures found { OnTrue result ((a : Allocation) × Means bytes.now a × L.shows layers.new a) }
    ensures only { (a : Allocation) → Means bytes.now a → (result ≡ true) × L.shows layers.new a }
    ensures unchanged { result ≡ false → layers.new ≡ layers.old }
{
    if are_too_few(bytes) {
        return false;
    }
    read_long(bytes, layers)
}

// Reads the layer allocation that bytes mean which aren't too few for one. It is a call, since few
// blocks have an allocation, and the other kinds need the registers.
#[inline(never)]
fn read_long<L: SetLayers>(bytes: &[u8], layers: &mut L) -> bool
    ensures found { OnTrue result ((a : Allocation) × Means bytes.now a × L.shows layers.new a) }
    ensures only { (a : Allocation) → Means bytes.now a → (result ≡ true) × L.shows layers.new a }
    ensures unchanged { result ≡ false → layers.new ≡ layers.old }
{
    vla::read_into(bytes, layers)
}

impl ExtensionMap {
    /// Reads the elements of a block's body, the bytes that follow its length word, into the values
    /// (RFC 8285, 4.2 and 4.3). The fields of each kind become those of the last element whose id
    /// is mapped to the kind and whose data are well-formed for it. Where there is no such element,
    /// they stay as they were. An element that is malformed for its kind, is cut short at the end
    /// of the body, or has an id that is mapped to nothing changes no field, and its neighbours are
    /// read all the same.
    ///
    /// Only an element of two bytes or more whose id is mapped to the layer allocation takes
    /// memory, and of such elements that follow one another one alone. Where the call returns the
    /// error, the values are those that the elements before one such element give, which is the
    /// first of those that follow one another.
    ///
    /// With id 1 mapped to the audio level, the body `10 AA 37 00` of the one-byte form sets a
    /// level of -42 with voice. The element of id 3 is cut short.
    pub fn parse(
        &self,
        alloc: Global,
        buf: &[u8],
        form: ExtensionsForm,
        ev: &mut ExtensionValues,
    ) -> Result<(), AllocError>
        ensures values { OnOk result ((elements : List Element) →
            AreElements form buf.now elements → AreValues self.now elements ev.old ev.new) }
        ensures refused { OnErr result ((elements : List Element) →
            AreElements form buf.now elements → IsStopped self.now elements ev.old ev.new) }
        ensures succeeds { (elements : List Element) → AreElements form buf.now elements →
            (HasAllocation self.now elements → ⊥) → IsOk result }
    {
        read_values(self, alloc, buf, form, ev)
    }
}
