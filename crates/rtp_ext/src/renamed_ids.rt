//! The ids that elements of one kind get where they become elements of another.

ghost use Rattle.std.specs.Prelude.{◌≡◌, ◌≢◌, ◌<◌, ◌≤◌, ◌⊎◌, ℕ, IfSome, IfNone, Some, map, slice_index};
ghost use Rattle.rtp_values.specs.KnownKind.{extension_of_kind};
ghost use Rattle.rtp_ext.specs.ExtensionMap.{IsLowest, IsUnmapped, extension_at};
ghost use Rattle.rtp_ext.specs.NewIds.{AreRenamedIds, id_in_byte};

use super::kinds::Kinds;
use super::known_ids::KnownIds;
use rtp_values::KnownKind;

// The lowest id that is mapped to the kind.
fn lowest_id<K: Kinds>(ids: &KnownIds<'_, K>, kind: KnownKind) -> Option<u8>
    ensures lowest { IfSome result (IsLowest ids.now (extension_of_kind kind)) }
    ensures some_id { IfSome result (λ id. 1 ≤ id) }
    ensures none { IfNone result (IsUnmapped ids.now (extension_of_kind kind)) }
{
    let mut items = ids.iter();
    while let Some((id, found)) = items.next() {
        if found == kind {
            return Some(id);
        }
    }
    None
}

// The lowest id of the second kind, where both are mapped.
fn lowest_beside<K: Kinds>(ids: &KnownIds<'_, K>, from: KnownKind, to: KnownKind) -> Option<u8>
    ensures lowest { IfSome result (IsLowest ids.now (extension_of_kind to)) }
    ensures some_id { IfSome result (λ id. 1 ≤ id) }
    ensures beside { IfSome result (λ _. (other : ℕ) ×
        (extension_at ids.now other ≡ Some (extension_of_kind from))) }
    ensures none { IfNone result (IsUnmapped ids.now (extension_of_kind from)
        ⊎ IsUnmapped ids.now (extension_of_kind to)) }
{
    lowest_id(ids, from)?;
    lowest_id(ids, to)
}

// The new byte of an id of this kind in a table: `lowest` where the kind is the first, 0 where it
// is the second, and else the old one.
#[inline(always)]
pub(super) fn renamed(
    kind: Option<KnownKind>,
    from: KnownKind,
    to: KnownKind,
    lowest: u8,
    old: u8,
) -> u8
    requires { from ≢ to }
    ensures renamed { kind ≡ Some from → result ≡ lowest }
    ensures gone { kind ≡ Some to → result ≡ 0 }
    ensures others { kind ≢ Some from → kind ≢ Some to → result ≡ old }
{
    match kind {
        Some(kind) if kind == from => lowest,
        Some(kind) if kind == to => 0,
        _ => old,
    }
}

// The table in which each id keeps itself.
fn same_ids() -> [u8; 256]
    ensures { (id : ℕ) → id < 256 → slice_index result id ≡ id }
{
    let mut ids = [0; 256];
    for (id, new) in ids.iter_mut().enumerate() {
        *new = id as u8;
    }
    ids
}

// The table in which the ids of one kind become the lowest id of another, where both are mapped.
#[inline(always)]
pub(super) fn renamed_ids<K: Kinds>(exts: &K, from: KnownKind, to: KnownKind) -> [u8; 256]
    requires { from ≢ to }
    ensures { AreRenamedIds (K.slots exts.now) (extension_of_kind from) (extension_of_kind to)
        (map id_in_byte result) }
{
    let mut ids = same_ids();
    if let Some(lowest) = lowest_beside(&KnownIds::of(exts), from, to) {
        exts.rename(from, to, lowest, &mut ids);
    }
    ids
}
