//! Extension ids as they are negotiated in SDP.

ghost use Rattle.std.specs.Prelude.{◌≡◌, map, IsOk, IfOk, OnErr, IfSome, IfNone};
ghost use Rattle.rtp_ext.specs.ExtensionMap.{IsId, AreRemapped, IsLowest, IsUnmapped};
ghost use Rattle.rtp_uses.specs.Negotiating.{IsKnownUri, TakesLine, AreKnown, AreNegotiated};

use rtp_wire::{Extension, ExtensionMap};
use std::alloc::{AllocError, Global};

/// Takes up a line `a=extmap` of SDP (RFC 8285, 5): maps its id to the extension that its URI
/// names. The id 0 changes nothing. Only the text of an unknown URI takes memory, and where that is
/// refused nothing changes.
pub fn take_line(
    alloc: Global,
    exts: &mut ExtensionMap,
    id: u8,
    uri: &str,
) -> Result<(), AllocError>
    ensures taken { IsId id → IfOk result (λ _. TakesLine exts.old exts.new id uri.now) }
    ensures outside { (IsId id → ⊥) → exts.new ≡ exts.old }
    ensures memory { OnErr result (exts.new ≡ exts.old) }
    ensures known { IsKnownUri uri.now → IsOk result }
{
    exts.set(id, Extension::from_sdp_uri(alloc, uri)?);
    Ok(())
}

/// The map of the lines `a=extmap` of SDP, each an id and a URI. Where an id comes more than once
/// its last line counts. Only the texts of unknown URIs take memory.
pub fn negotiated(alloc: Global, lines: &[(u8, &str)]) -> Result<ExtensionMap, AllocError>
    ensures negotiated { IfOk result (λ exts.
        AreNegotiated (map (λ line. (line.0, line.1.now)) lines.now) exts) }
    ensures known { AreKnown (map (λ line. (line.0, line.1.now)) lines.now) → IsOk result }
{
    let mut exts = ExtensionMap::empty();
    for (id, uri) in lines {
        take_line(alloc, &mut exts, *id, uri)?;
    }
    Ok(exts)
}

/// Takes up the pairs of a renegotiation, and returns the lowest id of an extension then: there is
/// one wherever there was one before.
pub fn renegotiated(
    exts: &mut ExtensionMap,
    steps: &[(u8, &Extension)],
    ext: Extension,
) -> Option<u8>
    ensures steps { AreRemapped exts.old (map (λ step. (step.0, step.1.now)) steps.now) exts.new }
    ensures found { IfSome result (IsLowest exts.new ext) }
    ensures kept { IfNone result (IsUnmapped exts.old ext) }
{
    exts.remap(steps);
    exts.id_of(ext)
}
