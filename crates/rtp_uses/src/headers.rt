//! Headers, and the values of their extensions.

ghost use Rattle.std.specs.Prelude.{◌≡◌, ◌↔◌, ◌≤◌, length, drop, Ok, Some, None, IsOk, IfOk, IfSome, IfNone};
ghost use Rattle.rtp_wire.specs.Header.{IsWire};
ghost use Rattle.rtp_values.specs.Values.{TakesNoMemory, orientation_of};
ghost use Rattle.rtp_wire.specs.RefusedMemory.{HeaderHasAllocation};
ghost use Rattle.rtp_wire.specs.NotAHeader.{HasNoHeader};
ghost use Rattle.rtp_wire.specs.Written.{wire_bytes, image_of};

use rtp_wire::{ExtensionMap, RtpHeader, VideoOrientation};
use std::alloc::{AllocError, Global};

/// The orientation of the number is 270 degrees for 1, 180 for 2, 90 for 3, and 0 for every other.
pub fn orientation(number: u8) -> VideoOrientation
    ensures { result ≡ orientation_of number }
{
    VideoOrientation::from(number)
}

/// The payload of a packet begins where its header ends, which is never after the packet's end.
pub fn payload<'a>(
    alloc: Global,
    packet: &'a [u8],
    exts: &ExtensionMap,
) -> Result<Option<&'a [u8]>, AllocError>
    ensures succeeds { (HeaderHasAllocation exts.now packet.now → ⊥) → IsOk result }
    ensures found { IfOk result (λ answer. IfSome answer (λ payload.
        (header : RtpHeader) × IsWire exts.now packet.now header
        × (payload.now ≡ drop header.header_len packet.now))) }
    ensures refused { (result ≡ Ok None) ↔ HasNoHeader packet.now }
{
    let Some(header) = RtpHeader::parse(alloc, packet, exts)? else {
        return Ok(None);
    };
    Ok(Some(&packet[header.header_len..]))
}

/// The payload of a packet, found with a header that is used again: it is then that of the packet,
/// and stays where the packet has none.
pub fn payload_with<'a>(
    alloc: Global,
    packet: &'a [u8],
    exts: &ExtensionMap,
    header: &mut RtpHeader,
) -> Result<Option<&'a [u8]>, AllocError>
    ensures succeeds { (HeaderHasAllocation exts.now packet.now → ⊥) → IsOk result }
    ensures found { IfOk result (λ answer. IfSome answer (λ payload.
        IsWire exts.now packet.now header.new
        × (payload.now ≡ drop header.new.header_len packet.now))) }
    ensures refused { (result ≡ Ok None) ↔ HasNoHeader packet.now }
    ensures same { IfOk result (λ answer. IfNone answer (header.new ≡ header.old)) }
{
    if !header.parse_into(alloc, packet, exts)? {
        return Ok(None);
    }
    let payload = &packet[header.header_len..];
    Ok(Some(payload))
}

/// A header that is written and read back is its image.
pub fn written_and_read(
    alloc: Global,
    header: &RtpHeader,
    buf: &mut [u8],
    exts: &ExtensionMap,
) -> Result<Option<RtpHeader>, AllocError>
    requires payload_type { header.now.payload_type ≤ 127 }
    requires sources { header.now.csrc_count ≤ 15 }
    requires room { length (wire_bytes exts.now header.now) ≤ length buf.old }
    ensures { IfOk result (λ read. read ≡ Some (image_of exts.now header.now)) }
{
    header.write_to(buf, exts);
    RtpHeader::parse(alloc, buf, exts)
}

/// A copy of a header is the same, and needs no memory where it has no allocation.
pub fn copied(alloc: Global, header: &RtpHeader) -> Result<RtpHeader, AllocError>
    ensures same { IfOk result (λ copy. copy ≡ header.now) }
    ensures succeeds { TakesNoMemory header.now.ext_vals.video_layers_allocation → IsOk result }
{
    header.clone(alloc)
}
