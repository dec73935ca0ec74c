//! From the fields of a header to bytes, with a block of any elements.

ghost use Rattle.std.specs.Prelude.{◌≡◌, ℕ, ◌↔◌, ◌++◌, List, length, drop, IsNone, IfSome, IfNone};
ghost use Rattle.rtp_ext.specs.Elements.{AreElements};
ghost use Rattle.rtp_ext.specs.ElementsInARow.{form_given};
ghost use Rattle.rtp_wire.specs.Packet.{IsPacket};
ghost use Rattle.rtp_wire.specs.WrittenWith.{body_with, wire_bytes_with, parts_with, CannotBeWrittenWith};

use super::block::{block_form, write_block_of};
use super::fixed_part::{fixed_bytes, put_csrc};
use super::get_fields::GetFields;
use rtp_base::put;
use rtp_ext::{ElementList, ExtensionsForm};

/// Writes the fixed part and the CSRC list of a header with these fields, and a block with these
/// elements, to the front of the buffer and returns how many bytes they take; the bytes after them
/// stay as they were (RFC 3550, 5.1; RFC 8285, 4.2 and 4.3). X is set whatever
/// [`has_extension`](super::FixedFields::has_extension) says, and of an [`RtpHeader`](super::RtpHeader)
/// nothing is written of `ext_vals`. Zeros fill the last word of the block. Nothing is allocated.
///
/// Where `allowed` is `None` the block is in the one-byte form exactly where that can carry every
/// element, ids 1 to 14 with 1 to 16 bytes of data. `Some` is the one form that it may have, as for
/// a peer that hasn't agreed to both forms in one stream (RFC 8285, 4.1.2).
///
/// `None`, and then nothing is written, where the payload type is above 127, there are more than 15
/// contributing sources, an element has the id 0 or more than 255 bytes of data, the form that is
/// allowed can't carry one, the elements take more than the 65,535 words that a block can have, or
/// the buffer is too short.
///
/// With the elements 1 of `AA` and 2 of `BB CC`, the payload type 33, the sequence number 47,000,
/// the timestamp 10,000 and the SSRC 44, the 24 bytes are
/// `90 21 B7 98 00 00 27 10 00 00 00 2C BE DE 00 02 10 AA 21 BB CC 00 00 00`. Where the two-byte
/// form alone is allowed the last twelve are `10 00 00 02 01 01 AA 02 02 BB CC 00`.
pub fn write_with<F: GetFields, L: ElementList>(
    fields: &F,
    buf: &mut [u8],
    elements: L,
    allowed: Option<ExtensionsForm>,
) -> Option<usize>
    ensures refused { IsNone result ↔ CannotBeWrittenWith
        (F.header fields.now) allowed (L.elements elements) (length buf.old) }
    ensures unchanged { IfNone result (buf.new ≡ buf.old) }
    ensures written { IfSome result (λ len. buf.new
        ≡ wire_bytes_with (F.header fields.now) allowed (L.elements elements)
        ++ drop len buf.old) }
    ensures length { IfSome result (λ len. len
        ≡ length (wire_bytes_with (F.header fields.now) allowed (L.elements elements))) }

    // What was written, followed by anything, is a packet of the header's fields and this block.
    ensures read_back { IfSome result (λ _. (rest : List ℕ) →
        IsPacket (wire_bytes_with (F.header fields.now) allowed (L.elements elements) ++ rest)
        (parts_with (F.header fields.now) allowed (L.elements elements) rest)) }

    // The block has these elements.
    ensures elements { IfSome result (λ _.
        AreElements (form_given allowed (L.elements elements))
        (body_with allowed (L.elements elements)) (L.elements elements)) }
{
    let fixed = fields.fixed();
    if fixed.payload_type.get() > 127 || fixed.csrc_count > 15 {
        return None;
    }
    let start = 12 + 4 * fixed.csrc_count;
    let form = block_form(buf.len().saturating_sub(start), elements, allowed)?;
    let end = put(buf, 0, &fixed_bytes(fields, true));
    let end = put_csrc(fields, buf, end);
    Some(end + write_block_of(&mut buf[end..], form, elements))
}
