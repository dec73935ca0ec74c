//! Elements that are put into a packet, which grows where it lies.

ghost use Rattle.std.specs.Prelude.{◌≡◌, ◌↔◌, ◌≤◌, length, take, drop, IsErr, IfOk, IfErr, OnOk, OnErr};
ghost use Rattle.rtp_wire.specs.PutIntoPacket.{PutsElement, AppliesToPut, IsFirstNotPut};

use super::rewriting::{Plan, check_element, form_with};
use super::{NotPut, RtpPacket, RtpPacketBuf};
use rtp_ext::ExtensionsForm;

/// Puts an element into the packet in the first `len` bytes of the buffer, and returns how many bytes the
/// packet then has (RFC 3550, 5.3.1; RFC 8285, 4.2 and 4.3). It then has exactly one element of this id, 1
/// to 255, with these data, of at most 255 bytes: in place of the last one of the id, or as the last of
/// all. The other elements stay, in order, but those of the id 0, which is padding's: they go, since a
/// receiver that reads as the RFC says ends at one. The other fields, the CSRC list and the payload stay.
///
/// Where the element is the only one of its id, has as many bytes, none is of the id 0, and the block keeps
/// its form, only these bytes change. Else the block is made anew where it lies: its padding is used up, and where that isn't enough
/// the payload moves by whole words. Without X the packet gets a block. The body never becomes shorter:
/// [`compact`](super::compact) gives bytes back.
/// What stands where reading ends, an element that is cut short or what follows the id 15, is no element,
/// and goes where the block is made anew.
///
/// A block in the one-byte form that can't carry the element becomes one in the two-byte form, unless only
/// the one-byte form is `allowed`, as for a peer that hasn't agreed to both forms in one stream (RFC 8285,
/// 4.1.2). Where only the two-byte form is allowed, the block gets that. The application bits of a block
/// that gets the two-byte form are 0, and those of one that has it stay. A block of another form than 0xBEDE
/// and 0x1000 to 0x100F carries no elements, and gets none. Where the call is refused nothing changes.
///
/// The packet `90 60 00 05 00 00 00 64 00 00 00 2C BE DE 00 01 10 AA 00 00 01` (hexadecimal), with room
/// behind it and the data `07 08` of id 2, becomes
/// `90 60 00 05 00 00 00 64 00 00 00 2C BE DE 00 02 10 AA 21 07 08 00 00 00 01`, and 25 is returned.
#[inline(always)]
pub fn put_element(
    buf: &mut [u8],
    len: usize,
    id: u8,
    data: &[u8],
    allowed: Option<ExtensionsForm>,
) -> Result<usize, NotPut>
    ensures put { IfOk result (PutsElement (take len buf.old) (id, «data».now) allowed buf.new) }
    ensures within { IfOk result (λ new_len. (len ≤ new_len) × (new_len ≤ length buf.old)) }
    ensures behind { IfOk result (λ new_len. drop new_len buf.new ≡ drop new_len buf.old) }

    // The cause is the first that applies, and there are no others.
    ensures cause { IfErr result (IsFirstNotPut
        (AppliesToPut buf.old len (id, «data».now) allowed)) }
    ensures refused { IsErr result
        ↔ ((cause : NotPut) × AppliesToPut buf.old len (id, «data».now) allowed cause) }
    ensures unchanged { OnErr result (buf.new ≡ buf.old) }
{
    put_element_copy::<0>(buf, len, id, data, allowed)
}

/// Puts an element into a packet as [`put_element`] does, compiled anew for each `COPY`. A function that a
/// library calls at one place alone is compiled into its caller, and takes fewer instructions there: so a
/// second caller takes another copy.
pub fn put_element_copy<const COPY: usize>(
    buf: &mut [u8],
    len: usize,
    id: u8,
    data: &[u8],
    allowed: Option<ExtensionsForm>,
) -> Result<usize, NotPut>
    ensures put { IfOk result (PutsElement (take len buf.old) (id, «data».now) allowed buf.new) }
    ensures within { IfOk result (λ new_len. (len ≤ new_len) × (new_len ≤ length buf.old)) }
    ensures behind { IfOk result (λ new_len. drop new_len buf.new ≡ drop new_len buf.old) }

    // The cause is the first that applies, and there are no others.
    ensures cause { IfErr result (IsFirstNotPut
        (AppliesToPut buf.old len (id, «data».now) allowed)) }
    ensures refused { IsErr result
        ↔ ((cause : NotPut) × AppliesToPut buf.old len (id, «data».now) allowed cause) }
    ensures unchanged { OnErr result (buf.new ≡ buf.old) }
{
    if len > buf.len() {
        return Err(NotPut::CutPacket);
    }
    check_element(id, data)?;
    let packet = RtpPacket::parse(&buf[..len])?;
    let header_len = packet.header_len;
    let form = packet.form;
    let mut packet = RtpPacketBuf::new(buf, len, header_len, form);
    packet.put::<COPY>(id, data, allowed)?;
    Ok(packet.len)
}

impl<'a> RtpPacketBuf<'a> {
    ghost use Rattle.rtp_wire.specs.PacketBuf.{whole_of, len_of, bytes_of, StaysWhole};

    /// Gives the packet one element of this id, 1 to 255, with these data, of at most 255 bytes, as
    /// [`put_element`] does: it grows where it must (RFC 3550, 5.3.1; RFC 8285, 4.2 and 4.3). `allowed`
    /// is the form that alone is allowed, if one is.
    ///
    /// The packet `90 60 00 05 00 00 00 64 00 00 00 2C BE DE 00 01 10 AA 00 00 01` (hexadecimal), in
    /// a buffer of 25 bytes or more, gets the data `07 08` of id 2: it then is
    /// `90 60 00 05 00 00 00 64 00 00 00 2C BE DE 00 02 10 AA 21 07 08 00 00 00 01`.
    pub fn put_element(
        &mut self,
        id: u8,
        data: &[u8],
        allowed: Option<ExtensionsForm>,
    ) -> Result<(), NotPut>
        ensures put { OnOk result (PutsElement (bytes_of self.old) (id, «data».now) allowed
            (whole_of self.new).now (len_of self.new)) }
        ensures length { OnOk result (len_of self.old ≤ len_of self.new) }
        ensures behind { OnOk result (drop (len_of self.new) (whole_of self.new).now
            ≡ drop (len_of self.new) (whole_of self.old).now) }
        ensures cause { IfErr result (IsFirstNotPut
            (AppliesToPut (whole_of self.old).now (len_of self.old) (id, «data».now) allowed)) }
        ensures refused { IsErr result ↔ ((cause : NotPut)
            × AppliesToPut (whole_of self.old).now (len_of self.old) (id, «data».now) allowed cause) }
        ensures unchanged { OnErr result (StaysWhole self.old self.new) }
        ensures same_buffer { (whole_of self.new).ghost_name ≡ (whole_of self.old).ghost_name }
    {
        self.put::<0>(id, data, allowed)
    }

    // Puts an element as `put_element` does, compiled anew for each `COPY`.
    fn put<const COPY: usize>(
        &mut self,
        id: u8,
        data: &[u8],
        allowed: Option<ExtensionsForm>,
    ) -> Result<(), NotPut>
        ensures put { OnOk result (PutsElement (bytes_of self.old) (id, «data».now) allowed
            (whole_of self.new).now (len_of self.new)) }
        ensures length { OnOk result (len_of self.old ≤ len_of self.new) }
        ensures behind { OnOk result (drop (len_of self.new) (whole_of self.new).now
            ≡ drop (len_of self.new) (whole_of self.old).now) }
        ensures cause { IfErr result (IsFirstNotPut
            (AppliesToPut (whole_of self.old).now (len_of self.old) (id, «data».now) allowed)) }
        ensures refused { IsErr result ↔ ((cause : NotPut)
            × AppliesToPut (whole_of self.old).now (len_of self.old) (id, «data».now) allowed cause) }
        ensures unchanged { OnErr result (StaysWhole self.old self.new) }
        ensures same_buffer { (whole_of self.new).ghost_name ≡ (whole_of self.old).ghost_name }
    {
        check_element(id, data)?;
        let packet = self.as_packet();
        let form = form_with(&packet, id, data, allowed)?;
        let plan = Plan::new(&packet, form, id);
        if plan.set(&mut self.buf[..self.len], id, data) {
            return Ok(());
        }
        self.rewrite(&plan, id, Some((id, data)))
    }
}
