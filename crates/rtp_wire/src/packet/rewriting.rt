//! A packet whose block is rewritten where it lies, and which may grow by that.

ghost use Rattle.std.specs.Prelude.{◌≡◌, ◌↔◌, ℕ, ◌+◌, ◌-◌, ◌*◌, ◌<◌, ◌≤◌, List, length, take, drop, None, Some, Any, Option, IsTrue, IsErr, IfOk, IfErr, IfSome, OnOk, OnErr};
ghost use Rattle.std.specs.Bool.{OnTrue, OnFalse};
ghost use Rattle.rtp_ext.specs.Elements.{Element, AreElements};
ghost use Rattle.rtp_ext.specs.ElementsInARow.{IsWritable, elements_added};
ghost use Rattle.rtp_ext.specs.PutElement.{needed_form, allowed_form};
ghost use Rattle.rtp_wire.specs.declared.packet.not_put.NotPut.{NotPut};
ghost use Rattle.rtp_wire.specs.PartsAt.{parts_at};
ghost use Rattle.rtp_wire.specs.PartsOf.{parts_of, datagram_of};
ghost use Rattle.rtp_wire.specs.PutIntoPacket.{IsGrowth, IsSetInPlace, PutsElement, IsFirstNotPut, form_of_block};
ghost use Rattle.rtp_wire.specs.RewrittenBlock.{StopsElement, StopsForm, IsRewritten, RewritesBlock, StopsRewriting, IsPlan};

use super::resizing::{announce, resize};
use super::rtp_packet::sources_end;
use super::{NotPut, RtpPacket, RtpPacketBuf};
use crate::header::{BLOCK_HEADER_LEN, in_words};
use rtp_ext::{
    Elements, ExtensionsForm, MAX_ID_ONE_BYTE_FORM, Survey, form_to_put, rewrite_body,
    rewritten_len, set_sole, survey_of,
};

// The most bytes that the body of a block has: 65,535 words.
pub(super) const MAX_BODY_LEN: usize = 4 * 65_535;

// Whether one of the two forms can carry an element of this id and these data, and why not.
#[inline(always)]
pub(super) fn check_element(id: u8, data: &[u8]) -> Result<(), NotPut>
    ensures fits { OnOk result ((1 ≤ id) × (length «data».now ≤ 255)) }
    ensures cause { IfErr result (IsFirstNotPut (StopsElement (id, «data».now))) }
{
    if id == 0 {
        return Err(NotPut::ZeroId);
    }
    if data.len() > 255 {
        return Err(NotPut::LongData);
    }
    Ok(())
}

// The form that the block of the packet gets with the element, of those that are allowed.
#[inline(always)]
pub(super) fn form_with(
    packet: &RtpPacket<'_>,
    id: u8,
    data: &[u8],
    allowed: Option<ExtensionsForm>,
) -> Result<ExtensionsForm, NotPut>
    ensures form { IfOk result (λ form. allowed_form allowed
        (needed_form (form_of_block (parts_of packet.now).block) (id, «data».now)) ≡ Some form) }
    ensures no_other { OnOk result ((parts_of packet.now).other_block ≡ None) }
    ensures cause { IfErr result (IsFirstNotPut
        (StopsForm (datagram_of packet.now) (id, «data».now) allowed)) }
{
    if packet.has_other_form() {
        return Err(NotPut::OtherForm);
    }
    if let Some(form) = form_to_put(packet.form(), allowed, id, data) {
        return Ok(form);
    }
    if id > MAX_ID_ONE_BYTE_FORM {
        return Err(NotPut::LongId);
    }
    Err(NotPut::OneByteOnly)
}

// Whether an element of a body has an id above 14, which the one-byte form can't carry. It stays out
// of line, so that a call does nothing for it where a block is rewritten.
#[cold]
#[inline(never)]
fn has_long_id(form: ExtensionsForm, body: &[u8]) -> bool
    ensures { (elements : List Element) → AreElements form body.now elements →
        IsTrue result ↔ Any (λ element. 14 < element.0) elements }
{
    Elements::new(body, form).any(|(id, _)| id > MAX_ID_ONE_BYTE_FORM)
}

// What is known of a packet, and of its block once that is rewritten.
#[derive(Clone, Copy, Drop)]
pub(super) struct Plan {
    // Where the block begins, or is to begin: after the CSRC list.
    block_at: usize,
    // Where the payload begins.
    payload_at: usize,
    // How many bytes the body has.
    body_len: usize,
    // The form of the block; the one that it gets where there is none.
    form: ExtensionsForm,
    // What the body has of the id whose elements go.
    survey: Survey,
    // Whether there is a block of the form that it is to have.
    is_announced: bool,
    // The form that the block gets.
    new_form: ExtensionsForm,
}

impl Plan {
    // The plan for a packet whose block gets this form, and from which the elements of the id go.
    #[inline(always)]
    pub(super) fn new(packet: &RtpPacket<'_>, new_form: ExtensionsForm, goes: u8) -> Self
        requires { (parts_of packet.now).other_block ≡ None }
        ensures form { result.new_form ≡ new_form }
        ensures plan { IsPlan (datagram_of packet.now) (parts_of packet.now) goes result }
    {
        let (form, body_len, survey) = match packet.block() {
            Some((form, body)) => (form, body.len(), survey_of(form, body, goes)),
            None => (new_form, 0, survey_of(new_form, &[], goes)),
        };
        Plan {
            block_at: sources_end(packet.datagram[0]),
            payload_at: packet.header_len(),
            body_len,
            form,
            survey,
            is_announced: packet.form() == Some(new_form),
            new_form,
        }
    }

    // Gives the element its data where it lies, where nothing else is to be done, and returns whether
    // that is so. Else nothing changes.
    #[inline(always)]
    pub(super) fn set(&self, datagram: &mut [u8], id: u8, data: &[u8]) -> bool
        requires above { 1 ≤ id }
        requires plan { IsPlan datagram.old (parts_at datagram.old) id self.now }
        ensures set { (allowed : Option ExtensionsForm)
            (growth : IsGrowth datagram.old (id, «data».now) allowed) →
            self.now.new_form ≡ growth.form →
            OnTrue result (PutsElement datagram.old (id, «data».now) allowed datagram.new
            (length datagram.old)) }
        ensures answer { (allowed : Option ExtensionsForm)
            (growth : IsGrowth datagram.old (id, «data».now) allowed) →
            self.now.new_form ≡ growth.form → IsTrue result
            ↔ IsSetInPlace growth.parts.block growth.elements (id, «data».now) growth.form }
        ensures unchanged { OnFalse result (datagram.new ≡ datagram.old) }
    {
        if !self.is_announced {
            return false;
        }
        let body_at = self.block_at + BLOCK_HEADER_LEN;
        let body = &mut datagram[body_at..self.payload_at];
        set_sole(body, &self.survey, id, data)
    }

    // How many bytes the body gets.
    #[inline(always)]
    fn new_body_len(
        &self,
        datagram: &[u8],
        goes: u8,
        comes: Option<(u8, &[u8])>,
    ) -> Result<usize, NotPut>
        requires plan { IsPlan datagram.now (parts_at datagram.now) goes self.now }
        requires writable { IfSome comes
            (λ element. IsWritable self.now.new_form (element.0, element.1.now)) }
        ensures found { IfOk result (λ len.
            (rewritten : IsRewritten datagram.now self.now.new_form goes (elements_added comes.entry))
            × (len ≡ rewritten.body_len)) }
        ensures few { IfOk result (λ len. len ≤ 4 * 65535) }
        ensures cause { IfErr result (λ cause. (room : ℕ) → IsFirstNotPut (StopsRewriting
            datagram.now room self.now.new_form goes (elements_added comes.entry)) cause) }
    {
        let body = &datagram[self.payload_at - self.body_len..self.payload_at];
        let Some(elements_len) = rewritten_len(
            self.form,
            self.new_form,
            body,
            &self.survey,
            goes,
            comes,
        ) else {
            if has_long_id(self.form, body) {
                return Err(NotPut::LongId);
            }
            return Err(NotPut::OneByteOnly);
        };
        let len = in_words(elements_len).max(self.body_len);
        if len > MAX_BODY_LEN {
            return Err(NotPut::LongBlock);
        }
        Ok(len)
    }

    // Gives the block of the packet in the first bytes of the buffer a body of so many bytes, in
    // which the elements of the id have gone and the one that is given has come.
    #[inline(always)]
    fn make(
        &self,
        buf: &mut [u8],
        len: usize,
        new_body_len: usize,
        goes: u8,
        comes: Option<(u8, &[u8])>,
    )
        requires within { len ≤ length buf.old }
        requires plan { IsPlan (take len buf.old) (parts_at (take len buf.old)) goes
            self.now }
        requires writable { IfSome comes
            (λ element. IsWritable self.now.new_form (element.0, element.1.now)) }
        requires rewritten { (rewritten : IsRewritten (take len buf.old) self.now.new_form goes
            (elements_added comes)) × (new_body_len ≡ rewritten.body_len) }
        requires few { new_body_len ≤ 4 * 65535 }
        requires room { self.now.block_at + 4 + new_body_len + (len - self.now.payload_at)
            ≤ length buf.old }
        ensures rewritten { RewritesBlock (take len buf.old) self.now.new_form goes
            (elements_added comes.entry) buf.new
            (self.now.block_at + 4 + new_body_len + (len - self.now.payload_at)) }
        ensures behind { (new_len : ℕ) → new_len
            ≡ self.now.block_at + 4 + new_body_len + (len - self.now.payload_at) →
            drop new_len buf.new ≡ drop new_len buf.old }
    {
        resize(buf, len, self.block_at, self.payload_at, new_body_len);
        if !self.is_announced {
            announce(buf, self.block_at, self.new_form);
        }
        let body_at = self.block_at + BLOCK_HEADER_LEN;
        let body = &mut buf[body_at..body_at + new_body_len];
        rewrite_body(
            self.form,
            self.new_form,
            body,
            self.body_len,
            &self.survey,
            goes,
            comes,
        );
    }
}

impl RtpPacketBuf<'_> {
    ghost use Rattle.rtp_wire.specs.PacketBuf.{whole_of, len_of, bytes_of, parts_within, StaysWhole};

    // Rewrites the block as it is planned: the elements of the id, and those of the id 0, go, and the
    // one that is given comes in place of the last of the id, or as the last of all. The body never
    // becomes shorter.
    #[inline(always)]
    pub(super) fn rewrite(
        &mut self,
        plan: &Plan,
        goes: u8,
        comes: Option<(u8, &[u8])>,
    ) -> Result<(), NotPut>
        requires plan { IsPlan (bytes_of self.old) (parts_within self.old) goes plan.now }
        requires writable { IfSome comes
            (λ element. IsWritable plan.now.new_form (element.0, element.1.now)) }
        ensures rewritten { OnOk result (RewritesBlock (bytes_of self.old) plan.now.new_form goes
            (elements_added comes.entry) (whole_of self.new).now (len_of self.new)) }
        ensures longer { OnOk result (len_of self.old ≤ len_of self.new) }
        ensures behind { OnOk result (drop (len_of self.new) (whole_of self.new).now
            ≡ drop (len_of self.new) (whole_of self.old).now) }
        ensures cause { IfErr result (IsFirstNotPut (StopsRewriting (bytes_of self.old)
            (length (whole_of self.old).now) plan.now.new_form goes (elements_added comes.entry))) }
        ensures refused { IsErr result ↔ ((cause : NotPut) × StopsRewriting (bytes_of self.old)
            (length (whole_of self.old).now) plan.now.new_form goes (elements_added comes.entry)
            cause) }
        ensures unchanged { OnErr result (StaysWhole self.old self.new) }
        ensures same_buffer { (whole_of self.new).ghost_name ≡ (whole_of self.old).ghost_name }
    {
        let body_len = plan.new_body_len(self.as_bytes(), goes, comes)?;
        let len = plan.block_at + BLOCK_HEADER_LEN + body_len + (self.len - plan.payload_at);
        if len > self.buf.len() {
            return Err(NotPut::NoRoom { needed: len });
        }
        plan.make(self.buf, self.len, body_len, goes, comes);
        self.header_len += len - self.len;
        self.len = len;
        self.form = Some(plan.new_form);
        Ok(())
    }
}
