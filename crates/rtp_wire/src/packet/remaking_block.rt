//! The block of a packet in a buffer, made anew: in the other form, or with an element behind its
//! own.

ghost use Rattle.std.specs.Prelude.{◌≡◌, ◌↔◌, length, drop, None, [], ◌∷◌, IsTrue, IsErr, IfErr, IfSome, OnOk, OnErr};
ghost use Rattle.rtp_wire.specs.declared.packet.not_put.NotPut.{NotPut};
ghost use Rattle.rtp_wire.specs.PutIntoPacket.{form_of_block, IsFirstNotPut};
ghost use Rattle.rtp_wire.specs.RemadeBlock.{RemakesBlock, IsInOther, KeepsFromForm, form_with, KeepsFromAdding};

use super::rewriting::{Plan, check_element};
use super::{NotPut, RtpPacketBuf, rewriting};
use rtp_ext::ExtensionsForm;

// Whether a block of this form, or none, has the other one of the two forms.
fn is_in_other(was: Option<ExtensionsForm>, form: ExtensionsForm) -> bool
    ensures { IsTrue result ↔ IsInOther was form }
{
    match (was, form) {
        (Some(ExtensionsForm::OneByte), ExtensionsForm::TwoByte) => true,
        (Some(ExtensionsForm::TwoByte), ExtensionsForm::OneByte) => true,
        _ => false,
    }
}

impl<'a> RtpPacketBuf<'a> {
    ghost use Rattle.rtp_wire.specs.PacketBuf.{whole_of, len_of, bytes_of, parts_within, StaysWhole};

    /// Makes a block of the other form one of this form: its elements stay, in order, and the
    /// payload moves where the body grows (RFC 3550, 5.3.1; RFC 8285, 4.2 and 4.3). In the two-byte
    /// form elements of ids above 14 and of more than 16 bytes can then be put. Elements of the id
    /// 0, which is padding's, go, and so does what stands where reading ends; the application bits
    /// are 0. The body never becomes shorter: [`compact`](Self::compact) gives bytes back.
    ///
    /// A packet whose block has the form already, or that has none, stays as it is. The one-byte
    /// form is refused where an element has an id above 14 ([`NotPut::LongId`]), or no data or more
    /// than 16 bytes ([`NotPut::OneByteOnly`]).
    ///
    /// The packet `90 60 00 05 00 00 00 64 00 00 00 2C BE DE 00 01 10 AA 00 00 01` (hexadecimal)
    /// becomes `90 60 00 05 00 00 00 64 00 00 00 2C 10 00 00 01 01 01 AA 00 01` in the two-byte
    /// form.
    pub fn change_form(&mut self, form: ExtensionsForm) -> Result<(), NotPut>
        ensures changed { OnOk result
            (IsInOther (form_of_block (parts_within self.old).block) form →
            RemakesBlock (bytes_of self.old) form [] (whole_of self.new).now (len_of self.new)) }
        ensures same { (IsInOther (form_of_block (parts_within self.old).block) form → ⊥) →
            StaysWhole self.old self.new }
        ensures behind { OnOk result (drop (len_of self.new) (whole_of self.new).now
            ≡ drop (len_of self.new) (whole_of self.old).now) }
        ensures cause { IfErr result (IsFirstNotPut (KeepsFromForm (bytes_of self.old)
            (length (whole_of self.old).now) (form_of_block (parts_within self.old).block) form)) }
        ensures refused { IsErr result ↔ ((cause : NotPut) × KeepsFromForm (bytes_of self.old)
            (length (whole_of self.old).now) (form_of_block (parts_within self.old).block) form
            cause) }
        ensures unchanged { OnErr result (StaysWhole self.old self.new) }
        ensures same_buffer { (whole_of self.new).ghost_name ≡ (whole_of self.old).ghost_name }
    {
        let packet = self.as_packet();
        if packet.has_other_form() {
            return Err(NotPut::OtherForm);
        }
        if !is_in_other(self.form, form) {
            return Ok(());
        }
        let plan = Plan::new(&packet, form, 0);
        self.rewrite(&plan, 0, None)
    }

    /// Puts an element behind all others, of which those of its id stay: an id may have several
    /// (RFC 8285, 4.2 and 4.3). [`put_element`](Self::put_element) puts it in place of them. The
    /// id, the data, the form that is `allowed` and the form that the block gets are as there, and
    /// the block is made anew: elements of the id 0, which is padding's, go, and so does what
    /// stands where reading ends.
    ///
    /// The packet `90 60 00 05 00 00 00 64 00 00 00 2C BE DE 00 01 10 AA 00 00 01` (hexadecimal)
    /// gets the data `BB` of id 1: it then is
    /// `90 60 00 05 00 00 00 64 00 00 00 2C BE DE 00 01 10 AA 10 BB 01`.
    pub fn add_element(
        &mut self,
        id: u8,
        data: &[u8],
        allowed: Option<ExtensionsForm>,
    ) -> Result<(), NotPut>
        ensures added { OnOk result (IfSome
            (form_with (form_of_block (parts_within self.old).block) (id, «data».now) allowed)
            (λ form. RemakesBlock (bytes_of self.old) form ((id, «data».now) ∷ [])
            (whole_of self.new).now (len_of self.new))) }
        ensures behind { OnOk result (drop (len_of self.new) (whole_of self.new).now
            ≡ drop (len_of self.new) (whole_of self.old).now) }
        ensures cause { IfErr result (IsFirstNotPut (KeepsFromAdding (bytes_of self.old)
            (length (whole_of self.old).now) (form_of_block (parts_within self.old).block)
            (id, «data».now) allowed)) }
        ensures refused { IsErr result ↔ ((cause : NotPut) × KeepsFromAdding (bytes_of self.old)
            (length (whole_of self.old).now) (form_of_block (parts_within self.old).block)
            (id, «data».now) allowed cause) }
        ensures unchanged { OnErr result (StaysWhole self.old self.new) }
        ensures same_buffer { (whole_of self.new).ghost_name ≡ (whole_of self.old).ghost_name }
    {
        check_element(id, data)?;
        let packet = self.as_packet();
        let form = rewriting::form_with(&packet, id, data, allowed)?;
        let plan = Plan::new(&packet, form, 0);
        self.rewrite(&plan, 0, Some((id, data)))
    }
}
