//! The fields of a header that C gives to be written, where they lie.

ghost use Rattle.std.specs.Prelude.{◌≡◌, length, IfSome, IfNone};
ghost use Rattle.rtp_wire.specs.declared.header.rtp_header.RtpHeader.{RtpHeader as Header};
ghost use Rattle.rtp_wire.specs.Written.{with_values};
ghost use Rattle.rtp_c.specs.Given.{is_nonzero, AreGivenFields, IsGivenHeader};

use super::given_values::GivenValues;
use super::header::HeaderView;
use rtp_base::{Pt, Ssrc};
use rtp_wire::{FixedFields, GetFields};
use std::marker::Model;

/// The fields that C gives, each looked at when it is written, of a payload type and as many sources
/// as a header can have.
#[derive(Drop)]
pub struct GivenFields<'a> {
    view: &'a HeaderView,
    has_extension: bool,
}

impl<'a> Model for GivenFields<'a> {
    ghost use Rattle.std.specs.Prelude.{◌≡◌};
    ghost use Rattle.rtp_wire.specs.declared.header.rtp_header.RtpHeader.{RtpHeader as Header};
    ghost use Rattle.rtp_c.specs.Given.{is_nonzero, CanBeHeader, header_in};

    ghost Value = { Header };

    ghost view = { λ fields. header_in fields.view.now };

    ghost invariant = { λ fields. CanBeHeader fields.view.now
        × (fields.has_extension ≡ is_nonzero fields.view.now.has_extension) };
}

impl<'a> GivenFields<'a> {
    /// Those of the struct; `None` where no header can have them.
    #[inline(always)]
    pub fn of(view: &'a HeaderView) -> Option<Self>
        ensures found { IfSome result (AreGivenFields view.now) }
        ensures none { IfNone result ((header : Header) → AreGivenFields view.now header → ⊥) }
    {
        Self::with_x(view, view.has_extension != 0)
    }

    /// The fields of the struct, where it is known whether X is set; `None` where no header can have
    /// them.
    #[inline(always)]
    pub fn with_x(view: &'a HeaderView, has_extension: bool) -> Option<Self>
        requires { has_extension ≡ is_nonzero view.now.has_extension }
        ensures found { IfSome result (AreGivenFields view.now) }
        ensures none { IfNone result ((header : Header) → AreGivenFields view.now header → ⊥) }
    {
        if view.payload_type > 127 || view.csrc_count > 15 {
            return None;
        }
        Some(GivenFields {
            view,
            has_extension,
        })
    }
}

// The fields and the values that C gives; `None` where no header can have them.
#[inline(always)]
pub fn given_header(view: &HeaderView) -> Option<(GivenFields<'_>, GivenValues<'_>)>
    ensures found { IfSome result (λ given. IsGivenHeader view.now (with_values given.0 given.1)) }
    ensures none { IfNone result ((header : Header) → IsGivenHeader view.now header → ⊥) }
{
    let values = GivenValues::of(&view.values)?;
    let fields = GivenFields::of(view)?;
    Some((fields, values))
}

// How many sources the struct counts, of the fifteen that it has room for.
#[inline(always)]
fn count_in(view: &HeaderView) -> usize
    ensures count { result ≡ view.now.csrc_count }
    ensures slots { length view.now.csrc ≡ 15 }
{
    usize::from(view.csrc_count)
}

impl<'a> GetFields for GivenFields<'a> {
    ghost header = { λ fields. fields };

    #[inline(always)]
    fn fixed(&self) -> FixedFields {
        FixedFields {
            has_padding: self.view.has_padding != 0,
            has_extension: self.has_extension,
            csrc_count: count_in(self.view),
            marker: self.view.marker != 0,
            payload_type: Pt::from(self.view.payload_type),
            sequence_number: self.view.sequence_number,
            timestamp: self.view.timestamp,
            ssrc: Ssrc::from(self.view.ssrc),
        }
    }

    #[inline(always)]
    fn csrc(&self) -> [u32; 15] {
        self.view.csrc
    }
}
