//! The elements that C names, read where their data lie.

ghost use Rattle.std.specs.Prelude.{◌≡◌, ◌↔◌, ◌≤◌, length, take, IsTrue, IfSome, IfNone};
ghost use Rattle.rtp_c.specs.WrittenElements.{LiesIn, LieIn, elements_in};

use super::packet::ElementView;
use rtp_ext::ElementList;

/// Elements whose data lie within the bytes.
#[derive(Clone, Copy)]
pub struct NamedElements<'a> {
    bytes: &'a [u8],
    views: &'a [ElementView],
    ghost within: { LieIn bytes.now views.now },
}

// Whether the data of the element lie within the bytes.
fn lies_in(bytes: &[u8], view: &ElementView) -> bool
    ensures { IsTrue result ↔ LiesIn bytes.now view.now }
{
    view.data_at <= bytes.len() && view.data_len <= bytes.len() - view.data_at
}

impl<'a> NamedElements<'a> {
    /// The elements that are named; `None` where the data of one reach past the bytes.
    pub fn new(bytes: &'a [u8], views: &'a [ElementView]) -> Option<Self>
        ensures within { IfSome result (λ _. LieIn bytes.now views.now) }
        ensures elements { IfSome result (λ named.
            elements_in named.bytes.now named.views.now ≡ elements_in bytes.now views.now) }
        ensures none { IfNone result (LieIn bytes.now views.now → ⊥) }
    {
        if !views.iter().all(|view| lies_in(bytes, view)) {
            return None;
        }
        Some(NamedElements { bytes, views })
    }
}

impl ElementList for NamedElements<'_> {
    ghost elements = { λ named. elements_in named.bytes.now named.views.now };

    fn count(&self) -> usize {
        self.views.len()
    }

    fn at(&self, index: usize) -> (u8, &[u8]) {
        let view = &self.views[index];
        let end = view.data_at + view.data_len;
        (view.id, &self.bytes[view.data_at..end])
    }
}
