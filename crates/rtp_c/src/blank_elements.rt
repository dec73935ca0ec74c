//! Elements that C names by their ids and lengths alone.

ghost use Rattle.std.specs.Prelude.{◌≡◌, ◌≤◌, All, IfSome, IfNone};
ghost use Rattle.rtp_c.specs.PreparedGroup.{blank_views};

use super::packet::ElementView;
use rtp_ext::ElementList;

// What each has as its data.
const ZEROS: [u8; 255] = [0; 255];

/// Elements with zeros as their data, of at most 255 bytes.
#[derive(Clone, Copy)]
pub struct BlankElements<'a> {
    views: &'a [ElementView],
    ghost short: { All (λ view. view.data_len ≤ 255) views.now },
}

impl<'a> BlankElements<'a> {
    /// The elements that are named; `None` where one has more than 255 bytes of data.
    pub fn new(views: &'a [ElementView]) -> Option<Self>
        ensures same { IfSome result (λ blank. blank.views.now ≡ views.now) }
        ensures short { IfSome result (λ _. All (λ view. view.data_len ≤ 255) views.now) }
        ensures none { IfNone result (All (λ view. view.data_len ≤ 255) views.now → ⊥) }
    {
        if !views.iter().all(|view| view.data_len <= 255) {
            return None;
        }
        Some(BlankElements { views })
    }
}

impl ElementList for BlankElements<'_> {
    ghost elements = { λ blank. blank_views blank.views.now };

    fn count(&self) -> usize {
        self.views.len()
    }

    fn at(&self, index: usize) -> (u8, &[u8]) {
        let view = &self.views[index];
        (view.id, &ZEROS[..view.data_len])
    }
}
