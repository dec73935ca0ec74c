//! Values whose layer allocation is in a value of fixed size.

ghost use Rattle.std.specs.Prelude.{◌≡◌, ◌≤◌, length, is_some, if◌then◌else◌, IfSome};
ghost use Rattle.rtp_values.specs.Spelling.{spelled_data};
ghost use Rattle.rtp_values.specs.declared.kind.Extension.TheVariants.{VideoLayersAllocation};

use super::{ElementValues, ExtensionValues, ValueKinds, video_layers_allocation};
use crate::{KindSet, KnownKind};
use rtp_vla::vla::VideoLayers;

/// Values with these layers in place of the allocation that they have, so that a header is written
/// with its layers and no memory is taken for them.
#[derive(Clone, Copy)]
pub struct WithLayers<'a> {
    /// The values. What they have as their layer allocation is not looked at.
    pub values: &'a ExtensionValues,
    /// The layers that the sender keeps active, and `None` where none are to be written.
    pub layers: Option<&'a VideoLayers>,
}

impl<'a> ElementValues for WithLayers<'a> {
    ghost use Rattle.rtp_values.specs.WithLayers.{values_with_layers};

    ghost values = { values_with_layers };

    #[inline(always)]
    fn has_empty_text(&self) -> bool {
        self.values.has_empty_text()
    }

    #[inline(always)]
    #[tactic(auto, using(crate::proofs::DataLengthLemmas::few_of_allocation))]
    fn layers_at_most(&self) -> usize
        ensures exact { result ≡ if is_some self.now.layers then 255 else 0 }
        ensures most { IfSome (spelled_data VideoLayersAllocation (values_with_layers self.now))
            (λ bytes. length bytes ≤ result) }
        ensures few { result ≤ 255 }
    {
        if self.layers.is_some() { 255 } else { 0 }
    }

    // The data of an allocation are never empty.
    #[inline(always)]
    fn has_empty_data(&self, kind: KnownKind) -> bool {
        kind.has_empty_data(self.values)
    }

    #[inline(always)]
    fn data_len(&self, kind: KnownKind) -> Option<usize> {
        match kind {
            KnownKind::VideoLayersAllocation => video_layers_allocation::held_len(self),
            _ => kind.data_len(self.values),
        }
    }

    #[inline(always)]
    fn write_data(&self, kind: KnownKind, buf: &mut [u8]) -> Option<usize> {
        match kind {
            KnownKind::VideoLayersAllocation => video_layers_allocation::write_held(buf, self),
            _ => kind.write_to(buf, self.values),
        }
    }
}

impl<'a> ValueKinds for WithLayers<'a> {
    fn kinds(&self) -> KindSet {
        let mut kinds = self.values.kinds();
        if self.layers.is_some() {
            kinds.insert(KnownKind::VideoLayersAllocation);
        } else {
            kinds.remove(KnownKind::VideoLayersAllocation);
        }
        kinds
    }
}
