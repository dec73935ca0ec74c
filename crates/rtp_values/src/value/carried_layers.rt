//! Values whose layer allocation is lent, and measured already.

ghost use Rattle.std.specs.Prelude.{◌≡◌, ◌≤◌, length, Some, IfSome, IfNone};
ghost use Rattle.std.specs.Option.{option_map};
ghost use Rattle.rtp_vla.specs.AllocationWritten.{Writable, written_of};
ghost use Rattle.rtp_values.specs.declared.kind.Extension.TheVariants as kind;
ghost use Rattle.rtp_values.specs.Spelling.{HasRoom, spelled_data};
ghost use Rattle.rtp_values.specs.KindBytes.{WritesData};

use super::video_layers_allocation::carried;
use super::{ElementValues, ValueKinds};
use crate::{KindSet, KnownKind};
use rtp_vla::vla::{Layered, LentAllocation, MeasuredAllocation};
use std::marker::Model;

/// Values with an allocation that is lent in place of the one that they have, where an element can
/// carry its layers and it is known in how many bytes, so that they aren't measured again for each
/// length and each writing.
#[derive(Drop)]
pub struct CarriedLayers<'a, V: ElementValues, S: Layered> {
    values: &'a V,
    layers: MeasuredAllocation<'a, S>,
}

impl<'a, V: ElementValues, S: Layered> Model for CarriedLayers<'a, V, S> {
    ghost use Rattle.std.specs.Prelude.{◌≡◌, ◌≤◌, length, Some};
    ghost use Rattle.rtp_vla.specs.AllocationWritten.{Writable, written_of};
    ghost use Rattle.rtp_values.specs.HeaderValues.{HeaderValues};

    ghost Value = { HeaderValues };

    ghost view = { λ carried. record (V.values carried.values.now) {
      video_layers_allocation = Some carried.layers;
    } };

    ghost invariant = { λ carried. (Writable carried.layers)
        × (length (written_of carried.layers) ≤ 255) };
}

impl<'a, V: ElementValues, S: Layered> CarriedLayers<'a, V, S> {
    /// These values with these layers; `None` where no element can carry them: they can't be written,
    /// or take more than 255 bytes.
    pub fn measure(values: &'a V, layers: LentAllocation<'a, S>) -> Option<Self>
        ensures found { IfSome result (λ carried. carried
            ≡ record (V.values values.now) { video_layers_allocation = Some layers.entry }) }
        ensures fits { IfSome result (λ _. Writable layers.entry
            × (length (written_of layers.entry) ≤ 255)) }
        ensures none { IfNone result (Writable layers.entry
            → length (written_of layers.entry) ≤ 255 → ⊥) }
    {
        let layers = carried(layers)?;
        Some(CarriedLayers { values, layers })
    }

    // How many bytes of data the element of the layers has.
    fn layers_len(&self) -> Option<usize>
        ensures { result ≡ option_map length (spelled_data kind.VideoLayersAllocation self.now) }
    {
        Some(self.layers.wire_len())
    }

    // Writes these data.
    fn write_layers(&self, buf: &mut [u8]) -> Option<usize>
        requires room { HasRoom kind.VideoLayersAllocation self.now buf.old }
        ensures { WritesData kind.VideoLayersAllocation self.now buf.old buf.new result }
    {
        Some(self.layers.write_to(buf))
    }
}

impl<'a, V: ElementValues, S: Layered> ElementValues for CarriedLayers<'a, V, S> {
    ghost values = { λ carried. carried };

    #[inline(always)]
    fn has_empty_text(&self) -> bool {
        self.values.has_empty_text()
    }

    #[inline(always)]
    fn layers_at_most(&self) -> usize
        ensures exact { Some result
            ≡ option_map length (spelled_data kind.VideoLayersAllocation self.now) }
        ensures most { IfSome (spelled_data kind.VideoLayersAllocation self.now) (λ bytes.
            length bytes ≤ result) }
        ensures few { result ≤ 255 }
    {
        self.layers.wire_len()
    }

    // The data of an allocation are never empty.
    #[inline(always)]
    fn has_empty_data(&self, kind: KnownKind) -> bool {
        self.values.has_empty_data(kind)
    }

    #[inline(always)]
    fn data_len(&self, kind: KnownKind) -> Option<usize> {
        match kind {
            KnownKind::VideoLayersAllocation => self.layers_len(),
            _ => self.values.data_len(kind),
        }
    }

    #[inline(always)]
    fn write_data(&self, kind: KnownKind, buf: &mut [u8]) -> Option<usize> {
        match kind {
            KnownKind::VideoLayersAllocation => self.write_layers(buf),
            _ => self.values.write_data(kind, buf),
        }
    }
}

impl<'a, V: ValueKinds, S: Layered> ValueKinds for CarriedLayers<'a, V, S> {
    fn kinds(&self) -> KindSet {
        let mut kinds = self.values.kinds();
        kinds.insert(KnownKind::VideoLayersAllocation);
        kinds
    }
}
