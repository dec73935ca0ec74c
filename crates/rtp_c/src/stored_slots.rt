//! The places of a template that is stored.

ghost use Rattle.std.specs.Prelude.{◌≡◌, ◌≤◌, length, IfSome, IfNone};
ghost use Rattle.rtp_c.specs.StoredTemplate.{slots_of, IsInRange};

use super::template::StoredTemplate;
use rtp_route::{MAX_ELEMENTS, Slot, SlotList};

/// The places that are stored, read where they lie.
#[derive(Clone, Copy)]
pub struct StoredSlots<'a> {
    made: &'a StoredTemplate,
    ghost few: { made.now.count ≤ 16 },
    ghost starts: { length made.now.data_at ≡ 16 },
    ghost lens: { length made.now.data_len ≡ 16 },
}

impl<'a> StoredSlots<'a> {
    /// The places, where they can be those of a header in so many bytes; `None` where there are
    /// more than 16, one reaches past the header, they have another number of bytes of data than is
    /// stored, or the header has more bytes.
    pub fn new(made: &'a StoredTemplate, size: usize) -> Option<Self>
        ensures same { IfSome result (λ slots. slots.made.now ≡ made.now) }
        ensures in_range { IfSome result (λ _. IsInRange made.now size) }
        ensures none { IfNone result (IsInRange made.now size → ⊥) }
    {
        let header_len = made.header_len as usize;
        if made.count as usize > MAX_ELEMENTS || header_len > size {
            return None;
        }
        let mut total = 0;
        for index in 0..made.count as usize {
            let len = made.data_len[index] as usize;
            if made.data_at[index] as usize + len > header_len {
                return None;
            }
            total += len;
        }
        if total != made.data_total as usize {
            return None;
        }
        Some(StoredSlots { made })
    }
}

impl SlotList for StoredSlots<'_> {
    ghost slots = { λ slots. slots_of slots.made.now };

    fn count(&self) -> usize {
        self.made.count as usize
    }

    fn at(&self, index: usize) -> Slot {
        Slot {
            start: self.made.data_at[index],
            len: u32::from(self.made.data_len[index]),
        }
    }
}
