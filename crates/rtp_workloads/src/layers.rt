//! Layer allocations as senders make them, in the bytes of `video-layers-allocation00`.

use crate::numbers::Numbers;

// The room for an allocation: 3 streams of 3 layers with 3 rates and a resolution each take 105 bytes.
const ROOM: usize = 112;

/// An allocation of one to three streams of one to three layers, each with one to three rates.
#[derive(Clone, Copy)]
pub struct Allocation {
    bytes: [u8; ROOM],
    len: usize,
}

impl Allocation {
    /// An allocation, drawn anew.
    pub fn drawn(numbers: &mut Numbers) -> Self {
        let mut all = Allocation {
            bytes: [0; ROOM],
            len: 0,
        };
        let layers = all.put_masks(numbers);
        let rates = all.put_counts(numbers, layers);
        all.put_rates(numbers, rates);
        if !numbers.one_in(4) {
            all.put_resolutions(numbers, layers);
        }
        all
    }

    /// Its bytes.
    pub fn bytes(&self) -> &[u8] {
        &self.bytes[..self.len.min(ROOM)]
    }

    fn put(&mut self, byte: u8) {
        if let Some(slot) = self.bytes.get_mut(self.len) {
            *slot = byte;
            self.len = self.len.wrapping_add(1);
        }
    }

    // Puts the head and the masks of the streams, which in most allocations are all the same. Returns how
    // many layers these have.
    fn put_masks(&mut self, numbers: &mut Numbers) -> u32 {
        let streams = numbers.between(1, 3) % 4;
        let index = numbers.below(streams) % 4;
        let head = (index * 64 + streams.saturating_sub(1) * 16) as u8;
        let mask = mask_of(numbers);
        if !numbers.one_in(4) {
            self.put(head + mask % 8);
            return streams.wrapping_mul(mask.count_ones());
        }
        let second = if streams > 1 { mask_of(numbers) } else { 0 };
        let third = if streams > 2 { mask_of(numbers) } else { 0 };
        self.put(head);
        self.put(mask % 8 * 16 + second % 8);
        if streams > 2 {
            self.put(third % 8 * 16);
        }
        mask.count_ones()
            .wrapping_add(second.count_ones())
            .wrapping_add(third.count_ones())
    }

    // Puts how many rates each of the layers has, two bits a layer. Returns how many these are.
    fn put_counts(&mut self, numbers: &mut Numbers, layers: u32) -> u32 {
        let mut rates = layers;
        let mut left = layers;
        for _ in 0..layers.div_ceil(4) {
            let used = if left < 4 {
                0xFF << (8 - left * 2)
            } else {
                0xFF
            };
            let twos = numbers.byte() & 0xAA;
            let counts = (twos | (numbers.byte() & 0x55 & !(twos >> 1))) & (used % 256) as u8;
            self.put(counts);
            rates = rates
                .wrapping_add((counts & 0x55).count_ones())
                .wrapping_add((counts & 0xAA).count_ones().wrapping_mul(2));
            left = left.saturating_sub(4);
        }
        rates
    }

    // Puts rates in kilobits a second, each higher than the one before it until they are high.
    fn put_rates(&mut self, numbers: &mut Numbers, rates: u32) {
        let mut kbps = numbers.between(30, 900);
        for _ in 0..rates {
            let [.., high, low] = (kbps % 4096 * 2).to_be_bytes();
            if high == 0 {
                self.put(low / 2);
            } else {
                self.put(low / 2 + 128);
                self.put(high);
            }
            kbps = kbps.wrapping_add(numbers.between(20, 700));
            if kbps > 2_000 {
                kbps = numbers.between(30, 900);
            }
        }
    }

    // Puts a width and a height, each less one, and a frame rate for each layer.
    fn put_resolutions(&mut self, numbers: &mut Numbers, layers: u32) {
        for _ in 0..layers {
            let [.., high, low] = numbers.between(159, 1919).to_be_bytes();
            self.put(high);
            self.put(low);
            let [.., high, low] = numbers.between(89, 1079).to_be_bytes();
            self.put(high);
            self.put(low);
            self.put((numbers.between(5, 60) % 256) as u8);
        }
    }
}

// The mask of a stream: of one layer, in one of four of two or three.
fn mask_of(numbers: &mut Numbers) -> u8 {
    if !numbers.one_in(4) {
        1
    } else if numbers.one_in(2) {
        3
    } else {
        7
    }
}
