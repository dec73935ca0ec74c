//! Where the receiver of a source may stand: what is looked at before the map of the places is.

use super::Receiver;
use rtp_base::Ssrc;
use std::alloc::Global;
use std::simd::prelude::*;

// How many hints a row has: few enough to compare an SSRC with all of them at once, and enough that
// few sources find their row full, where the SSRCs are spread.
const ROW: usize = 4;

// Rows are made once the map was asked for one source in so many, which pays for them.
const SHARE: usize = 8;

// Rows that leave out more than one source in so many are given up.
const SPARE: usize = 4;

// Where rows were given up, they are made again once the map was asked so many times for each
// source.
const PATIENCE: usize = 16;

// Where a source finds its row full, no hint is put before the map was asked so many times more.
const REST: usize = 16;

// The hints of a row: the SSRCs of sources, and at the same index the place of each. Both are 0
// where there is no hint.
#[derive(Clone, Copy)]
struct Row {
    sources: [u32; ROW],
    places: [u32; ROW],
}

// Rows of hints, of which an SSRC picks one, and the place of the last packet's source.
//
// Nothing is promised of a hint. Who takes one compares the source that stands there, and else asks
// the map, so a hint may be missing or old. Where SSRCs all pick one row, as a peer may choose
// them, there are no rows, and each of them costs what the map costs.
#[derive(Drop)]
pub(super) struct Hints {
    pub(super) last_place: usize,
    rows: Vec<Row>,
    // How often the map is asked for a source that it has, before there is anything to do about it.
    awaited: usize,
    // How often it was asked since rows were made, where that is a reason for new ones. Those that
    // are awaited count already.
    asked: usize,
}

impl Row {
    // No hint.
    fn new() -> Self {
        Row {
            sources: [0; ROW],
            places: [0; ROW],
        }
    }

    // The place of the hint on the source.
    #[inline(always)]
    fn place_of(&self, source: u32) -> Option<usize> {
        let same = u32x4::from_array(self.sources).simd_eq(u32x4::splat(source));
        let same = same.to_bitmask();
        if same == 0 {
            return None;
        }
        let index = same.trailing_zeros() as usize % ROW;
        Some(self.places[index] as usize)
    }

    // Puts a hint where the row has one on the source, or else where it has none. Returns whether
    // it has room.
    fn put(&mut self, source: u32, place: u32) -> bool {
        let sources = u32x4::from_array(self.sources);
        let places = u32x4::from_array(self.places);
        let own = sources.simd_eq(u32x4::splat(source)).to_bitmask();
        let free = (sources | places).simd_eq(u32x4::splat(0)).to_bitmask();
        let index = if own != 0 { own } else { free }.trailing_zeros() as usize;
        let has_room = index < ROW;
        if has_room {
            self.sources[index] = source;
            self.places[index] = place;
        }
        has_room
    }
}

impl Hints {
    // No hint yet.
    pub(super) fn new(alloc: Global) -> Self {
        Hints {
            last_place: 0,
            rows: Vec::new(alloc),
            awaited: 0,
            asked: 0,
        }
    }

    pub(super) fn has_rows(&self) -> bool {
        !self.rows.is_empty()
    }

    // The place where the source may stand, if there is a hint on it.
    #[inline(always)]
    pub(super) fn place_of(&self, ssrc: Ssrc) -> Option<usize> {
        self.rows.get(self.row_of(ssrc))?.place_of(ssrc.get())
    }

    // The map had to be asked where the source stands: at this place.
    #[inline(always)]
    pub(super) fn learn(&mut self, list: &Vec<(Ssrc, Receiver)>, ssrc: Ssrc, place: usize) {
        let (left, was_none) = self.awaited.overflowing_sub(1);
        self.awaited = left;
        if was_none {
            self.learn_now(list, ssrc, place);
        }
    }

    // The same where nothing is awaited. Rows are made once the map was asked often enough: so
    // sources that never come back, as those of a flood, ask for no rows. No hint drives out
    // another one.
    #[inline(never)]
    fn learn_now(&mut self, list: &Vec<(Ssrc, Receiver)>, ssrc: Ssrc, place: usize) {
        self.awaited = 0;
        if self.has_rows() && !self.put(ssrc, place) {
            self.awaited = REST;
            // More rows help where there are more sources than when they were made.
            if list.len() <= self.rows.len() {
                return;
            }
            self.asked = self.asked.saturating_add(REST);
        }
        self.asked = self.asked.saturating_add(1);
        let enough = (list.len() / SHARE).max(self.rows.len());
        if self.asked >= enough {
            self.make_rows(list);
        } else if !self.has_rows() {
            self.awaited = enough - self.asked;
            self.asked = enough;
        }
    }

    // Puts a hint that the source stands at this place, which is below 2^32, since no two SSRCs are
    // alike. Returns whether its row has room.
    fn put(&mut self, ssrc: Ssrc, place: usize) -> bool {
        let index = self.row_of(ssrc);
        match self.rows.get_mut(index) {
            Some(row) => row.put(ssrc.get(), (place & 0xFFFF_FFFF) as u32),
            None => false,
        }
    }

    // Makes a row for each source in place of the old ones. There are none where memory is refused,
    // or where too many sources find their row full.
    fn make_rows(&mut self, list: &Vec<(Ssrc, Receiver)>) {
        let alloc = *self.rows.allocator();
        self.awaited = 0;
        self.asked = 0;
        self.rows = Vec::new(alloc);
        let Ok(rows) = Vec::from_elem(alloc, Row::new(), list.len()) else {
            return;
        };
        self.rows = rows;
        if !self.fill(list) {
            self.rows = Vec::new(alloc);
            self.awaited = list.len().saturating_mul(PATIENCE);
        }
    }

    // Puts a hint on each source into empty rows. Returns whether few were left out, and ends where
    // it sees that too many are.
    fn fill(&mut self, list: &Vec<(Ssrc, Receiver)>) -> bool {
        let mut spare = list.len() / SPARE;
        for (place, (source, _)) in list.iter().enumerate() {
            if self.put(*source, place) {
                continue;
            }
            if spare == 0 {
                return false;
            }
            spare -= 1;
        }
        true
    }

    // The row of the source: the SSRC is multiplied by an odd number near 2^32 over the golden
    // ratio (Knuth), so that neighbours get rows far apart, and then scaled to the number of rows.
    fn row_of(&self, ssrc: Ssrc) -> usize {
        let mixed = u64::from(ssrc.get().wrapping_mul(0x9E37_79B1));
        (mixed.wrapping_mul(self.rows.len() as u64) >> 32) as usize
    }
}
