//! What receivers have in common, as numbers that can be kept anywhere.

use super::numbers::IDS;
use super::slots::MAX_ELEMENTS;

/// What receivers have in common, checked and tabled once for all packets, as numbers:
/// [`KnownGroup`](super::KnownGroup) tells whether they are those of a group. `rtpw_group` in C, 550
/// bytes.
#[repr(C)]
#[derive(Clone, Copy)]
pub struct StoredGroup {
    /// The new id of each id, and 0 where it has none, as at index 0.
    pub new_ids: [u8; IDS],
    /// The number of the element of each id, from 1 on, and 0 where none has the id.
    pub numbers: [u8; IDS],
    /// The id of each element that is put.
    pub element_ids: [u8; MAX_ELEMENTS],
    /// How many bytes of data each has.
    pub data_lens: [u8; MAX_ELEMENTS],
    /// How many bytes of data they have together, which each receiver brings.
    pub data_total: u16,
    /// How many elements there are, 0 to 16.
    pub count: u8,
    /// Which form the block may get: 1 the one-byte form alone, 2 the two-byte form alone, 0 any.
    pub allowed: u8,
    /// Not 0 where the one-byte form can carry each element.
    pub one_byte: u8,
}
