//! Sources that send packets of twelve bytes, in bursts or in turn.

use crate::made::put_at;
use crate::numbers::Numbers;
use std::alloc::{AllocError, Global};

/// Whose packets come one after the other.
#[derive(Clone, Copy, PartialEq, Eq)]
pub enum Order {
    /// Each source sends one packet after the one before it.
    InTurn,
    /// A source that is drawn sends a burst of one packet to so many.
    Bursts(u32),
}

/// Sources, and what each sent last.
#[derive(Drop)]
pub struct Senders {
    // The SSRCs follow from it.
    salt: u32,
    // The last number of each source.
    last: Vec<u16>,
    order: Order,
    // Whose turn it is, and how many packets it has still to send.
    source: u32,
    left: u32,
}

impl Senders {
    /// So many sources, whose SSRCs all differ.
    pub fn new(
        alloc: Global,
        numbers: &mut Numbers,
        sources: u32,
        order: Order,
    ) -> Result<Self, AllocError> {
        Ok(Senders {
            salt: numbers.word(),
            last: vec![in alloc; numbers.short(); sources as usize]?,
            order,
            source: 0,
            left: 0,
        })
    }

    /// The SSRC and the number of the next packet.
    pub fn next(&mut self, numbers: &mut Numbers) -> (u32, u16) {
        if self.left == 0 {
            self.choose(numbers);
        }
        self.left = self.left.wrapping_sub(1);
        let number = match self.last.get_mut(self.source as usize) {
            Some(number) => next_number(number, numbers),
            None => 0,
        };
        (ssrc_of(self.source, self.salt), number)
    }

    // Chooses whose turn it is now, and for how many packets.
    fn choose(&mut self, numbers: &mut Numbers) {
        let sources = (self.last.len() % 4_294_967_296) as u32;
        match self.order {
            Order::InTurn => {
                let next = self.source.wrapping_add(1);
                self.source = if next < sources { next } else { 0 };
                self.left = 1;
            }
            Order::Bursts(longest) => {
                self.source = numbers.below(sources);
                self.left = numbers.between(1, longest);
            }
        }
    }
}

// The SSRC of a source.
fn ssrc_of(source: u32, salt: u32) -> u32 {
    let mixed = (source ^ salt).wrapping_mul(0x9E37_79B1);
    (mixed ^ (mixed >> 15)).wrapping_mul(0x85EB_CA77)
}

// The next number of a source: now and then one is lost, late or doubled.
fn next_number(number: &mut u16, numbers: &mut Numbers) -> u16 {
    let chance = numbers.below(64);
    if chance == 0 {
        return number.wrapping_sub((numbers.below(20) % 20) as u16);
    }
    let step = if chance == 1 { 3 } else { 1 };
    *number = number.wrapping_add(step);
    *number
}

/// Makes the datagram one of this SSRC and number.
pub fn set_datagram(bytes: &mut [u8], ssrc: u32, number: u16) {
    put_at(bytes, 2, &number.to_be_bytes());
    put_at(bytes, 8, &ssrc.to_be_bytes());
}

/// A datagram of twelve bytes, whose SSRC and number are still to be set.
pub fn datagram() -> [u8; 12] {
    [0x80, 0x60, 0, 0, 0, 0, 0, 0, 0, 0, 0, 0]
}
