//! Blocks of header extensions as senders make them.

use crate::layers::Allocation;
use crate::made::LAYERS_ID;
use crate::numbers::Numbers;
use std::alloc::{AllocError, Global};

/// What is sent.
#[derive(Clone, Copy, PartialEq, Eq)]
pub enum Media {
    /// Packets without a block.
    Plain,
    /// Opus, of which the level is told.
    Audio,
    /// Video, in some packets turned.
    Video,
    /// Video in simulcast.
    Simulcast,
    /// Video in simulcast, at the packets that tell the layers.
    Layered,
}

/// One of the kinds of media, as often as they come on a transport of a conference.
pub fn any_media(numbers: &mut Numbers) -> Media {
    match numbers.below(16) {
        0 => Media::Plain,
        1..=5 => Media::Audio,
        6..=10 => Media::Video,
        11..=14 => Media::Simulcast,
        _ => Media::Layered,
    }
}

/// The texts that senders give media sections and streams.
pub fn mid_of(number: u32) -> &'static str {
    match number % 6 {
        0 => "0",
        1 => "1",
        2 => "2",
        3 => "audio",
        4 => "v1",
        _ => "sdparta_0",
    }
}

// The texts that senders give simulcast streams.
fn rid_of(number: u32) -> &'static str {
    match number % 4 {
        0 => "h",
        1 => "m",
        2 => "l",
        _ => "hi-1",
    }
}

/// A block, and where in it some of its elements lie; what it doesn't have lies past its end.
#[derive(Drop)]
pub struct Block {
    pub bytes: Vec<u8>,
    /// Whether it is in the two-byte form.
    pub is_long: bool,
    /// Where the data of the send time lie.
    pub send_time_at: usize,
    /// Where the data of the transport number lie.
    pub transport_at: usize,
    /// Where the element of the layer allocation lies, the last one of the block.
    pub layers_at: usize,
}

impl Block {
    // Puts an element after the others, in the two-byte form or in the one-byte form, for an id and
    // a length that this form can carry.
    fn put(&mut self, id: u8, data: &[u8]) -> Result<(), AllocError> {
        let len = (data.len() % 256) as u8;
        if self.is_long {
            self.bytes.push(id)?;
            self.bytes.push(len)?;
        } else {
            self.bytes.push(id % 16 * 16 + len.wrapping_sub(1) % 16)?;
        }
        self.bytes.extend_from_slice(data)?;
        Ok(())
    }

    // Fills up the last word.
    fn pad(&mut self) -> Result<(), AllocError> {
        for _ in 0..3 {
            if self.bytes.len() % 4 != 0 {
                self.bytes.push(0)?;
            }
        }
        Ok(())
    }
}

// Puts the elements of a sender of this kind.
fn put_elements(block: &mut Block, media: Media, numbers: &mut Numbers) -> Result<(), AllocError> {
    if media == Media::Audio {
        let level = numbers.byte();
        block.put(1, &[level])?;
    }
    block.put(2, &[0, 0, 0])?;
    block.send_time_at = block.bytes.len().saturating_sub(3);
    block.put(3, &[0, 0])?;
    block.transport_at = block.bytes.len().saturating_sub(2);
    block.put(4, mid_of(numbers.word()).as_bytes())?;
    if media == Media::Video && numbers.one_in(3) {
        block.put(13, &[numbers.byte() % 4])?;
    }
    if numbers.one_in(8) {
        // An extension that isn't mapped.
        let data = numbers.next().to_be_bytes();
        block.put(9, &data)?;
    }
    if media == Media::Simulcast || media == Media::Layered {
        let id = if numbers.one_in(6) { 11 } else { 10 };
        block.put(id, rid_of(numbers.word()).as_bytes())?;
    }
    if media == Media::Layered {
        block.layers_at = block.bytes.len();
        block.put(LAYERS_ID, Allocation::drawn(numbers).bytes())?;
    }
    Ok(())
}

/// The block of a sender of this kind, whose times and transport number are still to be set.
pub fn block_of(alloc: Global, media: Media, numbers: &mut Numbers) -> Result<Block, AllocError> {
    let mut block = Block {
        bytes: Vec::new(alloc),
        is_long: media == Media::Layered || numbers.one_in(12),
        send_time_at: usize::MAX,
        transport_at: usize::MAX,
        layers_at: usize::MAX,
    };
    put_elements(&mut block, media, numbers)?;
    block.pad()?;
    Ok(block)
}
