//! Packets as senders make them, of which each copy gets numbers and times of its own.

use crate::block::{Media, any_media, block_of};
use crate::layers::Allocation;
use crate::numbers::Numbers;
use rtp_wire::{Extension, ExtensionMap};
use std::alloc::{AllocError, Global};

/// The id of the layer allocation, beside those of [`ExtensionMap::standard`].
pub const LAYERS_ID: u8 = 12;

/// The standard ids, and one for the layer allocation.
pub fn map() -> ExtensionMap {
    let mut exts = ExtensionMap::standard();
    exts.set(LAYERS_ID, Extension::VideoLayersAllocation);
    exts
}

/// Puts the bytes into the buffer at an offset, where it has room for them.
pub fn put_at(buf: &mut [u8], at: usize, bytes: &[u8]) {
    if at <= buf.len() && bytes.len() <= buf.len() - at {
        buf[at..at + bytes.len()].copy_from_slice(bytes);
    }
}

/// A datagram of a kind that a sender makes, whose numbers and times are still to be set.
#[derive(Drop)]
pub struct Template {
    pub bytes: Vec<u8>,
    // Where the block, the data of the send time and of the transport number, and the element of the
    // layer allocation lie, if it has them: else past the end.
    block_at: usize,
    send_time_at: usize,
    transport_at: usize,
    layers_at: usize,
}

impl Template {
    /// Gives the datagram these numbers and times.
    pub fn set(&mut self, number: u16, timestamp: u32, transport: u16) {
        let bytes = self.bytes.as_mut_slice();
        put_at(bytes, 2, &number.to_be_bytes());
        put_at(bytes, 4, &timestamp.to_be_bytes());
        let time = timestamp.wrapping_mul(77).to_be_bytes();
        put_at(bytes, self.send_time_at, &time[1..]);
        put_at(bytes, self.transport_at, &transport.to_be_bytes());
    }

    /// Whether the datagram tells the layers.
    pub fn has_layers(&self) -> bool {
        self.layers_at < self.bytes.len()
    }

    /// Puts another layer allocation in the place of the last one, if the datagram has one and so many
    /// bytes behind it. The block ends behind it: what is left of the last one counts as payload.
    pub fn set_layers(&mut self, layers: &Allocation) {
        let data = layers.bytes();
        let bytes = self.bytes.as_mut_slice();
        let data_at = self.layers_at.saturating_add(2);
        let end = data_at.saturating_add(data.len());
        if end.saturating_add(3) > bytes.len() {
            return;
        }
        let words = end.saturating_sub(self.block_at).div_ceil(4);
        let words = (words % 65_536) as u16;
        put_at(bytes, self.block_at.saturating_sub(2), &words.to_be_bytes());
        put_at(
            bytes,
            data_at.saturating_sub(1),
            &[(data.len() % 256) as u8],
        );
        put_at(bytes, data_at, data);
        put_at(bytes, end, &[0, 0, 0]);
    }
}

// The bytes before a block, with so many words in that.
fn put_front(
    bytes: &mut Vec<u8>,
    numbers: &mut Numbers,
    csrcs: u8,
    is_padded: bool,
    form: Option<[u8; 2]>,
) -> Result<(), AllocError> {
    let extension = if form.is_some() { 0x10 } else { 0 };
    let padding = if is_padded { 0x20 } else { 0 };
    bytes.push(0x80 + padding + extension + csrcs % 16)?;
    bytes.push(numbers.byte() % 128 / 2 + 32)?;
    bytes.extend_from_slice(&[0, 0, 0, 0, 0, 0])?;
    bytes.extend_from_slice(&numbers.word().to_be_bytes())?;
    for _ in 0..csrcs {
        bytes.extend_from_slice(&numbers.word().to_be_bytes())?;
    }
    if let Some(form) = form {
        bytes.extend_from_slice(&form)?;
    }
    Ok(())
}

// Puts a payload of so many bytes, whose last bytes are padding where it is padded.
fn put_payload(
    bytes: &mut Vec<u8>,
    numbers: &mut Numbers,
    len: u32,
    is_padded: bool,
) -> Result<(), AllocError> {
    for _ in 0..len {
        bytes.push(numbers.byte())?;
    }
    if is_padded {
        bytes.extend_from_slice(&[0, 0, 0, 4])?;
    }
    Ok(())
}

/// A datagram of a sender of this kind, with a payload of so many bytes.
pub fn made_template(
    alloc: Global,
    numbers: &mut Numbers,
    media: Media,
    payload_len: u32,
) -> Result<Template, AllocError> {
    let csrcs = if numbers.one_in(16) { 2 } else { 0 };
    let is_padded = payload_len > 0 && numbers.one_in(16);
    let mut bytes = Vec::new(alloc);
    if media == Media::Plain {
        put_front(&mut bytes, numbers, csrcs, is_padded, None)?;
        put_payload(&mut bytes, numbers, payload_len, is_padded)?;
        return Ok(Template {
            bytes,
            block_at: usize::MAX,
            send_time_at: usize::MAX,
            transport_at: usize::MAX,
            layers_at: usize::MAX,
        });
    }
    let block = block_of(alloc, media, numbers)?;
    let form = if block.is_long {
        [0x10, 0x00]
    } else {
        [0xBE, 0xDE]
    };
    put_front(&mut bytes, numbers, csrcs, is_padded, Some(form))?;
    let words = (block.bytes.len() / 4 % 65_536) as u16;
    bytes.extend_from_slice(&words.to_be_bytes())?;
    let block_at = bytes.len();
    bytes.extend_from_slice(&block.bytes)?;
    put_payload(&mut bytes, numbers, payload_len, is_padded)?;
    Ok(Template {
        bytes,
        block_at,
        send_time_at: block_at.saturating_add(block.send_time_at),
        transport_at: block_at.saturating_add(block.transport_at),
        layers_at: block_at.saturating_add(block.layers_at),
    })
}

/// So many datagrams of the kinds that come on a transport, with payloads of these lengths.
pub fn templates(
    alloc: Global,
    numbers: &mut Numbers,
    count: u32,
    payload: (u32, u32),
) -> Result<Vec<Template>, AllocError> {
    let mut all = Vec::new(alloc);
    for _ in 0..count {
        let media = any_media(numbers);
        let len = numbers.between(payload.0, payload.1);
        all.push(made_template(alloc, numbers, media, len)?)?;
    }
    Ok(all)
}
