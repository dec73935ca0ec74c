//! A recorder: packets of several senders, read with their values, and now and then a datagram of the
//! largest size that is all one block.

use crate::digest::Digest;
use crate::layers::Allocation;
use crate::made::{LAYERS_ID, Template, map, put_at, templates};
use crate::numbers::Numbers;
use crate::values::{add_header, add_layers, add_values};
use rtp_wire::vla::VideoLayers;
use rtp_wire::{ExtensionMap, RtpHeader, RtpPacket};
use std::alloc::{AllocError, Global};

// How many words a block has that fills the largest datagram of UDP over IPv4: 65,507 bytes.
const LARGE_WORDS: u16 = 16_372;

// What is kept from packet to packet.
#[derive(Drop)]
struct Reader {
    exts: ExtensionMap,
    header: RtpHeader,
    layers: VideoLayers,
    last_layers: VideoLayers,
    // The allocation that was told last.
    told: Allocation,
    digest: Digest,
}

// A header of its own.
fn parse(alloc: Global, reader: &mut Reader, datagram: &[u8]) -> Result<(), AllocError> {
    match RtpHeader::parse(alloc, datagram, &reader.exts)? {
        Some(header) => add_header(&mut reader.digest, &header),
        None => reader.digest.add(2),
    }
    Ok(())
}

// A header that is used again.
fn parse_into(alloc: Global, reader: &mut Reader, datagram: &[u8]) -> Result<(), AllocError> {
    if reader.header.parse_into(alloc, datagram, &reader.exts)? {
        add_header(&mut reader.digest, &reader.header);
    } else {
        reader.digest.add(3);
    }
    Ok(())
}

// The packet where it lies, with its values, and its layers in place beside the last ones.
fn read(alloc: Global, reader: &mut Reader, datagram: &[u8]) -> Result<(), AllocError> {
    let Ok(packet) = RtpPacket::parse(datagram) else {
        reader.digest.add(4);
        return Ok(());
    };
    reader.digest.add(u64::from(packet.ssrc().get()));
    reader.digest.add(u64::from(packet.sequence_number()));
    reader.digest.add(packet.payload().len() as u64);
    if let Some(data) = packet.element(LAYERS_ID) {
        if reader.layers.parse_into(data) {
            add_layers(&mut reader.digest, &reader.layers);
            let same = reader.layers == reader.last_layers;
            reader.digest.add(u64::from(same));
            reader.last_layers = reader.layers;
        }
        return Ok(());
    }
    let values = packet.values(alloc, &reader.exts)?;
    add_values(&mut reader.digest, &values);
    Ok(())
}

// Puts a large block: of zeros, of levels, of elements that aren't mapped, or of small allocations.
fn put_large(bytes: &mut Vec<u8>, kind: u32, seed: u8) -> Result<(), AllocError> {
    for word in 0..LARGE_WORDS {
        let byte = (word % 256) as u8 ^ seed;
        let element = match kind {
            0 => [0, 0, 0, 0],
            1 => [0x10, byte, 0x10, 0xAA],
            2 => [0x90, byte, 0x70, byte],
            _ => [0xC2, 0x01, 0x00, byte % 128],
        };
        bytes.extend_from_slice(&element)?;
    }
    Ok(())
}

// A datagram that is all one block in the one-byte form.
fn large(alloc: Global, kind: u32, seed: u8) -> Result<Vec<u8>, AllocError> {
    let mut bytes = Vec::new(alloc);
    bytes.extend_from_slice(&[0x90, 0x60, 0, 0, 0, 0, 0, 0, 0, 0, 0, seed, 0xBE, 0xDE])?;
    bytes.extend_from_slice(&LARGE_WORDS.to_be_bytes())?;
    put_large(&mut bytes, kind, seed)?;
    Ok(bytes)
}

// Each of the large datagrams, with a number that is new.
fn read_large(
    alloc: Global,
    reader: &mut Reader,
    datagrams: &mut [Vec<u8>],
    number: u16,
) -> Result<(), AllocError> {
    for datagram in datagrams.iter_mut() {
        put_at(datagram.as_mut_slice(), 2, &number.to_be_bytes());
        parse_into(alloc, reader, datagram.as_slice())?;
    }
    Ok(())
}

fn read_one(
    alloc: Global,
    reader: &mut Reader,
    template: &Template,
    way: u32,
) -> Result<(), AllocError> {
    match way {
        0 => parse(alloc, reader, &template.bytes),
        1 => parse_into(alloc, reader, &template.bytes),
        2 => read(alloc, reader, &template.bytes),
        // A datagram that is cut short.
        _ => parse(alloc, reader, &template.bytes[..template.bytes.len() / 8]),
    }
}

// Gives the datagram its number and times, and where it tells the layers an allocation of its own, or
// now and then the last one once more.
fn set(reader: &mut Reader, template: &mut Template, numbers: &mut Numbers, number: u16) {
    template.set(number, numbers.word(), number);
    if template.has_layers() {
        if !numbers.one_in(8) {
            reader.told = Allocation::drawn(numbers);
        }
        template.set_layers(&reader.told);
    }
}

fn made_reader(numbers: &mut Numbers) -> Reader {
    Reader {
        exts: map(),
        header: RtpHeader::default(),
        layers: VideoLayers::new(0),
        last_layers: VideoLayers::new(0),
        told: Allocation::drawn(numbers),
        digest: Digest::new(),
    }
}

/// Reads so many hundreds of packets.
pub fn run(alloc: Global, seed: u64, hundreds: u32) -> Result<u64, AllocError> {
    let mut numbers = Numbers::new(seed);
    // The shortest payload has room for the longest allocation.
    let mut templates = templates(alloc, &mut numbers, 256, (128, 1200))?;
    let mut all_large = Vec::new(alloc);
    for kind in 0..4 {
        all_large.push(large(alloc, kind, numbers.byte())?)?;
    }
    let mut reader = made_reader(&mut numbers);
    for packet in 0..u64::from(hundreds) * 100 {
        let number = (packet % 65_536) as u16;
        let place = numbers.below(256) as usize;
        let way = if numbers.one_in(64) {
            3
        } else {
            numbers.below(3)
        };
        if let Some(template) = templates.get_mut(place) {
            set(&mut reader, template, &mut numbers, number);
            read_one(alloc, &mut reader, template, way)?;
        }
        if packet % 100_000 == 99 {
            read_large(alloc, &mut reader, all_large.as_mut_slice(), number)?;
        }
    }
    Ok(reader.digest.get())
}
