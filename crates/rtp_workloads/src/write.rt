//! A sender: headers with their values, written into the front of a packet.

use crate::block::mid_of;
use crate::digest::Digest;
use crate::layers::Allocation;
use crate::made::{map, templates};
use crate::numbers::Numbers;
use rtp_wire::vla::VideoLayers;
use rtp_wire::{ExtensionMap, RtpHeader, WithLayers, try_write_values, write_with};
use std::alloc::{AllocError, Global};

// The room for a header.
const ROOM: usize = 1024;

// Asks for the length, and writes then.
fn write_measured(header: &RtpHeader, buf: &mut [u8], exts: &ExtensionMap) -> Option<usize> {
    if header.payload_type.get() > 127 || header.csrc_count > 15 {
        return None;
    }
    let len = header.wire_len(exts);
    if len > buf.len() {
        return None;
    }
    Some(header.write_to(buf, exts))
}

// Writes elements that are given.
fn write_elements(header: &RtpHeader, buf: &mut [u8], mid: &str) -> Option<usize> {
    let level = [(header.ssrc.get() % 128) as u8];
    let number = header.sequence_number.to_be_bytes();
    let elements: [(u8, &[u8]); 3] = [(1, &level), (3, &number), (4, mid.as_bytes())];
    write_with(header, buf, elements.as_slice(), None)
}

// What is kept from packet to packet.
#[derive(Drop)]
struct Sender {
    exts: ExtensionMap,
    headers: Vec<RtpHeader>,
    layers: Vec<VideoLayers>,
    digest: Digest,
}

// Gives the header the numbers and times of a packet.
fn set(header: &mut RtpHeader, number: u16, timestamp: u32) {
    header.sequence_number = number;
    header.timestamp = timestamp;
    if header.has_extension {
        header.ext_vals.abs_send_time = Some(u64::from(timestamp) * 16);
        header.ext_vals.transport_cc = Some(number ^ 0x1234);
    }
}

// Writes the header, one way or another.
fn write_one(
    header: &RtpHeader,
    buf: &mut [u8],
    exts: &ExtensionMap,
    layers: Option<&VideoLayers>,
    way: u32,
) -> Option<usize> {
    if layers.is_some() {
        let values = WithLayers {
            values: &header.ext_vals,
            layers,
        };
        return try_write_values(header, buf, &values, exts);
    }
    match way % 8 {
        0 => write_elements(header, buf, mid_of(way)),
        1..=3 => write_measured(header, buf, exts),
        _ => header.try_write_to(buf, exts),
    }
}

// The headers that a sender writes: those of the packets of several senders.
fn made_sender(alloc: Global, numbers: &mut Numbers) -> Result<Sender, AllocError> {
    let exts = map();
    let mut headers = Vec::new(alloc);
    for template in &templates(alloc, numbers, 256, (0, 0))? {
        if let Some(header) = RtpHeader::parse(alloc, &template.bytes, &exts)? {
            headers.push(header)?;
        }
    }
    let mut all_layers = Vec::new(alloc);
    for _ in 0..64 {
        let mut layers = VideoLayers::new(0);
        layers.parse_into(Allocation::drawn(numbers).bytes());
        all_layers.push(layers)?;
    }
    Ok(Sender {
        exts,
        headers,
        layers: all_layers,
        digest: Digest::new(),
    })
}

// Every 32nd packet tells the layers, from a value of fixed size.
fn layers_at(all: &[VideoLayers], way: u32) -> Option<&VideoLayers> {
    if way % 32 == 9 {
        all.get((way / 64 % 64) as usize)
    } else {
        None
    }
}

fn add_written(digest: &mut Digest, buf: &[u8], len: Option<usize>) {
    match len {
        Some(len) if len <= buf.len() => digest.add_bytes(&buf[..len]),
        _ => digest.add(5),
    }
}

/// Writes the headers of so many hundreds of packets.
pub fn run(alloc: Global, seed: u64, hundreds: u32) -> Result<u64, AllocError> {
    let mut numbers = Numbers::new(seed);
    let mut sender = made_sender(alloc, &mut numbers)?;
    let mut buf = [0; ROOM];
    for packet in 0..u64::from(hundreds) * 100 {
        let place = numbers.below(256) as usize;
        let way = numbers.word();
        let Some(header) = sender.headers.get_mut(place) else {
            continue;
        };
        set(header, (packet % 65_536) as u16, numbers.word());
        let layers = layers_at(&sender.layers, way);
        let len = write_one(header, &mut buf, &sender.exts, layers, way / 4096);
        add_written(&mut sender.digest, &buf, len);
    }
    Ok(sender.digest.get())
}
