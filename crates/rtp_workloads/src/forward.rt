//! A server that forwards packets: each is looked at once, and sent on to its receivers with numbers,
//! times, ids and elements of theirs, to some of them as a retransmission.

use crate::block::mid_of;
use crate::digest::Digest;
use crate::made::{Template, map, templates};
use crate::numbers::Numbers;
use rtp_base::{Pt, Ssrc};
use rtp_wire::{
    Extension, ExtensionMap, Fields, NewIds, OriginalFields, RetransmissionFields, RtpPacket,
    RtpPacketMut, compact, from_retransmission, put_element, to_retransmission,
};
use std::alloc::{AllocError, Global};

// How many receivers the server has.
const LEGS: u32 = 64;

// The room for a packet that is sent on.
const ROOM: usize = 1024;

// What the server holds of a receiver.
#[derive(Drop)]
struct Leg {
    // From the ids of the sender to those of the receiver.
    ids: NewIds,
    to_retransmission: NewIds,
    from_retransmission: NewIds,
    mid_id: u8,
    level_id: u8,
    // Which text its mid is.
    mid: u32,
    ssrc: u32,
    number: u16,
    timestamp_shift: u32,
    transport: u16,
}

// A map with the ids in another order, without some of the extensions.
fn other_map(numbers: &mut Numbers) -> ExtensionMap {
    let mut exts = ExtensionMap::empty();
    let shift = (numbers.below(14) % 14) as u8;
    for (place, ext) in [
        Extension::RtpMid,
        Extension::AudioLevel,
        Extension::AbsoluteSendTime,
        Extension::TransportSequenceNumber,
        Extension::VideoOrientation,
        Extension::RtpStreamId,
        Extension::RepairedRtpStreamId,
    ]
    .into_iter()
    .enumerate()
    {
        let id = (place as u8 + shift) % 14 + 1;
        if place < 4 || !numbers.one_in(3) {
            exts.set(id, ext);
        }
    }
    exts
}

fn made_leg(numbers: &mut Numbers, exts: &ExtensionMap) -> Leg {
    let theirs = other_map(numbers);
    Leg {
        ids: NewIds::between(exts, &theirs),
        to_retransmission: NewIds::to_retransmission(&theirs),
        from_retransmission: NewIds::from_retransmission(&theirs),
        mid_id: theirs.id_of(Extension::RtpMid).unwrap_or(1),
        level_id: theirs.id_of(Extension::AudioLevel).unwrap_or(2),
        mid: numbers.word(),
        ssrc: numbers.word(),
        number: numbers.short(),
        timestamp_shift: numbers.word(),
        transport: numbers.short(),
    }
}

// The fields, the transport number and the ids of the packet become those of the receiver, and it
// loses its padding. Returns how long it is then.
fn change(leg: &Leg, datagram: &mut [u8], turn: u32) -> Option<usize> {
    let mut packet = RtpPacketMut::parse(datagram).ok()?;
    let timestamp = packet.as_packet().timestamp();
    let timestamp = timestamp.wrapping_add(leg.timestamp_shift);
    if turn % 2 == 0 {
        packet.set_sequence_number(leg.number);
        packet.set_timestamp(timestamp);
        packet.set_ssrc(Ssrc::from(leg.ssrc));
    } else {
        packet.set_fields(&Fields {
            sequence_number: Some(leg.number),
            timestamp: Some(timestamp),
            ssrc: Some(Ssrc::from(leg.ssrc)),
            ..Fields::default()
        });
    }
    packet.set_element(3, &leg.transport.to_be_bytes());
    packet.renumber(&leg.ids);
    packet.remove_padding()
}

// The packet gets the receiver's mid, and every eighth one loses its level and the padding of its
// block.
fn change_elements(leg: &Leg, buf: &mut [u8], len: usize, turn: u32) -> Option<usize> {
    let len = put_element(buf, len, leg.mid_id, mid_of(leg.mid).as_bytes(), None).ok()?;
    if turn % 8 != 0 || len > buf.len() {
        return Some(len);
    }
    let datagram = &mut buf[..len];
    let mut packet = RtpPacketMut::parse(datagram).ok()?;
    packet.remove_element(leg.level_id);
    compact(packet.into_datagram()).ok()
}

// Every sixteenth packet is sent again, and half of these are made the packets that they repeat.
fn repeat(leg: &Leg, buf: &mut [u8], len: usize, turn: u32) -> Option<usize> {
    if turn % 16 != 5 {
        return Some(len);
    }
    let stream = RetransmissionFields {
        ssrc: Ssrc::from(leg.ssrc ^ 1),
        payload_type: Pt::from(97),
        sequence_number: leg.number ^ 0x55,
    };
    let len = to_retransmission(buf, len, &stream, &leg.to_retransmission).ok()?;
    if turn % 32 != 5 {
        return Some(len);
    }
    let original = OriginalFields {
        ssrc: Ssrc::from(leg.ssrc),
        payload_type: Pt::from(96),
    };
    from_retransmission(buf, len, &original, &leg.from_retransmission).ok()
}

fn change_all(leg: &Leg, buf: &mut [u8], len: usize, turn: u32) -> Option<usize> {
    if len > buf.len() {
        return None;
    }
    let len = change(leg, &mut buf[..len], turn)?;
    let len = change_elements(leg, buf, len, turn)?;
    repeat(leg, buf, len, turn)
}

// Sends the packet on to a receiver.
fn send(leg: &mut Leg, source: &[u8], buf: &mut [u8], turn: u32, digest: &mut Digest) {
    if source.len() > buf.len() {
        return;
    }
    buf[..source.len()].copy_from_slice(source);
    leg.number = leg.number.wrapping_add(1);
    leg.transport = leg.transport.wrapping_add(1);
    match change_all(leg, buf, source.len(), turn) {
        Some(len) => {
            digest.add(len as u64);
            if len <= buf.len() {
                digest.add_bytes(&buf[..len]);
            }
        }
        None => digest.add(1),
    }
}

// The one look at a packet: who sends it, and how loud it is.
fn look(datagram: &[u8], digest: &mut Digest) {
    if let Ok(packet) = RtpPacket::parse(datagram) {
        digest.add(u64::from(packet.ssrc().get()));
        if let Some([level, ..]) = packet.element(1) {
            digest.add(u64::from(*level));
        }
    }
}

// Sends a packet on to some of the receivers, from one of them on.
fn send_to_some(
    legs: &mut [Leg],
    template: &Template,
    buf: &mut [u8],
    numbers: &mut Numbers,
    digest: &mut Digest,
) {
    let source = template.bytes.as_slice();
    look(source, digest);
    let first = numbers.below(LEGS / 2) as usize;
    let count = numbers.between(3, LEGS / 2) as usize;
    let mut turn = numbers.word();
    for leg in legs.iter_mut().skip(first).take(count) {
        turn = turn.wrapping_add(1);
        send(leg, source, buf, turn, digest);
    }
}

/// Forwards so many hundreds of packets.
pub fn run(alloc: Global, seed: u64, hundreds: u32) -> Result<u64, AllocError> {
    let mut numbers = Numbers::new(seed);
    let exts = map();
    let mut legs = Vec::new(alloc);
    for _ in 0..LEGS {
        legs.push(made_leg(&mut numbers, &exts))?;
    }
    let mut templates = templates(alloc, &mut numbers, 256, (40, 160))?;
    let count = templates.len() as u64;
    let mut buf = [0; ROOM];
    let mut digest = Digest::new();
    for packet in 0..u64::from(hundreds) * 100 {
        let number = (packet % 65_536) as u16;
        let place = numbers.below(256) as usize;
        if let Some(template) = templates.get_mut(place) {
            template.set(number, numbers.word(), number);
            send_to_some(
                legs.as_mut_slice(),
                template,
                &mut buf,
                &mut numbers,
                &mut digest,
            );
        }
    }
    digest.add(count);
    Ok(digest.get())
}
