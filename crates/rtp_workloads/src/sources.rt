//! A receiver of many sources: those of many transports, of a server that looks at all of them, of a
//! flood, and those of whole runs.

use crate::digest::Digest;
use crate::made::map;
use crate::numbers::Numbers;
use crate::senders::{Order, Senders, datagram, set_datagram};
use rtp_base::Ssrc;
use rtp_wire::{Receivers, RtpPacket, Verdict, receive_run};
use std::alloc::{AllocError, Global};

// How many packets come on a transport, and how many in a run.
const TRANSPORT: u64 = 3_000;

const RUN: u64 = 10_000;

fn add_verdict(digest: &mut Digest, verdict: Verdict) {
    match verdict {
        Verdict::Taken(number) => digest.add(number.get()),
        Verdict::Refused => digest.add(11),
        Verdict::Unreadable => digest.add(13),
    }
}

// So many packets of two to ten sources on one transport.
fn transport(
    alloc: Global,
    numbers: &mut Numbers,
    order: Order,
    packets: u64,
    digest: &mut Digest,
) -> Result<(), AllocError> {
    let mut receivers = Receivers::new(alloc);
    let sources = numbers.between(2, 10);
    let mut senders = Senders::new(alloc, numbers, sources, order)?;
    let mut bytes = datagram();
    for _ in 0..packets {
        let (ssrc, number) = senders.next(numbers);
        set_datagram(&mut bytes, ssrc, number);
        if let Ok(packet) = RtpPacket::parse(&bytes) {
            let verdict = receivers.receive(packet.ssrc(), packet.sequence_number())?;
            add_verdict(digest, verdict);
        }
    }
    Ok(())
}

// So many packets on transports, whose sources send in turn on every second one, and else in bursts.
fn transports(
    alloc: Global,
    numbers: &mut Numbers,
    packets: u64,
    digest: &mut Digest,
) -> Result<(), AllocError> {
    let count = (packets / TRANSPORT).max(2);
    for place in 0..count {
        let order = if place % 2 == 0 {
            Order::InTurn
        } else {
            Order::Bursts(30)
        };
        transport(alloc, numbers, order, packets / count, digest)?;
    }
    Ok(())
}

// One packet of a source: received, or as a receiver of SRTP does it; now and then the source leaves.
fn one(
    receivers: &mut Receivers,
    ssrc: Ssrc,
    number: u16,
    way: u32,
    digest: &mut Digest,
) -> Result<(), AllocError> {
    if way % 1024 == 3 {
        let left = receivers.forget(ssrc);
        digest.add(u64::from(left.is_some()));
    }
    if way % 4 != 0 {
        let verdict = receivers.receive(ssrc, number)?;
        add_verdict(digest, verdict);
        return Ok(());
    }
    let number = receivers.number_of(ssrc, number);
    let accepted = receivers.accepts(ssrc, number);
    digest.add(number.get() ^ u64::from(accepted));
    if accepted {
        receivers.record(ssrc, number)?;
    }
    Ok(())
}

// So many packets of so many sources, which send bursts of at most this length.
fn server(
    alloc: Global,
    numbers: &mut Numbers,
    sources: u32,
    packets: u64,
    longest: u32,
    digest: &mut Digest,
) -> Result<(), AllocError> {
    let mut receivers = Receivers::starting_at(alloc, 1);
    let mut senders = Senders::new(alloc, numbers, sources, Order::Bursts(longest))?;
    for _ in 0..packets {
        let (ssrc, number) = senders.next(numbers);
        let way = numbers.word();
        one(&mut receivers, Ssrc::from(ssrc), number, way, digest)?;
    }
    digest.add(receivers.len() as u64);
    Ok(())
}

// A run of so many datagrams, which are still to be set.
fn datagrams(alloc: Global, packets: u64) -> Result<Vec<Vec<u8>>, AllocError> {
    let mut all = Vec::new(alloc);
    for _ in 0..packets {
        all.push(datagram().to_vec(alloc)?)?;
    }
    Ok(all)
}

// Makes the datagrams those of a run of as many sources as let each have 25 of them.
fn set_run(alloc: Global, numbers: &mut Numbers, run: &mut [Vec<u8>]) -> Result<(), AllocError> {
    let sources = (run.len() / 25 % 65_536) as u32 + 1;
    let mut senders = Senders::new(alloc, numbers, sources, Order::Bursts(4))?;
    for datagram in run.iter_mut() {
        let (ssrc, number) = senders.next(numbers);
        set_datagram(datagram.as_mut_slice(), ssrc, number);
    }
    Ok(())
}

fn add_verdicts(digest: &mut Digest, verdicts: &[Verdict]) {
    for verdict in verdicts {
        add_verdict(digest, *verdict);
    }
}

// So many packets in runs that are received at once.
fn runs(
    alloc: Global,
    numbers: &mut Numbers,
    packets: u64,
    digest: &mut Digest,
) -> Result<(), AllocError> {
    let count = (packets / RUN).max(1);
    let mut run = datagrams(alloc, packets / count)?;
    let exts = map();
    for _ in 0..count {
        set_run(alloc, numbers, run.as_mut_slice())?;
        let verdicts = receive_run(alloc, run.as_slice(), &exts)?;
        add_verdicts(digest, verdicts.as_slice());
    }
    Ok(())
}

/// Receives so many hundreds of packets: three tenths of them come on transports, four tenths at a
/// server, two tenths in a flood, and one tenth in runs. A source sends 400 packets to the server, and
/// ten in the flood, however many hundreds there are.
pub fn run(alloc: Global, seed: u64, hundreds: u32) -> Result<u64, AllocError> {
    let mut numbers = Numbers::new(seed);
    let mut digest = Digest::new();
    let tenth = u64::from(hundreds) * 10;
    transports(alloc, &mut numbers, tenth * 3, &mut digest)?;
    let seen = (hundreds / 10).max(2);
    server(alloc, &mut numbers, seen, tenth * 4, 4, &mut digest)?;
    let flood = hundreds.saturating_mul(2);
    server(alloc, &mut numbers, flood, tenth * 2, 1, &mut digest)?;
    runs(alloc, &mut numbers, tenth, &mut digest)?;
    Ok(digest.get())
}
