//! Receives the packets of an SRTP stream. A packet is authenticated between the test and the
//! record, so a forged one changes nothing.
#![tactic(auto)]

use rtp_wire::{ExtensionMap, Receiver, RtpPacket};
use std::io;

// A first packet with an audio level of -42 dB, the same again, a forged one, and the next one.
const DATAGRAMS: [&[u8]; 4] = [
    b"\x90\x6F\xFF\xFF\x00\x00\x03\xC0\x00\x00\x00\x2C\xBE\xDE\x00\x01\x10\xAA\x00\x00good",
    b"\x90\x6F\xFF\xFF\x00\x00\x03\xC0\x00\x00\x00\x2C\xBE\xDE\x00\x01\x10\xAA\x00\x00good",
    b"\x80\x6F\x00\x00\x00\x00\x07\x80\x00\x00\x00\x2Cevil",
    b"\x80\x6F\x00\x00\x00\x00\x07\x80\x00\x00\x00\x2Cgood",
];

// Stands for the check of SRTP's authentication tag.
fn is_authentic(payload: &[u8]) -> bool {
    payload == b"good".as_slice()
}

fn main(rt: HostRuntime) -> io::Result<()> {
    let exts = ExtensionMap::standard(); // or the ids that SDP negotiated
    let mut receiver = Receiver::new();
    for datagram in &DATAGRAMS {
        let Ok(packet) = RtpPacket::parse(datagram) else {
            continue; // no RTP packet
        };
        let number = receiver.number_of(packet.sequence_number());
        if !receiver.accepts(number) || !is_authentic(packet.payload()) {
            println!(rt; "{number}: a replay, too old, or forged")?;
            continue;
        }
        receiver.record(number);
        let values = packet.values(rt.alloc(), &exts)?;
        println!(rt; "{number}: audio level {:?}", values.audio_level)?;
    }
    Ok(())
}
