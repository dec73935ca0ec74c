//! Headers of one sender, written, and reordered and repeated on the way.

use crate::checks::{same, verdict};
use rtp_wire::{ExtensionMap, RtpHeader, receive_run};
use std::alloc::Global;
use std::process::Abort;

// The sender's packets in the order in which they come, and as what each one is taken: none where
// it is refused.
const ARRIVALS: [(u16, Option<u64>); 5] = [
    (65535, Some(65535)),
    (65534, Some(65534)),
    (0, Some(65536)),
    (0, None),
    (1, Some(65537)),
];

// A default header of this number as it is written under the map, and one byte of payload.
fn datagram(rt: &impl Abort, alloc: Global, number: u16, exts: &ExtensionMap) -> Vec<u8> {
    let header = RtpHeader {
        sequence_number: number,
        ..RtpHeader::default()
    };
    let bytes = vec![in alloc; 255u8; header.wire_len(exts) + 1];
    let mut bytes = bytes.expect(rt, "memory");
    header.write_to(&mut bytes, exts);
    bytes
}

fn datagrams(rt: &impl Abort, alloc: Global, exts: &ExtensionMap) -> Vec<Vec<u8>> {
    let mut datagrams = Vec::new(alloc);
    for &(number, _) in &ARRIVALS {
        let bytes = datagram(rt, alloc, number, exts);
        datagrams.push(bytes).expect(rt, "memory");
    }
    datagrams
}

#[test]
fn reordered_and_repeated(rt: HostRuntime) {
    let exts = ExtensionMap::standard();
    let datagrams = datagrams(&rt, rt.alloc(), &exts);
    let verdicts = receive_run(rt.alloc(), &datagrams, &exts);
    let verdicts = verdicts.expect(&rt, "memory");
    let wanted = ARRIVALS.map(|(_, taken)| verdict(taken));
    same(&rt, "the verdicts", verdicts.as_slice(), wanted.as_slice());
}
