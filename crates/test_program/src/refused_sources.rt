//! A packet of a known source where memory may be refused: none is asked for. `.ci/run` refuses
//! each growth in turn.

use crate::checks::same;
use rtp_base::{SeqNo, Ssrc};
use rtp_uses::receiving;
use rtp_wire::{Receivers, Verdict};

// A packet of number 47,000 and source 44 with a one-byte block: an allocation of one stream of one
// layer of rate 5 on id 2, between a level and a transport number.
const WITH_ALLOCATION: [u8; 28] = [
    0x90, 33, 0xB7, 0x98, 0, 0, 0x27, 0x10, 0, 0, 0, 44, 0xBE, 0xDE, 0, 3, 0x10, 0xAA, 0x22, 1, 0,
    5, 0x31, 0, 7, 0, 0, 0,
];

// A packet of a source that has a receiver asks for no memory, though a layer allocation is in it.
#[test]
fn a_known_source(rt: HostRuntime) {
    let mut receivers = Receivers::new(rt.alloc());
    let (source, before) = (Ssrc::from(44), SeqNo::from(46_999));
    if receivers.record(source, before).is_err() {
        receivers.record(source, before).expect(&rt, "memory");
    }
    let found = receiving::receive_datagram(&mut receivers, &WITH_ALLOCATION);
    let found = found.expect(&rt, "no memory is needed");
    same(
        &rt,
        "the packet",
        found,
        Verdict::Taken(SeqNo::from(47_000)),
    );
    let found = receiving::receive_datagram(&mut receivers, &WITH_ALLOCATION[..27]);
    let found = found.expect(&rt, "no memory is needed");
    same(&rt, "cut short", found, Verdict::Unreadable);
}
