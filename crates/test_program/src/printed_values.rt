//! The printed values of header extensions.

use crate::listings::lists;
use rtp_listing::RunEnd;

// Four elements, and after the header four bytes of payload and twelve of padding.
#[test]
fn a_whole_packet(rt: HostRuntime) {
    let line = b"B06FB798000027102E5715F9BEDE000410AA22FE206A3100004278596A000000\
0102030400000000000000000000000C";
    let printed =
        b"packet 1: pt 111 seq 47000 ts 10000 ssrc 777459193 marker no padding yes extension yes \
csrc 0 header 32 mid xYj level -42 voice yes send 63531654 transport 0\nverdict 1: taken 47000\n";
    lists(
        &rt,
        rt.alloc(),
        "a whole packet",
        line.as_slice(),
        RunEnd::Done,
        printed,
    );
}
