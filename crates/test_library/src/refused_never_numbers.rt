//! Calls on numbers and windows, which ask for no memory. `.ci/run` sees that a test of this file
//! asks for none.

use crate::checks::{holds, same};
use rtp_base::{Mid, Rid, SeqNo, SeqNoWindow, TwccSeq};

#[test]
fn windows(rt: HostRuntime) {
    let mut window = SeqNoWindow::new(SeqNo::from(100));
    holds(&rt, "101", window.take(SeqNo::from(101)));
    holds(&rt, "101 again", !window.take(SeqNo::from(101)));
    window.update(SeqNo::from(300));
    holds(&rt, "172", !window.accepts(SeqNo::from(172)));
    holds(&rt, "173", window.accepts(SeqNo::from(173)));
    same(&rt, "the highest", window.max_seq().get(), 300);
    let window = SeqNoWindow::new_after(SeqNo::from(200));
    holds(&rt, "199", !window.accepts(SeqNo::from(199)));
}

#[test]
fn ids(rt: HostRuntime) {
    same(&rt, "a mid", Mid::from("a-b").as_str(), "a_b");
    same(&rt, "a rid", Rid::from("abcdefghij").as_str(), "abcdefgh");
    holds(&rt, "no text", Mid::from_utf8(&[0xFF]).is_none());
    let mut number = SeqNo::from(65_535);
    same(&rt, "before", number.inc().get(), 65_535);
    same(&rt, "after", (number.get(), number.roc()), (65_536, 1));
    holds(&rt, "the next", TwccSeq::from(7).is_next(TwccSeq::from(8)));
}
