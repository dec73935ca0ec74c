//! A receiver for each source where memory may be refused once: what stands then, and that the same
//! call with memory does all of it. `.ci/run` refuses each growth in turn.

use crate::checks::{holds, same, verdict};
use rtp_base::{SeqNo, Ssrc};
use rtp_wire::{ExtensionMap, Receivers, Verdict, receive_run, receive_run_one};
use std::alloc::{AllocError, Global};
use std::process::Abort;

// With 40 sources their map grows more than once.
const SOURCES: u32 = 40;

// Sources that came before have their receiver, and this one has none.
fn stays(rt: &impl Abort, receivers: &Receivers, source: u32) {
    same(rt, source, receivers.len(), source as usize);
    holds(rt, source, receivers.get(Ssrc::from(source)).is_none());
    for before in 0..source {
        let found = receivers.accepts(Ssrc::from(before), SeqNo::from(7));
        same(rt, before, found, false);
    }
}

// The number 7 of the source is taken, whether the first time is refused or not.
fn receives(rt: &impl Abort, receivers: &mut Receivers, source: u32) {
    let ssrc = Ssrc::from(source);
    let found = match receivers.receive(ssrc, 7) {
        Ok(found) => found,
        Err(_) => {
            stays(rt, receivers, source);
            receivers.receive(ssrc, 7).expect(rt, "memory")
        }
    };
    same(rt, source, found, verdict(Some(7)));
}

#[test]
fn received(rt: HostRuntime) {
    let mut receivers = Receivers::new(rt.alloc());
    for source in 0..SOURCES {
        receives(&rt, &mut receivers, source);
    }
    stays(&rt, &receivers, SOURCES);
}

// The number 7 of the source is recorded, whether the first time is refused or not.
fn records(rt: &impl Abort, receivers: &mut Receivers, source: u32) {
    let (ssrc, number) = (Ssrc::from(source), SeqNo::from(7));
    if receivers.record(ssrc, number).is_err() {
        stays(rt, receivers, source);
        receivers.record(ssrc, number).expect(rt, "memory");
    }
}

#[test]
fn recorded(rt: HostRuntime) {
    let mut receivers = Receivers::new(rt.alloc());
    for source in 0..SOURCES {
        records(&rt, &mut receivers, source);
    }
    stays(&rt, &receivers, SOURCES);
}

// Sources that come back, so that hints on their places are made and grow. Where memory for these
// is refused the calls go on without.
#[test]
fn received_again(rt: HostRuntime) {
    let mut receivers = Receivers::new(rt.alloc());
    for source in 0..SOURCES {
        receives(&rt, &mut receivers, source);
        for before in [source, source / 2] {
            let again = receivers.receive(Ssrc::from(before), 7);
            same(
                &rt,
                before,
                again.expect(&rt, "no memory is owed"),
                Verdict::Refused,
            );
        }
    }
    stays(&rt, &receivers, SOURCES);
}

// Sources that all come before one comes back: rows of hints are made while they are looked up, and
// none is owed.
#[test]
fn received_in_turn(rt: HostRuntime) {
    let mut receivers = Receivers::new(rt.alloc());
    for source in 0..SOURCES {
        receives(&rt, &mut receivers, source);
    }
    for _ in 0..3 {
        for source in 0..SOURCES {
            let again = receivers.receive(Ssrc::from(source), 7);
            same(
                &rt,
                source,
                again.expect(&rt, "no memory is owed"),
                Verdict::Refused,
            );
        }
    }
    stays(&rt, &receivers, SOURCES);
}

// What is given back for a source that is forgotten, and then for all: nothing is held at the end.
#[test]
fn forgotten(rt: HostRuntime) {
    let mut receivers = Receivers::new(rt.alloc());
    for source in 0..SOURCES {
        receives(&rt, &mut receivers, source);
    }
    for source in 0..SOURCES {
        holds(&rt, source, receivers.forget(Ssrc::from(source)).is_some());
    }
    holds(&rt, "none is left", receivers.is_empty());
}

// A plain header of the number 7 for each source.
fn datagrams(alloc: Global) -> Result<Vec<Vec<u8>>, AllocError> {
    let mut datagrams = Vec::new(alloc);
    for source in 0..SOURCES as u8 {
        let bytes = [0x80, 1, 0, 7, 0, 0, 0, 0, 0, 0, 0, source];
        datagrams.push(Vec::from_slice(alloc, &bytes)?)?;
    }
    Ok(datagrams)
}

fn run_of_sources(rt: &impl Abort, alloc: Global) -> Vec<Vec<u8>> {
    match datagrams(alloc) {
        Ok(datagrams) => datagrams,
        Err(_) => datagrams(alloc).expect(rt, "memory"),
    }
}

// The first verdict is this one, and each later one that.
fn are(rt: &impl Abort, verdicts: &[Verdict], first: Verdict, later: Verdict) {
    same(rt, "how many", verdicts.len(), SOURCES as usize);
    for (index, found) in verdicts.iter().enumerate() {
        same(rt, index, *found, if index == 0 { first } else { later });
    }
}

#[test]
fn a_run(rt: HostRuntime) {
    let run = run_of_sources(&rt, rt.alloc());
    let exts = ExtensionMap::standard();
    let verdicts = match receive_run(rt.alloc(), &run, &exts) {
        Ok(verdicts) => verdicts,
        Err(_) => receive_run(rt.alloc(), &run, &exts).expect(&rt, "memory"),
    };
    are(&rt, &verdicts, verdict(Some(7)), verdict(Some(7)));
}

#[test]
fn a_run_of_one(rt: HostRuntime) {
    let run = run_of_sources(&rt, rt.alloc());
    let exts = ExtensionMap::standard();
    let verdicts = match receive_run_one(rt.alloc(), &run, &exts) {
        Ok(verdicts) => verdicts,
        Err(_) => receive_run_one(rt.alloc(), &run, &exts).expect(&rt, "memory"),
    };
    are(&rt, &verdicts, verdict(Some(7)), Verdict::Refused);
}
