//! The workloads of the benchmark: jobs that users of the library wait for, over inputs that are made
//! from a seed. Each prints a digest of all its results.
//!
//! The arguments are the name of a workload, the seed, and how many hundreds of packets, sessions or
//! lines it has. The workload `all` is each of them, one after the other.
#![tactic(auto)]

mod block;
mod digest;
mod forward;
mod layers;
mod listing;
mod made;
mod numbers;
mod read;
mod senders;
mod session;
mod sources;
mod values;
mod write;

use std::alloc::{AllocError, Global};
use std::{env, io};

const NAMES: [&str; 6] = ["forward", "read", "write", "sources", "session", "listing"];

// The digest of a workload over so many hundreds of inputs of its kind, and `None` where no workload
// has this name.
fn digest_of(
    alloc: Global,
    name: &str,
    seed: u64,
    hundreds: u32,
) -> Result<Option<u64>, AllocError> {
    let digest = match name {
        "forward" => forward::run(alloc, seed, hundreds)?,
        "read" => read::run(alloc, seed, hundreds)?,
        "write" => write::run(alloc, seed, hundreds)?,
        "sources" => sources::run(alloc, seed, hundreds)?,
        "session" => session::run(alloc, seed, hundreds)?,
        "listing" => listing::run(alloc, seed, hundreds)?,
        _ => return Ok(None),
    };
    Ok(Some(digest))
}

fn print_digest(
    rt: &impl Print,
    alloc: Global,
    name: &str,
    seed: u64,
    hundreds: u32,
) -> io::Result<()> {
    match digest_of(alloc, name, seed, hundreds)? {
        Some(digest) => println!(rt; "{name} {digest:016x}"),
        None => println!(rt; "there is no workload {name}"),
    }
}

fn main(rt: HostRuntime) -> io::Result<()> {
    let alloc = rt.alloc();
    let mut words = env::args(&rt)?.skip(1);
    let name = words.next();
    let seed = words.next();
    let hundreds = words.next();
    let (Some(name), Some(seed), Some(hundreds)) = (name, seed, hundreds) else {
        return println!(rt; "usage: WORKLOAD SEED HUNDREDS");
    };
    let (Ok(seed), Ok(hundreds)) = (
        seed.as_str().parse::<u64>(),
        hundreds.as_str().parse::<u32>(),
    ) else {
        return println!(rt; "the seed and the hundreds are numbers");
    };
    if name.as_str() != "all" {
        return print_digest(&rt, alloc, name.as_str(), seed, hundreds);
    }
    for name in NAMES {
        print_digest(&rt, alloc, name, seed, hundreds)?;
    }
    Ok(())
}
