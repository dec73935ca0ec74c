//! Reads datagrams in hexadecimal from standard input, and prints for each its RTP header and
//! whether a receiver takes it or refuses it as a replay.
#![tactic(auto)]

use rtp_listing::run;
use std::process::ExitCode;

fn main(rt: HostRuntime) -> ExitCode {
    let end = run(rt.alloc(), &mut rt.stdin(), &mut rt.stdout());
    ExitCode::from(end.status())
}
