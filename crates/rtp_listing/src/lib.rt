//! Reads datagrams in hexadecimal, and prints for each its RTP header and whether a receiver takes
//! it or refuses it as a replay.
#![tactic(auto)]

mod header_bytes;
mod hex_line;
mod input;
mod line;
mod listing;
mod map_line;
mod printing;
mod program;
mod text;

pub use hex_line::datagram;
pub use input::{Input, InputError, read_input};
pub use program::{RunEnd, run};
