//! What a caller may rely on, each fact as a small function that is proved by public contracts
//! alone.
#![tactic(auto)]

pub mod bounds;
pub mod equality;
pub mod forwarding;
pub mod headers;
pub mod layers;
pub mod memory;
pub mod negotiating;
pub mod numbers;
pub mod padding;
pub mod receiving;
pub mod restarting;
pub mod retransmission;
pub mod send_times;
pub mod sending;
pub mod times;
