//! Directions and their names.

use crate::checks::{holds, same, shows};
use rtp_base::Direction;

// A direction, its name, its opposite, and whether it sends, receives, and counts as receiving.
const DIRECTIONS: [(Direction, &str, Direction, bool, bool, bool); 4] = [
    (
        Direction::SendOnly,
        "sendonly",
        Direction::RecvOnly,
        true,
        false,
        false,
    ),
    (
        Direction::RecvOnly,
        "recvonly",
        Direction::SendOnly,
        false,
        true,
        true,
    ),
    (
        Direction::SendRecv,
        "sendrecv",
        Direction::SendRecv,
        true,
        true,
        true,
    ),
    (
        Direction::Inactive,
        "inactive",
        Direction::Inactive,
        false,
        false,
        true,
    ),
];

#[test]
fn names(rt: HostRuntime) {
    for &(direction, name, ..) in &DIRECTIONS {
        shows(&rt, rt.alloc(), &direction, name);
        holds(&rt, name, Direction::from(name) == direction);
    }
    for other in ["SENDONLY", "", "sendonly ", "recv"] {
        holds(&rt, other, Direction::from(other) == Direction::Inactive);
    }
}

#[test]
fn what_they_say(rt: HostRuntime) {
    for &(direction, name, opposite, sends, receives, counts) in &DIRECTIONS {
        holds(&rt, name, direction.invert() == opposite);
        same(&rt, name, direction.is_sending(), sends);
        same(&rt, name, direction.is_receiving(), receives);
        same(&rt, name, direction.sdp_is_receiving(), counts);
    }
}
