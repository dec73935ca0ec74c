//! One packet to all its receivers: a header for each, while the payload stays where it lies (RFC
//! 7667, 3.7; RFC 8285, 5).
//!
//! Receivers that have the ids, the elements and their lengths in common are a [`Group`]. A
//! [`HeaderTemplate`] is made once for a packet and a group, and then writes a header for each
//! receiver, with fields and data of its own. Each is what `set_fields`, `renumber`, `put_element`
//! for each element and `compact` make of a copy of the packet's header, one after another, with
//! `change_form` before `renumber` where the one-byte form can't carry a new id and the two-byte
//! form is allowed: one definition, `IsRouted`, says what both are, and tests compare the bytes.
//! [`route_header`] makes one header. Where that can be, both write it in one walk over the packet's
//! elements, and else by these calls.
//!
//! The packet `90 60 00 05 00 00 00 64 00 00 00 2C BE DE 00 01 10 AA 00 00` (hexadecimal) with any
//! payload goes to a group for which the id 1 becomes 3, and two bytes of the id 4 are put. To the
//! receiver that gets the number 9, the SSRC 45 and the data `00 07` goes the header
//! `90 60 00 09 00 00 00 64 00 00 00 2D BE DE 00 02 30 AA 41 00 07 00 00 00`, and to the one that
//! gets 12, 46 and `00 08` the header
//! `90 60 00 0C 00 00 00 64 00 00 00 2E BE DE 00 02 30 AA 41 00 08 00 00 00`.
#![tactic(auto)]

mod by_calls;
mod by_walk;
mod copying;
mod in_place;
mod known_group;
mod making;
mod not_routed;
mod not_written;
mod numbers;
mod preparing;
mod retransmission;
mod slots;
mod stored_group;
mod table;
mod tabled;
mod template;
mod walk;

pub use by_calls::{Group, GroupOf, route_header, routes_as_the_calls_do};
pub use copying::put_header;
pub use in_place::clear_padding;
pub use known_group::KnownGroup;
pub use making::{make_from_table, make_template};
pub use not_routed::NotRouted;
pub use not_written::NotWritten;
pub use preparing::prepare_group;
pub use retransmission::{repeats_the_packet, write_retransmission};
pub use slots::{MAX_ELEMENTS, Slot, SlotList, fill_joined, lie_within, total_len};
pub use stored_group::StoredGroup;
pub use table::GroupTable;
pub use template::{HeaderTemplate, write_joined};
