//! The library for C: what crosses to it is numbers and structs of numbers in the caller's memory.
//!
//! Each exported function may be called with any values. It returns a status, or a value, and
//! writes its outputs whole or not at all.
#![tactic(auto)]

ghost use Rattle.std.specs.Prelude.{◌≡◌};

mod arrivals;
mod bare_kind;
mod blank_elements;
mod blocks;
mod changing;
mod data;
mod data_elements;
mod datagrams;
mod fixed_part;
mod given;
mod given_fields;
mod given_layers;
mod given_parts;
mod given_values;
mod group;
mod growing;
mod header;
mod kinds;
mod layers;
mod left_out;
mod map;
mod named_elements;
mod next_elements;
mod numbers;
mod packet;
mod padding;
mod payload;
mod receiver;
mod reception;
mod restarting;
mod retransmission;
mod routed_headers;
mod rtcp;
mod set_values;
mod standard;
mod standing;
mod status;
mod stored_slots;
mod template;
mod values;
mod whole_packet;
mod wide_receiver;
mod wide_restarting;
mod writing;
mod writing_layers;
mod writing_values;

/// The version of the library: 65,536 times its major number, 256 times the minor one, and the
/// patch. That of the header file is `RTPW_VERSION`.
#[unsafe(no_mangle)]
pub extern "C" fn rtpw_version() -> u32
    ensures { result ≡ 65792 }
{
    65_792
}
