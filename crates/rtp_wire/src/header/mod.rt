//! The header of an RTP packet.

mod block;
mod fixed_part;
mod get_fields;
mod left_out;
mod not_a_header;
mod parsing;
mod refusal;
mod rtp_header;
mod sequence_number;
mod writing;
mod writing_values;
mod writing_with;

pub(crate) use block::{BLOCK_HEADER_LEN, in_words};
pub use fixed_part::fixed_bytes;
pub(crate) use fixed_part::flag;
pub use get_fields::{FixedFields, GetFields};
pub use left_out::values_left_out;
pub use not_a_header::NotAHeader;
pub use rtp_header::RtpHeader;
pub use writing_values::{try_write_values, values_wire_len};
pub use writing_with::write_with;
