//! What follows the header: the padding at the payload's end, and the original number at its front.

mod original_number;
mod padding;

pub use original_number::{read_original_sequence_number, write_original_sequence_number};
pub use padding::{
    MAX_BLANK_PADDING_PAYLOAD_SIZE, create_padding_packet, try_create_padding_packet, unpad_payload,
};
