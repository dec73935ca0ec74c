//! An RTP packet where it lies in the bytes of a datagram.

mod adding_padding;
mod any_block;
mod block_not_put;
mod compacting;
mod csrcs;
mod fields;
mod header_bytes;
mod in_place;
mod not_a_packet;
mod not_in_buffer;
mod not_put;
mod not_retransmitted;
mod padding;
mod putting;
mod remaking_block;
mod replacing_block;
mod resizing;
mod retransmission;
mod rewriting;
mod rtcp;
mod rtp_packet;
mod rtp_packet_buf;
mod rtp_packet_mut;

pub use block_not_put::BlockNotPut;
pub use compacting::{compact, compact_copy};
pub use csrcs::Csrcs;
pub use fields::Fields;
pub use not_a_packet::NotAPacket;
pub use not_in_buffer::NotInBuffer;
pub use not_put::NotPut;
pub use not_retransmitted::NotRetransmitted;
pub use putting::{put_element, put_element_copy};
pub use retransmission::{
    OriginalFields, RetransmissionFields, from_retransmission, to_retransmission,
};
pub use rtcp::is_rtcp;
pub use rtp_packet::RtpPacket;
pub(crate) use rtp_packet::sources_end;
pub use rtp_packet_buf::RtpPacketBuf;
pub use rtp_packet_mut::RtpPacketMut;
