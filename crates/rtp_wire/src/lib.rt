//! RTP packet headers: from bytes to a header and back (RFC 3550, 5.1; RFC 8285), and the numbers
//! of the packets that a stream brings.
#![tactic(auto)]

mod header;
mod packet;
mod payload;
mod run;

pub use header::{
    FixedFields, GetFields, NotAHeader, RtpHeader, fixed_bytes, try_write_values, values_left_out,
    values_wire_len, write_with,
};
pub use packet::{
    BlockNotPut, Csrcs, Fields, NotAPacket, NotInBuffer, NotPut, NotRetransmitted, OriginalFields,
    RetransmissionFields, RtpPacket, RtpPacketBuf, RtpPacketMut, compact, compact_copy,
    from_retransmission, is_rtcp, put_element, put_element_copy, to_retransmission,
};
pub use payload::{
    MAX_BLANK_PADDING_PAYLOAD_SIZE, create_padding_packet, read_original_sequence_number,
    try_create_padding_packet, unpad_payload, write_original_sequence_number,
};
pub use rtp_ext::{
    AbsCaptureTime, CarriedLayers, ElementList, ElementValues, Elements, Extension, ExtensionMap,
    ExtensionValues, ExtensionsForm, Iter, IterByMediaType, KindSet, Kinds, KnownKind, MAX_ID,
    MAX_ID_ONE_BYTE_FORM, NewIds, Uri, ValueKinds, VideoOrientation, VideoTiming, WithLayers,
    standard, write_elements,
};
pub use rtp_receive::{
    NarrowRestartingReceiver, Receiver, Receivers, ReceptionReport, ReceptionStatistics,
    ReplayWindow, RestartingBounds, RestartingReceiver, RestartingRow, RestartingStreamReceiver,
    RestartingVerdict, Standing, StreamReceiver, Verdict, WideReceiver, extend_u7, extend_u8,
    extend_u15, extend_u16, extend_u32,
};
pub use rtp_vla::vla;
pub use run::{receive_run, receive_run_one};
