//! What a receiver says of a packet of a sender that may start again.

use rtp_base::SeqNo;

/// What a [`RestartingReceiver`](crate::RestartingReceiver) says of a packet. The low 16 bits of a
/// number are those of the packet's header.
#[derive(Clone, Copy, Debug, PartialEq, Eq)]
pub enum RestartingVerdict {
    /// It has this extended sequence number, and is taken.
    Taken(SeqNo),
    /// The sender has started again, and the packet is taken as the first one of a new epoch, with
    /// this extended sequence number: what hangs on numbers begins anew.
    Restarted(SeqNo),
    /// It is a replay, or outside of the stream and not the last of a row of packets that begins an
    /// epoch.
    Refused,
}
