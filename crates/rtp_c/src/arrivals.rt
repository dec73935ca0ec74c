//! Several sequence numbers, each taken in one of several receivers, in one call.

ghost use Rattle.rtp_c.specs.Arrivals.{IsReceived, AreReceived};

use super::receiver::{StoredReceiver, rtpw_receiver_receive};
use super::status::BAD_FIELD;

/// A sequence number for one of several receivers: `rtpw_arrival` in C, 24 bytes.
#[repr(C)]
#[derive(Clone, Copy)]
pub struct Arrival {
    /// Given: the place of its receiver in the receivers.
    pub receiver: usize,
    /// What [`rtpw_receiver_receive`] writes, the extended sequence number, and else as it was.
    pub number: u64,
    /// Given: the low 16 bits of the packet's number.
    pub sequence_number: u16,
    /// What [`rtpw_receiver_receive`] returns, and `BAD_FIELD` where there is no such receiver.
    pub status: i32,
}

// Takes the sequence number in the receiver at its place.
fn receive_arrival(receivers: &mut [StoredReceiver], arrival: &mut Arrival)
    ensures { IsReceived receivers.old arrival.old arrival.new receivers.new }
{
    let place = arrival.receiver;
    if place >= receivers.len() {
        arrival.status = BAD_FIELD;
        return;
    }
    arrival.status = rtpw_receiver_receive(
        &mut receivers[place],
        arrival.sequence_number,
        &mut arrival.number,
    );
}

/// Takes each of these sequence numbers in the receiver at its place as [`rtpw_receiver_receive`]
/// does, the first one first: each is judged by what its receiver has taken before, also in this
/// call. One that is refused, or has no receiver, stops none after it.
#[unsafe(no_mangle)]
pub extern "C" fn rtpw_receive_many(receivers: &mut [StoredReceiver], arrivals: &mut [Arrival])
    ensures { AreReceived receivers.old arrivals.old arrivals.new receivers.new }
{
    for arrival in arrivals {
        receive_arrival(receivers, arrival);
    }
}
