//! Transport-wide sequence number with a request for feedback (`transport-wide-cc-02`).

ghost use Rattle.std.specs.Prelude.{◌≡◌, ◌⊎◌, ◌≤◌, length};
ghost use Rattle.rtp_c.specs.StandardData.{TellsValue, WritesData};
ghost use Rattle.rtp_c.specs.StandardTransport.{IsToldRequest, request_bits, AreTransportData};

use super::putting::put_data;
use crate::status::{BAD_FIELD, OK};

/// The packet's number on its transport, and what feedback it asks for: `rtpw_transport_number` in
/// C, 6 bytes.
#[repr(C)]
#[derive(Clone, Copy)]
pub struct TransportView {
    /// The packet's number, over all streams of the transport.
    pub number: u16,
    /// For how many packets the feedback is to be, 0 to 32,767; 0 asks for none, and is read where
    /// there is no request.
    pub packets: u16,
    /// Whether there is a request: 0 or 1.
    pub has_request: u8,
    /// Whether the feedback is to have the times at which the packets arrived: 0 or 1.
    pub timestamps: u8,
}

// The bit of a request that asks for times, above those that count its packets.
const TIMESTAMPS: u16 = 0x8000;

/// Reads a transport-wide number and its request (`transport-wide-cc-02`): there is one where there
/// are four bytes. `OK`, or `BAD_FIELD` where there are neither two bytes nor four, and then
/// nothing is written.
#[unsafe(no_mangle)]
pub extern "C" fn rtpw_read_transport_number(bytes: &[u8], number: &mut TransportView) -> i32
    ensures { TellsValue (λ told. AreTransportData told bytes.now × IsToldRequest told)
        ((length bytes.now ≡ 2) ⊎ (length bytes.now ≡ 4)) number.old number.new result }
{
    let mut read = TransportView {
        number: 0,
        packets: 0,
        has_request: 0,
        timestamps: 0,
    };
    match *bytes {
        [a, b] => read.number = u16::from_be_bytes([a, b]),
        [a, b, c, d] => {
            let request = u16::from_be_bytes([c, d]);
            read.number = u16::from_be_bytes([a, b]);
            read.packets = request % TIMESTAMPS;
            read.has_request = 1;
            read.timestamps = (request / TIMESTAMPS) as u8;
        }
        _ => return BAD_FIELD,
    }
    *number = read;
    OK
}

// The 16 bits of a request.
fn request_bits(number: &TransportView) -> u16
    requires { number.now.packets ≤ 32767 }
    ensures { result ≡ request_bits number.now }
{
    if number.timestamps == 0 {
        number.packets
    } else {
        TIMESTAMPS + number.packets
    }
}

/// Writes a transport-wide number and its request to the front of the buffer
/// (`transport-wide-cc-02`). `OK`, and how many bytes it has is written too: two, or four with a
/// request. `BAD_FIELD` where the request is for more than 32,767 packets; `SHORT_BUFFER` where
/// only the room is short. Where it isn't `OK` nothing is written.
#[unsafe(no_mangle)]
pub extern "C" fn rtpw_write_transport_number(
    number: &TransportView,
    buf: &mut [u8],
    len: &mut usize,
) -> i32
    ensures { WritesData (AreTransportData number.now) buf.old buf.new len.old len.new result }
{
    let [a, b] = number.number.to_be_bytes();
    if number.has_request == 0 {
        return put_data(&[a, b], buf, len);
    }
    if number.packets >= TIMESTAMPS {
        return BAD_FIELD;
    }
    let [c, d] = request_bits(number).to_be_bytes();
    put_data(&[a, b, c, d], buf, len)
}
