//! Transport-wide sequence number with a request for feedback (`transport-wide-cc-02`).

ghost use Rattle.std.specs.Prelude.{◌≡◌, ◌⊎◌, ◌≤◌, ◌<◌, Some, length, IfSome, IfNone};
ghost use Rattle.std.specs.Option.{SomeIff, option_map};
ghost use Rattle.rtp_base.specs.Overwriting.{overwritten};
ghost use Rattle.rtp_values.specs.StandardTransport.{transport_in, transport_data, request_in, request_bits};

use rtp_base::put;

/// The packet's number on its transport, and what feedback it asks for: the extension
/// `http://www.webrtc.org/experiments/rtp-hdrext/transport-wide-cc-02`.
#[derive(Clone, Copy, Debug, PartialEq, Eq)]
pub struct TransportNumber {
    /// The packet's number on its transport, over all streams.
    pub number: u16,
    /// The feedback that the sender asks for with this packet, if it does.
    pub request: Option<FeedbackRequest>,
}

/// A request for transport-wide feedback.
#[derive(Clone, Copy, Debug, PartialEq, Eq)]
pub struct FeedbackRequest {
    /// Whether the feedback is to have the times at which the packets arrived.
    pub timestamps: bool,
    /// For how many packets the feedback is to be, 0 to 32,767, of which this one is the last.
    pub packets: u16,
}

// The bit of a request that asks for times, above those that count its packets.
const TIMESTAMPS: u16 = 0x8000;

// The request in a number of 16 bits.
fn request_in(bits: u16) -> FeedbackRequest
    ensures { result ≡ request_in bits }
{
    FeedbackRequest {
        timestamps: bits >= TIMESTAMPS,
        packets: bits % TIMESTAMPS,
    }
}

impl FeedbackRequest {
    /// The 16 bits of the request, which stand behind the packet's number, and `None` exactly where
    /// it is for more than 32,767 packets.
    pub fn bits(self) -> Option<u16>
        ensures { SomeIff result (self.packets < 32768) (request_bits self) }
    {
        if self.packets >= TIMESTAMPS {
            return None;
        }
        Some(if self.timestamps {
            TIMESTAMPS + self.packets
        } else {
            self.packets
        })
    }
}

impl TransportNumber {
    /// Reads a transport-wide number. `Some` exactly when there are two bytes, or four with a
    /// request, which may be for 0 packets.
    ///
    /// ```
    /// let read = TransportNumber::parse(b"\x12\x34\x80\x05")?;
    /// assert_eq!(read.number, 0x1234);
    /// let request = read.request?;
    /// assert!(request.timestamps);
    /// assert_eq!(request.packets, 5);
    /// ```
    pub fn parse(bytes: &[u8]) -> Option<Self>
        ensures read { SomeIff result ((length bytes.now ≡ 2) ⊎ (length bytes.now ≡ 4)) (transport_in bytes.now) }
        ensures back { IfSome result (λ number. transport_data number ≡ Some bytes.now) }
    {
        let (number, request) = match *bytes {
            [a, b] => (u16::from_be_bytes([a, b]), None),
            [a, b, c, d] => (
                u16::from_be_bytes([a, b]),
                Some(request_in(u16::from_be_bytes([c, d]))),
            ),
            _ => return None,
        };
        Some(TransportNumber { number, request })
    }

    /// Writes the number to the front of the buffer and returns how many bytes it has: two, or four
    /// with a request. `None` exactly where the request is for more than 32,767 packets, and then
    /// nothing is written. The bytes after the data stay as they were. It requires room for four
    /// bytes.
    pub fn write_to(&self, buf: &mut [u8]) -> Option<usize>
        requires room { 4 ≤ length buf.old }
        ensures length { result ≡ option_map length (transport_data self.now) }
        ensures written { IfSome (transport_data self.now) (λ bytes. buf.new ≡ overwritten buf.old 0 bytes) }
        ensures unchanged { IfNone result (buf.new ≡ buf.old) }
        ensures back { IfSome (transport_data self.now) (λ bytes. transport_in bytes ≡ self.now) }
    {
        let [a, b] = self.number.to_be_bytes();
        let Some(request) = self.request else {
            return Some(put(buf, 0, &[a, b]));
        };
        let [c, d] = request.bits()?.to_be_bytes();
        Some(put(buf, 0, &[a, b, c, d]))
    }
}
