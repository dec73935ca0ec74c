//! The lines that are printed, put behind the text that a buffer begins with, as in `text`.

ghost use Rattle.std.specs.Prelude.{◌≡◌, ◌+◌, ◌*◌, ◌≤◌, ◌++◌, length, take};
ghost use Rattle.std.specs.Option.{option_copied};
ghost use Rattle.rtp_listing.specs.Listing.{stream_text, shape_text, values_text, header_line, verdict_line};
ghost use Rattle.rtp_listing.specs.Output.{packet_lines};

use super::text::{FIELD, put_bytes, put_field, put_value};
use rtp_wire::{ExtensionValues, RtpHeader, Verdict};

// Puts payload type, sequence number, timestamp and SSRC.
fn put_stream(text: &mut [u8], at: usize, header: &RtpHeader) -> usize
    requires { at + 4 * FIELD ≤ length text.old }
    ensures end { result ≤ at + 4 * FIELD }
    ensures written { take result text.new ≡ take at text.old ++ stream_text header.now }
{
    let end = put_field(text, at, b"pt ", header.payload_type.get() as u64);
    let end = put_field(text, end, b" seq ", header.sequence_number);
    let end = put_field(text, end, b" ts ", header.timestamp as u64);
    put_field(text, end, b" ssrc ", header.ssrc.get() as u64)
}

// Puts the flags M, P and X, the number of CSRCs and the length of the header in bytes.
fn put_shape(text: &mut [u8], at: usize, header: &RtpHeader) -> usize
    requires { at + 5 * FIELD ≤ length text.old }
    ensures end { result ≤ at + 5 * FIELD }
    ensures written { take result text.new ≡ take at text.old ++ shape_text header.now }
{
    let end = put_field(text, at, b" marker ", header.marker);
    let end = put_field(text, end, b" padding ", header.has_padding);
    let end = put_field(text, end, b" extension ", header.has_extension);
    let end = put_field(text, end, b" csrc ", header.csrc_count as u64);
    put_field(text, end, b" header ", header.header_len as u64)
}

// Puts the values of the extensions that are there.
fn put_values(text: &mut [u8], at: usize, values: &ExtensionValues) -> usize
    requires { at + 7 * FIELD ≤ length text.old }
    ensures end { result ≤ at + 7 * FIELD }
    ensures written { take result text.new ≡ take at text.old ++ values_text values.now }
{
    let end = put_value(text, at, b" mid ", values.mid);
    let end = put_value(text, end, b" rid ", values.rid);
    let end = put_value(text, end, b" repaired ", values.rid_repair);
    let end = put_value(text, end, b" level ", values.audio_level);
    let end = put_value(text, end, b" voice ", values.voice_activity);
    let end = put_value(text, end, b" send ", values.abs_send_time);
    put_value(text, end, b" transport ", values.transport_cc)
}

// Puts the line of the header of the datagram of this number with the values of its extensions, or
// that it has none.
fn put_header_line(text: &mut [u8], at: usize, packet: u64, header: Option<&RtpHeader>) -> usize
    requires { at + 18 * FIELD ≤ length text.old }
    ensures end { result ≤ at + 18 * FIELD }
    ensures written { take result text.new
        ≡ take at text.old ++ header_line packet (option_copied header.entry) }
{
    let end = put_field(text, at, b"packet ", packet);
    match header {
        None => put_bytes(text, end, b": unreadable"),
        Some(header) => {
            let end = put_bytes(text, end, b": ");
            let end = put_stream(text, end, header);
            let end = put_shape(text, end, header);
            put_values(text, end, &header.ext_vals)
        }
    }
}

// Puts the line of a receiver's verdict on the datagram of this number.
fn put_verdict_line(text: &mut [u8], at: usize, packet: u64, verdict: Verdict) -> usize
    requires { at + 3 * FIELD ≤ length text.old }
    ensures end { result ≤ at + 3 * FIELD }
    ensures written { take result text.new ≡ take at text.old ++ verdict_line packet verdict }
{
    let end = put_field(text, at, b"verdict ", packet);
    let end = put_bytes(text, end, b": ");
    match verdict {
        Verdict::Taken(number) => put_field(text, end, b"taken ", number.get()),
        Verdict::Refused => put_bytes(text, end, b"refused"),
        Verdict::Unreadable => put_bytes(text, end, b"unreadable"),
    }
}

/// Puts the two lines of the datagram of this number. Requires room for 22 fields.
pub(super) fn put_lines(
    text: &mut [u8],
    at: usize,
    packet: u64,
    header: Option<&RtpHeader>,
    verdict: Verdict,
) -> usize
    requires { at + 22 * FIELD ≤ length text.old }
    ensures end { result ≤ at + 22 * FIELD }
    ensures written { take result text.new
        ≡ take at text.old ++ packet_lines packet (option_copied header.entry) verdict }
{
    let end = put_header_line(text, at, packet, header);
    let end = put_bytes(text, end, b"\n");
    let end = put_verdict_line(text, end, packet, verdict);
    put_bytes(text, end, b"\n")
}
