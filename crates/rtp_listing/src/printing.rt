//! The two lines of each datagram, written to the output.

ghost use Rattle.std.specs.Prelude.{◌≡◌, ◌+◌, ◌++◌, List, ℕ, IsOk, IfOk, IfErr, OnOk, OnErr};
ghost use Rattle.std.specs.Str.Lines.{lines};
ghost use Rattle.std.specs.Io.KnownBytes.{Appends};
ghost use Rattle.hex.specs.Hex.{decode_of};
ghost use Rattle.std.specs.Option.{option_map};
ghost use Rattle.rtp_base.specs.Window.{Numbers};
ghost use Rattle.rtp_receive.specs.Verdicts.{IsVerdict};
ghost use Rattle.rtp_wire.specs.PacketIds.{packet_id_of};
ghost use Rattle.rtp_receive.specs.Sources.{numbers_beside};
ghost use Rattle.rtp_receive.specs.EachSource.{HoldsEach, taken_after_each};
ghost use Rattle.rtp_listing.specs.Input.{AreHex};
ghost use Rattle.rtp_listing.specs.Front.{IsHexText};
ghost use Rattle.rtp_listing.specs.Output.{IsHeader, IsListing, Prints};
ghost use Rattle.rtp_listing.specs.Stopping.{IsPartialListing, read_header};

use super::header_bytes::decode_header;
use super::input::Input;
use super::line::first_line;
use super::listing::put_lines;
use super::program::RunEnd;
use rtp_wire::{ExtensionMap, Receivers, RtpHeader, Verdict};
use std::alloc::{AllocError, Global};
use std::io::{ErrorKind, Write};

// How many bytes are gathered before they are written.
const WRITTEN_AT_ONCE: usize = 8192;

// Reads the header that the datagram of this line begins with into the one that is given, and
// returns whether it begins with one, and the verdict on it. The bytes of the header are put into
// the buffer, whatever that held. Requires that the line is hexadecimal.
fn judged(
    alloc: Global,
    line: &[u8],
    datagram: &mut Vec<u8>,
    exts: &ExtensionMap,
    header: &mut RtpHeader,
    receivers: &mut Receivers,
) -> Result<(bool, Verdict), AllocError>
    requires { IsOk (decode_of line.now) }
    ensures header { (bytes : List ℕ) → decode_of line.now ≡ Ok bytes →
        IfOk result (λ listing. IsHeader exts.now bytes (read_header listing.0 header.new)) }
    ensures verdict { (taken : ℕ → Numbers) → HoldsEach receivers.old 0 taken →
        IfOk result (λ listing. IsVerdict 0
        (numbers_beside taken (option_map packet_id_of (read_header listing.0 header.new)))
        (option_map packet_id_of (read_header listing.0 header.new)) listing.1) }
    ensures after { (taken : ℕ → Numbers) → HoldsEach receivers.old 0 taken →
        IfOk result (λ listing. HoldsEach receivers.new 0 (taken_after_each taken
        (option_map packet_id_of (read_header listing.0 header.new)) listing.1)) }
{
    let len = decode_header(line, datagram)?;
    let found = header.parse_into(alloc, &datagram[..len], exts)?;
    let verdict = if found {
        receivers.receive(header.ssrc, header.sequence_number)?
    } else {
        Verdict::Unreadable
    };
    Ok((found, verdict))
}

/// Writes all of the text, also where a write takes only a part of it or is interrupted. Returns
/// `Io` when a write fails, with a beginning of the text written.
pub(super) fn write_text<W: Write>(output: &mut W, text: &[u8]) -> Result<(), RunEnd>
    ensures ok { OnOk result (Appends (W.contents output.old) (W.contents output.new) text.now) }
    ensures err { IfErr result (λ end. end ≡ RunEnd.Io) }
    ensures beginning { OnErr result (Prints (W.contents output.old) (W.contents output.new)
        (λ printed. (rest : List ℕ) × (text.now ≡ printed ++ rest))) }
{
    let mut rest = text;
    // The label names the loop for its proof.
    'turns: for _ in 0..u64::MAX {
        if rest.is_empty() {
            return Ok(());
        }
        match output.write(rest) {
            Ok(0) => return Err(RunEnd::Io),
            Ok(written) => rest = &rest[written..],
            Err(error) if error.kind() == ErrorKind::Interrupted => {}
            Err(_) => return Err(RunEnd::Io),
        }
    }
    Err(RunEnd::Io)
}

/// Prints the two lines of each datagram in order: its RTP header, and the verdict of the receiver
/// of its SSRC. Requires that the lines of the datagrams are hexadecimal.
pub(super) fn print_all<W: Write>(
    alloc: Global,
    input: &Input<'_>,
    output: &mut W,
) -> Result<(), RunEnd>
    requires { IsHexText input.now.datagrams.now }
    ensures ok { (datagrams : List (List ℕ)) → AreHex (lines input.now.datagrams.now) datagrams →
        OnOk result (Prints (W.contents output.old) (W.contents output.new)
        (IsListing input.now.exts datagrams)) }
    ensures err { (datagrams : List (List ℕ)) → AreHex (lines input.now.datagrams.now) datagrams →
        IfErr result (λ end. Prints (W.contents output.old) (W.contents output.new)
        (IsPartialListing input.now.exts datagrams end)) }
{
    let mut receivers = Receivers::new(alloc);
    let mut bytes = Vec::new(alloc);
    let mut header = RtpHeader::default();
    let mut buffer = vec![in alloc; 0u8; 2 * WRITTEN_AT_ONCE]?;
    let text = buffer.as_mut_slice();
    let mut len = 0;
    let mut rest = input.datagrams;
    let mut packet = 0u64;
    while !rest.is_empty() {
        let (line, after) = first_line(rest);
        let exts = &input.exts;
        let read = judged(alloc, line, &mut bytes, exts, &mut header, &mut receivers);
        let Ok((found, verdict)) = read else {
            write_text(output, &text[..len])?;
            return Err(RunEnd::NoMemory);
        };
        rest = after;
        packet += 1;
        len = put_lines(text, len, packet, found.then_some(&header), verdict);
        if len >= WRITTEN_AT_ONCE {
            write_text(output, &text[..len])?;
            len = 0;
        }
    }
    let last = &text[..len];
    write_text(output, last)?;
    match output.flush() {
        Ok(()) => Ok(()),
        Err(_) => Err(RunEnd::Io),
    }
}
