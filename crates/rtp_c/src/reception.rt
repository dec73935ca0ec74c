//! What a receiver reports of the packets that came from a source.

ghost use Rattle.std.specs.Prelude.{◌≡◌, ◌≢◌, ◌↔◌, ◌⊎◌, List, ◌∷◌};
ghost use Rattle.rtp_receive.specs.Reception.{ReceivedPacket, IsReportOn, block_bytes};
ghost use Rattle.rtp_receive.specs.ReceptionState.{AreOf};
ghost use Rattle.rtp_c.specs.Status.{ok, none};
ghost use Rattle.rtp_c.specs.StandardData.{PutsBytes};

use super::standard::put_data;
use super::status::{NONE, OK};
use rtp_base::{SeqNo, Ssrc};
use rtp_wire::{ReceptionReport, ReceptionStatistics};

/// Records a packet that came, by its extended sequence number, its RTP timestamp and the time of
/// its arrival: in ticks of the timestamp's clock, from any moment on, modulo 2^32.
#[unsafe(no_mangle)]
pub extern "C" fn rtpw_reception_record(
    reception: &mut ReceptionStatistics,
    number: u64,
    timestamp: u32,
    arrival: u32,
)
    ensures { (packets reported : List ReceivedPacket) → AreOf packets reported reception.old →
        AreOf (record { number = number; timestamp = timestamp; arrival = arrival } ∷ packets)
        reported reception.new }
{
    reception.record(SeqNo::from(number), timestamp, arrival);
}

/// Reports on the packets that were recorded, and begins the interval of the next report. `OK`, or
/// `NONE` where none was counted since the last report, as always once 2^64 - 1 were reported on:
/// then nothing is written.
#[unsafe(no_mangle)]
pub extern "C" fn rtpw_reception_report(
    reception: &mut ReceptionStatistics,
    report: &mut ReceptionReport,
) -> i32
    ensures report { (packets reported : List ReceivedPacket) →
        AreOf packets reported reception.old → result ≡ ok →
        IsReportOn packets reported report.new }
    ensures after { (packets reported : List ReceivedPacket) →
        AreOf packets reported reception.old → result ≡ ok → AreOf packets packets reception.new }
    ensures none { (result ≡ none) ↔ (reception.old.received ≡ reception.old.received_before) }
    ensures statuses { (result ≡ ok) ⊎ (result ≡ none) }
    ensures unchanged { result ≢ ok →
        (reception.new ≡ reception.old) × (report.new ≡ report.old) }
{
    let Some(made) = reception.report() else {
        return NONE;
    };
    *report = made;
    OK
}

/// Writes the 24 bytes of a report block to the front of the buffer, and that they are 24 (RFC
/// 3550, 6.4.1). `OK`, or `SHORT_BUFFER` where there are fewer, and then nothing is written.
#[unsafe(no_mangle)]
pub extern "C" fn rtpw_write_report(
    report: &ReceptionReport,
    ssrc: u32,
    last_report: u32,
    delay: u32,
    buf: &mut [u8],
    len: &mut usize,
) -> i32
    ensures { PutsBytes (block_bytes ssrc report.now last_report delay)
        buf.old buf.new len.old len.new result }
{
    put_data(
        &report.to_block(Ssrc::from(ssrc), last_report, delay),
        buf,
        len,
    )
}
