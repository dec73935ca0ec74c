//! Statistics of the packets that came from a source, and what is reported of them.

ghost use Rattle.std.specs.Prelude.{◌≡◌, ◌+◌, ◌-◌, ◌*◌, ◌/◌, ◌^◌, ◌<◌, ◌≤◌, ◌↔◌, List, [], ◌∷◌, length, None, IfSome, pos, ◌-ℤ◌};
ghost use Rattle.rtp_receive.specs.Reception.{ReceivedPacket, IsFractionLost, in_24_bits, extended_from, difference, IsReportOn};
ghost use Rattle.rtp_receive.specs.ReceptionState.{AreOf};

use super::reception_report::ReceptionReport;
use rtp_base::SeqNo;

/// Statistics of the packets that came from one source, by which a receiver reports what it got
/// (RFC 3550, 6.4.1, A.3 and A.8).
///
/// Record each packet of the source, those that are late and duplicates too: they count as
/// received, so that the loss may be negative. The extended sequence number of a packet is that of
/// [`StreamReceiver::number_of`](crate::StreamReceiver::number_of), whether the receiver then takes
/// it or refuses it. With SRTP a packet is recorded once it is known to be authentic.
///
/// A packet that a [`RestartingStreamReceiver`](crate::RestartingStreamReceiver) refuses since it
/// is outside of the stream isn't recorded: the receiver's row has at least one packet then, and
/// else none. Where the sender starts again, new statistics begin with the first packet of the new
/// epoch.
///
/// Packets are expected from the first one's number on, even where one with a lower number comes
/// later. A count of packets that is past 64 bits stays at 2^64 - 1.
///
/// Any values of the fields are safe. Those of `new` have recorded nothing yet; others that
/// `record` and `report` don't leave make reports that mean nothing.
///
/// ```
/// let mut statistics = ReceptionStatistics::new();
/// statistics.record(SeqNo::from(65_541), 0, 1000);
/// statistics.record(SeqNo::from(65_542), 3000, 4016);
/// statistics.record(SeqNo::from(65_544), 9000, 10_000);
/// let report = ReceptionReport {
///     fraction_lost: 64,
///     cumulative_lost: 1,
///     extended_highest: 8,
///     jitter: 1,
/// };
/// assert_eq!(statistics.report(), Some(report));
/// assert_eq!(statistics.report(), None);
/// ```
#[repr(C)]
#[derive(Clone, Copy, Debug, PartialEq, Eq)]
pub struct ReceptionStatistics {
    /// The extended sequence number of the first packet.
    pub first: u64,
    /// The highest extended sequence number of a packet.
    pub highest: u64,
    /// How many packets came; 0 where none did yet.
    pub received: u64,
    /// How many packets had come at the last report.
    pub received_before: u64,
    /// How many packets were expected at the last report.
    pub expected_before: u64,
    /// Sixteen times the jitter, which is in ticks of the timestamp's clock.
    pub scaled_jitter: u64,
    /// The time of arrival less the timestamp of the packet that came last, modulo 2^32.
    pub transit: u32,
}

impl Default for ReceptionStatistics {
    ghost use Rattle.std.specs.Prelude.{[]};
    ghost use Rattle.rtp_receive.specs.ReceptionState.{AreOf};

    ghost is_default = { AreOf [] [] };

    /// Statistics of no packets.
    fn default() -> Self {
        Self::new()
    }
}

impl ReceptionStatistics {
    /// Statistics of no packets: all fields are 0.
    pub fn new() -> Self
        ensures nothing { AreOf [] [] result }
        ensures zeros { result ≡ record {
          first = 0;
          highest = 0;
          received = 0;
          received_before = 0;
          expected_before = 0;
          scaled_jitter = 0;
          transit = 0;
        } }
    {
        ReceptionStatistics {
            first: 0,
            highest: 0,
            received: 0,
            received_before: 0,
            expected_before: 0,
            scaled_jitter: 0,
            transit: 0,
        }
    }

    /// Records a packet that came, by its extended sequence number, its RTP timestamp and the time
    /// of its arrival: in ticks of the timestamp's clock, from any moment on, modulo 2^32.
    pub fn record(&mut self, number: SeqNo, timestamp: u32, arrival: u32)
        ensures { (packets reported : List ReceivedPacket) → AreOf packets reported self.old →
            AreOf (record { number = number; timestamp = timestamp; arrival = arrival } ∷ packets)
            reported self.new }
    {
        let transit = arrival.wrapping_sub(timestamp);
        if self.received == 0 {
            self.first = number.get();
            self.highest = number.get();
        } else {
            self.highest = self.highest.max(number.get());
            self.scaled_jitter = smoothed(self.scaled_jitter, apart(self.transit, transit));
        }
        self.transit = transit;
        self.received = self.received.saturating_add(1);
    }

    /// Reports on the packets that were recorded, and begins the interval of the next report.
    /// `None` where none was counted since the last report, since no report on the source is owed
    /// then (6.4); nothing changes. Once a report was made on 2^64 - 1 packets or more, the count
    /// doesn't rise, and it is always `None`.
    pub fn report(&mut self) -> Option<ReceptionReport>
        ensures report { (packets reported : List ReceivedPacket) →
            AreOf packets reported self.old →
            IfSome result (λ report. IsReportOn packets reported report) }
        ensures after { (packets reported : List ReceivedPacket) →
            AreOf packets reported self.old →
            IfSome result (λ report. AreOf packets packets self.new) }

        // `received` is how many came, and `received_before` how many by the last report.
        ensures none { (result ≡ None) ↔ (self.old.received ≡ self.old.received_before) }
        ensures unchanged { result ≡ None → self.new ≡ self.old }

        // Where 2^64 - 1 were counted by the last report, no later one adds to the count.
        ensures ended { (packets reported : List ReceivedPacket) →
            AreOf packets reported self.old → 2 ^ 64 - 1 ≤ length reported → result ≡ None }
    {
        if self.received == self.received_before {
            return None;
        }
        let expected = self.highest.wrapping_sub(self.first).saturating_add(1);
        let report = ReceptionReport {
            fraction_lost: fraction_lost(
                expected.wrapping_sub(self.expected_before),
                self.received.wrapping_sub(self.received_before),
            ),
            cumulative_lost: cumulative_lost(expected, self.received),
            extended_highest: extended_highest(self.first, self.highest),
            jitter: (self.scaled_jitter / 16).min(u64::from(u32::MAX)) as u32,
        };
        self.received_before = self.received;
        self.expected_before = expected;
        Some(report)
    }
}

// By how much two transit times differ, modulo 2^32.
fn apart(one: u32, other: u32) -> u32
    ensures { result ≡ difference one other }
{
    one.wrapping_sub(other).min(other.wrapping_sub(one))
}

// Sixteen times the jitter, after a difference in transit time.
fn smoothed(scaled: u64, difference: u32) -> u64
    ensures { scaled + 8 < 2 ^ 64 → result ≡ scaled + difference - (scaled + 8) / 16 }
{
    scaled - scaled.saturating_add(8) / 16 + u64::from(difference)
}

// A part in 256ths of the whole, rounded down. Precondition: the part is less. The bits are found
// by halving, since a division of 128 bits would be a call into the compiler's library.
fn in_256ths(part: u64, whole: u64) -> u8
    requires { part < whole }
    ensures { result ≡ 256 * part / whole }
{
    let scaled = u128::from(part) * 256;
    let mut found = 0u16;
    let mut above = 256u16;
    while above - found > 1 {
        let middle = (found + above) / 2;
        if u128::from(middle) * u128::from(whole) <= scaled {
            found = middle;
        } else {
            above = middle;
        }
    }
    found as u8
}

// The fraction that is lost, in 256ths. Precondition: a packet was received.
fn fraction_lost(expected: u64, received: u64) -> u8
    requires { 0 < received }
    ensures { IsFractionLost expected received result }
{
    let lost = expected.saturating_sub(received);
    if lost == 0 {
        return 0;
    }
    in_256ths(lost, expected)
}

// The highest number in 32 bits, with the rollover count of the first one as 0.
fn extended_highest(first: u64, highest: u64) -> u32
    ensures { first ≤ highest → result ≡ extended_from first highest }
{
    (highest.wrapping_sub(first / 65_536 * 65_536) % (1 << 32)) as u32
}

// The packets that are lost, as 24 signed bits can carry them.
fn cumulative_lost(expected: u64, received: u64) -> i32
    ensures { result ≡ in_24_bits (pos expected -ℤ pos received) }
{
    if received <= expected {
        (expected - received).min(0x7F_FFFF) as i32
    } else {
        -((received - expected).min(0x80_0000) as i32)
    }
}
