//! What a receiver reports of a source.

ghost use Rattle.std.specs.Prelude.{◌≡◌};
ghost use Rattle.rtp_receive.specs.Reception.{lost_word, block_bytes};

use rtp_base::Ssrc;

/// What a reception report block says of a source, but for its SSRC and the times of the last
/// sender report (RFC 3550, 6.4.1).
#[repr(C)]
#[derive(Clone, Copy, Debug, PartialEq, Eq)]
pub struct ReceptionReport {
    /// The fraction of the packets expected since the last report that is lost, in 256ths, rounded
    /// down: 64 where a quarter is. 0 where the loss is negative, since there were duplicates.
    pub fraction_lost: u8,
    /// The packets expected less those received, since the first one: from -8,388,608 to 8,388,607,
    /// and one of these two where it is beyond them.
    pub cumulative_lost: i32,
    /// The low 16 bits are the highest sequence number received, and the high ones how often the
    /// sequence numbers rolled over since the first packet.
    pub extended_highest: u32,
    /// The interarrival jitter, in ticks of the timestamp's clock.
    pub jitter: u32,
}

impl ReceptionReport {
    /// The 24 bytes of the report block on this source (RFC 3550, 6.4.1). The times are LSR, the
    /// middle 32 bits of the NTP time of the last sender report, and DLSR, the delay since it came,
    /// in units of 1/65,536 s: both 0 where none came yet. A count of lost packets that 24 bits
    /// can't carry is the nearest that they can.
    ///
    /// ```
    /// let report = ReceptionReport {
    ///     fraction_lost: 64,
    ///     cumulative_lost: -2,
    ///     extended_highest: 65_544,
    ///     jitter: 1,
    /// };
    /// let block = b"\0\0\0\x2C\x40\xFF\xFF\xFE\0\x01\0\x08\0\0\0\x01\x12\x34\x56\x78\0\x01\0\0";
    /// assert_eq!(&report.to_block(Ssrc::from(44), 0x1234_5678, 65_536), block);
    /// ```
    pub fn to_block(&self, source: Ssrc, last_report: u32, delay: u32) -> [u8; 24]
        ensures { result ≡ block_bytes source self.now last_report delay }
    {
        let [s0, s1, s2, s3] = source.get().to_be_bytes();
        let [f0, f1, f2, f3] = self.lost_word().to_be_bytes();
        let [h0, h1, h2, h3] = self.extended_highest.to_be_bytes();
        let [j0, j1, j2, j3] = self.jitter.to_be_bytes();
        let [l0, l1, l2, l3] = last_report.to_be_bytes();
        let [d0, d1, d2, d3] = delay.to_be_bytes();
        [
            s0, s1, s2, s3, f0, f1, f2, f3, h0, h1, h2, h3, j0, j1, j2, j3, l0, l1, l2, l3, d0, d1,
            d2, d3,
        ]
    }

    // The block's second word: the fraction lost and, in 24 bits, the packets lost.
    fn lost_word(&self) -> u32
        ensures { result ≡ lost_word self.now }
    {
        let lost = self.cumulative_lost.clamp(-0x80_0000, 0x7F_FFFF);
        u32::from(self.fraction_lost) * 0x100_0000 + lost.cast_unsigned() % 0x100_0000
    }
}
