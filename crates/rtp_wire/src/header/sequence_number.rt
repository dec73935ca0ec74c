//! The extended sequence number of a header's packet.

ghost use Rattle.std.specs.Prelude.{◌≡◌, ℕ};
ghost use Rattle.rtp_receive.specs.Widening.{Extends};

use super::RtpHeader;
use rtp_base::SeqNo;
use rtp_receive::extend_u16;

impl RtpHeader {
    /// The extended sequence number of the packet: the 16 bits of the header, extended by
    /// [`extend_u16`] after the previous number.
    pub fn sequence_number(&self, previous: Option<SeqNo>) -> SeqNo
        ensures near { Extends 16 previous self.now.sequence_number result }
        ensures only { (n : ℕ) → Extends 16 previous self.now.sequence_number n → result ≡ n }
    {
        let previous = previous.map(|number| number.get());
        SeqNo::from(extend_u16(previous, self.sequence_number))
    }
}
