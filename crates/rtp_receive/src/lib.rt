//! The receiving side of RTP: extended sequence numbers, replay protection, and what a receiver
//! reports (RFC 3550, 6.4.1, A.1, A.3 and A.8; RFC 3711, 3.3.1 and 3.3.2). It takes numbers, and no
//! packets: `rtp_wire` reads these.
#![tactic(auto)]

mod epoch;
mod hints;
mod receiver;
mod receivers;
mod reception;
mod reception_report;
mod replay_window;
mod restarting;
mod restarting_bounds;
mod restarting_receiver;
mod restarting_verdict;
mod sources;
mod standing;
mod stream_receiver;
mod wide_receiver;
mod widening;

pub use epoch::RestartingRow;
pub use receiver::{Receiver, Verdict};
pub use receivers::Receivers;
pub use reception::ReceptionStatistics;
pub use reception_report::ReceptionReport;
pub use replay_window::ReplayWindow;
pub use restarting::{NarrowRestartingReceiver, RestartingStreamReceiver};
pub use restarting_bounds::RestartingBounds;
pub use restarting_receiver::RestartingReceiver;
pub use restarting_verdict::RestartingVerdict;
pub use standing::Standing;
pub use stream_receiver::StreamReceiver;
pub use wide_receiver::WideReceiver;
pub use widening::{extend_u7, extend_u8, extend_u15, extend_u16, extend_u32};
