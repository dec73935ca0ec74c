//! Identifiers of media sections, streams, payloads and packets.

mod mid;
mod mid_rid;
mod pt;
mod rid;
mod seq_no;
mod session_id;
mod ssrc;
mod text;
mod twcc_cluster_id;
mod twcc_seq;
mod wide;

pub use mid::Mid;
pub use mid_rid::MidRid;
pub use pt::Pt;
pub use rid::Rid;
pub use seq_no::SeqNo;
pub use session_id::SessionId;
pub use ssrc::Ssrc;
pub use twcc_cluster_id::TwccClusterId;
pub use twcc_seq::TwccSeq;
