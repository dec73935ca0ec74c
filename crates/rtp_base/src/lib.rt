//! The base of the RTP layer: identifiers, extended sequence numbers and the replay window,
//! directions, and media times; and how bytes are put into a buffer.
#![tactic(auto)]

mod buffer;
mod dir;
mod error;
mod id;
mod mtime;
mod ring;
mod seq_no_window;
mod wide_window;

pub use buffer::{fill_word, put, put_few, put_zeros};
pub use dir::Direction;
pub use error::RtpError;
pub use id::{Mid, MidRid, Pt, Rid, SeqNo, SessionId, Ssrc, TwccClusterId, TwccSeq};
pub use mtime::{Frequency, MediaTime, ParseFrequencyError};
pub use ring::{ring_accepts, ring_restore, ring_start, ring_start_after, ring_take};
pub use seq_no_window::SeqNoWindow;
pub use wide_window::WideWindow;
