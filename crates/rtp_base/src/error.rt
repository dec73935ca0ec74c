//! The error of the layers above.

use thiserror::Error;

/// Why an RTP packet could not be handled. No function of this layer returns it: `RtpHeader::parse`
/// returns `None`, which the layers above report to their callers as this error.
#[derive(Clone, Copy, Debug, PartialEq, Eq, Error)]
pub enum RtpError {
    /// The bytes begin with no RTP header.
    #[error("Failed to parse RTP header")]
    ParseHeader,
}
