//! Equality.

ghost use Rattle.std.specs.Prelude.{◌≡◌, ◌↔◌, IsTrue};
ghost use Rattle.rtp_uses.specs.Equality.{AreSameValues, AreSameHeaders};

use rtp_base::{
    Direction, Frequency, Mid, MidRid, Pt, Rid, SeqNo, SessionId, Ssrc, TwccClusterId, TwccSeq,
};
use rtp_listing::{InputError, RunEnd};
use rtp_wire::vla::VideoLayersAllocation;
use rtp_wire::{
    AbsCaptureTime, Extension, ExtensionValues, ExtensionsForm, RtpHeader, Verdict,
    VideoOrientation, VideoTiming,
};

/// Sources are equal exactly when their numbers are.
pub fn is_same_ssrc(a: Ssrc, b: Ssrc) -> bool
    ensures { IsTrue result ↔ (a ≡ b) }
{
    a == b
}

/// Payload types are equal exactly when their numbers are.
pub fn is_same_pt(a: Pt, b: Pt) -> bool
    ensures { IsTrue result ↔ (a ≡ b) }
{
    a == b
}

/// Session identifiers are equal exactly when their numbers are.
pub fn is_same_session_id(a: SessionId, b: SessionId) -> bool
    ensures { IsTrue result ↔ (a ≡ b) }
{
    a == b
}

/// Extended sequence numbers are equal exactly when all 64 bits are.
pub fn is_same_seq_no(a: SeqNo, b: SeqNo) -> bool
    ensures { IsTrue result ↔ (a ≡ b) }
{
    a == b
}

/// Transport-wide sequence numbers are equal exactly when all 64 bits are.
pub fn is_same_twcc_seq(a: TwccSeq, b: TwccSeq) -> bool
    ensures { IsTrue result ↔ (a ≡ b) }
{
    a == b
}

/// Clusters are equal exactly when their numbers are.
pub fn is_same_twcc_cluster_id(a: TwccClusterId, b: TwccClusterId) -> bool
    ensures { IsTrue result ↔ (a ≡ b) }
{
    a == b
}

/// Frequencies are equal exactly when their hertz are.
pub fn is_same_frequency(a: Frequency, b: Frequency) -> bool
    ensures { IsTrue result ↔ (a ≡ b) }
{
    a == b
}

/// Each direction equals itself alone.
pub fn is_same_direction(a: Direction, b: Direction) -> bool
    ensures { IsTrue result ↔ (a ≡ b) }
{
    a == b
}

/// Media sections are equal exactly when all 16 bytes are.
pub fn is_same_mid(a: Mid, b: Mid) -> bool
    ensures { IsTrue result ↔ (a ≡ b) }
{
    a == b
}

/// Streams are equal exactly when all eight bytes are.
pub fn is_same_rid(a: Rid, b: Rid) -> bool
    ensures { IsTrue result ↔ (a ≡ b) }
{
    a == b
}

/// A section and a stream equal another exactly when both parts are equal.
pub fn is_same_mid_rid(a: MidRid, b: MidRid) -> bool
    ensures { IsTrue result ↔ (a ≡ b) }
{
    a == b
}

/// Each form of a block equals itself alone.
pub fn is_same_form(a: ExtensionsForm, b: ExtensionsForm) -> bool
    ensures { IsTrue result ↔ (a ≡ b) }
{
    a == b
}

/// Each known extension equals itself alone, and unknown ones are equal exactly when their URIs
/// are.
pub fn is_same_extension(a: &Extension, b: &Extension) -> bool
    ensures { IsTrue result ↔ (a.now ≡ b.now) }
{
    a == b
}

/// Each orientation equals itself alone.
pub fn is_same_orientation(a: VideoOrientation, b: VideoOrientation) -> bool
    ensures { IsTrue result ↔ (a ≡ b) }
{
    a == b
}

/// Timings are equal exactly when the flags and all four times are.
pub fn is_same_timing(a: VideoTiming, b: VideoTiming) -> bool
    ensures { IsTrue result ↔ (a ≡ b) }
{
    a == b
}

/// Capture times are equal exactly when the times and the clock offsets are.
pub fn is_same_capture_time(a: AbsCaptureTime, b: AbsCaptureTime) -> bool
    ensures { IsTrue result ↔ (a ≡ b) }
{
    a == b
}

/// Verdicts are equal exactly when they are of one kind, with the same number where it is taken.
pub fn is_same_verdict(left: Verdict, right: Verdict) -> bool
    ensures { IsTrue result ↔ (left ≡ right) }
{
    left == right
}

/// Each end of a run equals itself alone.
pub fn is_same_end(a: RunEnd, b: RunEnd) -> bool
    ensures { IsTrue result ↔ (a ≡ b) }
{
    a == b
}

/// Errors of the input are equal exactly when both are of memory, or name the same line.
pub fn is_same_input_error(a: InputError, b: InputError) -> bool
    ensures { IsTrue result ↔ (a ≡ b) }
{
    a == b
}

/// Allocations are equal exactly when the index and all streams, layers, rates and resolutions are.
pub fn is_same_allocation(a: &VideoLayersAllocation, b: &VideoLayersAllocation) -> bool
    ensures { IsTrue result ↔ (a.now ≡ b.now) }
{
    a == b
}

/// Values are equal exactly when each field is; playout delays are compared as fractions.
pub fn is_same_values(a: &ExtensionValues, b: &ExtensionValues) -> bool
    ensures { IsTrue result ↔ AreSameValues a.now b.now }
{
    a == b
}

/// Headers are equal exactly when each field is, and the values of their extensions are.
pub fn is_same_header(a: &RtpHeader, b: &RtpHeader) -> bool
    ensures { IsTrue result ↔ AreSameHeaders a.now b.now }
{
    a == b
}
