//! Constants and defaults, and the order of numbers and ids.

ghost use Rattle.std.specs.Prelude.{◌≡◌, ◌-◌, ◌^◌, ◌<◌, ◌≤◌, ◌↔◌, IsTrue};
ghost use Rattle.std.specs.Ordering.{nat_cmp};
ghost use Rattle.std.specs.Cmp.Lexicographic.{slice_cmp};

use rtp_base::{Mid, Pt, SeqNo, SessionId, Ssrc, TwccClusterId, TwccSeq};
use rtp_wire::{MAX_ID, MAX_ID_ONE_BYTE_FORM, vla};
use std::cmp::Ordering;

/// The greatest extended sequence number is 2^64 - 1.
pub fn greatest_seq_no() -> SeqNo
    ensures { result ≡ 2 ^ 64 - 1 }
{
    SeqNo::MAX
}

/// The default transport-wide sequence number is 0.
pub fn default_twcc_seq() -> TwccSeq
    ensures { result ≡ 0 }
{
    TwccSeq::default()
}

/// The default identifier of a cluster is 0.
pub fn default_twcc_cluster_id() -> TwccClusterId
    ensures { result ≡ 0 }
{
    TwccClusterId::default()
}

/// A map has room for the ids up to 255 (RFC 8285, 4.3).
pub fn greatest_id() -> u8
    ensures { result ≡ 255 }
{
    MAX_ID
}

/// The ids of the one-byte form are at most 14 (RFC 8285, 4.2).
pub fn greatest_id_of_one_byte_form() -> u8
    ensures { result ≡ 14 }
{
    MAX_ID_ONE_BYTE_FORM
}

/// Sources are ordered by their numbers.
pub fn is_less_ssrc(a: Ssrc, b: Ssrc) -> bool
    ensures { IsTrue result ↔ (a < b) }
{
    a < b
}

/// Payload types are ordered by their numbers.
pub fn is_less_pt(a: Pt, b: Pt) -> bool
    ensures { IsTrue result ↔ (a < b) }
{
    a < b
}

/// Session identifiers are ordered by their numbers.
pub fn is_less_session_id(a: SessionId, b: SessionId) -> bool
    ensures { IsTrue result ↔ (a < b) }
{
    a < b
}

/// Extended sequence numbers are ordered as numbers.
pub fn is_less_seq_no(a: SeqNo, b: SeqNo) -> bool
    ensures { IsTrue result ↔ (a < b) }
{
    a < b
}

/// Transport-wide sequence numbers are ordered as numbers.
pub fn is_less_twcc_seq(a: TwccSeq, b: TwccSeq) -> bool
    ensures { IsTrue result ↔ (a < b) }
{
    a < b
}

/// Media sections are ordered by their bytes.
pub fn order_of_mids(a: &Mid, b: &Mid) -> Ordering
    ensures { result ≡ slice_cmp nat_cmp a.now b.now }
{
    a.cmp(b)
}

/// A rate of 14 bits is written in at most two bytes, since no spelling of it is shorter than the
/// one that is written.
pub fn rate_len(value: u64, buf: &mut [u8; 9]) -> usize
    requires { value < 16384 }
    ensures { result ≤ 2 }
{
    vla::encode_leb_u63(value, buf)
}
