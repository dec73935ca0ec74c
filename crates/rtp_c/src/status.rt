//! What a call returns where it is refused.

ghost use Rattle.std.specs.Prelude.{◌≡◌};
ghost use Rattle.rtp_c.specs.Status.{cause_status, header_status};

use rtp_wire::{NotAHeader, NotAPacket};

/// The call did what it is for.
pub const OK: i32 = 0;
/// The datagram has fewer than the twelve bytes that every header has.
pub const CUT_FIXED_PART: i32 = 1;
/// The datagram's version is another than 2.
pub const OTHER_VERSION: i32 = 2;
/// The CSRC list is cut short.
pub const CUT_SOURCES: i32 = 3;
/// X is set, and the first four bytes of the block are cut short.
pub const CUT_BLOCK_HEADER: i32 = 4;
/// The block's form is neither 0xBEDE nor 0x1000 to 0x100F, where one of these is owed.
pub const UNKNOWN_FORM: i32 = 5;
/// The block is longer than what is left.
pub const CUT_BLOCK: i32 = 6;
/// A buffer is too short.
pub const SHORT_BUFFER: i32 = 8;
/// A value is one that no packet can carry.
pub const BAD_FIELD: i32 = 9;
/// A packet is a replay, or too old to tell.
pub const REFUSED: i32 = 10;
/// There is no such element.
pub const NONE: i32 = 11;
/// A packet is taken, as the first one after its sender has started again.
pub const RESTARTED: i32 = 12;
/// The id is 0, which no element has.
pub const BAD_ID: i32 = 13;
/// The block has, or the element needs, a form that isn't allowed.
pub const FORM_NOT_ALLOWED: i32 = 14;
/// The block would have more than 65,535 words.
pub const LONG_BLOCK: i32 = 15;
/// An id is above 14, which the one-byte form can't carry.
pub const LONG_ID: i32 = 16;
/// A datagram is RTCP.
pub const RTCP: i32 = 17;

// The status of this cause.
pub fn status_of(cause: NotAPacket) -> i32
    ensures { result ≡ cause_status cause }
{
    match cause {
        NotAPacket::CutFixedPart => CUT_FIXED_PART,
        NotAPacket::OtherVersion => OTHER_VERSION,
        NotAPacket::CutSources => CUT_SOURCES,
        NotAPacket::CutBlockHeader => CUT_BLOCK_HEADER,
        NotAPacket::CutBlock => CUT_BLOCK,
    }
}

// The status of this cause, where a packet was to be changed or found where it lies. It stays out of
// line, since few such buffers hold none, and a call on a packet then does nothing for it.
#[cold]
#[inline(never)]
pub fn refusal_status(cause: NotAPacket) -> i32
    ensures { result ≡ cause_status cause }
{
    status_of(cause)
}

// The status of this cause against a header.
pub fn header_status_of(cause: NotAHeader) -> i32
    ensures { result ≡ header_status cause }
{
    match cause {
        NotAHeader::NotAPacket(cause) => status_of(cause),
        NotAHeader::UnknownForm => UNKNOWN_FORM,
    }
}
