//! The numbers by which C names the kinds, and questions on many of them.

ghost use Rattle.std.specs.Prelude.{◌≡◌, ◌≢◌, ◌↔◌, ℕ, ◌<◌, ◌≤◌, length, slice_index, false, None, IsTrue, IfSome, IfNone};
ghost use Rattle.rtp_c.specs.KindNumbers.{kind_number, kind_numbered, IsNamed};
ghost use Rattle.rtp_c.specs.StoredMap.{IsFirstNumber};

use rtp_values::KnownKind;
use std::simd::prelude::*;

// The number of the kind that may have long data.
pub(super) const LAYERS: u8 = 15;

// The greatest number of a kind of which values are read and written.
const LAST_KNOWN: u8 = 15;

// The greatest number of a kind.
const LAST_NUMBER: u8 = 20;

// The least number of the caller's own.
const FIRST_OWN: u8 = 128;

// The known kinds in the order of their numbers.
pub(super) const KINDS: [KnownKind; 15] = [
    KnownKind::AbsoluteSendTime,
    KnownKind::AbsoluteCaptureTime,
    KnownKind::AudioLevel,
    KnownKind::TransmissionTimeOffset,
    KnownKind::VideoOrientation,
    KnownKind::TransportSequenceNumber,
    KnownKind::PlayoutDelay,
    KnownKind::VideoContentType,
    KnownKind::VideoTiming,
    KnownKind::RtpStreamId,
    KnownKind::RepairedRtpStreamId,
    KnownKind::RtpMid,
    KnownKind::FrameMarking,
    KnownKind::ColorSpace,
    KnownKind::VideoLayersAllocation,
];

// Whether the number is that of a kind or one of the caller's own.
#[inline(always)]
pub fn is_named(number: u8) -> bool
    ensures { IsTrue result ↔ IsNamed number }
{
    (1..=LAST_NUMBER).contains(&number) || number >= FIRST_OWN
}

// The known kind of this number.
#[inline(always)]
#[tactic(auto, unfolding(crate::specs::KindNumbers::kind_numbered))]
pub fn kind_numbered(number: u8) -> Option<KnownKind>
    ensures { result ≡ kind_numbered number }
{
    match number {
        1 => Some(KnownKind::AbsoluteSendTime),
        2 => Some(KnownKind::AbsoluteCaptureTime),
        3 => Some(KnownKind::AudioLevel),
        4 => Some(KnownKind::TransmissionTimeOffset),
        5 => Some(KnownKind::VideoOrientation),
        6 => Some(KnownKind::TransportSequenceNumber),
        7 => Some(KnownKind::PlayoutDelay),
        8 => Some(KnownKind::VideoContentType),
        9 => Some(KnownKind::VideoTiming),
        10 => Some(KnownKind::RtpStreamId),
        11 => Some(KnownKind::RepairedRtpStreamId),
        12 => Some(KnownKind::RtpMid),
        13 => Some(KnownKind::FrameMarking),
        14 => Some(KnownKind::ColorSpace),
        15 => Some(KnownKind::VideoLayersAllocation),
        _ => None,
    }
}

// The known kind that the number names, `Some(None)` where it names a bare kind or is one of the
// caller's own, and `None` where it names nothing.
#[inline(always)]
#[tactic(auto, using(crate::proofs::KindNumberLemmas::kind_low))]
pub fn named(number: u8) -> Option<Option<KnownKind>>
    ensures named { IfSome result (λ kind. IsNamed number × (kind ≡ kind_numbered number)) }
    ensures none { IfNone result (IsNamed number → ⊥) }
{
    match kind_numbered(number) {
        Some(kind) => Some(Some(kind)),
        None if is_named(number) => Some(None),
        None => None,
    }
}

// The number of the kind: the kinds stand in the order of their numbers.
pub fn number_of(kind: KnownKind) -> u8
    ensures { result ≡ kind_number kind }
{
    kind as u8 + 1
}

// Whether each number is 0.
#[inline(always)]
pub(super) fn are_zeros(numbers: &[u8]) -> bool
    ensures { IsTrue result ↔ ((i : ℕ) → i < length numbers.now → slice_index numbers.now i ≡ 0) }
{
    let mut any = 0;
    for number in numbers {
        any |= *number;
    }
    any == 0
}

// The index of the last of sixteen numbers that isn't 0, and 0 where there is none. They are looked at
// at once.
#[inline(always)]
pub(super) fn last_of_16(numbers: &[u8]) -> usize
    requires { length numbers.now ≡ 16 }
    ensures zeros { (i : ℕ) → result < i → i < length numbers.now → slice_index numbers.now i ≡ 0 }
    ensures few { result < 64 }
{
    let others = u8x16::from_slice(numbers).simd_ne(u8x16::splat(0));
    // The number at index 0 counts as one that isn't 0.
    63 - (others.to_bitmask() | 1).leading_zeros() as usize
}

// The new byte of an id of this number in a table: `lowest` where it is the first of two, 0 where
// it is the second, and else the old one.
#[inline(always)]
pub(super) fn renamed(number: u8, from: u8, to: u8, lowest: u8, old: u8) -> u8
    ensures renamed { number ≡ from → result ≡ lowest }
    ensures gone { number ≢ from → number ≡ to → result ≡ 0 }
    ensures others { number ≢ from → number ≢ to → result ≡ old }
{
    if number == from {
        lowest
    } else if number == to {
        0
    } else {
        old
    }
}

// Whether one of sixteen numbers is this one. They are looked at at once.
#[inline(always)]
pub(super) fn has_number(numbers: &[u8], wanted: u8) -> bool
    requires { length numbers.now ≡ 16 }
    ensures { (result ≡ false)
        ↔ ((i : ℕ) → i < length numbers.now → slice_index numbers.now i ≢ wanted) }
{
    let are_wanted = u8x16::from_slice(numbers).simd_eq(u8x16::splat(wanted));
    are_wanted.to_bitmask() != 0
}

// Whether one of the numbers is that of a known kind. Each is looked at, so that many are at once.
#[inline(always)]
pub(super) fn has_kind(numbers: &[u8]) -> bool
    ensures { (result ≡ false) ↔ ((i : ℕ) → i < length numbers.now →
        kind_numbered (slice_index numbers.now i) ≡ None) }
{
    let mut any = false;
    for number in numbers {
        any |= number.wrapping_sub(1) < LAST_KNOWN;
    }
    any
}

// The first index where the number stands.
pub(super) fn index_of(numbers: &[u8], wanted: u8) -> Option<usize>
    ensures found { IfSome result (IsFirstNumber numbers.now wanted) }
    ensures none { IfNone result
        ((k : ℕ) → k < length numbers.now → slice_index numbers.now k ≢ wanted) }
{
    numbers.iter().position(|number| *number == wanted)
}
