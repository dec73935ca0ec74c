//! The numbers of one stream: widened, and judged by a replay window.

ghost use Rattle.std.specs.Prelude.{◌≡◌, ◌≢◌, ◌↔◌, ◌/◌, ◌^◌, ◌<◌, ◌≤◌, ℕ, IsTrue, Some};
ghost use Rattle.rtp_base.specs.Window.{Numbers, WindowState, including};
ghost use Rattle.rtp_receive.specs.Receiver.{Holds, IsNothing, IsNumberOf, IsFresh};
ghost use Rattle.rtp_receive.specs.declared.receiver.ReceiverState.TheVariants.{Start, Window};
ghost use Rattle.rtp_receive.specs.Widening.{Extends};
ghost use Rattle.rtp_c.specs.Status.{ok, bad_field, refused};
ghost use Rattle.rtp_c.specs.StoredReceiver.{HoldsNumbers, IsWindowOf, IsStarted, IsStored, HasHalves, MovesBelowZero, unstarted, stored_again};
ghost use Rattle.rtp_c.specs.Judging.{IsJudgedAs, IsJudgedBy};

use super::status::{BAD_FIELD, OK, REFUSED};
use rtp_base::{SeqNo, SeqNoWindow};
use rtp_wire::{Receiver, extend_u8, extend_u15, extend_u16, extend_u32};

// How many numbers a half of the window's bits stands for, as the worth of the bit above it.
const HALF: u128 = 1 << 64;

/// The receive state of one stream: `rtpw_receiver` in C, 32 bytes. Each value is one; all zeros
/// have taken nothing yet, and the first packet has the rollover count 0.
///
/// Each `started` but 0 counts as 1, and the highest number as taken whatever bit 0 says. Where
/// nothing is taken yet, the low 16 bits of `highest` and the recorded bits are not looked at.
#[repr(C)]
#[derive(Clone, Copy)]
pub struct StoredReceiver {
    /// The highest number taken. Where nothing is taken yet, the first packet's rollover count
    /// stands in the bits above the low sixteen.
    pub highest: u64,
    /// Bit i says whether the highest number minus i is taken: bit 0 is set once one is taken.
    pub recorded_low: u64,
    /// Bit i says whether the highest number minus 64 + i is taken.
    pub recorded_high: u64,
    /// 0 where nothing is taken yet, and 1 afterwards.
    pub started: u8,
}

// The receiver that is stored there.
pub fn receiver_of(stored: &StoredReceiver) -> Receiver
    ensures held { (count : ℕ) (taken : Numbers) → HoldsNumbers stored.now count taken →
        Holds result count taken }
    ensures only { (count : ℕ) (taken : Numbers) → Holds result count taken →
        HoldsNumbers stored.now count taken }
    ensures some { (count : ℕ) × (taken : Numbers) × Holds result count taken }
    ensures window { 0 < stored.now.started →
        (window : WindowState) × (result ≡ Window window) × IsWindowOf stored.now window }
    ensures fits { 0 < stored.now.started → HasHalves stored.now }
    ensures start { stored.now.started ≡ 0 → result ≡ Start (stored.now.highest / 65536) }
{
    if stored.started == 0 {
        return Receiver::starting_at(stored.highest / 65_536);
    }
    let recorded = u128::from(stored.recorded_high) * HALF + u128::from(stored.recorded_low);
    Receiver::from(SeqNoWindow::from_parts(SeqNo::from(stored.highest), recorded))
}

// Stores the receiver.
fn store(receiver: &Receiver, stored: &mut StoredReceiver)
    ensures held { (count : ℕ) (taken : Numbers) → Holds receiver.now count taken →
        HoldsNumbers stored.new count taken }
    ensures start { (count : ℕ) → receiver.now ≡ Start count → stored.new ≡ unstarted count }
    ensures window { (window : WindowState) → receiver.now ≡ Window window →
        IsStored window stored.new }
{
    let Some(window) = receiver.window() else {
        stored.highest = receiver.rollover_count() * 65_536;
        stored.recorded_low = 0;
        stored.recorded_high = 0;
        stored.started = 0;
        return;
    };
    let (highest, recorded) = window.parts();
    stored.highest = highest.get();
    stored.recorded_low = (recorded % HALF) as u64;
    stored.recorded_high = (recorded / HALF) as u64;
    // `rtpw_receiver_receive` has seen that it is 1 where the next number comes, and by this test
    // stores nothing there.
    if stored.started != 1 {
        stored.started = 1;
    }
}

// Takes the number where it may be taken, and then writes it.
#[inline(always)]
fn take(receiver: &mut StoredReceiver, number: u64, written: &mut u64) -> i32
    ensures judged { (count : ℕ) (taken : Numbers) → HoldsNumbers receiver.old count taken →
        IsJudgedAs count taken number result written.new receiver.new }
    ensures below_zero { MovesBelowZero receiver.old receiver.new }
    ensures unchanged { result ≢ ok → (receiver.new ≡ receiver.old) × (written.new ≡ written.old) }
{
    let seq_no = SeqNo::from(number);
    let mut changed = receiver_of(receiver);
    if !changed.take(seq_no) {
        return REFUSED;
    }
    store(&changed, receiver);
    *written = number;
    OK
}

// Takes a packet of any sequence number. It stays out of line, since mostly the next one comes.
#[inline(never)]
fn receive_any(receiver: &mut StoredReceiver, sequence_number: u16, number: &mut u64) -> i32
    ensures judged { (count : ℕ) (taken : Numbers) → HoldsNumbers receiver.old count taken →
        IsJudgedBy count taken sequence_number result number.new receiver.new }
    ensures below_zero { MovesBelowZero receiver.old receiver.new }
    ensures unchanged { result ≢ ok → (receiver.new ≡ receiver.old) × (number.new ≡ number.old) }
{
    let extended = rtpw_receiver_number_of(receiver, sequence_number);
    take(receiver, extended, number)
}

/// Makes the receiver one that has taken nothing yet, whose first packet has this rollover count:
/// below 2^48. In SRTP it is the sender's, 0 at the beginning of its stream. Where nothing is
/// authenticated it is 1, so that a packet from before the first one has a number too; with 0 it has
/// one near 2^64. `highest` becomes 65,536 times the count, and all else 0. `OK`, or `BAD_FIELD`
/// where the count is 2^48 or more, and then nothing is written.
#[unsafe(no_mangle)]
pub extern "C" fn rtpw_receiver_start(receiver: &mut StoredReceiver, rollover_count: u64) -> i32
    ensures started { rollover_count < 2 ^ 48 → (taken : Numbers) → IsNothing taken →
        HoldsNumbers receiver.new rollover_count taken }
    ensures stored { rollover_count < 2 ^ 48 → receiver.new ≡ unstarted rollover_count }
    ensures done { rollover_count < 2 ^ 48 → result ≡ ok }
    ensures too_high { 2 ^ 48 ≤ rollover_count → result ≡ bad_field }
    ensures unchanged { result ≢ ok → receiver.new ≡ receiver.old }
{
    if rollover_count >= 1 << 48 {
        return BAD_FIELD;
    }
    store(&Receiver::starting_at(rollover_count), receiver);
    OK
}

/// The extended sequence number of a packet of this sequence number: the one nearest to the highest
/// number taken (RFC 3711, 3.3.1). Where nothing is taken yet, it is the one with the rollover
/// count at which the receiver starts.
#[unsafe(no_mangle)]
pub extern "C" fn rtpw_receiver_number_of(receiver: &StoredReceiver, sequence_number: u16) -> u64
    ensures nearest { (count : ℕ) (taken : Numbers) → HoldsNumbers receiver.now count taken →
        IsNumberOf count taken sequence_number result }

    // Each value of the struct holds some set, so the clauses here always speak of something.
    ensures some { (count : ℕ) × (taken : Numbers) × HoldsNumbers receiver.now count taken }
{
    receiver_of(receiver).number_of(sequence_number).get()
}

/// Whether the number may be taken: nothing is taken yet, or it is above the highest number taken,
/// or less than 128 below it and not taken.
#[unsafe(no_mangle)]
pub extern "C" fn rtpw_receiver_accepts(receiver: &StoredReceiver, number: u64) -> bool
    ensures { (count : ℕ) (taken : Numbers) → HoldsNumbers receiver.now count taken →
        (IsTrue result ↔ IsFresh taken number) }
{
    receiver_of(receiver).accepts(SeqNo::from(number))
}

/// Records that the number is taken, once its packet is known to be authentic. One that
/// `rtpw_receiver_accepts` refuses changes nothing, except that `started` and bit 0 of
/// `recorded_low` become 1 where they were not.
#[unsafe(no_mangle)]
pub extern "C" fn rtpw_receiver_record(receiver: &mut StoredReceiver, number: u64)
    ensures recorded { (count : ℕ) (taken : Numbers) → HoldsNumbers receiver.old count taken →
        HoldsNumbers receiver.new count (including taken number) }
    ensures same { (count : ℕ) (taken : Numbers) → HoldsNumbers receiver.old count taken →
        (IsFresh taken number → ⊥) → HoldsNumbers receiver.new count taken }
    ensures started { IsStarted receiver.new }
    ensures refused { (count : ℕ) (taken : Numbers) → HoldsNumbers receiver.old count taken →
        (IsFresh taken number → ⊥) → receiver.new ≡ stored_again receiver.old }
    ensures below_zero { MovesBelowZero receiver.old receiver.new }
{
    let mut changed = receiver_of(receiver);
    changed.record(SeqNo::from(number));
    store(&changed, receiver);
}

/// Takes a packet of this sequence number, where its extended number may be taken: `OK`, and the
/// number is written and recorded. `REFUSED` where it may not, and then nothing is written. It is
/// `rtpw_receiver_number_of`, `rtpw_receiver_accepts` and `rtpw_receiver_record` in one, where
/// nothing is authenticated.
#[unsafe(no_mangle)]
pub extern "C" fn rtpw_receiver_receive(
    receiver: &mut StoredReceiver,
    sequence_number: u16,
    number: &mut u64,
) -> i32
    ensures judged { (count : ℕ) (taken : Numbers) → HoldsNumbers receiver.old count taken →
        IsJudgedBy count taken sequence_number result number.new receiver.new }
    ensures below_zero { MovesBelowZero receiver.old receiver.new }
    ensures unchanged { result ≢ ok → (receiver.new ≡ receiver.old) × (number.new ≡ number.old) }
{
    // The number after the highest one is also the nearest to it.
    let highest = receiver.highest;
    if receiver.started == 1
        && highest < u64::MAX
        && (highest + 1) % 65_536 == u64::from(sequence_number)
    {
        return take(receiver, highest + 1, number);
    }
    receive_any(receiver, sequence_number, number)
}

/// Extends a number of 16 bits to 64 bits: the number nearest to `previous`, modulo 2^64, that ends
/// in these 16 bits. Where two are equally near, 32,768 away on either side, it is the one with the
/// rollover count of `previous` (RFC 3711, 3.3.1).
#[unsafe(no_mangle)]
pub extern "C" fn rtpw_extend_u16(previous: u64, number: u16) -> u64
    ensures near { Extends 16 (Some previous) number result }
    ensures only { (n : ℕ) → Extends 16 (Some previous) number n → result ≡ n }
{
    extend_u16(Some(previous), number)
}

/// Extends a number of 8 bits to 64 bits: the number nearest to `previous`, modulo 2^64, that ends
/// in these 8 bits. Where two are equally near, 128 away on either side, it is the one with the
/// rollover count of `previous` (RFC 3711, 3.3.1).
#[unsafe(no_mangle)]
pub extern "C" fn rtpw_extend_u8(previous: u64, number: u8) -> u64
    ensures near { Extends 8 (Some previous) number result }
    ensures only { (n : ℕ) → Extends 8 (Some previous) number n → result ≡ n }
{
    extend_u8(Some(previous), number)
}

/// Extends a number of 15 bits to 64 bits: the number nearest to `previous`, modulo 2^64, that ends
/// in these 15 bits. Where two are equally near, 16,384 away on either side, it is the one with the
/// rollover count of `previous` (RFC 3711, 3.3.1). The sixteenth bit of `number` is
/// ignored.
#[unsafe(no_mangle)]
pub extern "C" fn rtpw_extend_u15(previous: u64, number: u16) -> u64
    ensures near { Extends 15 (Some previous) number result }
    ensures only { (n : ℕ) → Extends 15 (Some previous) number n → result ≡ n }
{
    extend_u15(Some(previous), number)
}

/// Extends a number of 32 bits to 64 bits: the number nearest to `previous`, modulo 2^64, that ends
/// in these 32 bits. Where two are equally near, 2^31 away on either side, it is the one with the
/// rollover count of `previous` (RFC 3711, 3.3.1).
#[unsafe(no_mangle)]
pub extern "C" fn rtpw_extend_u32(previous: u64, number: u32) -> u64
    ensures near { Extends 32 (Some previous) number result }
    ensures only { (n : ℕ) → Extends 32 (Some previous) number n → result ≡ n }
{
    extend_u32(Some(previous), number)
}
