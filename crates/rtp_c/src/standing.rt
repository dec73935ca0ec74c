//! What a receiver knows of a number: why it isn't accepted.

ghost use Rattle.std.specs.Prelude.{◌≡◌, ◌<◌, ℕ, length};
ghost use Rattle.rtp_base.specs.Ring.{ring_size};
ghost use Rattle.rtp_base.specs.Window.{Numbers, window_size};
ghost use Rattle.rtp_receive.specs.Receiver.{HasStandingOf};
ghost use Rattle.rtp_c.specs.Standing.{IsStanding, no_window, standing_number};
ghost use Rattle.rtp_c.specs.StoredReceiver.{HoldsNumbers};
ghost use Rattle.rtp_c.specs.StoredWideReceiver.{HoldsIn, IsWindowLen};

use super::receiver::{StoredReceiver, receiver_of};
use super::wide_receiver::{StoredWideReceiver, accepts, is_window};
use rtp_base::SeqNo;
use rtp_wire::Standing;

// How many numbers have their bits in one word.
const WORD: u64 = 64;

// No window has so many words.
const NO_WINDOW: u8 = 3;

// The number of each.
fn number_of(standing: Standing) -> u8
    ensures { result ≡ standing_number standing }
{
    standing as u8
}

// What is known of the number where the window has these words.
fn standing_in(receiver: &StoredWideReceiver, words: &[u64], number: u64) -> Standing
    requires { 0 < length words.now }
    ensures { (count : ℕ) (taken : Numbers) → HoldsIn receiver.now words.now count taken →
        HasStandingOf (ring_size words.now) taken number result }
{
    if accepts(receiver, words, number) {
        Standing::New
    } else if receiver.highest.saturating_sub(number) / WORD < words.len() as u64 {
        Standing::Taken
    } else {
        Standing::TooOld
    }
}

/// What is known of the number: 0 where it may be taken, 1 where it is in the window and was taken,
/// and 2 where it is behind the window, which doesn't tell any more whether it was taken.
#[unsafe(no_mangle)]
pub extern "C" fn rtpw_receiver_standing_of(receiver: &StoredReceiver, number: u64) -> u8
    ensures { (count : ℕ) (taken : Numbers) → HoldsNumbers receiver.now count taken →
        IsStanding window_size taken number result }
{
    number_of(receiver_of(receiver).standing_of(SeqNo::from(number)))
}

/// What is known of the number where the window has these words: 0, 1 or 2, as
/// [`rtpw_receiver_standing_of`] says, and 3 where they are none, or more than 512.
#[unsafe(no_mangle)]
pub extern "C" fn rtpw_wide_receiver_standing_of(
    receiver: &StoredWideReceiver,
    words: &[u64],
    number: u64,
) -> u8
    ensures told { IsWindowLen words.now → (count : ℕ) (taken : Numbers) →
        HoldsIn receiver.now words.now count taken →
        IsStanding (ring_size words.now) taken number result }
    ensures other { (IsWindowLen words.now → ⊥) → result ≡ no_window }
{
    if !is_window(words) {
        return NO_WINDOW;
    }
    number_of(standing_in(receiver, words, number))
}
