//! A replay window in words that the caller has: a ring of bits, 64 numbers to a word.

ghost use Rattle.std.specs.Prelude.{◌≡◌, ℕ, ◌+◌, ◌-◌, ◌*◌, ◌/◌, ◌%◌, ◌<◌, ◌≤◌, ◌↔◌, ◌⊎◌, Bool, true, false, ◌||◌, ◌==◌, length, max, slice_index_or, IsTrue};
ghost use Rattle.std.specs.Int.{bit_at};
ghost use Rattle.rtp_base.specs.Window.{Numbers, only, up_to, including, KeepsOf, ShowsBelowZeroOf, StaysBelowZeroOf, AcceptsOf};
ghost use Rattle.rtp_base.specs.Ring.{ring_size, ring_bit, ring_bits, ring_window};

use crate::id::SeqNo;

// How many numbers have their bits in one word.
const WORD: u64 = 64;

// The bits of a word from one to before another.
fn mask(from: u64, to: u64) -> u64
    requires some { from < to }
    requires within { to ≤ 64 }
    ensures inside { (k : ℕ) → from ≤ k → k < to → bit_at result k ≡ 1 }
    ensures before { (k : ℕ) → k < from → bit_at result k ≡ 0 }
    ensures after { (k : ℕ) → to ≤ k → bit_at result k ≡ 0 }
{
    u64::MAX << from & u64::MAX >> (WORD - to)
}

// The index of the number's word. As many words as libwebrtc's window has go without the division,
// which costs more than all else.
fn word_of(number: u64, words: usize) -> usize
    requires { 0 < words }
    ensures place { result ≡ number / 64 % words }
    ensures below { result < words }
{
    if words == 16 {
        return (number / WORD % 16) as usize;
    }
    (number / WORD) as usize % words
}

// Whether the number's bit is set.
fn is_set(words: &[u64], number: u64) -> bool
    requires { 0 < length words.now }
    ensures { result ≡ ring_bit words.now number }
{
    words[word_of(number, words.len())] >> (number % WORD) & 1 == 1
}

// Whether the number, at most the greatest, is less than the size below it and not recorded.
fn is_new(words: &[u64], greatest: u64, number: u64) -> bool
    requires some { 0 < length words.now }
    requires low { number ≤ greatest }
    ensures { IsTrue result ↔
        ((greatest < number + ring_size words.now) × (ring_bit words.now number ≡ false)) }
{
    (greatest - number) / WORD < words.len() as u64 && !is_set(words, number)
}

// Sets the number's bit.
fn set(words: &mut [u64], number: u64)
    requires { 0 < length words.old }
    ensures { (n : ℕ) → n < number + ring_size words.old → number < n + ring_size words.old →
        ring_bit words.new n ≡ (ring_bit words.old n || n == number) }
{
    let at = word_of(number, words.len());
    words[at] |= 1 << (number % WORD);
}

// Clears the bits of as many numbers, which have their bits in one word.
fn clear_in_word(words: &mut [u64], number: u64, count: u64)
    requires some { 0 < length words.old }
    requires counted { 0 < count }
    requires one_word { number % 64 + count ≤ 64 }
    ensures cleared { (n : ℕ) → number ≤ n → n < number + count → ring_bit words.new n ≡ false }
    ensures others { (n : ℕ) → number + count ≤ n → n < number + ring_size words.old →
        ring_bit words.new n ≡ ring_bit words.old n }
{
    let at = word_of(number, words.len());
    let bit = number % WORD;
    words[at] &= !mask(bit, bit + count);
}

// Clears the bits of the numbers from one to before another, a word at a time. Out of line, since
// most numbers are the next one after the greatest.
#[inline(never)]
fn clear(words: &mut [u64], first: u64, end: u64)
    requires some { 0 < length words.old }
    requires in_order { first ≤ end }
    ensures cleared { (n : ℕ) → first ≤ n → n < end → ring_bit words.new n ≡ false }
    ensures others { (n : ℕ) → end ≤ n → n < first + ring_size words.old →
        ring_bit words.new n ≡ ring_bit words.old n }
{
    if (end - first) / WORD >= words.len() as u64 {
        words.fill(0);
        return;
    }
    let mut number = first;
    while number < end {
        let count = (WORD - number % WORD).min(end - number);
        clear_in_word(words, number, count);
        number += count;
    }
}

// Clears the bits of the numbers between the greatest and one above it.
fn clear_between(words: &mut [u64], greatest: u64, number: u64)
    requires some { 0 < length words.old }
    requires above { greatest < number }
    ensures cleared { (n : ℕ) → greatest + 1 ≤ n → n < number → ring_bit words.new n ≡ false }
    ensures others { (n : ℕ) → number ≤ n → n < greatest + 1 + ring_size words.old →
        ring_bit words.new n ≡ ring_bit words.old n }
{
    if number - greatest > 1 {
        clear(words, greatest + 1, number);
    }
}

// Records a number above the greatest.
fn advance(words: &mut [u64], greatest: u64, number: u64)
    requires some { 0 < length words.old }
    requires above { greatest < number }
    ensures first { slice_index_or (ring_bits words.new number) 0 false ≡ true }
    ensures between { (k : ℕ) → 0 < k → k < number - greatest → k < ring_size words.old →
        slice_index_or (ring_bits words.new number) k false ≡ false }
    ensures before { (k : ℕ) → number - greatest ≤ k → k < ring_size words.old →
        slice_index_or (ring_bits words.new number) k false
        ≡ slice_index_or (ring_bits words.old greatest) (k - (number - greatest)) false }
{
    clear_between(words, greatest, number);
    set(words, number);
}

/// Makes the words a window in which this number alone is recorded, and is the greatest.
#[inline(never)]
pub fn ring_start(words: &mut [u64], seq: SeqNo)
    requires { 0 < length words.old }
    ensures kept { KeepsOf (ring_size words.old) (ring_window words.new seq) (only seq) }
    ensures below_zero { ShowsBelowZeroOf (ring_size words.old) (ring_window words.new seq) false }
{
    words.fill(0);
    set(words, seq.get());
}

/// Makes the words a window in which this number, the greatest, and every number below it are
/// recorded.
pub fn ring_start_after(words: &mut [u64], seq: SeqNo)
    requires { 0 < length words.old }
    ensures kept { KeepsOf (ring_size words.old) (ring_window words.new seq) (up_to seq) }
    ensures below_zero { ShowsBelowZeroOf (ring_size words.old) (ring_window words.new seq) true }
{
    words.fill(u64::MAX);
}

/// Makes any words a window with this greatest number: it is recorded, whatever its bit says. Words
/// that were such a window before stay it.
pub fn ring_restore(words: &mut [u64], greatest: SeqNo)
    requires { 0 < length words.old }
    ensures recorded { (k : ℕ) → k < ring_size words.old →
        slice_index_or (ring_bits words.new greatest) k false
        ≡ (slice_index_or (ring_bits words.old greatest) k false || k == 0) }
    ensures restored { slice_index_or (ring_bits words.old greatest) 0 false ≡ true →
        ring_window words.new greatest ≡ ring_window words.old greatest }
{
    set(words, greatest.get());
}

/// Returns whether the number is new to the window of these words and this greatest number: it is
/// above the greatest, or less than the size below it and not recorded.
pub fn ring_accepts(words: &[u64], greatest: SeqNo, seq: SeqNo) -> bool
    requires { 0 < length words.now }
    ensures accepts { (taken : Numbers) →
        KeepsOf (ring_size words.now) (ring_window words.now greatest) taken →
        (IsTrue result ↔ AcceptsOf (ring_size words.now) taken seq) }

    // The same of any words, whether or not they are a window, by the number's own bit.
    ensures by_bit { IsTrue result ↔ ((greatest < seq)
        ⊎ ((greatest < seq + ring_size words.now) × (ring_bit words.now seq ≡ false))) }
{
    let (greatest, number) = (greatest.get(), seq.get());
    number > greatest || is_new(words, greatest, number)
}

/// Records the number if the window of these words and this greatest number accepts it. Returns
/// what [`ring_accepts`] returns for it; where that is false, nothing changes.
pub fn ring_take(words: &mut [u64], greatest: &mut SeqNo, seq: SeqNo) -> bool
    requires { 0 < length words.old }
    ensures accepts { (taken : Numbers) →
        KeepsOf (ring_size words.old) (ring_window words.old greatest.old) taken →
        (IsTrue result ↔ AcceptsOf (ring_size words.old) taken seq) }
    ensures recorded { (taken : Numbers) →
        KeepsOf (ring_size words.old) (ring_window words.old greatest.old) taken →
        IsTrue result →
        KeepsOf (ring_size words.old) (ring_window words.new greatest.new) (including taken seq) }
    ensures refused { result ≡ false → (words.new ≡ words.old) × (greatest.new ≡ greatest.old) }

    // The same of any words, whether or not they are a window, by the number's own bit.
    ensures by_bit { IsTrue result ↔ ((greatest.old < seq)
        ⊎ ((greatest.old < seq + ring_size words.old) × (ring_bit words.old seq ≡ false))) }
    ensures greatest { IsTrue result → greatest.new ≡ max greatest.old seq }
    ensures below_zero { StaysBelowZeroOf (ring_size words.old)
        (ring_window words.old greatest.old) (ring_window words.new greatest.new) }
{
    let number = seq.get();
    if number > greatest.get() {
        advance(words, greatest.get(), number);
        *greatest = seq;
        return true;
    }
    if !is_new(words, greatest.get(), number) {
        return false;
    }
    set(words, number);
    true
}
