//! The extended sequence number from the low bits that the wire carries.

ghost use Rattle.std.specs.Prelude.{◌≡◌, ℕ, ◌<◌, ◌≤◌};
ghost use Rattle.rtp_receive.specs.Widening.{Extends, IsWithinHalf};

// The number nearest to the previous one that ends in these low bits; with none, the low bits
// alone.
fn widened(previous: Option<u64>, number: u64, bits: u32) -> u64
    requires some { 0 < bits }
    requires few { bits ≤ 32 }
    ensures near { Extends bits previous number result }
    ensures only { (n : ℕ) → Extends bits previous number n → result ≡ n }
    ensures close { (n : ℕ) → IsWithinHalf bits previous number n → result ≡ n }
{
    let modulus = 1 << bits;
    let low = number % modulus;
    let Some(previous) = previous else {
        return low;
    };
    let half = modulus / 2;
    let ahead = low.wrapping_sub(previous) % modulus;
    let after = previous.wrapping_add(ahead);
    if ahead < half {
        return after;
    }
    if ahead == half && previous % modulus < half {
        return after;
    }
    after.wrapping_sub(modulus)
}

/// Extends a number of 16 bits to 64 bits: returns the number nearest to `previous`, modulo 2^64,
/// that ends in the 16 bits of `number`. Where two are equally near, 32,768 away on either side, it
/// is the one with the rollover count of `previous`. With no previous number, returns the 16 bits
/// alone (RFC 3711, 3.3.1).
///
/// ```
/// assert_eq!(extend_u16(Some(65_535), 0), 65_536);
/// assert_eq!(extend_u16(Some(65_538), 1), 65_537);
/// assert_eq!(extend_u16(None, 1), 1);
/// ```
pub fn extend_u16(previous: Option<u64>, number: u16) -> u64
    ensures near { Extends 16 previous number result }

    // No other number meets `near`, and one that ends in these bits and is less than 32,768 away
    // does.
    ensures only { (n : ℕ) → Extends 16 previous number n → result ≡ n }
    ensures close { (n : ℕ) → IsWithinHalf 16 previous number n → result ≡ n }
{
    widened(previous, u64::from(number), 16)
}

/// Extends a number of 7 bits to 64 bits, as [`extend_u16`] does one of 16: where two are equally
/// near, they are 64 away. The eighth bit of `number` is ignored.
pub fn extend_u7(previous: Option<u64>, number: u8) -> u64
    ensures near { Extends 7 previous number result }
    ensures only { (n : ℕ) → Extends 7 previous number n → result ≡ n }
    ensures close { (n : ℕ) → IsWithinHalf 7 previous number n → result ≡ n }
{
    widened(previous, u64::from(number), 7)
}

/// Extends a number of 8 bits to 64 bits, as [`extend_u16`] does one of 16: where two are equally
/// near, they are 128 away.
pub fn extend_u8(previous: Option<u64>, number: u8) -> u64
    ensures near { Extends 8 previous number result }
    ensures only { (n : ℕ) → Extends 8 previous number n → result ≡ n }
    ensures close { (n : ℕ) → IsWithinHalf 8 previous number n → result ≡ n }
{
    widened(previous, u64::from(number), 8)
}

/// Extends a number of 15 bits to 64 bits, as [`extend_u16`] does one of 16: where two are equally
/// near, they are 16,384 away. The sixteenth bit of `number` is ignored.
pub fn extend_u15(previous: Option<u64>, number: u16) -> u64
    ensures near { Extends 15 previous number result }
    ensures only { (n : ℕ) → Extends 15 previous number n → result ≡ n }
    ensures close { (n : ℕ) → IsWithinHalf 15 previous number n → result ≡ n }
{
    widened(previous, u64::from(number), 15)
}

/// Extends a number of 32 bits to 64 bits, as [`extend_u16`] does one of 16: where two are equally
/// near, they are 2^31 away.
pub fn extend_u32(previous: Option<u64>, number: u32) -> u64
    ensures near { Extends 32 previous number result }
    ensures only { (n : ℕ) → Extends 32 previous number n → result ≡ n }
    ensures close { (n : ℕ) → IsWithinHalf 32 previous number n → result ≡ n }
{
    widened(previous, u64::from(number), 32)
}
