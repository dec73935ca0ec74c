//! What the extended sequence numbers have in common.

ghost use Rattle.std.specs.Prelude.{◌≡◌, ◌+◌, ◌/◌, ◌%◌, ◌↔◌, IsTrue};

// Whether the second number is the first plus one.
pub(super) fn follows(first: u64, second: u64) -> bool
    ensures { IsTrue result ↔ (second ≡ first + 1) }
{
    first.checked_add(1) == Some(second)
}

// The low 16 bits, which are on the wire.
pub(super) fn wire_part(number: u64) -> u16
    ensures { result ≡ number % 65536 }
{
    (number & 0xFFFF) as u16
}

// The rollover count: the bits above the low 16.
pub(super) fn rollovers(number: u64) -> u64
    ensures { result ≡ number / 65536 }
{
    number >> 16
}
