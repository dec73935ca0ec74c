//! Transmission time offset (RFC 5450, 3): three bytes, signed.

ghost use Rattle.std.specs.Prelude.{◌≡◌, ◌≤ℤ◌, ◌<ℤ◌, length, pos, negsuc, IfSome};
ghost use Rattle.std.specs.Option.{SomeIff};
ghost use Rattle.rtp_values.specs.Values.{big_endian};
ghost use Rattle.rtp_values.specs.StandardNumbers.{signed_24, offset_bytes};

/// Reads a transmission time offset: how long after the time of its RTP timestamp the packet was
/// sent, in ticks of the stream's clock, from -8,388,608 to 8,388,607 (RFC 5450, 3). `Some` exactly
/// when there are three bytes, which are a signed number.
///
/// ```
/// assert_eq!(parse_transmission_offset(b"\xFF\xFF\xFE"), Some(-2));
/// ```
pub fn parse_transmission_offset(bytes: &[u8]) -> Option<i32>
    ensures { SomeIff result (length bytes.now ≡ 3) (signed_24 (big_endian bytes.now)) }
{
    let [a, b, c] = *bytes else {
        return None;
    };
    let number = u32::from_be_bytes([0, a, b, c]).cast_signed();
    Some(if number < 0x80_0000 {
        number
    } else {
        number - 0x100_0000
    })
}

/// The data of a transmission time offset in ticks (RFC 5450, 3), and `None` exactly where it
/// doesn't fit into 24 signed bits.
///
/// ```
/// assert_eq!(transmission_offset_bytes(-2), Some([0xFF, 0xFF, 0xFE]));
/// assert_eq!(transmission_offset_bytes(8_388_608), None);
/// ```
pub fn transmission_offset_bytes(offset: i32) -> Option<[u8; 3]>
    ensures bytes { SomeIff result ((negsuc 8388607 ≤ℤ offset) × (offset <ℤ pos 8388608)) (offset_bytes offset) }
    ensures back { IfSome result (λ bytes. signed_24 (big_endian bytes) ≡ offset) }
{
    if !(-0x80_0000..0x80_0000).contains(&offset) {
        return None;
    }
    let [_, a, b, c] = offset.cast_unsigned().to_be_bytes();
    Some([a, b, c])
}
