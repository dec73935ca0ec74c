//! The text of a mid (RFC 9143) or of a stream id (RFC 8852), as its bytes are.

ghost use Rattle.std.specs.Prelude.{◌≡◌, ◌↔◌, IsTrue, IsSome, IfSome, All};
ghost use Rattle.rtp_values.specs.StandardToken.{is_token_char, IsToken, IsStreamId};

use std::str;

// Whether the byte is a character of a token.
fn is_token_char(byte: u8) -> bool
    ensures { result ≡ is_token_char byte }
{
    matches!(
        byte,
        0x21 | 0x23..=0x27 | 0x2A..=0x2B | 0x2D..=0x2E | 0x30..=0x39 | 0x41..=0x5A | 0x5E..=0x7E
    )
}

// Whether each byte is a character of a token.
fn all_token_chars(bytes: &[u8]) -> bool
    ensures { IsTrue result ↔ All (λ c. IsTrue (is_token_char c)) bytes.now }
{
    bytes.iter().all(|byte| is_token_char(*byte))
}

/// Whether the data are a token of SDP (RFC 8866, 9) of 1 to 255 characters, as a mid is (RFC 5888,
/// 4). A stream id has fewer characters to choose from ([`is_stream_id`]).
pub fn is_token(bytes: &[u8]) -> bool
    ensures { IsTrue result ↔ IsToken bytes.now }
{
    !bytes.is_empty() && bytes.len() <= 255 && all_token_chars(bytes)
}

/// Whether the data are 1 to 255 letters and digits of ASCII, as a stream id and a repaired one are
/// where they are sent (RFC 8852, 3). In SDP `a=rid` also allows `-` and `_` (RFC 8851, 10): a stream
/// whose id has one can't be told by it, so choose one without. To compare what came with the SDP's
/// text [`is_token`] is enough.
///
/// ```
/// assert!(is_stream_id(b"hi0"));
/// assert!(!is_stream_id(b"hi-0"));
/// ```
pub fn is_stream_id(bytes: &[u8]) -> bool
    ensures { IsTrue result ↔ IsStreamId bytes.now }
{
    !bytes.is_empty() && bytes.len() <= 255 && bytes.iter().all(|byte| byte.is_ascii_alphanumeric())
}

/// The text of a mid, a stream id or a repaired stream id as its bytes are, to be compared with the
/// SDP's: a `-` stays one, and all characters are kept. `Some` exactly when the data are a token
/// ([`is_token`]).
///
/// ```
/// assert_eq!(parse_token(b"video-0"), Some("video-0"));
/// assert_eq!(parse_token(b"video 0"), None);
/// ```
pub fn parse_token(bytes: &[u8]) -> Option<&str>
    ensures same { IfSome result (λ text. text.now ≡ bytes.now) }
    ensures some { IsSome result ↔ IsToken bytes.now }
{
    if !is_token(bytes) {
        return None;
    }
    // A token is ASCII.
    Some(unsafe { str::from_utf8_unchecked(bytes) })
}
