//! The lines that map an id to an extension.

ghost use Rattle.std.specs.Prelude.{◌≡◌, ◌≢◌, ◌∷◌, ◌++◌, List, ℕ, All, IfSome, IsSomeAnd};
ghost use Rattle.rtp_listing.specs.MapLine.{IsIdText, IsMapLine};

use super::line::position_of;
use rtp_wire::MAX_ID;
use std::str;

// The number that one to three digits write, when it is an id of a map.
fn id_of(digits: &[u8]) -> Option<u8>
    ensures found { IfSome result (IsIdText digits.now) }
    ensures only { (id : ℕ) → IsIdText digits.now id → result ≡ Some id }
{
    if digits.len() > 3 || !digits.iter().all(|byte| byte.is_ascii_digit()) {
        return None;
    }
    let id = str::from_utf8(digits).ok()?.parse::<u8>().ok()?;
    if !(1..=MAX_ID).contains(&id) {
        return None;
    }
    Some(id)
}

// The parts before and after the first space.
fn around_space(text: &[u8]) -> Option<(&[u8], &[u8])>
    ensures found { IfSome result (λ parts. All (λ byte. byte ≢ 32) parts.0.now
        × (text.now ≡ parts.0.now ++ 32 ∷ parts.1.now)) }
    ensures only { (before after : List ℕ) → All (λ byte. byte ≢ 32) before →
        text.now ≡ before ++ 32 ∷ after →
        IsSomeAnd result (λ parts. (parts.0.now ≡ before) × (parts.1.now ≡ after)) }
{
    let space = position_of(text, b' ')?;
    Some((&text[..space], &text[space + 1..]))
}

/// The id and the URI of a map line, `None` when the line is no map line. A map line is `map`, an
/// id from 1 to 255 in one to three digits, and a URI, with one space between them. The URI is the
/// rest of the line, spaces included: one byte or more, in UTF-8.
pub(super) fn map_line(line: &[u8]) -> Option<(u8, &str)>
    ensures found { IfSome result (λ item. IsMapLine line.now item.0 item.1.now) }
    ensures only { (id : ℕ) (uri : List ℕ) → IsMapLine line.now id uri →
        IsSomeAnd result (λ item. (item.0 ≡ id) × (item.1.now ≡ uri)) }
{
    let (digits, uri) = around_space(line.strip_prefix(b"map ")?)?;
    let id = id_of(digits)?;
    if uri.is_empty() {
        return None;
    }
    Some((id, str::from_utf8(uri).ok()?))
}
