//! The text of a mid or of a stream id, as its bytes are.

ghost use Rattle.std.specs.Prelude.{◌↔◌, IsTrue};
ghost use Rattle.rtp_values.specs.StandardToken.{IsToken, IsStreamId};

use rtp_values::standard::{is_stream_id, is_token};

/// Whether the data are a token of SDP (RFC 8866, 9) of 1 to 255 characters, as a mid is (RFC 5888,
/// 4).
#[unsafe(no_mangle)]
pub extern "C" fn rtpw_is_token(bytes: &[u8]) -> bool
    ensures { IsTrue result ↔ IsToken bytes.now }
{
    is_token(bytes)
}

/// Whether the data are 1 to 255 letters and digits of ASCII, as a stream id and a repaired one are
/// (RFC 8852, 3).
#[unsafe(no_mangle)]
pub extern "C" fn rtpw_is_stream_id(bytes: &[u8]) -> bool
    ensures { IsTrue result ↔ IsStreamId bytes.now }
{
    is_stream_id(bytes)
}
