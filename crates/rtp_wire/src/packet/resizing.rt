//! A block that gets another length or form where it lies: what is behind it moves.

ghost use Rattle.std.specs.Prelude.{◌≡◌, ◌+◌, ◌-◌, ◌*◌, ◌≤◌, length};
ghost use Rattle.std.specs.List.{copy_within};
ghost use Rattle.std.specs.Int.{w16, to_be_bytes};
ghost use Rattle.rtp_base.specs.Overwriting.{overwritten};
ghost use Rattle.rtp_ext.specs.Form.{form_word};
ghost use Rattle.rtp_wire.specs.GrowingPacket.{with_extension_bit, resized};

use crate::header::BLOCK_HEADER_LEN;
use rtp_base::put;
use rtp_ext::ExtensionsForm;

// Moves the bytes between two offsets back by so many.
#[inline(always)]
fn move_back(buf: &mut [u8], start: usize, end: usize, distance: usize)
    requires order { start ≤ end }
    requires room { end + distance ≤ length buf.old }
    ensures { buf.new ≡ copy_within buf.old start end (start + distance) }
{
    buf[start..].copy_within(..end - start, distance);
}

// Moves the bytes between two offsets to another one, where they don't stand there already. Most blocks grow
// or shrink by one or two words: where the distance is a known one, a long payload takes a fourth of the
// instructions. It stays out of line, so that the move has the registers for itself.
#[inline(never)]
pub(super) fn move_bytes(buf: &mut [u8], start: usize, end: usize, to: usize)
    requires order { start ≤ end }
    requires within { end ≤ length buf.old }
    requires room { to + (end - start) ≤ length buf.old }
    ensures { buf.new ≡ copy_within buf.old start end to }
{
    if start == to {
        return;
    }
    if start < to {
        match to - start {
            4 => move_back(buf, start, end, 4),
            8 => move_back(buf, start, end, 8),
            _ => buf.copy_within(start..end, to),
        }
    } else {
        match start - to {
            4 => buf.copy_within(start..end, start - 4),
            8 => buf.copy_within(start..end, start - 8),
            _ => buf.copy_within(start..end, to),
        }
    }
}

// Gives the block that begins at an offset a body of so many bytes, which are those that stand there: moves
// the payload behind it, and writes the number of its words.
#[inline(always)]
pub(super) fn resize(
    buf: &mut [u8],
    len: usize,
    block_at: usize,
    payload_at: usize,
    body_len: usize,
)
    requires order { payload_at ≤ len }
    requires within { len ≤ length buf.old }
    requires room { block_at + 4 + body_len + (len - payload_at) ≤ length buf.old }
    requires few { body_len ≤ 4 * 65535 }
    ensures { buf.new ≡ resized buf.old len block_at payload_at body_len }
{
    let new_payload_at = block_at + BLOCK_HEADER_LEN + body_len;
    move_bytes(buf, payload_at, len, new_payload_at);
    let words = (body_len / 4) as u16;
    put(buf, block_at + 2, &words.to_be_bytes());
}

// Sets X.
pub(super) fn set_extension_bit(buf: &mut [u8])
    requires { 1 ≤ length buf.old }
    ensures { buf.new ≡ with_extension_bit buf.old }
{
    buf[0] |= 0x10;
}

// Announces a block of this form at an offset: sets X, and writes the word of the form.
pub(super) fn announce(buf: &mut [u8], block_at: usize, form: ExtensionsForm)
    requires after { 1 ≤ block_at }
    requires room { block_at + 2 ≤ length buf.old }
    ensures { buf.new
        ≡ overwritten (with_extension_bit buf.old) block_at (to_be_bytes w16 (form_word form)) }
{
    set_extension_bit(buf);
    put(buf, block_at, &form.serialize());
}
