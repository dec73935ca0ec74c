//! Media section id (RFC 9143): its text.

ghost use Rattle.rtp_values.specs.declared.kind.Extension.TheVariants.{RtpMid};
ghost use Rattle.rtp_values.specs.Spelling.{HasRoom};
ghost use Rattle.rtp_values.specs.KindBytes.{SetsFields, WritesData};

use super::{GetValues, SetValues};
use rtp_base::{Mid, put_few};

#[inline(always)]
pub(super) fn read<V: SetValues>(buf: &[u8], ev: &mut V) -> Option<()>
    ensures { SetsFields V.shows RtpMid buf.now ev.old ev.new result }
{
    ev.set_mid(Mid::from_utf8(buf)?);
    Some(())
}

// It stays out of line, since the bytes that it puts one by one would make every other kind save
// registers.
#[inline(never)]
pub(super) fn write<V: GetValues>(buf: &mut [u8], ev: &V) -> Option<usize>
    requires room { HasRoom RtpMid (V.values ev.now) buf.old }
    ensures { WritesData RtpMid (V.values ev.now) buf.old buf.new result }
{
    let text = ev.mid()?;
    put_few(buf, 0, text);
    Some(text.len())
}
