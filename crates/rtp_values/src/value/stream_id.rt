//! RTP stream id and repaired RTP stream id (RFC 8852): each an id's text.

ghost use Rattle.rtp_values.specs.declared.kind.Extension.TheVariants.{RtpStreamId, RepairedRtpStreamId};
ghost use Rattle.rtp_values.specs.Spelling.{HasRoom};
ghost use Rattle.rtp_values.specs.KindBytes.{SetsFields, WritesData};

use super::{GetValues, SetValues};
use rtp_base::{Rid, put_few};

pub(super) fn read<V: SetValues>(buf: &[u8], ev: &mut V) -> Option<()>
    ensures { SetsFields V.shows RtpStreamId buf.now ev.old ev.new result }
{
    ev.set_rid(Rid::from_utf8(buf)?);
    Some(())
}

// It stays out of line, since few packets have it and the other kinds need the registers.
#[inline(never)]
pub(super) fn write<V: GetValues>(buf: &mut [u8], ev: &V) -> Option<usize>
    requires room { HasRoom RtpStreamId (V.values ev.now) buf.old }
    ensures { WritesData RtpStreamId (V.values ev.now) buf.old buf.new result }
{
    let text = ev.rid()?;
    put_few(buf, 0, text);
    Some(text.len())
}

pub(super) fn read_repaired<V: SetValues>(buf: &[u8], ev: &mut V) -> Option<()>
    ensures { SetsFields V.shows RepairedRtpStreamId buf.now ev.old ev.new result }
{
    ev.set_repaired_rid(Rid::from_utf8(buf)?);
    Some(())
}

// It stays out of line, since few packets have it and the other kinds need the registers.
#[inline(never)]
pub(super) fn write_repaired<V: GetValues>(buf: &mut [u8], ev: &V) -> Option<usize>
    requires room { HasRoom RepairedRtpStreamId (V.values ev.now) buf.old }
    ensures { WritesData RepairedRtpStreamId (V.values ev.now) buf.old buf.new result }
{
    let text = ev.repaired_rid()?;
    put_few(buf, 0, text);
    Some(text.len())
}
