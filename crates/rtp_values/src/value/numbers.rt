//! The kinds whose data are one number.

ghost use Rattle.rtp_values.specs.declared.kind.Extension.TheVariants.{TransportSequenceNumber, TransmissionTimeOffset, FrameMarking, VideoContentType};
ghost use Rattle.rtp_values.specs.Spelling.{HasRoom};
ghost use Rattle.rtp_values.specs.KindBytes.{SetsFields, WritesData};

use super::front::{first_u16, first_u32, put_u16, put_u32};
use super::{GetValues, SetValues};
use rtp_base::put;

// The packet's number on its transport, in two bytes.
pub(super) fn read_transport_number<V: SetValues>(buf: &[u8], ev: &mut V) -> Option<()>
    ensures { SetsFields V.shows TransportSequenceNumber buf.now ev.old ev.new result }
{
    ev.set_transport_number(first_u16(buf)?);
    Some(())
}

pub(super) fn write_transport_number<V: GetValues>(buf: &mut [u8], ev: &V) -> Option<usize>
    requires room { HasRoom TransportSequenceNumber (V.values ev.now) buf.old }
    ensures { WritesData TransportSequenceNumber (V.values ev.now) buf.old buf.new result }
{
    let number = ev.transport_number()?;
    Some(put_u16(buf, number))
}

// The transmission time offset: four bytes, unsigned, where RFC 5450 has three, signed.
pub(super) fn read_transmission_offset<V: SetValues>(buf: &[u8], ev: &mut V) -> Option<()>
    ensures { SetsFields V.shows TransmissionTimeOffset buf.now ev.old ev.new result }
{
    ev.set_transmission_offset(first_u32(buf)?);
    Some(())
}

pub(super) fn write_transmission_offset<V: GetValues>(buf: &mut [u8], ev: &V) -> Option<usize>
    requires room { HasRoom TransmissionTimeOffset (V.values ev.now) buf.old }
    ensures { WritesData TransmissionTimeOffset (V.values ev.now) buf.old buf.new result }
{
    let offset = ev.transmission_offset()?;
    Some(put_u32(buf, offset))
}

// The frame marking: four bytes. An element as the draft describes it has one to three, and is not
// well-formed here.
pub(super) fn read_frame_marking<V: SetValues>(buf: &[u8], ev: &mut V) -> Option<()>
    ensures { SetsFields V.shows FrameMarking buf.now ev.old ev.new result }
{
    ev.set_frame_marking(first_u32(buf)?);
    Some(())
}

pub(super) fn write_frame_marking<V: GetValues>(buf: &mut [u8], ev: &V) -> Option<usize>
    requires room { HasRoom FrameMarking (V.values ev.now) buf.old }
    ensures { WritesData FrameMarking (V.values ev.now) buf.old buf.new result }
{
    let marking = ev.frame_marking()?;
    Some(put_u32(buf, marking))
}

// What the video shows, in one byte.
pub(super) fn read_video_content_type<V: SetValues>(buf: &[u8], ev: &mut V) -> Option<()>
    ensures { SetsFields V.shows VideoContentType buf.now ev.old ev.new result }
{
    ev.set_video_content_type(*buf.first()?);
    Some(())
}

pub(super) fn write_video_content_type<V: GetValues>(buf: &mut [u8], ev: &V) -> Option<usize>
    requires room { HasRoom VideoContentType (V.values ev.now) buf.old }
    ensures { WritesData VideoContentType (V.values ev.now) buf.old buf.new result }
{
    let content = ev.video_content_type()?;
    Some(put(buf, 0, &[content]))
}
