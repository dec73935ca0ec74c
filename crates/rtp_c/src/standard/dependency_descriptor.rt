//! The first three bytes of a dependency descriptor (AV1's RTP payload format, A.8).

ghost use Rattle.std.specs.Prelude.{◌≡◌, ◌↔◌, ◌≤◌, ◌<◌, length, slice_index, IsTrue};
ghost use Rattle.rtp_values.specs.StandardBits.{has_bit};
ghost use Rattle.rtp_values.specs.StandardDescriptor.{descriptor_in};
ghost use Rattle.rtp_c.specs.StandardData.{TellsValue, WritesData};
ghost use Rattle.rtp_c.specs.StandardDescriptor.{IsViewOfDescriptor, given_descriptor, AreDescriptorData};

use super::putting::put_data;
use crate::status::{BAD_FIELD, OK};
use crate::values::flag_number;
use rtp_values::standard::DependencyDescriptor;

/// The fields of a dependency descriptor that each packet has: `rtpw_dependency_descriptor` in C, 6
/// bytes.
#[repr(C)]
#[derive(Clone, Copy)]
pub struct DescriptorView {
    /// The number of the frame, which rolls over.
    pub frame_number: u16,
    /// Whether the packet is the first of its frame: 0 or 1.
    pub start_of_frame: u8,
    /// Whether it is the last of its frame: 0 or 1.
    pub end_of_frame: u8,
    /// The template that the frame's dependencies are like, 0 to 63.
    pub template_id: u8,
}

// The descriptor that is given.
fn descriptor_of(view: &DescriptorView) -> DependencyDescriptor
    ensures { result ≡ given_descriptor view.now }
{
    DependencyDescriptor {
        start_of_frame: view.start_of_frame != 0,
        end_of_frame: view.end_of_frame != 0,
        template_id: view.template_id,
        frame_number: view.frame_number,
    }
}

/// Reads the first three bytes of a dependency descriptor (AV1's RTP payload format, A.8). `OK`, or
/// `BAD_FIELD` where there are fewer, and then nothing is written.
#[unsafe(no_mangle)]
pub extern "C" fn rtpw_read_dependency_descriptor(
    bytes: &[u8],
    descriptor: &mut DescriptorView,
) -> i32
    ensures { TellsValue (IsViewOfDescriptor (descriptor_in bytes.now))
        (3 ≤ length bytes.now) descriptor.old descriptor.new result }
{
    let Some(read) = DependencyDescriptor::parse(bytes) else {
        return BAD_FIELD;
    };
    *descriptor = DescriptorView {
        frame_number: read.frame_number,
        start_of_frame: flag_number(read.start_of_frame),
        end_of_frame: flag_number(read.end_of_frame),
        template_id: read.template_id,
    };
    OK
}

/// Writes the first three bytes of a dependency descriptor, which are a whole one, to the front of
/// the buffer (AV1's RTP payload format, A.8). `OK`, and how many bytes they are is written too;
/// `BAD_FIELD` where the template is above 63; `SHORT_BUFFER` where only the room is short. Where
/// it isn't `OK` nothing is written.
#[unsafe(no_mangle)]
pub extern "C" fn rtpw_write_dependency_descriptor(
    descriptor: &DescriptorView,
    buf: &mut [u8],
    len: &mut usize,
) -> i32
    ensures { WritesData (AreDescriptorData descriptor.now) buf.old buf.new len.old len.new result }
{
    let Some(data) = descriptor_of(descriptor).to_bytes() else {
        return BAD_FIELD;
    };
    put_data(&data, buf, len)
}

/// Whether a descriptor brings a template dependency structure (AV1's RTP payload format, A.8): the
/// first bit of its fourth byte is set, if it has one.
#[unsafe(no_mangle)]
pub extern "C" fn rtpw_has_structure(bytes: &[u8]) -> bool
    ensures { IsTrue result ↔
        (3 < length bytes.now) × IsTrue (has_bit 7 (slice_index bytes.now 3)) }
{
    DependencyDescriptor::has_structure(bytes)
}
