//! Frame marking (RFC 9626, 3).

ghost use Rattle.std.specs.Prelude.{◌≡◌, ◌≤◌, length};
ghost use Rattle.rtp_values.specs.StandardMarking.{marking_in};
ghost use Rattle.rtp_c.specs.Given.{is_nonzero, given};
ghost use Rattle.rtp_c.specs.StandardData.{TellsValue, WritesData};
ghost use Rattle.rtp_c.specs.StandardMarking.{IsViewOfMarking, given_marking, AreMarkingData};

use super::putting::{put_data, tell};
use crate::given::given;
use crate::status::BAD_FIELD;
use crate::values::{flag_number, told};
use rtp_values::standard::{FrameLayers, FrameMarking};

/// What a packet is to its frame, and the frame to its stream: `rtpw_frame_marking` in C, 10 bytes.
#[repr(C)]
#[derive(Clone, Copy)]
pub struct MarkingView {
    /// Whether the packet is the first of its frame: 0 or 1, and so for each other flag.
    pub start: u8,
    /// Whether it is the last of its frame.
    pub end: u8,
    /// Whether the frame can be decoded without any frame before it.
    pub independent: u8,
    /// Whether no other frame needs this one.
    pub discardable: u8,
    /// Whether the stream has layers; where it has none the fields below are 0 as read.
    pub has_layers: u8,
    /// Whether the frame depends on the base temporal layer alone.
    pub base_layer_sync: u8,
    /// The temporal layer, 0 to 7.
    pub temporal_id: u8,
    /// The spatial and quality layer.
    pub layer_id: u8,
    /// Whether the number of the base layer's frame is sent.
    pub has_tl0_pic_idx: u8,
    /// The number of the frame of the base temporal layer.
    pub tl0_pic_idx: u8,
}

// What C is told of a marking.
fn view_of(marking: &FrameMarking) -> MarkingView
    ensures { IsViewOfMarking marking.now result }
{
    let mut view = MarkingView {
        start: flag_number(marking.start),
        end: flag_number(marking.end),
        independent: flag_number(marking.independent),
        discardable: flag_number(marking.discardable),
        has_layers: 0,
        base_layer_sync: 0,
        temporal_id: 0,
        layer_id: 0,
        has_tl0_pic_idx: 0,
        tl0_pic_idx: 0,
    };
    if let Some(layers) = marking.layers {
        view.has_layers = 1;
        view.base_layer_sync = flag_number(layers.base_layer_sync);
        view.temporal_id = layers.temporal_id;
        view.layer_id = layers.layer_id;
        (view.has_tl0_pic_idx, view.tl0_pic_idx) = told(layers.tl0_pic_idx);
    }
    view
}

// The layers, where they are given.
fn given_layers(view: &MarkingView) -> Option<FrameLayers>
    ensures { result ≡ given view.now.has_layers (record {
      base_layer_sync = is_nonzero view.now.base_layer_sync;
      temporal_id = view.now.temporal_id;
      layer_id = view.now.layer_id;
      tl0_pic_idx = given view.now.has_tl0_pic_idx view.now.tl0_pic_idx;
    }) }
{
    if view.has_layers == 0 {
        return None;
    }
    Some(FrameLayers {
        base_layer_sync: view.base_layer_sync != 0,
        temporal_id: view.temporal_id,
        layer_id: view.layer_id,
        tl0_pic_idx: given(view.has_tl0_pic_idx, view.tl0_pic_idx),
    })
}

// The marking that is given.
fn marking_of(view: &MarkingView) -> FrameMarking
    ensures { result ≡ given_marking view.now }
{
    FrameMarking {
        start: view.start != 0,
        end: view.end != 0,
        independent: view.independent != 0,
        discardable: view.discardable != 0,
        layers: given_layers(view),
    }
}

/// Reads a frame marking (RFC 9626, 3). `OK`, or `BAD_FIELD` where there aren't one to three bytes,
/// and then nothing is written.
#[unsafe(no_mangle)]
pub extern "C" fn rtpw_read_frame_marking(bytes: &[u8], marking: &mut MarkingView) -> i32
    ensures { TellsValue (IsViewOfMarking (marking_in bytes.now))
        ((1 ≤ length bytes.now) × (length bytes.now ≤ 3)) marking.old marking.new result }
{
    tell(
        FrameMarking::parse(bytes).map(|read| view_of(&read)),
        marking,
    )
}

/// Writes a frame marking to the front of the buffer (RFC 9626, 3). `OK`, and how many bytes it has
/// is written too; `BAD_FIELD` where the temporal layer is above 7; `SHORT_BUFFER` where only the
/// room is short. Where it isn't `OK` nothing is written.
#[unsafe(no_mangle)]
pub extern "C" fn rtpw_write_frame_marking(
    marking: &MarkingView,
    buf: &mut [u8],
    len: &mut usize,
) -> i32
    ensures { WritesData (AreMarkingData marking.now) buf.old buf.new len.old len.new result }
{
    let mut bytes = [0; 3];
    let Some(data_len) = marking_of(marking).write_to(&mut bytes) else {
        return BAD_FIELD;
    };
    put_data(&bytes[..data_len], buf, len)
}
