//! What tests of several topics start from: packets, maps, values and layer allocations.

ghost use Rattle.std.specs.Prelude.{◌≡◌, length};

use rtp_base::{MediaTime, Mid, Rid};
use rtp_ext::{
    AbsCaptureTime, Extension, ExtensionMap, ExtensionValues, VideoOrientation, VideoTiming,
};
use rtp_vla::vla::{
    ResolutionAndFramerate, SimulcastStreamAllocation, SpatialLayerAllocation,
    TemporalLayerAllocation, VideoLayersAllocation,
};
use std::alloc::Global;
use std::process::Abort;

// A packet with four elements and 16 bytes after its header of 32.
pub(crate) const PACKET: &str = "b06fb798000027102e5715f9bede0004\
10aa22fe206a3100004278596a000000\
0102030400000000000000000000000c";

// The same packet with its elements in the two-byte form.
pub(crate) const TWO_BYTE_FORM: &str = "b06fb798000027102e5715f910010005\
0101aa0203fe206a03020000040378596a000000\
0102030400000000000000000000000c";

// A packet of number 47,000 with a one-byte block: a level of -42 with voice on id 1, an allocation
// of one stream of one layer of rate 5 on id 2, and transport number 7 on id 3.
pub(crate) const WITH_ALLOCATION: [u8; 28] = [
    0x90, 33, 0xB7, 0x98, 0, 0, 0x27, 0x10, 0, 0, 0, 44, 0xBE, 0xDE, 0, 3, 0x10, 0xAA, 0x22, 1, 0,
    5, 0x31, 0, 7, 0, 0, 0,
];

// The map of one entry.
pub(crate) fn one(id: u8, ext: Extension) -> ExtensionMap {
    let mut map = ExtensionMap::empty();
    map.set(id, ext);
    map
}

// The map of two entries.
pub(crate) fn two(id: u8, ext: Extension, next_id: u8, next: Extension) -> ExtensionMap {
    let mut map = one(id, ext);
    map.set(next_id, next);
    map
}

// An audio level and no other value.
pub(crate) fn level(audio_level: i8, voice: bool) -> ExtensionValues {
    ExtensionValues {
        audio_level: Some(audio_level),
        voice_activity: Some(voice),
        ..ExtensionValues::default()
    }
}

// A send time and no other value.
pub(crate) fn sent(micros: u64) -> ExtensionValues {
    ExtensionValues {
        abs_send_time: Some(micros),
        ..ExtensionValues::default()
    }
}

// A capture time with this offset and no other value.
pub(crate) fn captured(clock_offset: Option<i64>) -> ExtensionValues {
    ExtensionValues {
        abs_capture_time: Some(AbsCaptureTime {
            capture_time: 0x0102_0304_0506_0708,
            clock_offset,
        }),
        ..ExtensionValues::default()
    }
}

// The values of a packet with voice and the mid `xYj`.
pub(crate) fn spoken(audio_level: i8, send_time: u64, transport_number: u16) -> ExtensionValues {
    ExtensionValues {
        abs_send_time: Some(send_time),
        transport_cc: Some(transport_number),
        mid: Some(Mid::from("xYj")),
        ..level(audio_level, true)
    }
}

// The values with every field set but the layer allocation, which takes memory.
pub(crate) fn full() -> ExtensionValues {
    ExtensionValues {
        audio_level: Some(-43),
        voice_activity: Some(true),
        video_orientation: Some(VideoOrientation::Deg90),
        video_content_type: Some(1),
        tx_time_offs: Some(100),
        abs_send_time: Some(40_000_000),
        abs_capture_time: Some(AbsCaptureTime {
            capture_time: 0x0102030405060708,
            clock_offset: Some(-1),
        }),
        transport_cc: Some(258),
        play_delay_min: Some(MediaTime::from_hundredths(100)),
        play_delay_max: Some(MediaTime::from_hundredths(200)),
        video_timing: Some(VideoTiming {
            flags: 1,
            encode_start: 2,
            encode_finish: 3,
            packetize_complete: 4,
            last_left_pacer: 5,
        }),
        rid: Some(Rid::from("hi")),
        rid_repair: Some(Rid::from("lo")),
        mid: Some(Mid::from("a-b")),
        frame_mark: Some(1),
        video_layers_allocation: None,
    }
}

// A buffer that is long enough for each kind.
pub(crate) fn nines() -> [u8; 255]
    ensures { length result ≡ 255 }
{
    [9; 255]
}

// Whether the kind's data are these, at the front of the buffer, with what stood after them.
pub(crate) fn is_written(kind: &Extension, values: &ExtensionValues, data: &[u8]) -> bool {
    let mut buf = nines();
    kind.write_to(&mut buf, values) == Some(data.len())
        && buf.starts_with(data)
        && buf.iter().skip(data.len()).all(|byte| *byte == 9)
}

// The rates of a layer in kbit/s, and its width and height in pixels and its frame rate in Hz where
// they are told.
pub(crate) type Row<'a> = (&'a [u64], Option<(u16, u16, u8)>);

// What is told of a layer.
pub(crate) fn told(size: Option<(u16, u16, u8)>) -> Option<ResolutionAndFramerate> {
    let (width, height, framerate) = size?;
    Some(ResolutionAndFramerate {
        width,
        height,
        framerate,
    })
}

// A layer of these rates.
fn layer(rt: &impl Abort, alloc: Global, row: &Row) -> SpatialLayerAllocation {
    let mut temporal_layers = Vec::new(alloc);
    for rate in row.0 {
        let layer = TemporalLayerAllocation {
            cumulative_kbps: *rate,
        };
        temporal_layers.push(layer).expect(rt, "memory");
    }
    SpatialLayerAllocation {
        temporal_layers,
        resolution_and_framerate: told(row.1),
    }
}

// A stream of these layers.
fn stream(rt: &impl Abort, alloc: Global, rows: &[Row]) -> SimulcastStreamAllocation {
    let mut spatial_layers = Vec::new(alloc);
    for row in rows {
        let layer = layer(rt, alloc, row);
        spatial_layers.push(layer).expect(rt, "memory");
    }
    SimulcastStreamAllocation { spatial_layers }
}

fn streams(rt: &impl Abort, alloc: Global, rows: &[&[Row]]) -> Vec<SimulcastStreamAllocation> {
    let mut streams = Vec::new(alloc);
    for row in rows {
        let stream = stream(rt, alloc, row);
        streams.push(stream).expect(rt, "memory");
    }
    streams
}

// An allocation of these streams.
pub(crate) fn allocation(
    rt: &impl Abort,
    alloc: Global,
    index: u8,
    rows: &[&[Row]],
) -> VideoLayersAllocation {
    VideoLayersAllocation {
        current_simulcast_stream_index: index,
        simulcast_streams: streams(rt, alloc, rows),
    }
}

// Four streams of four layers of four rates, and resolutions on the first eleven layers.
pub(crate) fn largest(rt: &impl Abort, alloc: Global, first: u64) -> VideoLayersAllocation {
    let small: Row = (&[16384, 16384, 16384, 16384], Some((1, 1, 0)));
    let plain: Row = (&[16384, 16384, 16384, 16384], None);
    let lead = [first, 16384, 16384, 16384];
    allocation(
        rt,
        alloc,
        0,
        &[
            &[(&lead, Some((1, 1, 0))), small, small, small],
            &[small, small, small, small],
            &[small, small, small, plain],
            &[plain, plain, plain, plain],
        ],
    )
}
