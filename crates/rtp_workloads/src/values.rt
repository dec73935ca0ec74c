//! Digests of headers and their values.

use crate::digest::Digest;
use rtp_base::{Mid, Rid};
use rtp_wire::vla::{ResolutionAndFramerate, VideoLayers, VideoLayersAllocation};
use rtp_wire::{ExtensionValues, RtpHeader, VideoOrientation};

fn add_mid(digest: &mut Digest, mid: &Option<Mid>) {
    match mid {
        Some(mid) => digest.add_bytes(mid.as_str().as_bytes()),
        None => digest.add(0),
    }
}

fn add_rid(digest: &mut Digest, rid: &Option<Rid>) {
    match rid {
        Some(rid) => digest.add_bytes(rid.as_str().as_bytes()),
        None => digest.add(0),
    }
}

fn orientation(orientation: &Option<VideoOrientation>) -> u64 {
    match orientation {
        None => 0,
        Some(VideoOrientation::Deg0) => 1,
        Some(VideoOrientation::Deg90) => 2,
        Some(VideoOrientation::Deg180) => 3,
        Some(VideoOrientation::Deg270) => 4,
    }
}

fn add_resolution(digest: &mut Digest, resolution: ResolutionAndFramerate) {
    digest.add(u64::from(resolution.width));
    digest.add(u64::from(resolution.height));
    digest.add(u64::from(resolution.framerate));
}

/// Adds an allocation in lists.
pub fn add_lists(digest: &mut Digest, lists: &VideoLayersAllocation) {
    digest.add(u64::from(lists.current_simulcast_stream_index));
    for stream in &lists.simulcast_streams {
        for layer in &stream.spatial_layers {
            for temporal in &layer.temporal_layers {
                digest.add(temporal.cumulative_kbps);
            }
            if let Some(resolution) = &layer.resolution_and_framerate {
                add_resolution(digest, *resolution);
            }
        }
        digest.add(7);
    }
}

/// Adds an allocation of fixed size.
pub fn add_layers(digest: &mut Digest, layers: &VideoLayers) {
    digest.add(u64::from(layers.current_simulcast_stream_index()));
    for stream in layers.simulcast_streams() {
        for layer in stream.spatial_layers() {
            for temporal in layer.temporal_layers() {
                digest.add(temporal.cumulative_kbps);
            }
            if let Some(resolution) = layer.resolution_and_framerate() {
                add_resolution(digest, resolution);
            }
        }
        digest.add(7);
    }
}

/// Adds the values of a header's extensions.
pub fn add_values(digest: &mut Digest, values: &ExtensionValues) {
    let level = match values.audio_level {
        Some(level) => u64::from(level.cast_unsigned()) + 1,
        None => 0,
    };
    let voice = match values.voice_activity {
        Some(true) => 1,
        Some(false) => 2,
        None => 0,
    };
    let transport = match values.transport_cc {
        Some(number) => u64::from(number) + 1,
        None => 0,
    };
    digest.add(level * 4 + voice + transport * 65_536);
    digest.add_option(values.abs_send_time);
    digest.add(orientation(&values.video_orientation));
    add_mid(digest, &values.mid);
    add_rid(digest, &values.rid);
    add_rid(digest, &values.rid_repair);
    if let Some(lists) = &values.video_layers_allocation {
        add_lists(digest, lists);
    }
}

/// Adds a header and its values.
pub fn add_header(digest: &mut Digest, header: &RtpHeader) {
    let number = header.sequence_number;
    let timestamp = header.timestamp;
    digest.add(u64::from(timestamp) * 65_536 + u64::from(number));
    digest.add(u64::from(header.ssrc.get()));
    digest.add(u64::from(header.payload_type.get()));
    digest.add(header.header_len as u64);
    add_values(digest, &header.ext_vals);
}
