//! The data of elements as the standards of their kinds have them, to be used with any peer beside
//! `ExtensionValues`, which reads some of them otherwise and others not at all. Each function takes
//! or gives the data of one element, without its header. Numbers are big-endian.

mod bits;
mod color_space;
mod dependency_descriptor;
mod frame_marking;
mod mixer_levels;
mod nearest;
mod ntp;
mod orientation;
mod send_time;
mod timing;
mod token;
mod transmission_offset;
mod transport_number;

pub use color_space::{ChromaSiting, Chromaticity, ColorRange, ColorSpace, HdrMetadata};
pub use dependency_descriptor::DependencyDescriptor;
pub use frame_marking::{FrameLayers, FrameMarking};
pub use mixer_levels::{mixer_audio_level, write_mixer_audio_levels};
pub use ntp::{extend_ntp_56, ntp_56_bytes, ntp_64_bytes, parse_ntp_56, parse_ntp_64};
pub use orientation::{Camera, Orientation};
pub use send_time::{extend_send_time, parse_send_time, send_time_bytes};
pub use timing::Timing;
pub use token::{is_stream_id, is_token, parse_token};
pub use transmission_offset::{parse_transmission_offset, transmission_offset_bytes};
pub use transport_number::{FeedbackRequest, TransportNumber};
