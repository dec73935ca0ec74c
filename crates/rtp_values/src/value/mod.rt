//! The values of header extensions, with the bytes of each kind in both directions.

mod abs_capture_time;
mod abs_send_time;
mod audio_level;
mod carried_layers;
mod dispatch;
mod element_values;
mod front;
mod get_values;
mod lengths;
mod mid;
mod numbers;
mod of_extension;
mod playout_delay;
mod set_values;
mod stream_id;
mod value_kinds;
mod values;
mod video_layers_allocation;
mod video_orientation;
mod video_timing;
mod with_layers;

pub use abs_capture_time::AbsCaptureTime;
pub use carried_layers::CarriedLayers;
pub use element_values::ElementValues;
pub(crate) use front::{first_u64, u16_at, u16_bytes};
pub use get_values::GetValues;
pub use set_values::SetValues;
pub use value_kinds::ValueKinds;
pub use values::ExtensionValues;
pub use video_orientation::VideoOrientation;
pub use video_timing::VideoTiming;
pub use with_layers::WithLayers;
