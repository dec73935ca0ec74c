//! The layers that a sender of video keeps active, as a header extension.
#![tactic(auto)]

mod allocation;
mod comparing;
mod counts;
mod layers;
mod leb;
mod lent;
mod lent_allocation;
mod measuring;
mod parsing;
mod parts;
mod putting;
mod set_layers;
mod streams;
mod up_to;
mod video_layers;
mod writing;

/// The layers that a sender of video keeps active: which simulcast streams it sends, their layers,
/// and their rates and resolutions (the header extension `video-layers-allocation00`).
pub mod vla {
    pub use crate::allocation::{
        ResolutionAndFramerate, SimulcastStreamAllocation, SpatialLayerAllocation,
        TemporalLayerAllocation, URI, VideoLayersAllocation,
    };
    pub use crate::leb::{encode_leb_u63, parse_leb_u63};
    pub use crate::lent::{Layered, Lendable, LentLayer, LentLayers};
    pub use crate::lent_allocation::{LentAllocation, MeasuredAllocation};
    pub use crate::parsing::{is_allocation, parse, read_into};
    pub use crate::set_layers::SetLayers;
    pub use crate::video_layers::{VideoLayer, VideoLayers, VideoStream};
    pub use crate::writing::{checked_wire_len, is_writable, wire_len, write_to};
}
