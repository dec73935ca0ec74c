//! The kinds of header extension (RFC 8285, 5), and the value of one element of each kind, from its
//! data and back; [`standard`] has some kinds as their standards do.
#![tactic(auto)]

mod kind;
mod kind_set;
mod known_kind;
pub mod standard;
mod uri;
mod value;

pub use kind::Extension;
pub use kind_set::KindSet;
pub use known_kind::KnownKind;
pub use uri::Uri;
pub use value::{
    AbsCaptureTime, CarriedLayers, ElementValues, ExtensionValues, GetValues, SetValues,
    ValueKinds, VideoOrientation, VideoTiming, WithLayers,
};
