//! Media times, and the frequencies of their clocks.

mod arithmetic;
mod comparing;
mod frequency;
mod media_time;

pub use frequency::{Frequency, ParseFrequencyError};
pub use media_time::MediaTime;
