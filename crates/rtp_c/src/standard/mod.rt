//! The data of elements as the standards of their kinds have them, read and written. Each function
//! takes or gives the data of one element, without its header.

mod color_space;
mod dependency_descriptor;
mod frame_marking;
mod mixer_levels;
mod ntp;
mod orientation;
mod putting;
mod send_time;
mod timing;
mod token;
mod transmission_offset;
mod transport_number;

pub(super) use putting::put_data;
