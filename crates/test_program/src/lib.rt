//! Tests of `rtp_listing`, what the program reads and prints, and of `rtp_uses`.
#![tactic(auto)]

#[cfg(test)]
mod checks;
#[cfg(test)]
mod listings;
#[cfg(test)]
mod map_lines;
#[cfg(test)]
mod printed_values;
#[cfg(test)]
mod refused_lines;
#[cfg(test)]
mod refused_sources;
