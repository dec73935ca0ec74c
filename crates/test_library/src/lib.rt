//! Tests of the library: ids, numbers, times and the replay window; layer allocations, the kinds of
//! header extension and their values, elements, and maps; headers, packets where they lie, padding,
//! receivers and runs of datagrams; and what stands where memory is refused.
#![tactic(auto)]

#[cfg(test)]
mod allocation_limits;
#[cfg(test)]
mod allocations;
#[cfg(test)]
mod allocations_in_headers;
#[cfg(test)]
mod blocks;
#[cfg(test)]
mod checks;
#[cfg(test)]
mod directions;
#[cfg(test)]
mod elements;
#[cfg(test)]
mod extensions;
#[cfg(test)]
mod fixtures;
#[cfg(test)]
mod frequencies;
#[cfg(test)]
mod headers_read;
#[cfg(test)]
mod headers_with_values;
#[cfg(test)]
mod headers_written;
#[cfg(test)]
mod ids;
#[cfg(test)]
mod kinds;
#[cfg(test)]
mod leb_numbers;
#[cfg(test)]
mod many_ids;
#[cfg(test)]
mod maps;
#[cfg(test)]
mod refused_blocks;
#[cfg(test)]
mod refused_copies;
#[cfg(test)]
mod refused_held;
#[cfg(test)]
mod refused_never;
#[cfg(test)]
mod refused_never_ends;
#[cfg(test)]
mod refused_never_maps;
#[cfg(test)]
mod refused_never_moments;
#[cfg(test)]
mod refused_never_numbers;
#[cfg(test)]
mod refused_never_times;
#[cfg(test)]
mod refused_never_values;
#[cfg(test)]
mod refused_never_widenings;
#[cfg(test)]
mod refused_readings;
#[cfg(test)]
mod refused_samples;
#[cfg(test)]
mod refused_sources;
#[cfg(test)]
mod refused_texts;
#[cfg(test)]
mod refused_twice;
#[cfg(test)]
mod renegotiations;
#[cfg(test)]
mod runs;
#[cfg(test)]
mod sent_runs;
#[cfg(test)]
mod sources;
#[cfg(test)]
mod times;
#[cfg(test)]
mod values;
#[cfg(test)]
mod windows;
#[cfg(test)]
mod written_blocks;
