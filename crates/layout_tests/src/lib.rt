//! Tests of the layouts of the standards and of what stands beside them, over the public functions
//! of each crate: words that all share, bits, segments, packets, tables, slots, sets and stores.
//! There is no code here but tests, so that no crate is proved again for them.
#![tactic(auto)]

// A comparison as a call.
#[cfg(test)]
mod same;

// Words that all crates share: numbers, lists, sources and sinks.
#[cfg(test)]
mod base_words;

// The bytes of run codes, segments, PES packets, transport packets and tables.
#[cfg(test)]
mod packet_bytes;
#[cfg(test)]
mod run_codes;
#[cfg(test)]
mod segment_bytes;
#[cfg(test)]
mod string_ends;
#[cfg(test)]
mod table_bytes;
#[cfg(test)]
mod unit_bytes;

// Sets out of packets, their slots, and the levels of the coded data buffer.
#[cfg(test)]
mod clock_samples;
#[cfg(test)]
mod coded_levels;
#[cfg(test)]
mod gathered_sets;
#[cfg(test)]
mod read_sets;
#[cfg(test)]
mod slots_of_sets;

// Page memory: lists in a pool of nodes, and regions in a store of pixels.
#[cfg(test)]
mod pooled_lists;
#[cfg(test)]
mod stored_pixels;
