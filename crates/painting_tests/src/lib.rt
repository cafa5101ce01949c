//! Tests of strings that are painted into packed rows and into regions of a store, and of blocks
//! that are painted into regions, with bytes that were worked out by hand.
//! There is no code here but tests, so that no crate is proved again for them.
#![tactic(auto)]

// A comparison as a call.
#[cfg(test)]
mod same;

// Strings in rows, strings in regions of a store, and blocks in such regions.
#[cfg(test)]
mod painted_blocks;
#[cfg(test)]
mod painted_rows;
#[cfg(test)]
mod stored_strings;
