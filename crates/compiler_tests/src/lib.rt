//! Tables of vectors over the compiler's own libraries: fonts, pictures, scripts, plans, the bytes
//! of sets, and what is told of a refusal. There is no code here but tests.
#![tactic(auto)]

// A comparison as a call.
#[cfg(test)]
mod same;

// Texts that several of them read.
#[cfg(test)]
mod texts;

// Pictures, and texts set in a font.
#[cfg(test)]
mod fonts;
#[cfg(test)]
mod pictures;

// Scripts: whole ones, and records that come one after another.
#[cfg(test)]
mod rows_taken;
#[cfg(test)]
mod scripts_read;

// Plans of small scripts, and the sets that these are to have.
#[cfg(test)]
mod plans;
#[cfg(test)]
mod wanted_plans;

// The pixel data of pictures, the bytes of sets, and their units.
#[cfg(test)]
mod picture_blocks;
#[cfg(test)]
mod set_bytes;
#[cfg(test)]
mod set_units;

// Scripts that are made from a number, and sentences on refusals.
#[cfg(test)]
mod generated;
#[cfg(test)]
mod refusals;
