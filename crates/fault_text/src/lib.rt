//! What `faults` tells of a stream: what is wrong with its display sets, which regions of shown
//! sets pass the edges of the display, which definitions change under one version, and how many
//! sets came to each end.
#![tactic(auto)]

mod changes;
mod faults;
mod kept;
mod lines;
mod set_faults;
mod sets;
mod taking;
mod tally;

pub use faults::Faults;
