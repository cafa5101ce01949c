//! The display sets of a service's pages, gathered from the PES packets of a receiver of EN 300 743
//! subtitles: which segments count, which units of one presentation time are a set together, where
//! a set ends, and when it is ready. All memory is taken when a gathering is made. Contracts see a
//! gathering as a plain record, and say what this has to do with all that arrived.
#![tactic(auto)]

mod counted;
mod filling;
mod gathering;
mod hand;
mod laws;
mod ready;

pub use decoder_model::{Pages, SetFault};
pub use gathering::Gathering;
pub use hand::UnitEnd;
pub use laws::{bytes_are_read, packet_brings_arrivals, sets_of_arrivals};
pub use ready::Ready;
