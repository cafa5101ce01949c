//! What tests of commands are carried out over: a first run, packets and units made here, words,
//! sources and sinks, and a source of one byte over and over, which tells nothing of its content.
//! Each value was worked out by hand, or is reckoned here from the rules of docs/FORMATS.md.
#![tactic(auto)]

// The first run: two packets of one cue, and what each command tells of them.
pub mod first_run;

// Units and packets made here.
pub mod streams;

// The words of a command line, its sources and sinks, and a source of one byte, however long.
mod counting;
mod endpoints;
mod words;

// A flag that a band raises for another.
mod flags;

pub use counting::Counting;
pub use endpoints::{sink_of, source_of, source_of_packets};
pub use flags::is_seen;
pub use words::words_of;
