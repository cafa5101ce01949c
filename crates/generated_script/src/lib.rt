//! The script that is generated from a number: a programme of as many cues, in epochs of sixteen,
//! for trials of a compiler and of receivers.
#![tactic(auto)]

// Pictures, and epochs with their cues.
mod epoch;
mod picture;

// The whole script.
mod script;

pub use script::generate;
