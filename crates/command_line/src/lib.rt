//! The words of a command line: what `clap` finds in them, and the table of commands that a wrong
//! command line is answered with.
#![tactic(auto)]

// What `clap` is told of the command line, and what it finds.
mod positional;
mod table;

pub use positional::positional_words;
pub use table::COMMANDS;
