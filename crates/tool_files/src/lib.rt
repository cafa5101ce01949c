//! Each tool of `dvbsub_tools` over files: it opens the files that the words name, hands them to
//! the tool, keeps or gives up its output, and tells its status.
#![tactic(auto)]

// The tool that the first word names.
mod carrying_out;
mod tool;

// The tools over their files: multiplexes, streams of scripts or of streams, and what is told of
// them.
mod files;
mod live;
mod multiplexes;
mod reports;
mod streams;

// What is told on standard output and standard error.
mod reasons;
mod table;
mod telling;

pub use carrying_out::{carry_out, run};
pub use telling::told;
