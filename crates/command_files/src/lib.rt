//! Each command of `dvbsub` over files: it opens the files that the words name, hands them to the
//! command, keeps or gives up its output, and tells its status.
#![tactic(auto)]

// The command over its files, and what becomes of its output.
mod carrying_out;
mod ending;

// What is told on standard output and standard error: the status, and why.
mod reasons;
mod telling;

pub use carrying_out::{carry_out, run};
pub use telling::told;
