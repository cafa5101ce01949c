//! What a stream has of subtitles on each of its PIDs: the PES packets of subtitles, when the first
//! and the last are shown, and the pages that their segments name.
#![tactic(auto)]

// The pages of one PID.
mod page_list;
mod page_tally;

// What is counted of one PID.
mod pid_tally;

// What is read of one PID.
mod begins;
mod watch;

// All PIDs, and their text.
mod pids;
mod texts;

pub use pids::Pids;
