//! What archives and laboratories ask of a stream of packets: which PIDs have subtitles, and of
//! which pages; the picture of each display set, at its own time; what is wrong with sets that are
//! not shown; and the levels of a receiver's coded data buffer, by the stream's own clock.
#![tactic(auto)]

mod report_fault;
mod report_status;

// What each PID has of subtitles.
mod pids_tool;
mod pids_words;

// The pictures of all sets.
mod picture_tool;
mod pictures;
mod pictures_words;

// What is wrong with the sets.
mod fault_tool;
mod faults_words;

// The levels of the coded data buffer.
mod level_tool;
mod levels_words;

pub use fault_tool::faults_top;
pub use faults_words::{FaultReport, faults_inputs};
pub use level_tool::levels_top;
pub use levels_words::{LevelReport, levels_inputs};
pub use picture_tool::pictures_top;
pub use pictures_words::{PictureReport, pictures_inputs};
pub use pids_tool::pids_top;
pub use pids_words::{PidsReport, pids_inputs};
pub use report_fault::ReportFault;
