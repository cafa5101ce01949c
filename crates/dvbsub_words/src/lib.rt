//! The words of `dvbsub`: which command they are, with what numbers, and where they name its files.
#![tactic(auto)]

mod command;
mod reading;

pub use command::{Command, WORDS_OF_DUMP, WORDS_OF_EXPECT, inputs};
pub use reading::read_command;
