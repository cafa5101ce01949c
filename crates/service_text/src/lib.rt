//! The services of subtitles that the tables of a stream list (EN 300 468, 6.2.41), as they are
//! told: a line for each, in order.
#![tactic(auto)]

mod entries;
mod lines;
mod list;
mod service;
mod teller;

pub use teller::PidTeller;
