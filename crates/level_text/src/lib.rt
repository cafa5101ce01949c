//! What `levels` tells of a stream: what becomes of each display set and when it is done, and how
//! full the coded data buffer becomes, by the times at which the stream's own packets arrive.
#![tactic(auto)]

// Packets that come at an even rate.
mod rate_clock;
mod rate_levels;

// Packets that come by the samples of a clock.
mod anchored_meter;
mod clock_levels;
mod held;
mod packet_check;
mod programme_levels;

pub use programme_levels::ProgrammeLevels;
pub use rate_clock::{GREATEST_RATE, LEAST_RATE};
pub use rate_levels::RateLevels;
