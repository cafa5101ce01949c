//! The earliest schedule of the packets of display sets: the slots in which they are sent such that
//! the receiver's coded data buffer never overflows, and the ticks at which the sets are done.
#![tactic(auto)]

// Limits, and why there is no schedule.
mod fault;
mod limits;

// What holds of every schedule.
mod laws;

// The slot of one packet, those of a set, those of all sets.
mod place;
mod schedule;
mod send;

pub use fault::ScheduleFault;
pub use laws::{front_is_schedule, packets_are_of_near_sets, slots_stay};
pub use limits::SEND_WINDOW;
pub use schedule::Schedule;
