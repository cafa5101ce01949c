//! What `check` tells of a stream: what becomes of each display set and when it is done, how full
//! the coded data buffer becomes, and what a receiver cannot do; and the same of packets that
//! arrive in slots of any numbers.
#![tactic(auto)]

mod calls;
mod check;
mod laws;
mod lines;
mod set_meter;

pub use check::Check;
pub use laws::other_pids_are_not_metered;
pub use set_meter::SetMeter;
