//! The display sets and losses of a DVB subtitle service, out of the transport packets of one PID:
//! units of packets, PES packets of units, and sets of these, without a page memory.
#![tactic(auto)]

mod arrival;
mod feeding;
mod reader;
mod units;

pub use arrival::Arrival;
pub use reader::{Came, SetReader};
