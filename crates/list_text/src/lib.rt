//! What `list` tells of a stream: its lines for the losses, units and segments of a PID, packet by
//! packet.
#![tactic(auto)]

// The lines, and those of a unit.
mod lines;
mod units;

// What each packet adds.
mod packets;

pub use packets::Lister;
