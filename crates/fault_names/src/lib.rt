//! The names of what is wrong with transport packets, PES packets and segments, as texts show them.
#![tactic(auto)]

mod segment_names;
mod unit_names;

pub use segment_names::segment_kind_name;
pub use unit_names::{packet_fault_name, pes_fault_name};
