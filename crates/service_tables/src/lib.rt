//! The programmes of a transport stream (ISO/IEC 13818-1, 2.4.4): those that its first valid PAT
//! lists, each with its first valid PMT, read out of packets in one pass.
#![tactic(auto)]

mod first_section;
mod programme;
mod programmes;

pub use programme::Programme;
pub use programmes::Programmes;
