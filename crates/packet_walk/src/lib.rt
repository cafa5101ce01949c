//! A walk over the transport packets of a stream, by what tells of them in a text, packet by
//! packet, and how it ends.
#![tactic(auto)]

mod teller;
mod told_end;
mod walk;

pub use teller::PacketTeller;
pub use told_end::{ToldEnd, close_walk, is_whole};
pub use walk::{Refused, WalkEnd, take_packets, walk_packets};
