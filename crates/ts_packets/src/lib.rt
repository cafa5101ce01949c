//! Transport packets of one PID, both ways (ISO/IEC 13818-1, 2.4.3.2 to 2.4.3.5): a unit's pieces
//! into packets, and from a list of packets the units and the losses.
#![tactic(auto)]

// Packets out of a unit.
mod packetiser;

// What a packet is, units and losses out of packets, and what a packet brings to a unit.
mod brought;
mod demux;
mod kind;

// That every way to cut a unit gives it again.
mod laws;

pub use brought::Brought;
pub use demux::{Demux, Fed};
pub use kind::{Kind, Payload, is_of_pid, kind_of, payload_from};
pub use laws::every_cutting_gives_its_unit;
pub use packetiser::{HEAD_LENGTH, Packetiser, null_packet};
pub use stream_syntax::{Event, PacketFault};
