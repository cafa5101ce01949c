//! PES packets cut into pieces, and the transport packets of the pieces at their slots (ISO/IEC
//! 13818-1, 2.4.3.2): null packets stand in all slots between.
#![tactic(auto)]

// A piece, and those of packets that stand one after the other.
mod piece;
mod pieces;

// The packets of all slots, many written at a time; and packets that are kept until a part of the
// slots is written.
mod frame;
mod kept;
mod stream;

// What holds of the packets of slots.
mod laws;

pub use kept::{KeptPackets, first_from};
pub use laws::{later_pieces_leave_the_front, stream_begins_with_its_front};
pub use piece::Piece;
pub use pieces::push_units;
pub use stream::{StreamFault, slot_count, write_stream};
