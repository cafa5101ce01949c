//! The bytes of the display sets that a compiler sends: the PES packets of a set of a plan, with
//! their sizes, and the blocks of pictures that are kept for them.
#![tactic(auto)]

// Blocks that are kept for all sets of a script.
mod coded_picture;
mod cue_blocks;
mod grown_blocks;
mod kept_blocks;

// A set's regions, cues and colours by their names, and its segments.
mod named;
mod set_objects;
mod set_segments;

// Its sizes, and its PES packets.
mod segment_sizes;
mod set_packets;
mod set_sizes;

pub use coded_picture::KeptBlocks;
pub use cue_blocks::CueBlocks;
pub use grown_blocks::BlocksBefore;
pub use named::epoch_of;
pub use picture_fields::{FieldLengths, write_fields};
pub use set_objects::append_blocks;
pub use set_packets::write_set;
pub use set_segments::{append_clut, append_display, append_end, append_listed, append_page};
pub use set_sizes::{load_of, painted_in, size_of};
