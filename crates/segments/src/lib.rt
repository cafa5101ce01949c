//! The segments of a subtitle stream (EN 300 743, clause 7.2), read out of bytes and written as
//! bytes. What is read is borrowed from the bytes.
#![tactic(auto)]

// Words, bits and faults.
mod append;
mod fault;
mod word;

// The kinds of segments.
mod clut;
mod display;
mod object;
mod page;
mod region;

// Heads, and the segments of a data field by their heads.
mod data_field;
mod frame;

// Reading and writing a segment, how many bytes it has, and laws on these.
mod laws;
mod reading;
mod size;
mod writing;

pub use clut::{ClutItems, ClutSeg};
pub use data_field::{FieldFrames, frames};
pub use display::DisplaySeg;
pub use frame::{Frame, read_frame};
pub use laws::{kind_of_segment, one_reading, read_again, written_sizes};
pub use object::ObjectSeg;
pub use page::PageSeg;
pub use reading::{Segment, read_segment};
pub use region::RegionSeg;
pub use size::{DISPLAY_SIZE, END_SIZE, clut_size, object_size, page_size, region_size};
pub use stream_syntax::{
    ClutEntry, Listing, PageEntry, RegionHead, SegmentFault, SegmentKind, State, Window,
};
pub use writing::{SegmentOut, write_segment};
