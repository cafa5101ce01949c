//! What EN 300 743 and ISO/IEC 13818-1 lay down of a subtitle stream: pixel codes and pixel data
//! blocks, segments, PES packets, transport packets, and the units and losses of a list of packets.
//! The definitions stand in
//! `specs/`, over numbers and lists; readers and writers above cite them.
#![tactic(auto)]

// Numbers of the standards.
mod wire;

// Transport packets and PES packets.
mod pes;
mod transport;

// Segments.
mod clut;
mod display;
mod page;
mod region;
mod segment_fault;

// Pixel data blocks.
mod code_fault;
mod map_table;
mod pixel_run;

// Bytes that were worked out by hand.
mod laws;

pub use clut::ClutEntry;
pub use code_fault::{CodeFault, CodeKind};
pub use display::Window;
pub use laws::worked_bytes;
pub use map_table::MapTable;
pub use page::{PageEntry, State};
pub use pes::PesFault;
pub use pixel_run::Run;
pub use region::{Listing, RegionHead};
pub use segment_fault::{SegmentFault, SegmentKind};
pub use transport::{Event, PacketFault};
pub use wire::{
    CLUT_DEFINITION, DATA_IDENTIFIER, DEFAULT_DISPLAY_HEIGHT, DEFAULT_DISPLAY_WIDTH,
    DISPLAY_DEFINITION, EIGHT_BIT_STRING, END_OF_DISPLAY_SET, END_OF_FIELD, END_OF_LINE,
    FOUR_BIT_STRING, FOUR_TO_EIGHT_TABLE, HALF_ROUND, NULL_PID, OBJECT_DATA, PACKET_LENGTH,
    PAGE_COMPOSITION, PAYLOAD_LENGTH, PRIVATE_STREAM_1, REGION_COMPOSITION, SEGMENT_SYNC,
    SUBTITLE_STREAM, SYNC_BYTE, TICK_LIMIT, TIME_ROUND, TWO_BIT_STRING, TWO_TO_EIGHT_TABLE,
    TWO_TO_FOUR_TABLE,
};
