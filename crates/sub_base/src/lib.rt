//! What every part of the product speaks of: colours and pixel depths, the profiles of receivers,
//! the words of a command line, and the sources and sinks through which bytes come and go.
#![tactic(auto)]

// Numbers, lists and memory.
mod buffer;
mod items;
mod number;

// Pictures: depths and colours.
mod colour;
mod depth;

// Receivers, and what is sent to them.
mod load;
mod pace;
mod profile;

// A command's words, its sources and sinks, how these fail, and how a tool ends.
mod faults;
mod file;
mod in_memory;
mod status;
mod transfer;
mod words;

// What lets a test see bands at work together.
mod gate;

pub use buffer::zeros;
pub use colour::{CLEAR, Colour, default_colour};
pub use depth::Depth;
pub use faults::{NoMemory, ReadAllFault, ReadFailed, WriteFailed};
pub use file::{FileSink, FileSource};
pub use gate::{BandGate, NoGate};
pub use in_memory::{MemSink, MemSource};
pub use items::Items;
pub use load::{SetLoad, UNIT_ROOM, WriteLoad};
pub use number::{decimal_number, hex_value, number_in};
pub use pace::{Pace, SECOND};
pub use profile::{
    LARGEST_BUFFER, LONGEST_STEP, Profile, ProfileName, SHORTEST_STEP, every_profile,
};
pub use status::{FaultName, ToolStatus, Which};
pub use transfer::{Sink, Source, read_all, write_whole};
pub use words::Words;
