//! Services of subtitles in a multiplex of transport packets (ISO/IEC 13818-1, 2.4): one is taken
//! out of any multiplex by its tables, and two streams are joined to one with the tables that name
//! them.
#![tactic(auto)]

// What packets say of the tables of a PID.
mod sought;
mod table_reader;

// The subtitles of a service, taken out of a stream.
mod take;
mod take_fault;
mod take_words;
mod taker;

// The packets of a stream one after the other, and those of a table.
mod lane;
mod table;

// Two streams joined to one, frame by frame.
mod frames;
mod mux;
mod mux_fault;
mod mux_words;

// What a multiplex has of its services.
mod laws;

pub use laws::services_come_again;
pub use mux::mux_top;
pub use mux_fault::MuxFault;
pub use mux_words::{ServicePair, mux_inputs};
pub use take::take_top;
pub use take_fault::TakeFault;
pub use take_words::take_inputs;
