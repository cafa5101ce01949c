//! The sections of a PID (ISO/IEC 13818-1, 2.4.4), put together out of transport packets in memory
//! of a fixed size, and handed on one after the other.
#![tactic(auto)]

mod kind;
mod reader;
mod taker;

pub use reader::SectionReader;
pub use taker::SectionTaker;
