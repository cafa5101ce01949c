//! The programme specific information of a transport stream (ISO/IEC 13818-1, 2.4.4): sections of
//! the programme association table (PAT) and of programme map tables (PMT) with their CRC, read out
//! of bytes and written as bytes. What is read is borrowed from the bytes.
#![tactic(auto)]

mod checksum;
mod word;

// Sections, and the loops in them.
mod fault;
mod loops;
mod section;

// What is written, and laws.
mod laws;
mod service;
mod writing;

pub use checksum::crc;
pub use fault::SectionFault;
pub use laws::{own_crc, read_again, section_laws};
pub use loops::{
    DescriptorEntry, PRIVATE_DATA, ProgrammeEntry, SUBTITLING, StreamEntry, first_descriptor,
    first_entry, first_stream,
};
pub use section::{Section, clock_pid, read_section};
pub use service::Service;
pub use writing::{write_pat, write_pmt};
