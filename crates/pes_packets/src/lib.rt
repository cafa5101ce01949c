//! PES packets of a subtitle stream, both ways (ISO/IEC 13818-1, 2.4.3.6; EN 300 743, 6): the bytes
//! of a packet from its presentation time and data field, and from bytes the presentation time and
//! the segments. Nothing is copied in reading. Segments that are too many for one packet are shared
//! out to several.
#![tactic(auto)]

// One packet, both ways.
mod reading;
mod writing;

// How segments are shared out to packets.
mod units;

pub use reading::{Pes, read_pes};
pub use stream_syntax::PesFault;
pub use units::{OTHER_BYTES, OpenUnit, unit_lengths};
pub use writing::{write_pes, write_unit};
