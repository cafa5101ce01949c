//! A cue script and the font of its texts, out of two sources.
#![tactic(auto)]

mod input_end;
mod limits;
mod reading;

pub use input_end::{FontEnd, Input, InputEnd};
pub use limits::TEXT_LIMIT;
pub use reading::{read_font, read_script};
