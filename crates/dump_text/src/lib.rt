//! What `dump` tells of a stream: the text of the picture that a receiver shows at each asked tick.
#![tactic(auto)]

mod dump;
mod laws;
mod pictures;
mod streaming;

pub use dump::Dump;
pub use laws::packets_are_shown;
pub use pictures::put_shown;
pub use streaming::dump_stream;
