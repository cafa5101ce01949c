//! Reading the transport packets of a stream: whole packets of 188 bytes from a source, up to the
//! stream's end or to the limit of its bytes.
#![tactic(auto)]

// How long a stream may be, and how it ends.
mod limits;
mod stream_end;

// The reader.
mod reader;

pub use limits::STREAM_LIMIT;
pub use reader::PacketSource;
pub use stream_end::StreamEnd;
