//! Text that commands put out: lines, pictures as text, a buffer that is written to a sink in large
//! pieces, and the line that tells how a tool ended.
#![tactic(auto)]

mod line;
mod picture_text;
mod text_buffer;
mod told;

pub use line::Line;
pub use picture_text::{put_clear, put_picture};
pub use text_buffer::{TextBuffer, flush, put};
pub use told::{close_tool, tell_tool};
