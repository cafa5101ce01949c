//! Indexed pictures: rectangles of pixel codes, as subtitles are authored and painted, and their
//! two fields.
#![tactic(auto)]

// Pictures, and why codes are none.
mod fault;
mod picture;

// The two interlace fields of a picture.
mod fields;

pub use fault::PictureFault;
pub use fields::FieldRows;
pub use picture::Indexed;
