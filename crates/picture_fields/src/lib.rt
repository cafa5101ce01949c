//! The pixel data blocks of a picture's two interlace fields (EN 300 743, object data segment), and
//! their sizes.
#![tactic(auto)]

mod fields;
mod sizes;

pub use fields::{FieldLengths, write_fields};
pub use sizes::{FieldSizes, field_sizes};
