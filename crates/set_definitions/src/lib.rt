//! What the segments of display sets define, and what was defined last in an epoch, in memory of a
//! fixed size.
#![tactic(auto)]

mod definition;
mod known;
mod walk;

pub use definition::{Definition, NAMES, Said, definition_of, says_else};
pub use known::Known;
pub use walk::{first_segment, is_new_epoch};
