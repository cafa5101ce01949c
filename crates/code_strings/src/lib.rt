//! The codes of pixel code strings (EN 300 743, 2-bit, 4-bit and 8-bit pixel code strings): the
//! code at a bit of a string, and where the string that begins some bytes ends.
#![tactic(auto)]

// A field of bits, and the code at a place.
mod field;
mod token;

// How far whole codes are found quickly, and the end of a string.
mod ending;
mod steps;
mod walk;

pub use ending::string_end;
pub use token::{Token, read_token};
