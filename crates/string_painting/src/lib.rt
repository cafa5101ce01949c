//! Painting of pixel code strings (EN 300 743, 2-bit, 4-bit and 8-bit pixel code strings) into the
//! packed rows of regions: a string's codes are read in place and painted one after another, with
//! no list of runs between the two.
#![tactic(auto)]

// Codes in bytes.
mod packing;

// Reading: the fields of a string, and its codes.
mod field;
mod token;

// Painting: columns of a row, the pixels of one code, all of a string.
mod columns;
mod drawing;
mod painter;

// What is painted is what the runs of a block write.
mod laws;

pub use drawing::{Brush, RowPlace};
pub use laws::pixels_are_those_of_runs;
pub use painter::{Painted, paint_string};
