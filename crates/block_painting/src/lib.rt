//! Painting of pixel data blocks into regions (EN 300 743, pixel-data sub-block and clause 7.2.5):
//! the sub-blocks of a field are walked in place, and each string is painted into its row by the
//! store, with no list of runs between the two.
#![tactic(auto)]

// Where the lines of a field go, and where the pen stands in a block.
mod pen;
mod place;

// Painting, sub-block by sub-block.
mod painter;

pub use painter::paint_block;
pub use place::FieldPlace;
