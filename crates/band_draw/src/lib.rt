//! The picture of a receiver's page memory, drawn in bands of whole rows that are drawn at the same
//! time.
#![tactic(auto)]

mod drawing;

pub use drawing::draw;
