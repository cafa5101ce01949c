//! The region memory of a receiver: one buffer, in which the pixels of all regions of an epoch are
//! packed with 2, 4 or 8 bits each. The rows of a region are one after another, and each begins at
//! a whole byte.
#![tactic(auto)]

mod byte;
mod extent;
mod span;
mod store;
mod string_rows;

pub use store::{Slot, Store, StoreFull};
pub use string_painting::{Brush, Painted};
