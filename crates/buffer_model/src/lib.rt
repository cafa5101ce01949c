//! The levels of a receiver's coded data buffer, and the ticks at which its display sets are done,
//! for any packets that arrive.
#![tactic(auto)]

// What a call answers, and the sets that wait.
mod breach;
mod waiting;

// The levels, and laws on them.
mod laws;
mod levels;

pub use breach::Breach;
pub use laws::{moved_within, no_breach};
pub use levels::Levels;
