//! A script that is written while its stream is sent: records come one by one, each is accepted or
//! refused at once, and packets go out as soon as no later record can change them.
#![tactic(auto)]

// Limits, why a record is refused, and why a script has no stream.
mod faults;
mod limits;

// The packets that are not written yet.
mod outlet;

// Records that come one by one: their packets, those that were accepted, and what is due.
mod accepted;
mod live;
mod planning;

// Records that come later leave what is due as it is.
mod laws;

// The words of the command.
mod live_words;

// The bytes of a script in pieces.
mod pieces;

// The line of a refused row.
mod told;

// A run: pieces that go in, the reads that they come by, and the top call.
mod reading;
mod run;
mod top;

pub use faults::{LiveFault, RowFault};
pub use laws::{due_stays, one_batch, one_due, rows_grow};
pub use limits::AHEAD;
pub use live::Live;
pub use live_words::{LiveCommand, live_inputs};
pub use outlet::{Outlet, slots_by};
pub use top::live_top;
