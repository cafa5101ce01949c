//! Two languages on one PID (EN 300 743, clause 5.1): two scripts of equal timing, each on a
//! composition page of its own, whose common CLUTs and objects are sent once, on an ancillary page.
#![tactic(auto)]

mod pages;
mod pair_fault;
mod pair_words;

// A set of each language, and what the two share.
mod cluts;
mod ordering;
mod pair_set;
mod set_object;
mod sharing;
mod written;

// What sending the sets of both takes, and their PES packets.
mod units;

// Two scripts: read, and of equal timing.
mod plain_script;
mod timing;

// The stream of two scripts: their plans, the slots of their sets, and why they are not sent.
mod pair_stop;
mod pair_stream;
mod planned;
mod slots;

// The pictures of one of the languages.
mod pair_dump;

// The tools: what their words ask for, and how they end.
mod pair_command;
mod top;

// What a receiver of each language shows.
mod laws;

pub use laws::{pair_is_entered, pair_is_sent};
pub use pages::TwoPages;
pub use pair_command::PairCommand;
pub use pair_dump::{PairDump, dump_inputs};
pub use pair_fault::PairFault;
pub use pair_words::{Pairing, pair_inputs};
pub use top::pair_top;
