//! The commands: the sources they read, the sink they write, and the line that tells how they
//! ended.
#![tactic(auto)]

// How a command ended.
mod kind_names;
mod status;

// `compile`: a script, and its packets.
mod compile;
mod read_script;

// `expect`: the authored pictures.
mod expect;

// `gen`: a script that is made from a number, its packets in memory, and what a receiver shows of them.
mod compare;
mod entries;
mod gen_lines;
mod gen_text;
mod generated;

// How a command ends that reads a stream.
mod closing;

// `dump`: the pictures that a receiver shows; `check`: its sets and the levels of its buffer.
mod check;
mod dump;

// `list`: the losses, units and segments of a stream.
mod list;

// All commands.
mod top_call;

pub use command_words::InputPlaces;
pub use dvbsub_words::{Command, inputs};
pub use status::Status;
pub use sub_base::Which;
pub use top_call::{tell, top};
