//! The compiler: a script to the transport packets that carry it.
//!
//! `ScriptStream` has all that is sent of a script: the display sets of its plan, their PES
//! packets, and the slots of their transport packets. `compile_script` makes one and writes it.
//! What receivers show of these packets, wherever they enter and whatever they lose, is a clause of
//! both, and of the law `compiled_is_shown`. `packets_left` keeps those packets that stand behind a
//! number of slots, for a program that sends while records come.
#![tactic(auto)]

// Why a script is not sent.
mod faults;
mod refusals;

// What sending the sets of a plan takes, their slots, and their PES packets.
mod loads;
mod timed;
mod units;

// The stream of a script, what is left of it behind some slots, and a script that is compiled.
mod compiling;
mod first;
mod left;
mod stream;

// What receivers show of it.
mod laws;

pub use compiling::compile_script;
pub use faults::{CompileFault, SendFault};
pub use laws::compiled_is_shown;
pub use left::{PacketsLeft, packets_left};
pub use slot_stream::StreamFault;
pub use stream::ScriptStream;
