//! Sentences on refusals: what a command that was refused is told on standard error, beside the
//! line of its status. A sentence quotes the record, line or word as it stands, says in words what
//! is asked of it, and tells the numbers that there are.
#![tactic(auto)]

// A record of a script: where it stands, what it is, and what its cells may be.
mod cell_rules;
mod kind_name;
mod record;

// Why a script is refused: the rules of its records, and the numbers of this one.
mod cell_facts;
mod script;
mod script_facts;
mod script_rules;

// Why it has no plan or no schedule.
mod plan;

// Why a font, a stream, a file or a command line is refused.
mod command;
mod file;
mod font;
mod packet;

pub use command::command_refusal;
pub use file::{FileFault, file_refusal};
pub use font::font_refusal;
pub use packet::packet_refusal;
pub use plan::{plan_refusal, schedule_refusal};
pub use script::script_refusal;
pub use sentence_text::Text;
