//! The plan of a programme: which display sets a script is sent as, when each is shown, and what it
//! carries (EN 300 743, clauses 5 and 7).
#![tactic(auto)]

// What is planned, and why there is no plan.
mod fault;
mod planned_set;

// The instants of a script.
mod cue_ticks;
mod events;
mod instants;

// What stays in an epoch: regions with their cues, and CLUTs with their changes.
mod clut_changes;
mod clut_rows;
mod layout;
mod live;

// An epoch from instant to instant: its regions, its CLUTs, and the set of each instant.
mod clut_step;
mod epoch_state;
mod region_state;

// The plan.
mod plan;

pub use epoch_state::is_entry_state;
pub use fault::PlanFault;
pub use plan::Plan;
pub use planned_set::{PlannedSet, SentClut, SentRegion};
pub use stream_syntax::State;
