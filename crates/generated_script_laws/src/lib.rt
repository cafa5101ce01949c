//! The plan and the schedule of a generated script, whatever its number of cues: no receiver of
//! standard or high definition lacks what the plan needs, its sets are far apart, each is sent in
//! one PES packet of few bytes and painted within few ticks, and so neither the plan nor its
//! schedule is ever refused. These are laws; there is no code here.
#![tactic(auto)]

mod loads;
mod plans;

pub use loads::{generated_load, no_schedule_is_refused};
pub use plans::{no_plan_is_refused, nothing_is_refreshed, sets_are_far_apart, sets_list_few_cues};
