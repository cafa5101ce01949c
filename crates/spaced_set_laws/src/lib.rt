//! Display sets with time enough between them: laws that the schedule never refuses them. There is
//! no code here.
#![tactic(auto)]

mod laws;

pub use laws::{
    small_sets_apart_are_spaced, spaced_sets_are_never_refused, spaced_sets_arrive_in_time,
};
