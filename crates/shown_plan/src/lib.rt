//! What the page memory of a receiver holds of a script behind each display set of its plan:
//! definitions, and the laws by which it holds the script wherever the receiver entered.
#![tactic(auto)]

mod laws;

pub use laws::{
    comes_back, hidden_regions_differ, places_are_names, taken_anew, versions_tell_pages_apart,
};
