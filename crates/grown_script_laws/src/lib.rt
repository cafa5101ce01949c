//! Scripts that go on above a horizon: laws that what was planned and written of them up to it
//! stays as it is. There is no code here.
#![tactic(auto)]

// The instants, the epochs and the sets of a plan.
mod plans;

// The packets of a set, and what sending it takes.
mod sets;

pub use plans::{
    epochs_stay, instants_stay, live_places_stay, names_stay, page_version_stays, rows_stay,
    sets_stay,
};
pub use sets::{loads_stay, packets_stay};
