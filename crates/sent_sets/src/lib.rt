//! Display sets that are sent in PES packets in the slots of their schedule, whoever made them, and
//! what a receiver gets of them: definitions and laws.
//!
//! All sets come, whole and in order. A receiver that enters behind any number of packets gets all
//! sets whose packets are left. A receiver gets of a set the segments of its pages; a set may lack
//! its end segment, as another set or the end of the stream ends it too.
#![tactic(auto)]

mod laws;

pub use laws::{sent_sets_come, sent_sets_late};
