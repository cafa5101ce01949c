//! The packets that a script is compiled to, and what a receiver shows of them: definitions and
//! laws. What holds of the sets of a plan wherever they are sent for a receiver's pages is a law of
//! its own.
//!
//! Units that are sent in slots come whole, in order and without a loss, and the display sets of a
//! plan with them, be they sent in one PES packet or in several. A receiver that enters behind any
//! number of packets shows the authored picture from its entry set on, one that loses packets shows
//! it at each good tick, and both hold the script behind each set that comes whole.
#![tactic(auto)]

mod laws;

pub use laws::{
    fewer_received_times_suit, fewer_times_suit, one_stream, one_view_is_shown,
    sent_plan_is_entered,
};
