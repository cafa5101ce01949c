//! The calls of the levels of a receiver's buffers that a list of transport packets gives, and the
//! display sets that are told of it: definitions, and laws for a walk over the packets, one by one.
#![tactic(auto)]

mod laws;

pub use laws::{
    calls_stop_at_a_fault, end_brings_calls, end_brings_more, loss_is_not_told,
    losses_are_not_told, more_calls_are_told, more_sets_are_told, nothing_is_told,
    one_more_is_told, packet_brings_calls, packet_brings_more, set_is_told, told_calls_are_calls,
};
