//! The clock of a programme, by the samples that its packets carry, and when packets arrive by it.
#![tactic(auto)]

// Samples of the clock, and the ticks of packets between them.
mod arrival;
mod sample;

// Laws on these ticks.
mod laws;

pub use arrival::{MOST_BETWEEN, NextSample, last_tick, spread_tick, tick_between, tick_of_time};
pub use laws::{
    ticks_rise, ticks_up_to_a_sample, ticks_up_to_the_end, ticks_where_the_next_is_far,
};
pub use sample::{CLOCK_LIMIT, CLOCK_ROUND, sample_of, time_behind};
