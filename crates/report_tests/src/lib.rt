//! Tests of what archives and laboratories ask of a stream. There is no code here but tests; each
//! expected value was worked out by hand.
#![tactic(auto)]

// A comparison as a call.
#[cfg(test)]
mod same;

// What is wrong with the sets.
#[cfg(test)]
mod told_faults;

// What each PID has of subtitles.
#[cfg(test)]
mod told_pids;

// The services that its tables list.
#[cfg(test)]
mod told_services;

// The levels of the coded data buffer, by the stream's own clock.
#[cfg(test)]
mod told_levels;

// The same by the clock of a programme.
#[cfg(test)]
mod told_by_clock;

// All of these for services at the edges of what words may say.
#[cfg(test)]
mod other_services;
