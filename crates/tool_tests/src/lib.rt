//! Tests of what the tools of both programs stand on: services of subtitles in a multiplex, pairs
//! of languages, joined streams, pictures of all sets, live scripts, and words of a command line.
//! There is no code here but tests; each expected value was worked out by hand.
#![tactic(auto)]

// A comparison as a call.
#[cfg(test)]
mod same;

// Services taken out of a multiplex, and two streams joined to one.
#[cfg(test)]
mod joined_services;
#[cfg(test)]
mod taken_services;

// Two languages on one PID.
#[cfg(test)]
mod paired_scripts;

// Two streams joined at a cut.
#[cfg(test)]
mod joined_sets;
#[cfg(test)]
mod joined_streams;

// The pictures of all sets.
#[cfg(test)]
mod told_pictures;

// Scripts whose records come one by one, and their packets that are due.
#[cfg(test)]
mod due_packets;
#[cfg(test)]
mod live_scripts;

// The words of a command line.
#[cfg(test)]
mod found_words;
