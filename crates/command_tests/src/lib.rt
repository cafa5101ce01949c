//! Tables of vectors over the commands: what each tells of scripts and streams. There is no code
//! here but tests; each expected value was worked out by hand.
#![tactic(auto)]

// A comparison as a call.
#[cfg(test)]
mod same;

// Scripts and streams by the status that they end with: words, refusals, causes of failures.
#[cfg(test)]
mod first_scripts;
#[cfg(test)]
mod listed_streams;

// Scripts that are compiled or generated, and their streams entered anywhere or with losses.
#[cfg(test)]
mod compiled_scripts;
#[cfg(test)]
mod compiled_sets;
#[cfg(test)]
mod entered_streams;
#[cfg(test)]
mod generated_scripts;
#[cfg(test)]
mod lost_packets;

// What is told of streams: the pictures that are shown, and each set with the buffer's peak.
#[cfg(test)]
mod shown_pictures;
#[cfg(test)]
mod told_sets;
