//! Tests of the receiver and of what it stands on, over their public functions: packets, sets,
//! bands, pictures, losses, and what is told of levels. There is no code here but tests, so that no
//! crate is proved again for them.
#![tactic(auto)]

// A comparison as a call.
#[cfg(test)]
mod same;

// Packets that hold a PES packet whole, and a receiver that is asked at each step.
#[cfg(test)]
mod sending;
#[cfg(test)]
mod trial;

// Packets out of a source, sets out of packets, and what each set asks.
#[cfg(test)]
mod counted_sets;
#[cfg(test)]
mod source_packets;

// What is told of sets and of levels.
#[cfg(test)]
mod checked_sets;

// Pictures in bands, sets that are taken, and packets that are lost.
#[cfg(test)]
mod drawn_bands;
#[cfg(test)]
mod losses;
#[cfg(test)]
mod taken_sets;
