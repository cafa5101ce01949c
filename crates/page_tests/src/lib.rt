//! Tests of the page memory over its public functions: sets that are taken, their faults, what
//! earlier sets leave, epochs, objects in regions and rows of pictures. There is no code here but
//! tests, so that the page memory is not proved again for them.
#![tactic(auto)]

// A comparison as a call.
#[cfg(test)]
mod same;

// Sets, the first fault of each, and what earlier sets of an epoch leave.
#[cfg(test)]
mod room_left;
#[cfg(test)]
mod segment_faults;
#[cfg(test)]
mod taken_sets;

// Times, memory, epochs, and the nodes that sets need.
#[cfg(test)]
mod new_epochs;

// Objects in regions, and regions in rows.
#[cfg(test)]
mod drawn_rows;
#[cfg(test)]
mod painted_objects;
