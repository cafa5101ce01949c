//! Two streams of subtitles, of one PID and page, joined at a cut: the display sets of the first
//! before the cut, and then all of the second with new times, slots and counters.
#![tactic(auto)]

// Limits, the words of the command, and why streams are not joined.
mod limits;
mod splice_fault;
mod splice_words;

// The segments of a set, and the PES packets that it is sent in.
mod segment_walk;
mod sending;

// The sets that are sent, and which of a stream these are.
mod joined;
mod part;

// A stream gone through packet by packet.
mod found;
mod prepared;
mod stream_reader;
mod survey;

// Why streams that were gone through are not joined.
mod refusal;

// Two streams read and gone through, and the packets of the joined streams.
mod input;
mod joining;
mod sent;

// What receivers show of joined streams.
mod laws;

pub use joining::splice_top;
pub use laws::spliced_is_shown;
pub use limits::{SPLICE_LIMIT, TOO_CLOSE, TOO_FAR};
pub use splice_fault::SpliceFault;
pub use splice_words::{Splicing, splice_inputs};
