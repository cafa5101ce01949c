//! How what a receiver of EN 300 743 subtitles has received is read: laws that every segment and
//! every list of packets is read, and in one way. There is no code here.
#![tactic(auto)]

mod laws;

pub use laws::{every_segment_is_read, one_reading, packets_are_read, usual_packet_is_read};
