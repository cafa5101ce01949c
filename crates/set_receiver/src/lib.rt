//! A receiver of the subtitles of a service without pictures: from transport packets to the page
//! memory, and what becomes of each display set.
#![tactic(auto)]

mod losing;
mod receiver;
mod taking;

pub use receiver::SetReceiver;
pub use set_reader::{Arrival, Came};
