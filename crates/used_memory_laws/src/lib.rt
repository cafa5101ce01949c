//! What a receiver of EN 300 743 subtitles has in use: laws that the regions and the composition of
//! a known epoch fit the memory of the receiver. There is no code here.
#![tactic(auto)]

mod laws;

pub use laws::known_epochs_fit;
