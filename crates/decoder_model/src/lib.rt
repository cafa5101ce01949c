//! What a receiver of EN 300 743 subtitles shows of a list of transport packets. The definitions
//! stand in `specs/`, over numbers and lists: display sets, kept sets and the epoch, taken
//! segments, the last write to a pixel, the colour of a CLUT entry, the verdict on a set, and the
//! picture at a tick. The types that they name stand here.
#![tactic(auto)]

mod laws;
mod pages;
mod set_end;
mod set_fault;

pub use laws::usual_set_is_shown;
pub use pages::Pages;
pub use set_end::SetEnd;
pub use set_fault::SetFault;
