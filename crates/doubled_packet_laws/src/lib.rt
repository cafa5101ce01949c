//! Transport packets that are sent twice, and packets of other PIDs: laws that they change nothing
//! of what a receiver of EN 300 743 subtitles gets, and that a packet with an error flag is a loss.
//! There is no code.
#![tactic(auto)]

mod laws;

pub use laws::{
    an_error_flag_is_a_loss, doubles_change_no_picture, doubles_change_no_set,
    doubles_change_no_verdict, other_pids_change_no_picture, other_pids_change_no_set,
};
