//! What `check` tells of the packets of a compiled script: laws from the clause of the compiler to
//! the text of the checker. There is no code here.
#![tactic(auto)]

mod laws;

pub use laws::{check_of_a_script_finds_no_breach, check_tells_the_schedule};
