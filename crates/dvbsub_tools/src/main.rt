//! The second program: it carries out the tool of its words, and ends with the code of its status.
#![tactic(auto)]

use std::process::ExitCode;

fn main(rt: HostRuntime) -> ExitCode {
    ExitCode::from(tool_files::run(&rt, &rt))
}
