//! The program: it carries out the command of its words, and ends with the code of its status.
#![tactic(auto)]

use std::process::ExitCode;

fn main(rt: HostRuntime) -> ExitCode {
    ExitCode::from(command_files::run(&rt, &rt))
}
