ghost use Rattle.std.specs.Prelude.{◌≡◌, ◌⊎◌};
ghost use Rattle.sub_base.specs.Endpoints.{WroteNothing};
ghost use Rattle.sub_base.specs.ToolOutcome.{tool_code, untold_tool};
ghost use Rattle.program_files.specs.Table.{IsToldOn};
ghost use Rattle.tool_files.specs.Ends.{tool_lines, IsToolTold};

use crate::table::TOOLS;
use command_text::tell_tool;
use program_files::tell_table;
use std::io;
use sub_base::{FaultName, FileSink, Sink, ToolStatus};

/// Writes the line of a status to standard output, or to standard error where standard output has
/// the tool's own, and the table of tools to standard error where the command line was wrong.
/// Answers the code.
#[tactic(auto, using(crate::proofs::EndLaws::told_code))]
pub(crate) fn tell_on<F: FaultName + Copy>(
    rt: &HostRuntime,
    status: ToolStatus<F>,
    is_taken: bool,
) -> u8
    ensures { (result ≡ tool_code status) ⊎ (result ≡ tool_code (untold_tool status)) }
{
    let mut errors = FileSink::make(Some(rt.stderr()));
    if is_taken {
        told(status, &mut errors, &mut FileSink::make(Some(rt.stderr())))
    } else {
        told(
            status,
            &mut errors,
            &mut FileSink::make(Some(io::writer(rt))),
        )
    }
}

/// The code of a tool that has told its status by itself. The table of tools is written to standard
/// error where the command line was wrong.
pub(crate) fn code_of<F: FaultName + Copy>(rt: &HostRuntime, status: ToolStatus<F>) -> u8
    ensures { result ≡ tool_code status }
{
    told_table(status, &mut FileSink::make(Some(rt.stderr())));
    status.code()
}

/// Writes the table of tools to `errors` where the command line was wrong, and the line of the
/// status to `out`. Answers the code.
pub fn told<F: FaultName + Copy, E: Sink, O: Sink>(
    status: ToolStatus<F>,
    errors: &mut E,
    out: &mut O,
) -> u8
    ensures line { IsToolTold F.name_of (O.received out.old) (O.received out.new) status result }
    ensures table { status ≡ ToolStatus.Usage
        → IsToldOn (E.received errors.old) (E.received errors.new) tool_lines }
    ensures no_table { (status ≡ ToolStatus.Usage → ⊥)
        → WroteNothing (E.received errors.old) (E.received errors.new) }
{
    told_table(status, errors);
    tell_tool(status, out).code()
}

/// Writes the table of tools to `errors` where the command line was wrong, and else nothing.
fn told_table<F: FaultName + Copy, E: Sink>(status: ToolStatus<F>, errors: &mut E)
    ensures table { status ≡ ToolStatus.Usage
        → IsToldOn (E.received errors.old) (E.received errors.new) tool_lines }
    ensures no_table { (status ≡ ToolStatus.Usage → ⊥)
        → WroteNothing (E.received errors.old) (E.received errors.new) }
{
    if let ToolStatus::Usage = status {
        tell_table(errors, TOOLS);
    }
}
