ghost use Rattle.std.specs.Prelude.{◌≡◌, ◌⊎◌};
ghost use Rattle.dvbsub_cmd.specs.Outcome.{untold};
ghost use Rattle.dvbsub_cmd.specs.StatusText.{code_of};
ghost use Rattle.sub_base.specs.Endpoints.{WroteNothing};
ghost use Rattle.program_files.specs.Table.{IsToldOn};
ghost use Rattle.command_files.specs.Ends.{command_lines, IsToldWith};

use command_line::COMMANDS;
use dvbsub_cmd::{Status, tell};
use program_files::tell_table;
use std::io;
use sub_base::{FileSink, Sink};

/// Writes the line of a status to standard output, or to standard error where standard output has
/// the command's own, and the table of commands to standard error where the command line was wrong.
/// Answers the code.
#[tactic(auto, using(crate::proofs::EndLaws::told_code))]
pub(crate) fn tell_on(rt: &HostRuntime, status: Status, is_taken: bool) -> u8
    ensures { (result ≡ code_of status) ⊎ (result ≡ code_of (untold status)) }
{
    let mut errors = FileSink::make(Some(rt.stderr()));
    if is_taken {
        told(status, &mut errors, &mut FileSink::make(Some(rt.stderr())))
    } else {
        told(
            status,
            &mut errors,
            &mut FileSink::make(Some(io::writer(rt))),
        )
    }
}

/// Writes the table of commands to `errors` where the command line was wrong, and the line of the
/// status to `out`. Answers the code.
pub fn told<E: Sink, O: Sink>(status: Status, errors: &mut E, out: &mut O) -> u8
    ensures line { IsToldWith (O.received out.old) (O.received out.new) status result }
    ensures table { status ≡ Status.Usage
        → IsToldOn (E.received errors.old) (E.received errors.new) command_lines }
    ensures no_table { (status ≡ Status.Usage → ⊥)
        → WroteNothing (E.received errors.old) (E.received errors.new) }
{
    if let Status::Usage = status {
        tell_table(errors, COMMANDS);
    }
    tell(status, out).code()
}
