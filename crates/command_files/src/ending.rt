ghost use Rattle.std.specs.Prelude.{◌≡◌, false};
ghost use Rattle.command_files.specs.Ends.{IsEnding};
ghost use Rattle.dvbsub_cmd.specs.StatusText.{code_of};
ghost use Rattle.program_files.specs.Keeping.{is_kept as is_kept_of};

use dvbsub_cmd::{Status, Which};
use program_files::{Output, OutputKind, is_kept};

/// The status once the output has taken the place of what was there, or has been given up.
pub(crate) fn ended(output: &mut Output<'_>, kind: OutputKind, status: Status) -> Status
    ensures ending { IsEnding kind output.old.has_written output.new.is_finished status result }
    // What was there is touched only where the output is kept.
    ensures given_up { is_kept_of kind output.old.has_written (code_of status) ≡ false
        → output.new.is_finished ≡ output.old.is_finished }
{
    if !is_kept(kind, status.code(), output.has_written()) {
        output.abandon();
        return status;
    }
    match output.finish() {
        Ok(()) => status,
        Err(_) => Status::WriteFault(Which::Out),
    }
}
