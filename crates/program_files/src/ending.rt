ghost use Rattle.std.specs.Prelude.{◌≡◌, false};
ghost use Rattle.program_files.specs.Ending.{IsToolEnding};
ghost use Rattle.program_files.specs.Keeping.{is_kept as is_kept_of};
ghost use Rattle.program_files.specs.declared.keeping.OutputKind.TheVariants.{Tool};
ghost use Rattle.sub_base.specs.ToolOutcome.{tool_code};

use crate::keeping::{OutputKind, is_kept};
use crate::output::Output;
use sub_base::{ToolStatus, Which};

/// The status of a tool once its output has taken the place of what was there, or has been given
/// up.
pub fn tool_ended<F: Copy>(output: &mut Output<'_>, status: ToolStatus<F>) -> ToolStatus<F>
    ensures ending { IsToolEnding output.old.has_written output.new.is_finished status result }
    // What was there is touched only where the output is kept.
    ensures given_up { is_kept_of Tool output.old.has_written (tool_code status) ≡ false
        → output.new.is_finished ≡ output.old.is_finished }
{
    if !is_kept(OutputKind::Tool, status.code(), output.has_written()) {
        output.abandon();
        return status;
    }
    match output.finish() {
        Ok(()) => status,
        Err(_) => ToolStatus::WriteFault(Which::Out),
    }
}
