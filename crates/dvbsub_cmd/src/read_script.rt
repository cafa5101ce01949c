ghost use Rattle.std.specs.Prelude.{◌≡◌, false, IfErr, IfOk};
ghost use Rattle.script_input.specs.ReadScript.{ReadsScript};
ghost use Rattle.dvbsub_cmd.specs.InputStatus.{IsInputCause, source_of as source_of_text, status_of_input as status_of};

use crate::status::Status;
use cue_list::Script;
use script_input::{Input, InputEnd};
use std::alloc::Global;
use sub_base::{Source, Which};

/// The script of a command, or the status with which the command ends.
pub fn read_script<A: Source, B: Source>(
    alloc: Global,
    has_font: bool,
    first: &mut A,
    second: &mut B,
) -> Result<Script, Status>
    ensures reads { IfOk result (ReadsScript has_font
        (A.supplied first.old)
        (A.supplied first.new)
        (B.supplied second.old)
        (B.supplied second.new)) }
    ensures cause { IfErr result (IsInputCause has_font
        (A.supplied first.old)
        (A.supplied first.new)
        (B.supplied second.old)
        (B.supplied second.new)) }
    ensures second { has_font ≡ false → second.new ≡ second.old }
{
    match script_input::read_script(alloc, has_font, first, second) {
        Ok(script) => Ok(script),
        Err(end) => Err(status_of_input(end)),
    }
}

/// The status of a command whose inputs ended so.
fn status_of_input(end: InputEnd) -> Status
    ensures { result ≡ status_of end }
{
    match end {
        InputEnd::FontRefused(fault) => Status::FontRefused(fault),
        InputEnd::ScriptRefused(fault) => Status::ScriptRefused(fault),
        InputEnd::Unread(text) => Status::ReadFault(source_of(text)),
        InputEnd::TooLong(text) => Status::InputTooLong(source_of(text)),
        InputEnd::Memory => Status::Memory,
    }
}

/// The source in which a text is.
fn source_of(text: Input) -> Which
    ensures { result ≡ source_of_text text }
{
    match text {
        Input::Script => Which::First,
        Input::Font => Which::Second,
    }
}
