ghost use Rattle.tool_files.specs.Ends.{IsCodeOf};

use crate::reasons::{FileNames, explain};
use crate::telling::tell_on;
use program_files::{Output, numbers_of, opened, output_name, tool_ended};
use std::fmt::Display;
use std::fs::File;
use sub_base::{FaultName, FileSource, ToolStatus, Which};

/// The files of a tool: its inputs, of which there may be none at a place, and its output. When
/// that is made, and when it takes the place of what was there, is said at `Output`.
#[derive(Drop)]
pub(crate) struct ToolFiles<'a> {
    pub first: FileSource<File>,
    pub second: FileSource<File>,
    pub output: Output<'a>,
}

impl<'a> ToolFiles<'a> {
    /// Opens the inputs of these names. The output is an `Output::whole`.
    pub(crate) fn of(rt: &'a HostRuntime, names: FileNames<'a>) -> ToolFiles<'a> {
        let opened = Opened::at(rt, names);
        let output = Output::whole(
            rt,
            opened.out,
            numbers_of(&opened.first),
            numbers_of(&opened.second),
        );
        opened.with(output)
    }

    /// The same with an `Output::as_it_comes`.
    pub(crate) fn as_it_comes(rt: &'a HostRuntime, names: FileNames<'a>) -> ToolFiles<'a> {
        let opened = Opened::at(rt, names);
        let output = Output::as_it_comes(
            rt,
            opened.out,
            numbers_of(&opened.first),
            numbers_of(&opened.second),
        );
        opened.with(output)
    }
}

/// The inputs of a tool, where they can be opened, and the name of its output.
#[derive(Drop)]
struct Opened<'a> {
    first: Option<File>,
    second: Option<File>,
    out: Option<&'a str>,
}

impl<'a> Opened<'a> {
    fn at(rt: &HostRuntime, names: FileNames<'a>) -> Opened<'a> {
        let first_name = names.of(Which::First);
        let second_name = names.of(Which::Second);
        Opened {
            first: opened(rt, first_name),
            second: opened(rt, second_name),
            out: output_name(names.of(Which::Out), first_name, second_name),
        }
    }

    fn with(self, output: Output<'a>) -> ToolFiles<'a> {
        ToolFiles {
            first: FileSource::make(self.first),
            second: FileSource::make(self.second),
            output,
        }
    }
}

/// Keeps or gives up the output by the status of the tool, and tells the status, with a sentence
/// where the tool was not done. Answers its code.
#[tactic(auto, using(crate::proofs::EndLaws::ending_told))]
pub(crate) fn end<F: FaultName + Display + Copy>(
    rt: &HostRuntime,
    names: FileNames<'_>,
    output: &mut Output<'_>,
    status: ToolStatus<F>,
) -> u8
    ensures { IsCodeOf output.old.has_written status result }
{
    let status = tool_ended(output, status);
    explain(rt, names, status, output.is_refused());
    tell_on(rt, status, output.is_standard_output())
}
