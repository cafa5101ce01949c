ghost use Rattle.tool_files.specs.Ends.{MayEndLive};

use crate::files::ToolFiles;
use crate::reasons::{FileNames, explain};
use crate::telling::code_of;
use live_plan::{live_inputs, live_top};
use std::io;
use sub_base::{FileSink, Sink, Words};

/// Sends a script while it is written. Packets go to the output as they are due, and the lines of
/// refused records and of the status to standard output as they come; to standard error, where
/// standard output has the packets.
pub(crate) fn live<'a>(rt: &'a HostRuntime, words: &'a Words) -> u8
    ensures { MayEndLive words.now result }
{
    let files = ToolFiles::as_it_comes(rt, names_of(words));
    if files.output.is_standard_output() {
        send(rt, words, files, &mut FileSink::make(Some(rt.stderr())))
    } else {
        send(rt, words, files, &mut FileSink::make(Some(io::writer(rt))))
    }
}

/// The same, with the lines told there.
fn send<'a, N: Sink>(
    rt: &'a HostRuntime,
    words: &'a Words,
    files: ToolFiles<'a>,
    notes: &mut N,
) -> u8
    ensures { MayEndLive words.now result }
{
    let ToolFiles {
        mut first,
        mut second,
        mut output,
    } = files;
    let status = live_top(
        rt.alloc(),
        words,
        &mut first,
        &mut second,
        &mut FileSink::make(Some(&mut output)),
        notes,
    );
    explain(rt, names_of(words), status, output.is_refused());
    code_of(rt, status)
}

/// The names of the script, the font and the output.
fn names_of(words: &Words) -> FileNames<'_> {
    FileNames {
        words,
        places: live_inputs(words),
    }
}
