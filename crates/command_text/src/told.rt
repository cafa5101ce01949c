ghost use Rattle.std.specs.Prelude.{◌≡◌, ◌≤◌, ◌++◌, length};
ghost use Rattle.command_text.specs.Closing.{Closes};
ghost use Rattle.sub_base.specs.ToolOutcome.{tool_text, tool_line as tool_line_of, TellsTool};
ghost use Rattle.sub_base.specs.Which.{which_name};

use crate::line::Line;
use crate::text_buffer::{TextBuffer, flush};
use sub_base::{FaultName, Sink, ToolStatus, Which, write_whole};

/// Writes the line of a tool's status, and answers the status, or what it becomes where the line
/// cannot be written.
pub fn tell_tool<F: FaultName, N: Sink>(status: ToolStatus<F>, notes: &mut N) -> ToolStatus<F>
    ensures { TellsTool F.name_of (N.received notes.old) (N.received notes.new) status result }
{
    let line = tool_line(&status);
    match write_whole(notes, line.as_bytes()) {
        Ok(()) => status,
        Err(_) => match status {
            // Nobody could know that it was done.
            ToolStatus::Done => ToolStatus::WriteFault(Which::Notes),
            other => other,
        },
    }
}

/// Writes what waits, and answers the status of a tool's run, or that the output could not be
/// written.
pub fn close_tool<F: Copy, K: Sink>(
    out: &mut K,
    buffer: &mut TextBuffer,
    run: ToolStatus<F>,
) -> ToolStatus<F>
    ensures { Closes
        (K.received out.old)
        (K.received out.new)
        buffer.old run result }
{
    flush(out, buffer);
    if buffer.has_failed() {
        ToolStatus::WriteFault(Which::Out)
    } else {
        run
    }
}

/// The line of a tool's status, with its line feed. A fault is told by its name alone.
fn tool_line<F: FaultName>(status: &ToolStatus<F>) -> Line
    ensures { result ≡ tool_line_of F.name_of status.now }
{
    let mut line = text_of(status);
    line.push_text("\n");
    line
}

fn text_of<F: FaultName>(status: &ToolStatus<F>) -> Line
    ensures text { result ≡ tool_text F.name_of status.now }
    ensures short { length result ≤ 60 }
{
    match status {
        ToolStatus::Done => Line::of("done"),
        ToolStatus::Usage => Line::of("usage"),
        ToolStatus::Refused(fault) => {
            let mut line = Line::of("refused ");
            line.push_text(fault.name());
            line
        }
        ToolStatus::ReadFault(which) => named_text("read ", *which),
        ToolStatus::WriteFault(which) => named_text("write ", *which),
        ToolStatus::Memory => Line::of("memory"),
        ToolStatus::InputTooLong(which) => named_text("long ", *which),
    }
}

fn named_text(text: &str, which: Which) -> Line
    requires { length text.now ≤ 40 }
    ensures text { result ≡ text.now ++ which_name which }
    ensures short { length result ≤ 60 }
{
    let mut line = Line::of(text);
    line.push_text(which.name());
    line
}
