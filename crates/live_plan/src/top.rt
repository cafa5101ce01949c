//! The top call: a script is read while its stream is sent.

ghost use Rattle.std.specs.Prelude.{◌≡◌, ◌<◌, [], false, length};
ghost use Rattle.live_plan.specs.LiveCalls.{HasLetIn};
ghost use Rattle.live_plan.specs.LiveOutcome.{HasLiveCause, IsFontLeft, inserter_of, live_causes};
ghost use Rattle.live_plan.specs.LiveWords.{IsLiveCommand, live_words};
ghost use Rattle.live_plan.specs.Private.RunningEnds.{IsLiveRun, IsRunEnd, font_status as font_status_of, run_status as run_status_of};
ghost use Rattle.shown_stream.specs.Compiled.{IsCompiledFor};
ghost use Rattle.stream_syntax.specs.declared.wire.TheConstants.{NULL_PID};
ghost use Rattle.sub_base.specs.Endpoints.{Supplied};
ghost use Rattle.sub_base.specs.Seen.{seen};
ghost use Rattle.sub_base.specs.ToolOutcome.{IsToolWhole};

use crate::faults::LiveFault;
use crate::live::Live;
use crate::live_words::{LiveCommand, live_command_in};
use crate::pieces::Cutter;
use crate::reading::{READ_SIZE, read_script, take_rest};
use crate::run::{Run, Stop};
use bitmap_font::Font;
use command_text::tell_tool;
use script_input::{FontEnd, read_font};
use std::alloc::Global;
use sub_base::{Sink, Source, ToolStatus, Which, Words, WriteFailed, zeros};

/// Carries out `live PROFILE PID PAGE SCRIPT FONT OUT`: the script, `first`, is read record by
/// record, in the font that `second` has, and its packets are written to `out` as soon as no later
/// record can change them. A refused record is told at once by a line to `notes`, and how it ended
/// by the answer and by the last line.
pub fn live_top<A: Source, B: Source, K: Sink, N: Sink>(
    alloc: Global,
    words: &Words,
    first: &mut A,
    second: &mut B,
    out: &mut K,
    notes: &mut N,
) -> ToolStatus<LiveFault>
    ensures cause { HasLiveCause (live_words words.now)
        (seen (A.supplied first.old) (B.supplied second.old) (K.received out.old))
        (seen (A.supplied first.new) (B.supplied second.new) (K.received out.new))
        (N.received notes.old) (N.received notes.new) result }

    // Where the words are a command and nothing gives a cause of refusal, all is done, or memory
    // is wanting.
    ensures complete { IsToolWhole live_causes (live_words words.now)
        (seen (A.supplied first.old) (B.supplied second.old) (K.received out.old))
        (seen (A.supplied first.new) (B.supplied second.new) (K.received out.new))
        (N.received notes.old) (N.received notes.new) result }

    // The second source is not called where no font is named.
    ensures font_left { IsFontLeft (live_words words.now)
        (seen (A.supplied first.old) (B.supplied second.old) (K.received out.old))
        (seen (A.supplied first.new) (B.supplied second.new) (K.received out.new)) }
{
    match live_command_in(words) {
        None => tell_tool(ToolStatus::Usage, notes),
        Some(command) => insert(alloc, command, first, second, out, notes),
    }
}

/// Inserts a script, and tells how that ended.
fn insert<A: Source, B: Source, K: Sink, N: Sink>(
    alloc: Global,
    command: LiveCommand,
    first: &mut A,
    second: &mut B,
    out: &mut K,
    notes: &mut N,
) -> ToolStatus<LiveFault>
    requires command { IsLiveCommand command }
    ensures cause { HasLiveCause (Some command)
        (seen (A.supplied first.old) (B.supplied second.old) (K.received out.old))
        (seen (A.supplied first.new) (B.supplied second.new) (K.received out.new))
        (N.received notes.old) (N.received notes.new) result }
    ensures font_left { IsFontLeft (Some command)
        (seen (A.supplied first.old) (B.supplied second.old) (K.received out.old))
        (seen (A.supplied first.new) (B.supplied second.new) (K.received out.new)) }
{
    match insert_untold(alloc, command, first, second, out, notes) {
        Ok(status) => tell_tool(status, notes),
        // No line follows the one that could not be written.
        Err(WriteFailed) => ToolStatus::WriteFault(Which::Notes),
    }
}

/// Inserts a script, and answers how that ended; or that the line of a refused row could not be
/// written.
fn insert_untold<A: Source, B: Source, K: Sink, N: Sink>(
    alloc: Global,
    command: LiveCommand,
    first: &mut A,
    second: &mut B,
    out: &mut K,
    notes: &mut N,
) -> Result<ToolStatus<LiveFault>, WriteFailed>
    requires command { IsLiveCommand command }
    ensures run { IsLiveRun command
        (seen (A.supplied first.old) (B.supplied second.old) (K.received out.old))
        (seen (A.supplied first.new) (B.supplied second.new) (K.received out.new))
        (N.received notes.old) (N.received notes.new) result }
    ensures font_left { IsFontLeft (Some command)
        (seen (A.supplied first.old) (B.supplied second.old) (K.received out.old))
        (seen (A.supplied first.new) (B.supplied second.new) (K.received out.new)) }
{
    let font = match read_font(alloc, command.has_font, second) {
        Ok(font) => font,
        Err(end) => return Ok(font_status(end)),
    };
    run_status(insert_in(alloc, command, font, first, out, notes))
}

/// The status where the font was not read.
fn font_status(end: FontEnd) -> ToolStatus<LiveFault>
    ensures { result ≡ font_status_of end }
{
    match end {
        FontEnd::Refused(fault) => ToolStatus::Refused(LiveFault::Font(fault)),
        FontEnd::Unread => ToolStatus::ReadFault(Which::Second),
        FontEnd::TooLong => ToolStatus::InputTooLong(Which::Second),
        FontEnd::Memory => ToolStatus::Memory,
    }
}

/// The status of a run; no status is told where the line of a refused row could not be written.
fn run_status(end: Result<(), Stop>) -> Result<ToolStatus<LiveFault>, WriteFailed>
    ensures { result ≡ run_status_of end }
{
    match end {
        Ok(()) => Ok(ToolStatus::Done),
        Err(Stop::Memory) => Ok(ToolStatus::Memory),
        Err(Stop::Out) => Ok(ToolStatus::WriteFault(Which::Out)),
        Err(Stop::Notes) => Err(WriteFailed),
        Err(Stop::Unread) => Ok(ToolStatus::ReadFault(Which::First)),
        Err(Stop::TooLong) => Ok(ToolStatus::InputTooLong(Which::First)),
        Err(Stop::NoEpoch) => Ok(ToolStatus::Refused(LiveFault::NoEpoch)),
    }
}

/// Inserts a script in a font. The memory of a read is taken before the first one.
fn insert_in<A: Source, K: Sink, N: Sink>(
    alloc: Global,
    command: LiveCommand,
    font: Font,
    script: &mut A,
    out: &mut K,
    notes: &mut N,
) -> Result<(), Stop>
    requires command { IsLiveCommand command }
    ensures { (second second_now : Supplied) → IsRunEnd (inserter_of command font)
        (seen (A.supplied script.old) second (K.received out.old))
        (seen (A.supplied script.new) second_now (K.received out.new))
        (N.received notes.old) (N.received notes.new) result }
{
    let Ok(mut buffer) = zeros(alloc, READ_SIZE) else {
        return Err(Stop::Memory);
    };
    let live = Live::make(alloc, command.profile, command.pid, command.page, font)?;
    insert_script(alloc, live, buffer.as_mut_slice(), script, out, notes)
}

/// Reads a script to its end, and writes its packets.
fn insert_script<A: Source, K: Sink, N: Sink>(
    alloc: Global,
    live: Live,
    buffer: &mut [u8],
    script: &mut A,
    out: &mut K,
    notes: &mut N,
) -> Result<(), Stop>
    requires nothing { HasLetIn live [] }
    requires unsent { live.outlet.sent ≡ 0 }
    requires open { live.outlet.closed ≡ false }
    requires compiled { IsCompiledFor live.inserter.profile }
    requires free { live.inserter.pid < NULL_PID }
    requires room { length buffer.old ≡ 4096 }
    ensures { (second second_now : Supplied) → IsRunEnd live.inserter
        (seen (A.supplied script.old) second (K.received out.old))
        (seen (A.supplied script.new) second_now (K.received out.new))
        (N.received notes.old) (N.received notes.new) result }
{
    let mut run = Run { live, count: 0 };
    let mut cutter = Cutter::make(alloc);
    read_script(&mut run, &mut cutter, buffer, script, out, notes)?;
    take_rest(&mut run, &cutter, out, notes)?;
    run.finish(out)
}
