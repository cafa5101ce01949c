ghost use Rattle.std.specs.Prelude.{◌≡◌};
ghost use Rattle.command_words.specs.Ticks.{asked_ticks};
ghost use Rattle.sub_base.specs.Seen.{seen};
ghost use Rattle.sub_base.specs.ToolOutcome.{HasToolCause, IsToolCause, IsToolRun, IsToolWhole};
ghost use Rattle.page_pair.specs.PairOutcome.{pair_causes, pair_fault_name};
ghost use Rattle.page_pair.specs.PairTop.{HasKept, HasToldWhole, pair_command, tool_causes};
ghost use Rattle.page_pair.specs.PairWords.{IsPairing};
ghost use Rattle.page_pair.specs.Private.Ending.{IsSendEnd};
ghost use Rattle.page_pair.specs.Private.Reading.{first_status as first_status_of, second_status as second_status_of};

use crate::pair_command::{PairCommand, command_of};
use crate::pair_dump::pair_dump;
use crate::pair_fault::PairFault;
use crate::pair_stop::PairStop;
use crate::pair_stream::PairStream;
use crate::pair_words::Pairing;
use crate::plain_script::{ReadStop, read_plain};
use command_text::tell_tool;
use cue_list::Script;
use slot_stream::StreamFault;
use std::alloc::Global;
use std::thread::Threads;
use sub_base::{BandGate, Sink, Source, ToolStatus, Which, Words};

/// Carries out `pair PROFILE PID PAGE1 PAGE2 ANC SCRIPT1 SCRIPT2 OUT`: two scripts, `first` and
/// `second`, are sent on one PID, and the packets written to `out`. Or `pairdump PROFILE PID PAGE
/// ANC BANDS STREAM OUT TICK...`: the pictures of one language of a stream, `first`, are written
/// to `out`. How it ended is told by the answer and by one line to `notes`.
pub fn pair_top<R: Threads + Sync, A: Source, B: Source, K: Sink, N: Sink, G: BandGate + Sync>(
    rt: &R,
    alloc: Global,
    words: &Words,
    first: &mut A,
    second: &mut B,
    out: &mut K,
    notes: &mut N,
    gate: &G,
) -> ToolStatus<PairFault>
    ensures cause { HasToolCause pair_fault_name (tool_causes words.now) (pair_command words.now)
        (seen (A.supplied first.old) (B.supplied second.old) (K.received out.old))
        (seen (A.supplied first.new) (B.supplied second.new) (K.received out.new))
        (N.received notes.old) (N.received notes.new) result }

    // Where the words are a command and nothing gives a cause of refusal, it is done, or memory is
    // wanting.
    ensures complete { IsToolWhole (tool_causes words.now) (pair_command words.now)
        (seen (A.supplied first.old) (B.supplied second.old) (K.received out.old))
        (seen (A.supplied first.new) (B.supplied second.new) (K.received out.new))
        (N.received notes.old) (N.received notes.new) result }

    // Where memory is wanting, `pair` has written nothing.
    ensures kept { HasKept (pair_command words.now)
        (seen (A.supplied first.old) (B.supplied second.old) (K.received out.old))
        (seen (A.supplied first.new) (B.supplied second.new) (K.received out.new)) result }

    // Where its stream could not be read, `pairdump` has written the texts of the packets that were
    // read whole; where memory is wanting, it has read and written nothing.
    ensures told { HasToldWhole (asked_ticks 8 words.now) (pair_command words.now)
        (seen (A.supplied first.old) (B.supplied second.old) (K.received out.old))
        (seen (A.supplied first.new) (B.supplied second.new) (K.received out.new)) result }
{
    let status = run(rt, alloc, words, first, second, out, gate);
    tell_tool(status, notes)
}

/// Carries out the command that the words are, if they are one, without telling how it ended.
fn run<R: Threads + Sync, A: Source, B: Source, K: Sink, G: BandGate + Sync>(
    rt: &R,
    alloc: Global,
    words: &Words,
    first: &mut A,
    second: &mut B,
    out: &mut K,
    gate: &G,
) -> ToolStatus<PairFault>
    ensures cause { IsToolRun (tool_causes words.now) (pair_command words.now)
        (seen (A.supplied first.old) (B.supplied second.old) (K.received out.old))
        (seen (A.supplied first.new) (B.supplied second.new) (K.received out.new)) result }
    ensures kept { HasKept (pair_command words.now)
        (seen (A.supplied first.old) (B.supplied second.old) (K.received out.old))
        (seen (A.supplied first.new) (B.supplied second.new) (K.received out.new)) result }
    ensures told { HasToldWhole (asked_ticks 8 words.now) (pair_command words.now)
        (seen (A.supplied first.old) (B.supplied second.old) (K.received out.old))
        (seen (A.supplied first.new) (B.supplied second.new) (K.received out.new)) result }
{
    match command_of(words) {
        None => ToolStatus::Usage,
        Some(PairCommand::Pair(pairing)) => pair(alloc, pairing, first, second, out),
        Some(PairCommand::Dump(dump)) => pair_dump(rt, alloc, words, dump, first, out, gate),
    }
}

/// Sends two scripts on one PID.
fn pair<A: Source, B: Source, K: Sink>(
    alloc: Global,
    pairing: Pairing,
    first: &mut A,
    second: &mut B,
    out: &mut K,
) -> ToolStatus<PairFault>
    requires pairing { IsPairing pairing }
    ensures cause { IsToolCause (pair_causes pairing
        (seen (A.supplied first.old) (B.supplied second.old) (K.received out.old))
        (seen (A.supplied first.new) (B.supplied second.new) (K.received out.new)))
        (seen (A.supplied first.old) (B.supplied second.old) (K.received out.old))
        (seen (A.supplied first.new) (B.supplied second.new) (K.received out.new)) result }
    ensures kept { HasKept (Some (PairCommand.Pair pairing))
        (seen (A.supplied first.old) (B.supplied second.old) (K.received out.old))
        (seen (A.supplied first.new) (B.supplied second.new) (K.received out.new)) result }
{
    let one = match read_plain(alloc, first, second) {
        Ok(script) => script,
        Err(stop) => return first_status(stop),
    };
    let two = match read_plain(alloc, second, first) {
        Ok(script) => script,
        Err(stop) => return second_status(stop),
    };
    send(alloc, pairing, &one, &two, out)
}

/// The status where the first script was not read.
fn first_status(stop: ReadStop) -> ToolStatus<PairFault>
    ensures { result ≡ first_status_of stop }
{
    match stop {
        ReadStop::Memory => ToolStatus::Memory,
        ReadStop::Refused(fault) => ToolStatus::Refused(PairFault::FirstScript(fault)),
        ReadStop::Unread => ToolStatus::ReadFault(Which::First),
        ReadStop::TooLong => ToolStatus::InputTooLong(Which::First),
    }
}

/// The status where the second script was not read.
fn second_status(stop: ReadStop) -> ToolStatus<PairFault>
    ensures { result ≡ second_status_of stop }
{
    match stop {
        ReadStop::Memory => ToolStatus::Memory,
        ReadStop::Refused(fault) => ToolStatus::Refused(PairFault::SecondScript(fault)),
        ReadStop::Unread => ToolStatus::ReadFault(Which::Second),
        ReadStop::TooLong => ToolStatus::InputTooLong(Which::Second),
    }
}

/// Sends two scripts that were read. Nothing is written before all memory is taken and every reason
/// to refuse them is found.
fn send<K: Sink>(
    alloc: Global,
    pairing: Pairing,
    first: &Script,
    second: &Script,
    out: &mut K,
) -> ToolStatus<PairFault>
    requires pairing { IsPairing pairing }
    ensures { IsSendEnd pairing first.now second.now
        (K.received out.old) (K.received out.new) result }
{
    let Pairing {
        profile,
        pid,
        pages,
    } = pairing;
    let stream = match PairStream::make(alloc, profile, pid, pages, first, second) {
        Ok(stream) => stream,
        Err(PairStop::Memory) => return ToolStatus::Memory,
        Err(PairStop::Refused(fault)) => return ToolStatus::Refused(fault),
    };
    match stream.write(alloc, out) {
        Ok(()) => ToolStatus::Done,
        Err(StreamFault::Memory) => ToolStatus::Memory,
        Err(StreamFault::Write) => ToolStatus::WriteFault(Which::Out),
    }
}
