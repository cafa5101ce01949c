ghost use Rattle.std.specs.Prelude.{◌≡◌, ◌||◌, [], false, not};
ghost use Rattle.sub_base.specs.Endpoints.{Supplied};
ghost use Rattle.sub_base.specs.Seen.{seen};
ghost use Rattle.sub_base.specs.ToolOutcome.{HasToolCause, IsToolCause, IsToolRun, IsToolWhole};
ghost use Rattle.service_mux.specs.MuxOutcome.{mux_causes, mux_fault_name};
ghost use Rattle.service_mux.specs.MuxWords.{AreServices, mux_words};
ghost use Rattle.service_mux.specs.Private.Stopping.{stop_status};
ghost use Rattle.service_mux.specs.Private.Frames.{HaveNotTurned};
ghost use Rattle.service_mux.specs.Private.Lanes.{HasPassed, IsSound};

use crate::frames::{Multiplexer, put_frame, put_tables};
use crate::lane::LaneStop;
use crate::mux_fault::MuxFault;
use crate::mux_words::{ServicePair, services_of};
use command_text::{TextBuffer, close_tool, tell_tool};
use std::alloc::Global;
use sub_base::{Sink, Source, ToolStatus, Which, Words};

/// Joins two streams to one multiplex with the tables that name their services, as the words `mux
/// N1 M1 PID1 PAGE1 LANG1 N2 M2 PID2 PAGE2 LANG2 STREAM1 STREAM2 OUT` say: reads both streams,
/// writes the multiplex to `out`, and tells how it ended, by its answer and by one line to `notes`.
pub fn mux_top<A: Source, B: Source, K: Sink, N: Sink>(
    alloc: Global,
    words: &Words,
    first: &mut A,
    second: &mut B,
    out: &mut K,
    notes: &mut N,
) -> ToolStatus<MuxFault>
    ensures cause { HasToolCause mux_fault_name mux_causes (mux_words words.now)
        (seen (A.supplied first.old) (B.supplied second.old) (K.received out.old))
        (seen (A.supplied first.new) (B.supplied second.new) (K.received out.new))
        (N.received notes.old) (N.received notes.new) result }

    // Where the words are a command and nothing gives a cause of refusal, it is done, or memory is
    // wanting.
    ensures complete { IsToolWhole mux_causes (mux_words words.now)
        (seen (A.supplied first.old) (B.supplied second.old) (K.received out.old))
        (seen (A.supplied first.new) (B.supplied second.new) (K.received out.new))
        (N.received notes.old) (N.received notes.new) result }
{
    let status = run(alloc, words, first, second, out);
    tell_tool(status, notes)
}

/// Carries out the command, without telling how it ended.
fn run<A: Source, B: Source, K: Sink>(
    alloc: Global,
    words: &Words,
    first: &mut A,
    second: &mut B,
    out: &mut K,
) -> ToolStatus<MuxFault>
    ensures { IsToolRun mux_causes (mux_words words.now)
        (seen (A.supplied first.old) (B.supplied second.old) (K.received out.old))
        (seen (A.supplied first.new) (B.supplied second.new) (K.received out.new))
        result }
{
    match services_of(words) {
        None => ToolStatus::Usage,
        Some(pair) => join(alloc, &pair, first, second, out),
    }
}

/// Joins the streams of two services.
fn join<A: Source, B: Source, K: Sink>(
    alloc: Global,
    pair: &ServicePair,
    first: &mut A,
    second: &mut B,
    out: &mut K,
) -> ToolStatus<MuxFault>
    requires { AreServices pair.now }
    ensures { IsToolCause (mux_causes pair.now
        (seen (A.supplied first.old) (B.supplied second.old) (K.received out.old))
        (seen (A.supplied first.new) (B.supplied second.new) (K.received out.new)))
        (seen (A.supplied first.old) (B.supplied second.old) (K.received out.old))
        (seen (A.supplied first.new) (B.supplied second.new) (K.received out.new))
        result }
{
    let Ok(mut mux) = Multiplexer::make(alloc, pair) else {
        return ToolStatus::Memory;
    };
    let Ok(mut buffer) = TextBuffer::make(alloc) else {
        return ToolStatus::Memory;
    };
    put_all(&mut mux, &mut buffer, first, second, out)
}

/// Puts out the tables and the frames of the streams, and writes what waits, up to the end of both
/// or to what stops it.
fn put_all<A: Source, B: Source, K: Sink>(
    mux: &mut Multiplexer,
    buffer: &mut TextBuffer,
    first: &mut A,
    second: &mut B,
    out: &mut K,
) -> ToolStatus<MuxFault>
    requires tables { HaveNotTurned mux.old.pair mux.old }
    requires buffer { buffer.old ≡ record { waits = []; failed = false } }
    requires first { (now : Supplied) → HasPassed now now mux.old.one.lane [] }
    requires second { (now : Supplied) → HasPassed now now mux.old.two.lane [] }
    requires sound { IsSound mux.old.one.lane × IsSound mux.old.two.lane }
    // What is written of services that differ gives each of them again.
    ensures { AreServices mux.old.pair → IsToolCause (mux_causes mux.old.pair
        (seen (A.supplied first.old) (B.supplied second.old) (K.received out.old))
        (seen (A.supplied first.new) (B.supplied second.new) (K.received out.new)))
        (seen (A.supplied first.old) (B.supplied second.old) (K.received out.old))
        (seen (A.supplied first.new) (B.supplied second.new) (K.received out.new)) result }
{
    put_tables(out, buffer, mux);
    let mut frame = 0u64;
    while !buffer.has_failed() {
        let has_first = match mux.one.lane.reach(first) {
            Ok(more) => more,
            Err(stop) => return close_tool(out, buffer, stopped(stop, Which::First)),
        };
        if mux.one.lane.lacks_sync(has_first) {
            let fault = MuxFault::FirstNoSync { packet: frame };
            return close_tool(out, buffer, ToolStatus::Refused(fault));
        }
        let has_second = match mux.two.lane.reach(second) {
            Ok(more) => more,
            Err(stop) => return close_tool(out, buffer, stopped(stop, Which::Second)),
        };
        if mux.two.lane.lacks_sync(has_second) {
            let fault = MuxFault::SecondNoSync { packet: frame };
            return close_tool(out, buffer, ToolStatus::Refused(fault));
        }
        if is_end(has_first, has_second) {
            return close_tool(out, buffer, ToolStatus::Done);
        }
        put_frame(out, buffer, mux, frame, has_first, has_second);
        frame += 1;
    }
    ToolStatus::WriteFault(Which::Out)
}

/// Whether neither stream has a packet more.
fn is_end(has_first: bool, has_second: bool) -> bool
    ensures { result ≡ not (has_first || has_second) }
{
    !(has_first || has_second)
}

/// How a stream that gives no packet more before its end stops the command.
fn stopped(stop: LaneStop, which: Which) -> ToolStatus<MuxFault>
    ensures { result ≡ stop_status stop which }
{
    match stop {
        LaneStop::Unread => ToolStatus::ReadFault(which),
        LaneStop::TooLong => ToolStatus::InputTooLong(which),
    }
}
