ghost use Rattle.std.specs.Prelude.{◌≡◌, false};
ghost use Rattle.packet_walk.specs.Closing.{FinishesTold};
ghost use Rattle.service_text.specs.Telling.{HasTakenStream, is_wanting};
ghost use Rattle.stream_report.specs.PidsOutcome.{HasPidsRead, HasToldPids, IsPidsEnd, pids_causes, tells_pids};
ghost use Rattle.stream_report.specs.PidsWords.{pids_words as pids_words_of};
ghost use Rattle.stream_report.specs.ReportOutcome.{report_fault_name, seen_of_stream};
ghost use Rattle.sub_base.specs.ToolOutcome.{HasToolCause, IsToolCause, IsToolRun, IsToolWhole};

use crate::pids_words::pids_words;
use crate::report_fault::ReportFault;
use crate::report_status::report_status;
use command_text::{TextBuffer, tell_tool};
use packet_source::PacketSource;
use packet_walk::{ToldEnd, WalkEnd, close_walk, walk_packets};
use service_text::PidTeller;
use std::alloc::Global;
use sub_base::{Sink, Source, ToolStatus, Words};

/// Carries out `pids STREAM OUT`: what the stream, `first`, has of subtitles on each of its PIDs,
/// and the services that its tables list, are written to `out`. How it ended is told by the answer
/// and by one line to `notes`.
pub fn pids_top<A: Source, K: Sink, N: Sink>(
    alloc: Global,
    words: &Words,
    first: &mut A,
    out: &mut K,
    notes: &mut N,
) -> ToolStatus<ReportFault>
    ensures cause { HasToolCause report_fault_name pids_causes (pids_words_of words.now)
        (seen_of_stream (A.supplied first.old) (K.received out.old))
        (seen_of_stream (A.supplied first.new) (K.received out.new))
        (N.received notes.old) (N.received notes.new) result }

    // Where the words are a command and nothing gives a cause of refusal, all is told, or memory is
    // wanting.
    ensures complete { IsToolWhole pids_causes (pids_words_of words.now)
        (seen_of_stream (A.supplied first.old) (K.received out.old))
        (seen_of_stream (A.supplied first.new) (K.received out.new))
        (N.received notes.old) (N.received notes.new) result }

    // Where the stream could not be read on, the text of the packets that were read whole is
    // written; where memory is wanting, nothing was written.
    ensures told { HasPidsRead (pids_words_of words.now)
        (seen_of_stream (A.supplied first.old) (K.received out.old))
        (seen_of_stream (A.supplied first.new) (K.received out.new)) result }
{
    let status = run(alloc, words, first, out);
    tell_tool(status, notes)
}

/// Carries out the command that the words are, if they are one, without telling how it ended.
fn run<A: Source, K: Sink>(
    alloc: Global,
    words: &Words,
    first: &mut A,
    out: &mut K,
) -> ToolStatus<ReportFault>
    ensures cause { IsToolRun pids_causes (pids_words_of words.now)
        (seen_of_stream (A.supplied first.old) (K.received out.old))
        (seen_of_stream (A.supplied first.new) (K.received out.new)) result }
    ensures told { HasPidsRead (pids_words_of words.now)
        (seen_of_stream (A.supplied first.old) (K.received out.old))
        (seen_of_stream (A.supplied first.new) (K.received out.new)) result }
{
    match pids_words(words) {
        None => ToolStatus::Usage,
        Some(_) => pids(alloc, first, out),
    }
}

/// Writes the text of the PIDs of a stream, and answers how that ended.
fn pids<A: Source, K: Sink>(alloc: Global, stream: &mut A, out: &mut K) -> ToolStatus<ReportFault>
    ensures cause { let before = seen_of_stream (A.supplied stream.old) (K.received out.old) in
        let now = seen_of_stream (A.supplied stream.new) (K.received out.new) in
        IsToolCause (pids_causes (record {}) before now) before now result }
    ensures told { HasToldPids
        (seen_of_stream (A.supplied stream.old) (K.received out.old))
        (seen_of_stream (A.supplied stream.new) (K.received out.new)) result }
{
    report_status(tell_pids(alloc, stream, out))
}

/// Writes the text of the PIDs of a stream and of its services. A PID and a programme take their
/// memory as they are met.
fn tell_pids<A: Source, K: Sink>(alloc: Global, stream: &mut A, out: &mut K) -> ToldEnd
    ensures { IsPidsEnd
        (A.supplied stream.old)
        (A.supplied stream.new)
        (K.received out.old)
        (K.received out.new)
        result }
{
    let Ok(mut buffer) = TextBuffer::make(alloc) else {
        return ToldEnd::Memory;
    };
    let Ok(mut packets) = PacketSource::make(alloc) else {
        return ToldEnd::Memory;
    };
    let Ok(mut teller) = PidTeller::make(alloc) else {
        return ToldEnd::Memory;
    };
    let end = walk_packets(stream, out, &mut buffer, &mut teller, &mut packets);
    if teller.is_wanting() {
        return ToldEnd::Memory;
    }
    finish(&mut teller, out, &mut buffer, end);
    close_walk(out, &mut buffer, end)
}

/// Puts out what is told of the packets that were taken, where the output could be written.
fn finish<K: Sink>(teller: &mut PidTeller, out: &mut K, buffer: &mut TextBuffer, end: WalkEnd)
    requires { is_wanting teller.old ≡ false }
    ensures { FinishesTold (HasTakenStream teller.old) tells_pids
        (K.received out.old)
        (K.received out.new)
        buffer.old buffer.new end }
{
    match end {
        WalkEnd::Stream(_) => teller.put_text(out, buffer),
        WalkEnd::Refused(_) => teller.put_text(out, buffer),
        WalkEnd::Unwritten => {}
    }
}
