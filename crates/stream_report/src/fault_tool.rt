ghost use Rattle.fault_text.specs.Faulting.{HasFaulted, faults_tell};
ghost use Rattle.packet_walk.specs.Closing.{FinishesTold};
ghost use Rattle.packet_walk.specs.ToldEnds.{IsToldEnd};
ghost use Rattle.stream_report.specs.FaultsOutcome.{HasFaultsRead, faults_causes, tells_faults};
ghost use Rattle.stream_report.specs.FaultsWords.{faults_words as faults_words_of};
ghost use Rattle.stream_report.specs.ReportOutcome.{HasReportedRead, report_fault_name, seen_of_stream};
ghost use Rattle.sub_base.specs.ToolOutcome.{HasToolCause, IsToolCause, IsToolRun, IsToolWhole};

use crate::faults_words::{FaultReport, faults_words};
use crate::report_fault::ReportFault;
use crate::report_status::report_status;
use command_text::{TextBuffer, tell_tool};
use decoder_model::Pages;
use fault_text::Faults;
use packet_source::PacketSource;
use packet_walk::{ToldEnd, WalkEnd, close_walk, is_whole, walk_packets};
use std::alloc::Global;
use sub_base::{Profile, Sink, Source, ToolStatus, Words};

/// Carries out `faults PROFILE PID PAGE STREAM OUT`: what is wrong with the display sets of a page
/// in the stream, `first`, which regions of shown sets pass the edges of the display, and how many
/// sets came to each end is written to `out`. How it ended is told by the answer and by one line to
/// `notes`.
pub fn faults_top<A: Source, K: Sink, N: Sink>(
    alloc: Global,
    words: &Words,
    first: &mut A,
    out: &mut K,
    notes: &mut N,
) -> ToolStatus<ReportFault>
    ensures cause { HasToolCause report_fault_name faults_causes (faults_words_of words.now)
        (seen_of_stream (A.supplied first.old) (K.received out.old))
        (seen_of_stream (A.supplied first.new) (K.received out.new))
        (N.received notes.old) (N.received notes.new) result }

    // Where the words are a command and nothing gives a cause of refusal, all is told, or memory is
    // wanting.
    ensures complete { IsToolWhole faults_causes (faults_words_of words.now)
        (seen_of_stream (A.supplied first.old) (K.received out.old))
        (seen_of_stream (A.supplied first.new) (K.received out.new))
        (N.received notes.old) (N.received notes.new) result }

    // Where the stream could not be read on, the text of the packets that were read whole is
    // written; where memory is wanting, nothing was read or written.
    ensures told { HasFaultsRead (faults_words_of words.now)
        (seen_of_stream (A.supplied first.old) (K.received out.old))
        (seen_of_stream (A.supplied first.new) (K.received out.new)) result }
{
    let status = run(alloc, words, first, out);
    tell_tool(status, notes)
}

/// Carries out the command that the words are, if they are one, without telling how it ended.
fn run<A: Source, K: Sink>(
    alloc: Global,
    words: &Words,
    first: &mut A,
    out: &mut K,
) -> ToolStatus<ReportFault>
    ensures cause { IsToolRun faults_causes (faults_words_of words.now)
        (seen_of_stream (A.supplied first.old) (K.received out.old))
        (seen_of_stream (A.supplied first.new) (K.received out.new)) result }
    ensures told { HasFaultsRead (faults_words_of words.now)
        (seen_of_stream (A.supplied first.old) (K.received out.old))
        (seen_of_stream (A.supplied first.new) (K.received out.new)) result }
{
    match faults_words(words) {
        None => ToolStatus::Usage,
        Some(report) => faults(alloc, report, first, out),
    }
}

/// Writes what is told of a stream, and answers how that ended.
fn faults<A: Source, K: Sink>(
    alloc: Global,
    report: FaultReport,
    stream: &mut A,
    out: &mut K,
) -> ToolStatus<ReportFault>
    ensures cause { let before = seen_of_stream (A.supplied stream.old) (K.received out.old) in
        let now = seen_of_stream (A.supplied stream.new) (K.received out.new) in
        IsToolCause (faults_causes report before now) before now result }
    ensures told { HasReportedRead (tells_faults report) report.pid
        (seen_of_stream (A.supplied stream.old) (K.received out.old))
        (seen_of_stream (A.supplied stream.new) (K.received out.new)) result }
{
    report_status(tell_faults(alloc, report, stream, out))
}

/// Writes what is told of a stream. All memory is taken before the first byte is read.
fn tell_faults<A: Source, K: Sink>(
    alloc: Global,
    report: FaultReport,
    stream: &mut A,
    out: &mut K,
) -> ToldEnd
    ensures { IsToldEnd (tells_faults report) report.pid
        (A.supplied stream.old)
        (A.supplied stream.new)
        (K.received out.old)
        (K.received out.new)
        result }
{
    let profile = Profile::of(report.profile);
    let pages = Pages::only(report.page);
    let Ok(mut buffer) = TextBuffer::make(alloc) else {
        return ToldEnd::Memory;
    };
    let Ok(mut packets) = PacketSource::make(alloc) else {
        return ToldEnd::Memory;
    };
    let Ok(mut faults) = Faults::make(alloc, &profile, report.pid, pages) else {
        return ToldEnd::Memory;
    };
    let end = walk_packets(stream, out, &mut buffer, &mut faults, &mut packets);
    finish(&mut faults, out, &mut buffer, end);
    close_walk(out, &mut buffer, end)
}

/// Puts out what is told of a stream that has ended, where it was read to its end.
fn finish<K: Sink>(faults: &mut Faults, out: &mut K, buffer: &mut TextBuffer, end: WalkEnd)
    ensures { FinishesTold (HasFaulted faults.old) (faults_tell faults.old)
        (K.received out.old)
        (K.received out.new)
        buffer.old buffer.new end }
{
    if is_whole(end) {
        faults.finish(out, buffer);
    }
}
