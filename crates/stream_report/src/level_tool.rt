ghost use Rattle.std.specs.Prelude.{◌≤◌, Some};
ghost use Rattle.decoder_model.specs.Received.{for_page};
ghost use Rattle.level_text.specs.Levelling.{HasLevelled, levels_tell};
ghost use Rattle.level_text.specs.declared.rate_clock.TheConstants.{GREATEST_RATE, LEAST_RATE};
ghost use Rattle.packet_walk.specs.Closing.{FinishesTold};
ghost use Rattle.packet_walk.specs.ToldEnds.{IsToldEnd};
ghost use Rattle.stream_report.specs.LevelsOutcome.{HasLevelsRead, IsLevelsEnd, levels_causes, tells_of};
ghost use Rattle.stream_report.specs.LevelsWords.{MayArrive, levels_words as levels_words_of};
ghost use Rattle.stream_report.specs.Private.ClockEnds.{FinishesByClock};
ghost use Rattle.stream_report.specs.ReportOutcome.{IsLaterEnd, report_fault_name, seen_of_stream};
ghost use Rattle.stream_report.specs.declared.levels_words.Arrival.TheVariants.{Clock, Rate};
ghost use Rattle.sub_base.specs.ToolOutcome.{HasToolCause, IsToolCause, IsToolRun, IsToolWhole};

use crate::levels_words::{Arrival, LevelReport, levels_words};
use crate::report_fault::ReportFault;
use crate::report_status::report_status;
use command_text::{TextBuffer, tell_tool};
use decoder_model::Pages;
use level_text::{ProgrammeLevels, RateLevels};
use packet_source::PacketSource;
use packet_walk::{ToldEnd, WalkEnd, close_walk, is_whole, walk_packets};
use std::alloc::Global;
use sub_base::{Profile, Sink, Source, ToolStatus, Words};

/// Carries out `levels PROFILE PID PAGE RATE STREAM OUT`: what becomes of each display set of a
/// page in the stream, `first`, when it is done, and how full the coded data buffer becomes, where
/// the packets come at an even rate, or by the clock of their programme, is written to `out`. How
/// it ended is told by the answer and by one line to `notes`.
pub fn levels_top<A: Source, K: Sink, N: Sink>(
    alloc: Global,
    words: &Words,
    first: &mut A,
    out: &mut K,
    notes: &mut N,
) -> ToolStatus<ReportFault>
    ensures cause { HasToolCause report_fault_name levels_causes (levels_words_of words.now)
        (seen_of_stream (A.supplied first.old) (K.received out.old))
        (seen_of_stream (A.supplied first.new) (K.received out.new))
        (N.received notes.old) (N.received notes.new) result }

    // Where the words are a command and nothing gives a cause of refusal, all is told, or memory is
    // wanting.
    ensures complete { IsToolWhole levels_causes (levels_words_of words.now)
        (seen_of_stream (A.supplied first.old) (K.received out.old))
        (seen_of_stream (A.supplied first.new) (K.received out.new))
        (N.received notes.old) (N.received notes.new) result }

    // Where the stream could not be read on, the text of the packets that were read whole is
    // written; where memory is wanting at a rate, nothing was read or written.
    ensures told { HasLevelsRead (levels_words_of words.now)
        (seen_of_stream (A.supplied first.old) (K.received out.old))
        (seen_of_stream (A.supplied first.new) (K.received out.new)) result }
{
    let status = run(alloc, words, first, out);
    tell_tool(status, notes)
}

/// Carries out the command that the words are, if they are one, without telling how it ended.
fn run<A: Source, K: Sink>(
    alloc: Global,
    words: &Words,
    first: &mut A,
    out: &mut K,
) -> ToolStatus<ReportFault>
    ensures cause { IsToolRun levels_causes (levels_words_of words.now)
        (seen_of_stream (A.supplied first.old) (K.received out.old))
        (seen_of_stream (A.supplied first.new) (K.received out.new)) result }
    ensures told { HasLevelsRead (levels_words_of words.now)
        (seen_of_stream (A.supplied first.old) (K.received out.old))
        (seen_of_stream (A.supplied first.new) (K.received out.new)) result }
{
    match levels_words(words) {
        None => ToolStatus::Usage,
        Some(report) => levels(alloc, report, first, out),
    }
}

/// Writes the text of the sets and levels of a stream, and answers how that ended.
fn levels<A: Source, K: Sink>(
    alloc: Global,
    report: LevelReport,
    stream: &mut A,
    out: &mut K,
) -> ToolStatus<ReportFault>
    requires arrival { MayArrive report.arrival }
    ensures cause { let before = seen_of_stream (A.supplied stream.old) (K.received out.old) in
        let now = seen_of_stream (A.supplied stream.new) (K.received out.new) in
        IsToolCause (levels_causes report before now) before now result }
    ensures told { HasLevelsRead (Some report)
        (seen_of_stream (A.supplied stream.old) (K.received out.old))
        (seen_of_stream (A.supplied stream.new) (K.received out.new)) result }
{
    report_status(tell_levels(alloc, report, stream, out))
}

/// Writes the text of the sets and levels of a stream.
fn tell_levels<A: Source, K: Sink>(
    alloc: Global,
    report: LevelReport,
    stream: &mut A,
    out: &mut K,
) -> ToldEnd
    requires arrival { MayArrive report.arrival }
    ensures { IsLevelsEnd report.arrival (for_page report.profile report.pid report.page 0)
        (A.supplied stream.old)
        (A.supplied stream.new)
        (K.received out.old)
        (K.received out.new)
        result }
{
    match report.arrival {
        Arrival::Rate(rate) => tell_by_rate(alloc, report, rate, stream, out),
        Arrival::Clock => tell_by_clock(alloc, report, stream, out),
    }
}

/// The same where packets arrive at that rate. All memory is taken before the first byte is read.
fn tell_by_rate<A: Source, K: Sink>(
    alloc: Global,
    report: LevelReport,
    rate: u64,
    stream: &mut A,
    out: &mut K,
) -> ToldEnd
    requires least { LEAST_RATE ≤ rate }
    requires most { rate ≤ GREATEST_RATE }
    ensures { IsToldEnd
        (tells_of (Rate rate) (for_page report.profile report.pid report.page 0)) report.pid
        (A.supplied stream.old)
        (A.supplied stream.new)
        (K.received out.old)
        (K.received out.new)
        result }
{
    let profile = Profile::of(report.profile);
    let pages = Pages::only(report.page);
    let Ok(mut buffer) = TextBuffer::make(alloc) else {
        return ToldEnd::Memory;
    };
    let Ok(mut packets) = PacketSource::make(alloc) else {
        return ToldEnd::Memory;
    };
    let Ok(mut levels) = RateLevels::make(alloc, &profile, report.pid, pages, rate) else {
        return ToldEnd::Memory;
    };
    let end = walk_packets(stream, out, &mut buffer, &mut levels, &mut packets);
    finish(&mut levels, out, &mut buffer, end);
    close_walk(out, &mut buffer, end)
}

/// Puts out what is told of a stream that has ended, where it was read to its end.
fn finish<K: Sink>(levels: &mut RateLevels, out: &mut K, buffer: &mut TextBuffer, end: WalkEnd)
    ensures { FinishesTold (HasLevelled levels.old) (levels_tell levels.old)
        (K.received out.old)
        (K.received out.new)
        buffer.old buffer.new end }
{
    if is_whole(end) {
        levels.finish(out, buffer);
    }
}

/// Writes the text where packets arrive by the clock of the programme that lists their PID.
fn tell_by_clock<A: Source, K: Sink>(
    alloc: Global,
    report: LevelReport,
    stream: &mut A,
    out: &mut K,
) -> ToldEnd
    ensures { IsLaterEnd
        (tells_of Clock (for_page report.profile report.pid report.page 0)) report.pid
        (A.supplied stream.old)
        (A.supplied stream.new)
        (K.received out.old)
        (K.received out.new)
        result }
{
    let profile = Profile::of(report.profile);
    let pages = Pages::only(report.page);
    let Ok(mut buffer) = TextBuffer::make(alloc) else {
        return ToldEnd::Memory;
    };
    let Ok(mut packets) = PacketSource::make(alloc) else {
        return ToldEnd::Memory;
    };
    let Ok(mut levels) = ProgrammeLevels::make(alloc, &profile, report.pid, pages) else {
        return ToldEnd::Memory;
    };
    let end = walk_packets(stream, out, &mut buffer, &mut levels, &mut packets);
    if finish_by_clock(levels, out, &mut buffer, end) {
        return ToldEnd::Memory;
    }
    close_walk(out, &mut buffer, end)
}

/// Puts out what is told of the packets that are held, and of the stream where it was read to its
/// end; where the output could not be written, nothing more. Answers whether memory was wanting.
fn finish_by_clock<K: Sink>(
    levels: ProgrammeLevels,
    out: &mut K,
    buffer: &mut TextBuffer,
    end: WalkEnd,
) -> bool
    ensures { FinishesByClock levels
        (K.received out.old)
        (K.received out.new)
        buffer.old buffer.new end result }
{
    if levels.is_wanting() {
        return true;
    }
    match end {
        WalkEnd::Stream(_) => levels.finish(out, buffer, is_whole(end)),
        WalkEnd::Refused(_) => levels.finish(out, buffer, false),
        WalkEnd::Unwritten => false,
    }
}
