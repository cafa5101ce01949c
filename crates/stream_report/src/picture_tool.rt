ghost use Rattle.packet_walk.specs.Closing.{FinishesTold};
ghost use Rattle.packet_walk.specs.ToldEnds.{IsToldEnd};
ghost use Rattle.stream_report.specs.PicturesOutcome.{HasPicturesRead, pictures_causes};
ghost use Rattle.stream_report.specs.PicturesText.{tells_pictures};
ghost use Rattle.stream_report.specs.PicturesWords.{HasBands, pictures_words as pictures_words_of};
ghost use Rattle.stream_report.specs.Private.Picturing.{HasPictured, pictures_tell};
ghost use Rattle.stream_report.specs.ReportOutcome.{HasReportedRead, report_fault_name, seen_of_stream};
ghost use Rattle.sub_base.specs.ToolOutcome.{HasToolCause, IsToolCause, IsToolRun, IsToolWhole};

use crate::pictures::Pictures;
use crate::pictures_words::{PictureReport, pictures_words};
use crate::report_fault::ReportFault;
use crate::report_status::report_status;
use command_text::{TextBuffer, tell_tool};
use decoder_model::Pages;
use packet_source::PacketSource;
use packet_walk::{ToldEnd, WalkEnd, close_walk, is_whole};
use std::alloc::Global;
use std::thread::Threads;
use sub_base::{BandGate, Profile, Sink, Source, ToolStatus, Words};

/// Carries out `pictures PROFILE PID PAGE BANDS STREAM OUT`: the text of what a receiver of a page
/// shows of the stream, `first`, at the time of each kept set, and at the end of a time-out that
/// comes before the next one, is written to `out`. How it ended is told by the answer and by one
/// line to `notes`.
pub fn pictures_top<R: Threads + Sync, A: Source, K: Sink, N: Sink, G: BandGate + Sync>(
    rt: &R,
    alloc: Global,
    words: &Words,
    first: &mut A,
    out: &mut K,
    notes: &mut N,
    gate: &G,
) -> ToolStatus<ReportFault>
    ensures cause { HasToolCause report_fault_name pictures_causes (pictures_words_of words.now)
        (seen_of_stream (A.supplied first.old) (K.received out.old))
        (seen_of_stream (A.supplied first.new) (K.received out.new))
        (N.received notes.old) (N.received notes.new) result }

    // Where the words are a command and nothing gives a cause of refusal, all is told, or memory is
    // wanting.
    ensures complete { IsToolWhole pictures_causes (pictures_words_of words.now)
        (seen_of_stream (A.supplied first.old) (K.received out.old))
        (seen_of_stream (A.supplied first.new) (K.received out.new))
        (N.received notes.old) (N.received notes.new) result }

    // Where the stream could not be read on, the texts of the packets that were read whole are
    // written; where memory is wanting, nothing was read or written.
    ensures told { HasPicturesRead (pictures_words_of words.now)
        (seen_of_stream (A.supplied first.old) (K.received out.old))
        (seen_of_stream (A.supplied first.new) (K.received out.new)) result }
{
    let status = run(rt, alloc, words, first, out, gate);
    tell_tool(status, notes)
}

/// Carries out the command that the words are, if they are one, without telling how it ended.
fn run<R: Threads + Sync, A: Source, K: Sink, G: BandGate + Sync>(
    rt: &R,
    alloc: Global,
    words: &Words,
    first: &mut A,
    out: &mut K,
    gate: &G,
) -> ToolStatus<ReportFault>
    ensures cause { IsToolRun pictures_causes (pictures_words_of words.now)
        (seen_of_stream (A.supplied first.old) (K.received out.old))
        (seen_of_stream (A.supplied first.new) (K.received out.new)) result }
    ensures told { HasPicturesRead (pictures_words_of words.now)
        (seen_of_stream (A.supplied first.old) (K.received out.old))
        (seen_of_stream (A.supplied first.new) (K.received out.new)) result }
{
    match pictures_words(words) {
        None => ToolStatus::Usage,
        Some(report) => pictures(rt, alloc, report, first, out, gate),
    }
}

/// Writes the texts of the pictures of a stream, and answers how that ended.
fn pictures<R: Threads + Sync, A: Source, K: Sink, G: BandGate + Sync>(
    rt: &R,
    alloc: Global,
    report: PictureReport,
    stream: &mut A,
    out: &mut K,
    gate: &G,
) -> ToolStatus<ReportFault>
    requires bands { HasBands report }
    ensures cause { let before = seen_of_stream (A.supplied stream.old) (K.received out.old) in
        let now = seen_of_stream (A.supplied stream.new) (K.received out.new) in
        IsToolCause (pictures_causes report before now) before now result }
    ensures told { HasReportedRead (tells_pictures report) report.pid
        (seen_of_stream (A.supplied stream.old) (K.received out.old))
        (seen_of_stream (A.supplied stream.new) (K.received out.new)) result }
{
    report_status(tell_pictures(rt, alloc, report, stream, out, gate))
}

/// Writes the texts of the pictures of a stream. All memory is taken before the first byte is read.
fn tell_pictures<R: Threads + Sync, A: Source, K: Sink, G: BandGate + Sync>(
    rt: &R,
    alloc: Global,
    report: PictureReport,
    stream: &mut A,
    out: &mut K,
    gate: &G,
) -> ToldEnd
    requires bands { HasBands report }
    ensures { IsToldEnd (tells_pictures report) report.pid
        (A.supplied stream.old)
        (A.supplied stream.new)
        (K.received out.old)
        (K.received out.new)
        result }
{
    let profile = Profile::of(report.profile);
    let pages = Pages::only(report.page);
    let Ok(mut buffer) = TextBuffer::make(alloc) else {
        return ToldEnd::Memory;
    };
    let Ok(mut packets) = PacketSource::make(alloc) else {
        return ToldEnd::Memory;
    };
    let Ok(mut pictures) = Pictures::make(alloc, report.bands, &profile, report.pid, pages) else {
        return ToldEnd::Memory;
    };
    let end = pictures.walk(rt, gate, stream, out, &mut buffer, &mut packets);
    finish(rt, gate, &mut pictures, out, &mut buffer, end);
    close_walk(out, &mut buffer, end)
}

/// Puts out what is told of a stream that has ended, where it was read to its end.
fn finish<R: Threads + Sync, G: BandGate + Sync, K: Sink>(
    rt: &R,
    gate: &G,
    pictures: &mut Pictures,
    out: &mut K,
    buffer: &mut TextBuffer,
    end: WalkEnd,
)
    ensures { FinishesTold (HasPictured pictures.old) (pictures_tell pictures.old)
        (K.received out.old)
        (K.received out.new)
        buffer.old buffer.new end }
{
    if is_whole(end) {
        pictures.finish(rt, gate, out, buffer);
    }
}
