use crate::same::same;
use dvbsub_cmd::top;
use live_plan::live_top;
use page_pair::pair_top;
use samples::{sink_of, source_of, words_of};
use service_mux::{mux_top, take_top};
use splice::splice_top;
use std::alloc::Global;
use std::panic::Expect;
use std::process::Abort;
use std::thread::Threads;
use sub_base::{MemSink, NoGate, Sink, Source};

/// A command, and what its first and its second source hold.
#[derive(Clone, Copy)]
pub(crate) struct Asked<'a> {
    pub line: &'a str,
    pub first: &'a [u8],
    pub second: &'a [u8],
}

/// A command that reads one source.
pub(crate) fn reading<'a>(line: &'a str, first: &'a [u8]) -> Asked<'a> {
    Asked {
        line,
        first,
        second: &[],
    }
}

/// How a command's sources and sinks behave: how many bytes a read gives and a write takes at most,
/// and the number of the one call that fails, counted from 1; 0 for none.
#[derive(Clone, Copy)]
pub(crate) struct Edges {
    pub most_read: usize,
    pub most_written: usize,
    pub bad_read: u64,
    pub bad_font_read: u64,
    pub bad_write: u64,
    pub bad_note: u64,
}

/// Nothing fails, and at most so many bytes go with a call.
pub(crate) fn sound(most: usize) -> Edges {
    Edges {
        most_read: most,
        most_written: most,
        bad_read: 0,
        bad_font_read: 0,
        bad_write: 0,
        bad_note: 0,
    }
}

/// How a command ended: its code, its output, and the line that tells its status.
#[derive(Drop)]
pub(crate) struct Ended {
    pub code: u8,
    pub out: MemSink,
    pub notes: MemSink,
}

/// Carries out a command.
pub(crate) fn run<R: Threads + Sync + Abort>(
    rt: &R,
    alloc: Global,
    asked: &Asked<'_>,
    edges: Edges,
) -> Ended {
    let most = edges.most_read.max(1);
    let mut first = source_of(alloc, asked.first, most, edges.bad_read).expect(rt, "memory");
    let mut second = source_of(alloc, asked.second, most, edges.bad_font_read).expect(rt, "memory");
    run_over(rt, alloc, asked.line, &mut first, &mut second, edges)
}

/// Carries out a command, or a tool of the second program, over any sources.
pub(crate) fn run_over<R: Threads + Sync + Abort, A: Source, B: Source>(
    rt: &R,
    alloc: Global,
    line: &str,
    first: &mut A,
    second: &mut B,
    edges: Edges,
) -> Ended {
    let words = words_of(alloc, line).expect(rt, "memory");
    let most = edges.most_written.max(1);
    let mut out = sink_of(alloc, most, edges.bad_write).expect(rt, "memory");
    let mut notes = sink_of(alloc, most, edges.bad_note).expect(rt, "memory");
    let code = if line.starts_with("mux ") {
        mux_top(alloc, &words, first, second, &mut out, &mut notes).code()
    } else if line.starts_with("take ") {
        take_top(alloc, &words, first, &mut out, &mut notes).code()
    } else if line.starts_with("pair ") {
        pair_top(
            rt, alloc, &words, first, second, &mut out, &mut notes, &NoGate,
        )
        .code()
    } else if line.starts_with("live ") {
        live_top(alloc, &words, first, second, &mut out, &mut notes).code()
    } else if line.starts_with("splice ") {
        splice_top(alloc, &words, first, second, &mut out, &mut notes).code()
    } else {
        let status = top(
            rt, alloc, &words, first, second, &mut out, &mut notes, &NoGate,
        );
        status.code()
    };
    Ended { code, out, notes }
}

/// How a command has to end.
#[derive(Clone, Copy)]
pub(crate) struct Wanted<'a> {
    pub code: u8,
    pub note: &'a str,
    pub out: &'a [u8],
}

/// The command is done, and has put out these bytes.
pub(crate) fn done(out: &[u8]) -> Wanted<'_> {
    Wanted {
        code: 0,
        note: "done\n",
        out,
    }
}

/// Carries out a command; it ends as is wanted.
pub(crate) fn ends_as<R: Threads + Sync + Abort>(
    rt: &R,
    alloc: Global,
    asked: &Asked<'_>,
    edges: Edges,
    wanted: Wanted<'_>,
) {
    let ended = run(rt, alloc, asked, edges);
    is_as(rt, &ended, wanted)
}

/// A command ended as is wanted.
pub(crate) fn is_as<R: Abort>(rt: &R, ended: &Ended, wanted: Wanted<'_>) {
    same(rt, ended.notes.written(), wanted.note.as_bytes());
    same(rt, ended.code, wanted.code);
    same(rt, ended.out.written(), wanted.out);
}
