use crate::running::{Asked, reading, run, sound};
use samples::first_run::*;
use std::alloc::Global;
use std::panic::Expect;
use std::process::Abort;
use std::thread::Threads;

/// Whether the output is a prefix of that one. Where there was no memory, nothing was put out.
fn is_cut_off(code: u8, out: &[u8], whole: &[u8]) -> bool {
    match code {
        0 => out == whole,
        6 => whole.starts_with(out),
        7 => out.is_empty(),
        _ => false,
    }
}

/// A command over valid input is done, or has no memory; or its output has none, and so has failed.
/// It ends so wherever memory is refused: checks/refused_growth.py refuses each growth in turn.
pub(crate) fn ends_with_or_without_memory<R: Threads + Sync + Abort>(
    rt: &R,
    alloc: Global,
    asked: &Asked<'_>,
    whole: &[u8],
) {
    let ended = run(rt, alloc, asked, sound(100));
    assert!(rt; is_cut_off(ended.code, ended.out.written(), whole));
}

#[test]
fn memory_of_compile(rt: HostRuntime) {
    let stream = stream(rt.alloc()).expect(&rt, "memory");
    let asked = Asked {
        line: COMPILE_WITH_FONT,
        first: SCRIPT.as_bytes(),
        second: FONT.as_bytes(),
    };
    ends_with_or_without_memory(&rt, rt.alloc(), &asked, stream.as_slice())
}

#[test]
fn memory_of_expect(rt: HostRuntime) {
    let asked = Asked {
        line: EXPECT_WITH_FONT,
        first: SCRIPT.as_bytes(),
        second: FONT.as_bytes(),
    };
    ends_with_or_without_memory(&rt, rt.alloc(), &asked, PICTURES.as_bytes())
}

fn over_the_stream<R: Threads + Sync + Abort>(rt: &R, alloc: Global, line: &str, whole: &str) {
    let stream = stream(alloc).expect(rt, "memory");
    let asked = reading(line, stream.as_slice());
    ends_with_or_without_memory(rt, alloc, &asked, whole.as_bytes())
}

#[test]
fn memory_of_list(rt: HostRuntime) {
    over_the_stream(&rt, rt.alloc(), LIST, BOTH_LINES)
}

#[test]
fn memory_of_dump(rt: HostRuntime) {
    over_the_stream(&rt, rt.alloc(), DUMP, PICTURES)
}

#[test]
fn memory_of_check(rt: HostRuntime) {
    over_the_stream(&rt, rt.alloc(), CHECK, BOTH_CHECKED)
}
