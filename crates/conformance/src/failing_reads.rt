use crate::failing::{each_font_read_fails, each_read_fails};
use crate::running::{Asked, reading};
use samples::first_run::*;
use std::alloc::Global;
use std::panic::Expect;
use std::process::Abort;
use std::thread::Threads;

/// The first run's script and a font.
fn with_font(line: &str) -> Asked<'_> {
    Asked {
        line,
        first: SCRIPT.as_bytes(),
        second: FONT.as_bytes(),
    }
}

/// Over the first run's stream: each read fails in turn, with a byte a call, a few, a packet, and
/// all at once.
fn each_stream_read_fails<R: Threads + Sync + Abort>(
    rt: &R,
    alloc: Global,
    line: &str,
    texts: [&str; 3],
    whole: &str,
) {
    let stream = stream(alloc).expect(rt, "memory");
    let asked = reading(line, stream.as_slice());
    for most in [1, 7, 188, 100_000] {
        each_read_fails(rt, alloc, &asked, most, texts, whole.as_bytes());
    }
}

#[test]
fn each_read_of_a_list_fails(rt: HostRuntime) {
    each_stream_read_fails(
        &rt,
        rt.alloc(),
        LIST,
        ["", FIRST_LINES, BOTH_LINES],
        BOTH_LINES,
    )
}

/// The first tick is told once the second set has come.
#[test]
fn each_read_of_a_dump_fails(rt: HostRuntime) {
    each_stream_read_fails(&rt, rt.alloc(), DUMP, ["", "", PICTURE], PICTURES)
}

#[test]
fn each_read_of_a_check_fails(rt: HostRuntime) {
    each_stream_read_fails(
        &rt,
        rt.alloc(),
        CHECK,
        ["", FIRST_SET, BOTH_SETS],
        BOTH_CHECKED,
    )
}

#[test]
fn each_read_of_a_compiled_script_fails(rt: HostRuntime) {
    let alloc = rt.alloc();
    let stream = stream(alloc).expect(&rt, "memory");
    let asked = reading(COMPILE, SCRIPT.as_bytes());
    for most in [1, 7, 100_000] {
        each_read_fails(&rt, alloc, &asked, most, ["", "", ""], stream.as_slice());
    }
}

#[test]
fn each_read_of_an_authored_script_fails(rt: HostRuntime) {
    let asked = reading(EXPECT, SCRIPT.as_bytes());
    for most in [1, 7, 100_000] {
        each_read_fails(
            &rt,
            rt.alloc(),
            &asked,
            most,
            ["", "", ""],
            PICTURES.as_bytes(),
        );
    }
}

#[test]
fn each_read_of_a_compiled_font_fails(rt: HostRuntime) {
    let alloc = rt.alloc();
    let stream = stream(alloc).expect(&rt, "memory");
    for most in [1, 7, 100_000] {
        let asked = with_font(COMPILE_WITH_FONT);
        each_font_read_fails(&rt, alloc, &asked, most, stream.as_slice());
    }
}

#[test]
fn each_read_of_an_authored_font_fails(rt: HostRuntime) {
    for most in [1, 7, 100_000] {
        let asked = with_font(EXPECT_WITH_FONT);
        each_font_read_fails(&rt, rt.alloc(), &asked, most, PICTURES.as_bytes());
    }
}
