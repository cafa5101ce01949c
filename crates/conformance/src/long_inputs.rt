use crate::running::{Wanted, done, is_as, run_over, sound};
use samples::Counting;
use samples::first_run::*;
use std::alloc::Global;
use std::process::Abort;
use std::thread::Threads;

/// How many bytes a script and a font have at most.
const MOST: u64 = 67_108_864;

/// Carries out a command over sources of so many letters each.
fn ends_over<R: Threads + Sync + Abort>(
    rt: &R,
    alloc: Global,
    line: &str,
    sizes: [u64; 2],
    wanted: Wanted<'_>,
) {
    let [script, font] = sizes;
    let mut first = Counting::new(script, b'x');
    let mut second = Counting::new(font, b'x');
    let ended = run_over(rt, alloc, line, &mut first, &mut second, sound(100));
    is_as(rt, &ended, wanted)
}

fn refused(code: u8, note: &str) -> Wanted<'_> {
    Wanted {
        code,
        note,
        out: &[],
    }
}

/// A script of one byte more than it may have, and one of as many as it may.
#[test]
fn scripts_that_are_too_long(rt: HostRuntime) {
    let long = refused(8, "long first\n");
    let read = refused(3, "script 1 Unknown\n");
    for line in [COMPILE, EXPECT] {
        ends_over(&rt, rt.alloc(), line, [MOST + 1, 0], long);
        ends_over(&rt, rt.alloc(), line, [MOST, 0], read);
    }
}

/// The same of a font, before which no script is read.
#[test]
fn fonts_that_are_too_long(rt: HostRuntime) {
    let long = refused(8, "long second\n");
    let read = refused(3, "font 1 NotBdf\n");
    for line in [COMPILE_WITH_FONT, EXPECT_WITH_FONT] {
        ends_over(&rt, rt.alloc(), line, [MOST + 1, MOST + 1], long);
        ends_over(&rt, rt.alloc(), line, [MOST + 1, MOST], read);
    }
}

/// A stream of 15,957 packets of another PID and 85 bytes more, which are all the sync byte.
#[test]
fn streams_of_sync_bytes(rt: HostRuntime) {
    let texts = [
        (LIST, ""),
        (DUMP, CLEAR_PICTURES),
        (CHECK, "peak 0\nbreach none\n"),
    ];
    for (line, text) in texts {
        let mut stream = Counting::new(3_000_001, 0x47);
        let mut none = Counting::new(0, 0);
        let wanted = Wanted {
            note: "done cut 85\n",
            ..done(text.as_bytes())
        };
        let ended = run_over(&rt, rt.alloc(), line, &mut stream, &mut none, sound(1_000));
        is_as(&rt, &ended, wanted);
    }
}
