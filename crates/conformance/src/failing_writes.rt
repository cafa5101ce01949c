use crate::failing::{each_note_fails, each_write_fails};
use crate::running::{Edges, Wanted, done, ends_as, reading, run, sound};
use crate::same::same;
use samples::first_run::*;
use std::alloc::Global;
use std::panic::Expect;
use std::process::Abort;
use std::thread::Threads;

/// Over the first run's stream: each write fails in turn, with a byte a call, a few, and all at
/// once.
fn each_stream_write_fails<R: Threads + Sync + Abort>(
    rt: &R,
    alloc: Global,
    line: &str,
    whole: &str,
) {
    let stream = stream(alloc).expect(rt, "memory");
    let asked = reading(line, stream.as_slice());
    for most in [1, 7, 100_000] {
        each_write_fails(rt, alloc, &asked, most, whole.as_bytes());
    }
}

#[test]
fn each_write_of_a_list_fails(rt: HostRuntime) {
    each_stream_write_fails(&rt, rt.alloc(), LIST, BOTH_LINES)
}

#[test]
fn each_write_of_a_dump_fails(rt: HostRuntime) {
    each_stream_write_fails(&rt, rt.alloc(), DUMP, PICTURES)
}

#[test]
fn each_write_of_a_check_fails(rt: HostRuntime) {
    each_stream_write_fails(&rt, rt.alloc(), CHECK, BOTH_CHECKED)
}

#[test]
fn each_write_of_compiled_packets_fails(rt: HostRuntime) {
    let alloc = rt.alloc();
    let stream = stream(alloc).expect(&rt, "memory");
    let asked = reading(COMPILE, SCRIPT.as_bytes());
    for most in [1, 7, 100_000] {
        each_write_fails(&rt, alloc, &asked, most, stream.as_slice());
    }
}

#[test]
fn each_write_of_authored_pictures_fails(rt: HostRuntime) {
    let asked = reading(EXPECT, SCRIPT.as_bytes());
    for most in [1, 7, 100_000] {
        each_write_fails(&rt, rt.alloc(), &asked, most, PICTURES.as_bytes());
    }
}

/// A cue of forty seconds, whose nine sets stand in slots up to 4,596.
const FORTY_SECONDS: &str = "origin,0\n\
     display,4,2\n\
     refresh,5\n\
     epoch,90000\n\
     region,0,0,0,4,2,8,0\n\
     picture,a,8,4,2,0102020203030303\n\
     place,90000,3690000,0,0,0,solid,a\n";

/// Its packets go out in many pieces; whichever fails, no later one follows.
#[test]
fn each_write_of_many_packets_fails(rt: HostRuntime) {
    let alloc = rt.alloc();
    let asked = reading(COMPILE, FORTY_SECONDS.as_bytes());
    let sent = run(&rt, alloc, &asked, sound(100_000));
    let packets = sent.out.written();
    same(&rt, packets.len(), 4_597 * 188);
    each_write_fails(&rt, alloc, &asked, 65_424, packets)
}

/// A byte a call both ways.
fn goes_byte_by_byte<R: Threads + Sync + Abort>(
    rt: &R,
    alloc: Global,
    line: &str,
    first: &[u8],
    whole: &[u8],
) {
    ends_as(rt, alloc, &reading(line, first), sound(1), done(whole))
}

#[test]
fn scripts_go_byte_by_byte(rt: HostRuntime) {
    let alloc = rt.alloc();
    let script = SCRIPT.as_bytes();
    let stream = stream(alloc).expect(&rt, "memory");
    goes_byte_by_byte(&rt, alloc, COMPILE, script, stream.as_slice());
    goes_byte_by_byte(&rt, alloc, EXPECT, script, PICTURES.as_bytes())
}

#[test]
fn streams_go_byte_by_byte(rt: HostRuntime) {
    let alloc = rt.alloc();
    let stream = stream(alloc).expect(&rt, "memory");
    let stream = stream.as_slice();
    goes_byte_by_byte(&rt, alloc, LIST, stream, BOTH_LINES.as_bytes());
    goes_byte_by_byte(&rt, alloc, DUMP, stream, PICTURES.as_bytes());
    goes_byte_by_byte(&rt, alloc, CHECK, stream, BOTH_CHECKED.as_bytes())
}

/// The line of a command that is done fails: nobody could know that it is, so that is a failure.
fn is_done_untold<R: Threads + Sync + Abort>(
    rt: &R,
    alloc: Global,
    line: &str,
    first: &[u8],
    whole: &[u8],
) {
    let wanted = Wanted {
        code: 6,
        ..done(whole)
    };
    each_note_fails(rt, alloc, &reading(line, first), wanted)
}

#[test]
fn commands_that_are_done_are_not_told(rt: HostRuntime) {
    let alloc = rt.alloc();
    let stream = stream(alloc).expect(&rt, "memory");
    let packets = stream.as_slice();
    let script = SCRIPT.as_bytes();
    is_done_untold(&rt, alloc, COMPILE, script, packets);
    is_done_untold(&rt, alloc, EXPECT, script, PICTURES.as_bytes());
    is_done_untold(&rt, alloc, LIST, packets, BOTH_LINES.as_bytes());
    is_done_untold(&rt, alloc, DUMP, packets, PICTURES.as_bytes());
    is_done_untold(&rt, alloc, CHECK, packets, BOTH_CHECKED.as_bytes())
}

/// Any other status stays where its line cannot be written.
#[test]
fn refusals_stay_where_they_are_not_told(rt: HostRuntime) {
    let refused = |code, note| Wanted {
        code,
        note,
        out: &[],
    };
    let rows = [
        (reading("list", &[]), refused(2, "usage\n")),
        (reading(COMPILE, b"origin"), refused(3, "script 1 Count\n")),
        (reading(EXPECT, b"origin,0"), refused(3, "script 2 Order\n")),
        (reading(LIST, &[0; 188]), refused(4, "stream 0 NoSync\n")),
        (reading(DUMP, &[1; 376]), refused(4, "stream 0 NoSync\n")),
        (reading(CHECK, &[2; 200]), refused(4, "stream 0 NoSync\n")),
    ];
    for (asked, wanted) in rows {
        each_note_fails(&rt, rt.alloc(), &asked, wanted);
    }
}

/// The output fails, and then its line too: the first failure is told.
#[test]
fn both_sinks_fail(rt: HostRuntime) {
    let alloc = rt.alloc();
    let stream = stream(alloc).expect(&rt, "memory");
    for line in [LIST, DUMP, CHECK] {
        let edges = Edges {
            bad_write: 1,
            bad_note: 7,
            ..sound(1)
        };
        let wanted = Wanted {
            code: 6,
            note: "write ",
            out: &[],
        };
        ends_as(&rt, alloc, &reading(line, stream.as_slice()), edges, wanted);
    }
}
