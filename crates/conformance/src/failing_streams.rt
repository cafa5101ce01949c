//! Each read and each write of the tools that send scripts, or streams again, fails in turn.

use crate::failing::{each_font_read_fails, each_note_fails, each_read_fails, each_write_fails};
use crate::refused_growth::ends_with_or_without_memory;
use crate::running::{Asked, Edges, Wanted, done, ends_as, reading, run, sound};
use crate::same::same;
use samples::first_run::{SCRIPT, stream};
use std::alloc::Global;
use std::panic::Expect;
use std::process::Abort;
use std::thread::Threads;
use sub_base::MemSink;

const PAIR: &str = "pair sd 256 1 2 3 script.csv script.csv both.ts";

const SPLICE: &str = "splice sd 256 1 0 270000 in.ts in.ts out.ts";

const LIVE: &str = "live sd 256 1 script.csv none out.ts";

/// A picture at 900,000, and a tick 400,000 before it.
const UP_TO_A_TICK: &str = "origin,0\ndisplay,4,2\nrefresh,5\nepoch,900000\n\
    region,0,0,0,4,2,8,0\npicture,a,8,4,2,0102020203030303\nplace,900000,990000,0,0,0,solid,a\n\
    tick,500000\n";

/// The same, and a record behind the tick's horizon.
const BEHIND_A_TICK: &str = "origin,0\ndisplay,4,2\nrefresh,5\nepoch,900000\n\
    region,0,0,0,4,2,8,0\npicture,a,8,4,2,0102020203030303\nplace,900000,990000,0,0,0,solid,a\n\
    tick,500000\nplace,953601,1200000,0,0,0,solid,a\n";

/// The 710 slots whose ticks are at most 500,000: each has 705 ticks.
const DUE: usize = 133_480;

/// The 1,065 slots up to the last set's, which is shown at 1,200,000 and sent from 750,000 on.
const SENT_LIVE: usize = 200_220;

/// What the tool puts out where nothing fails: so many bytes.
pub(crate) fn whole_of<R: Threads + Sync + Abort>(
    rt: &R,
    alloc: Global,
    asked: &Asked<'_>,
    size: usize,
) -> MemSink {
    let ended = run(rt, alloc, asked, sound(100_000));
    same(rt, ended.code, 0);
    same(rt, ended.out.written().len(), size);
    ended.out
}

/// Each read of both sources fails in turn: nothing is put out. Each write of the output fails, and
/// of the status' line; and memory may be wanting.
fn each_call_fails<R: Threads + Sync + Abort>(
    rt: &R,
    alloc: Global,
    asked: &Asked<'_>,
    whole: &[u8],
) {
    for most in [7, 188, 100_000] {
        each_read_fails(rt, alloc, asked, most, ["", "", ""], whole);
        each_font_read_fails(rt, alloc, asked, most, whole);
        each_write_fails(rt, alloc, asked, most, whole);
    }
    each_note_fails(rt, alloc, asked, untold(whole));
    ends_with_or_without_memory(rt, alloc, asked, whole)
}

/// All is put out, and its status could not be told.
fn untold(whole: &[u8]) -> Wanted<'_> {
    Wanted {
        code: 6,
        ..done(whole)
    }
}

#[test]
fn each_call_of_a_pair_fails(rt: HostRuntime) {
    let alloc = rt.alloc();
    let asked = Asked {
        line: PAIR,
        first: SCRIPT.as_bytes(),
        second: SCRIPT.as_bytes(),
    };
    let whole = whole_of(&rt, alloc, &asked, 376);
    each_call_fails(&rt, alloc, &asked, whole.written())
}

#[test]
fn each_call_of_a_splice_fails(rt: HostRuntime) {
    let alloc = rt.alloc();
    let stream = stream(alloc).expect(&rt, "memory");
    let asked = Asked {
        line: SPLICE,
        first: stream.as_slice(),
        second: stream.as_slice(),
    };
    let whole = whole_of(&rt, alloc, &asked, 752);
    each_call_fails(&rt, alloc, &asked, whole.written())
}

/// What is due has been put out by the time that the script cannot be read on: nothing before the
/// tick has come, and from then on the packets up to it.
#[test]
fn each_read_of_a_live_script_fails(rt: HostRuntime) {
    let alloc = rt.alloc();
    let asked = reading(LIVE, BEHIND_A_TICK.as_bytes());
    let whole = whole_of(&rt, alloc, &asked, SENT_LIVE);
    for most in [7, 100, 4_096] {
        let reads = asked.first.len().div_ceil(most);
        for read in 0..reads {
            let has_tick = read.saturating_mul(most) >= UP_TO_A_TICK.len();
            let wanted = Wanted {
                code: 5,
                note: "read first\n",
                out: whole
                    .written()
                    .get(..if has_tick { DUE } else { 0 })
                    .unwrap_or(&[]),
            };
            let edges = Edges {
                most_read: most,
                bad_read: (read as u64).saturating_add(1),
                ..sound(100_000)
            };
            ends_as(&rt, alloc, &asked, edges, wanted);
        }
    }
}

#[test]
fn each_write_of_a_live_script_fails(rt: HostRuntime) {
    let alloc = rt.alloc();
    let asked = reading(LIVE, BEHIND_A_TICK.as_bytes());
    let whole = whole_of(&rt, alloc, &asked, SENT_LIVE);
    each_write_fails(&rt, alloc, &asked, 188, whole.written());
    each_note_fails(&rt, alloc, &asked, untold(whole.written()))
}

#[test]
fn memory_of_a_live_script(rt: HostRuntime) {
    let alloc = rt.alloc();
    let asked = reading(LIVE, SCRIPT.as_bytes());
    let whole = whole_of(&rt, alloc, &asked, 376);
    ends_with_or_without_memory(&rt, alloc, &asked, whole.written())
}
