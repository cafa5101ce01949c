//! Scripts whose records come one by one.

ghost use Rattle.std.specs.Prelude.{◌≤◌};

use crate::same::same;
use bitmap_font::Font;
use cue_list::Script;
use live_plan::{LiveFault, live_top};
use samples::{sink_of, source_of, words_of};
use script_stream::compile_script;
use std::alloc::Global;
use std::panic::Expect;
use std::process::Abort;
use sub_base::{MemSink, MemSource, ProfileName, ToolStatus, Which};

const LIVE: &str = "live sd 256 1 script.csv none out.ts";

/// Seven records, and a tick 400,000 before the picture that they show.
const UP_TO_A_TICK: &str = "origin,0\ndisplay,4,2\nrefresh,5\nepoch,900000\n\
    region,0,0,0,4,2,8,0\npicture,a,8,4,2,0102020203030303\nplace,900000,990000,0,0,0,solid,a\n\
    tick,500000\n";

/// The same, then a record on the horizon of the tick, and one a tick above it.
const AT_THE_HORIZON: &str = "origin,0\ndisplay,4,2\nrefresh,5\nepoch,900000\n\
    region,0,0,0,4,2,8,0\npicture,a,8,4,2,0102020203030303\nplace,900000,990000,0,0,0,solid,a\n\
    tick,500000\nplace,953600,1200000,0,0,0,solid,a\nplace,953601,1200000,0,0,0,solid,a\n";

/// The records of it that are accepted, without the tick.
const ACCEPTED: &str = "origin,0\ndisplay,4,2\nrefresh,5\nepoch,900000\n\
    region,0,0,0,4,2,8,0\npicture,a,8,4,2,0102020203030303\nplace,900000,990000,0,0,0,solid,a\n\
    place,953601,1200000,0,0,0,solid,a\n";

/// A tick before the origin, an empty piece, a tick that is not above the last, a record behind a
/// mark of byte order, two records in one piece, an epoch that starts on the horizon, and a cue of
/// two lines without an epoch.
const REFUSED: &str = "tick,1\norigin,0\n\ntick,5\ntick,5\n\u{feff}display,4,2\n\
    refresh,5\repoch,900000\nrefresh,5\nepoch,453605\ncue,1,2,0,0,0,0,0,\"A\nB\"\n";

/// What is told of it.
const REFUSED_LINES: &str = "refused 1 Script\nrefused 4 Script\nrefused 6 Records\n\
    refused 8 Early\nrefused 9 Script\nrefused NoEpoch\n";

/// The 710 slots whose ticks are at most 500,000: each has 705 ticks.
const DUE: usize = 133_480;

/// The first byte of the packet in slot 639, the earliest of the picture's set.
const FIRST_OF_THE_SET: usize = 120_132;

/// How a run over sources in memory ended.
#[derive(Drop)]
struct Outcome {
    status: ToolStatus<LiveFault>,
    out: MemSink,
    notes: MemSink,
}

/// Carries out the command over these two sources, where the output and the notes fail at the calls
/// of these numbers; 0 for none.
fn run<R: Abort>(
    rt: &R,
    alloc: Global,
    first: &mut MemSource,
    bad_write: u64,
    bad_line: u64,
) -> Outcome {
    let words = words_of(alloc, LIVE).expect(rt, "memory");
    let mut second = source_of(alloc, &[], 1, 0).expect(rt, "memory");
    let mut out = sink_of(alloc, 1_000_000, bad_write).expect(rt, "memory");
    let mut notes = sink_of(alloc, 1_000_000, bad_line).expect(rt, "memory");
    let status = live_top(alloc, &words, first, &mut second, &mut out, &mut notes);
    Outcome { status, out, notes }
}

/// The same over a text that is read in pieces of so many bytes, with no call that fails.
fn run_of<R: Abort>(rt: &R, alloc: Global, text: &str, most: usize) -> Outcome
    requires { 1 ≤ most }
{
    let mut first = source_of(alloc, text.as_bytes(), most, 0).expect(rt, "memory");
    run(rt, alloc, &mut first, 0, 0)
}

/// The packets that the compiler makes of a script.
fn compiled<R: Abort>(rt: &R, alloc: Global, text: &str) -> MemSink {
    let font = Font::empty(alloc);
    let mut out = sink_of(alloc, 1_000_000, 0).expect(rt, "memory");
    if let Ok(script) = Script::read(alloc, text.as_bytes(), &font) {
        let _ = compile_script(alloc, ProfileName::Sd, 256, 1, &script, &mut out);
    }
    out
}

/// A record on the horizon is refused, and one a tick above it accepted; what is written is what
/// the compiler makes of the records that were accepted, however the script comes.
#[test]
fn records_at_the_horizon(rt: HostRuntime) {
    let alloc = rt.alloc();
    let accepted = compiled(&rt, alloc, ACCEPTED);
    same(&rt, accepted.written().is_empty(), false);
    for most in [1, 100, 4_096, 100_000] {
        let told = run_of(&rt, alloc, AT_THE_HORIZON, most);
        same(&rt, told.status, ToolStatus::Done);
        same(
            &rt,
            told.notes.written(),
            b"refused 9 Early\ndone\n".as_slice(),
        );
        same(&rt, told.out.written() == accepted.written(), true);
    }
}

/// Where the script cannot be read on, what is due is there, and no more.
#[test]
fn what_is_due_is_there(rt: HostRuntime) {
    let alloc = rt.alloc();
    let text = Vec::from_slice(alloc, UP_TO_A_TICK.as_bytes()).expect(&rt, "memory");
    let mut first = MemSource::make(alloc, text, 4_096, vec![in alloc; 2].expect(&rt, "memory"));
    let told = run(&rt, alloc, &mut first, 0, 0);
    same(&rt, told.status, ToolStatus::ReadFault(Which::First));
    same(&rt, told.notes.written(), b"read first\n".as_slice());
    let written = told.out.written();
    same(&rt, written.len(), DUE);
    let before = written.get(FIRST_OF_THE_SET - 188..FIRST_OF_THE_SET - 185);
    same(&rt, before, Some([0x47, 0x1F, 0xFF].as_slice()));
    let first = written.get(FIRST_OF_THE_SET..FIRST_OF_THE_SET + 3);
    same(&rt, first, Some([0x47, 0x41, 0x00].as_slice()));
    let whole = compiled(&rt, alloc, ACCEPTED);
    same(&rt, Some(written) == whole.written().get(..DUE), true);
}

/// Each refused record has its line, with its number among the pieces that have records.
#[test]
fn records_that_are_refused(rt: HostRuntime) {
    let alloc = rt.alloc();
    let told = run_of(&rt, alloc, REFUSED, 7);
    same(&rt, told.status, ToolStatus::Refused(LiveFault::NoEpoch));
    same(&rt, told.notes.written(), REFUSED_LINES.as_bytes());
    same(&rt, told.out.written().len(), 0);
}

/// A sink that fails ends the run: the output's with its line, the notes' with none.
#[test]
fn sinks_that_fail(rt: HostRuntime) {
    let alloc = rt.alloc();
    let mut script = source_of(alloc, AT_THE_HORIZON.as_bytes(), 100, 0).expect(&rt, "memory");
    let unwritten = run(&rt, alloc, &mut script, 1, 0);
    same(&rt, unwritten.status, ToolStatus::WriteFault(Which::Out));
    same(&rt, unwritten.notes.written(), b"write out\n".as_slice());
    let mut script = source_of(alloc, AT_THE_HORIZON.as_bytes(), 100, 0).expect(&rt, "memory");
    let untold = run(&rt, alloc, &mut script, 0, 1);
    same(&rt, untold.status, ToolStatus::WriteFault(Which::Notes));
    same(&rt, untold.notes.written().len(), 0);
    same(&rt, untold.out.written().len(), DUE);
    let mut script = source_of(alloc, AT_THE_HORIZON.as_bytes(), 100, 0).expect(&rt, "memory");
    let at_the_end = run(&rt, alloc, &mut script, 0, 2);
    same(&rt, at_the_end.status, ToolStatus::WriteFault(Which::Notes));
    same(
        &rt,
        at_the_end.notes.written(),
        b"refused 9 Early\n".as_slice(),
    );
}
