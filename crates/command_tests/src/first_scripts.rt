use crate::compiled_scripts::Outcome;
use crate::same::same;
use cue_list::{ScriptFault, ScriptKind};
use dvbsub_cmd::{Status, Which, top};
use samples::first_run::{COMPILE, FIRST_UNIT, SCRIPT, SECOND_UNIT};
use samples::words_of;
use schedule::ScheduleFault;
use std::alloc::Global;
use std::panic::Expect;
use std::process::Abort;
use std::thread::Threads;
use sub_base::{MemSink, MemSource, NoGate};

/// The script of the first run, with its first set, of 98 bytes, shown a tick before it is done.
const SCRIPT_AT_98: &str = "origin,0\n\
     display,4,2\n\
     refresh,5\n\
     epoch,98\n\
     region,0,0,0,4,2,8,0\n\
     picture,a,8,4,2,0102020203030303\n\
     place,98,180000,0,0,0,solid,a\n";

/// Its first set is shown at the tick at which it is done.
const SCRIPT_AT_99: &str = "origin,0\n\
     display,4,2\n\
     refresh,5\n\
     epoch,99\n\
     region,0,0,0,4,2,8,0\n\
     picture,a,8,4,2,0102020203030303\n\
     place,99,180000,0,0,0,solid,a\n";

/// The picture of the first run, of 8 bits, in a region of 4 bits.
const SCRIPT_TOO_DEEP: &str = "origin,0\n\
     display,4,2\n\
     refresh,5\n\
     epoch,90000\n\
     region,0,0,0,4,2,4,0\n\
     picture,a,8,4,2,0102020203030303\n\
     place,90000,180000,0,0,0,solid,a\n";

/// Runs the command over the script and the font. The script's source fails at the read with the
/// number `bad_read`, the output at the write with the number `bad_write`, and the notes at the
/// write with the number `bad_note`.
fn run_failing<R: Threads + Sync + Abort>(
    rt: &R,
    alloc: Global,
    line: &str,
    [script, font]: [&str; 2],
    fails: [u64; 3],
) -> Outcome {
    let words = words_of(alloc, line).expect(rt, "memory");
    let [bad_read, bad_write, bad_note] = fails;
    let text = Vec::from_slice(alloc, script.as_bytes()).expect(rt, "memory");
    let mut first = MemSource::make(
        alloc,
        text,
        7,
        vec![in alloc; bad_read].expect(rt, "memory"),
    );
    let letters = Vec::from_slice(alloc, font.as_bytes()).expect(rt, "memory");
    let mut second = MemSource::make(alloc, letters, 1, vec![in alloc; 0u64].expect(rt, "memory"));
    let mut out = MemSink::make(
        alloc,
        1_000_000,
        vec![in alloc; bad_write].expect(rt, "memory"),
    );
    let mut notes = MemSink::make(
        alloc,
        1_000_000,
        vec![in alloc; bad_note].expect(rt, "memory"),
    );
    let status = top(
        rt,
        alloc,
        &words,
        &mut first,
        &mut second,
        &mut out,
        &mut notes,
        &NoGate,
    );
    Outcome { status, out, notes }
}

fn run<R: Threads + Sync + Abort>(rt: &R, alloc: Global, line: &str, script: &str) -> Outcome {
    run_failing(rt, alloc, line, [script, ""], [0, 0, 0])
}

#[test]
fn one_cue_becomes_two_packets(rt: HostRuntime) {
    let done = run(&rt, rt.alloc(), COMPILE, SCRIPT);
    same(&rt, done.status, Status::Done { cut: 0 });
    same(&rt, done.notes.written(), b"done\n".as_slice());
    let packets = done.out.written();
    assert_eq!(rt; packets.len(), 376);
    same(
        &rt,
        &packets[..6],
        [0x47, 0x41, 0x00, 0x30, 0x55, 0x00].as_slice(),
    );
    assert!(rt; packets[6..90].iter().all(|byte| *byte == 0xFF));
    same(&rt, &packets[90..188], FIRST_UNIT.as_slice());
    same(
        &rt,
        &packets[188..194],
        [0x47, 0x41, 0x00, 0x31, 0x98, 0x00].as_slice(),
    );
    assert!(rt; packets[194..345].iter().all(|byte| *byte == 0xFF));
    same(&rt, &packets[345..376], SECOND_UNIT.as_slice());
}

#[test]
fn a_set_done_a_tick_late_is_refused(rt: HostRuntime) {
    let late = run(&rt, rt.alloc(), COMPILE, SCRIPT_AT_98);
    same(
        &rt,
        late.status,
        Status::ScheduleRefused {
            row: 4,
            fault: ScheduleFault::Late {
                set: 0,
                done: 99,
                pts: 98,
            },
        },
    );
    same(
        &rt,
        late.notes.written(),
        b"schedule Late 4 99 98\n".as_slice(),
    );
    same(&rt, late.out.written(), b"".as_slice());
    let timely = run(&rt, rt.alloc(), COMPILE, SCRIPT_AT_99);
    same(&rt, timely.status, Status::Done { cut: 0 });
    assert_eq!(rt; timely.out.written().len(), 376);
}

#[test]
fn other_words_are_answered_with_the_usage(rt: HostRuntime) {
    let lines = [
        "",
        "compile",
        "compile wide 256 1 script.csv none out.ts",
        "compile sd 8192 1 script.csv none out.ts",
        "compile sd 256 65536 script.csv none out.ts",
        "compile sd 256 1 -script.csv none out.ts",
        "compile sd 256 1  none out.ts",
        "compile sd 256 1 script.csv none out.ts more",
        "dump sd 256 1 script.csv none out.ts",
        "list",
        "list 31 in.ts out.txt",
        "list 8191 in.ts out.txt",
        "list 0256 in.ts out.txt",
        "list 256 in.ts",
        "list 256 in.ts out.txt more",
        "expect script.csv none out.txt",
        "expect script.csv none out.txt 90000 90000",
        "expect script.csv none out.txt 17179869184",
        "gen 0 sd entries.txt",
        "gen 501 sd entries.txt",
        "gen 01 sd entries.txt",
        "gen 1 wide entries.txt",
        "gen 1 large entries.txt",
        "gen 1 sd",
        "gen 1 sd entries.txt more",
    ];
    for line in lines {
        let refused = run(&rt, rt.alloc(), line, SCRIPT);
        same(&rt, refused.status, Status::Usage);
        same(&rt, refused.notes.written(), b"usage\n".as_slice());
        same(&rt, refused.out.written(), b"".as_slice());
    }
}

#[test]
fn other_scripts_are_refused(rt: HostRuntime) {
    let refused = run(&rt, rt.alloc(), COMPILE, SCRIPT_TOO_DEEP);
    same(
        &rt,
        refused.status,
        Status::ScriptRefused(ScriptFault::Refused {
            row: 7,
            kind: ScriptKind::CodeRange,
        }),
    );
    same(
        &rt,
        refused.notes.written(),
        b"script 7 CodeRange\n".as_slice(),
    );
    same(&rt, refused.out.written(), b"".as_slice());
}

#[test]
fn sources_and_sinks_that_fail_are_told(rt: HostRuntime) {
    let unread = run_failing(&rt, rt.alloc(), COMPILE, [SCRIPT, ""], [2, 0, 0]);
    same(&rt, unread.status, Status::ReadFault(Which::First));
    same(&rt, unread.notes.written(), b"read first\n".as_slice());
    same(&rt, unread.out.written(), b"".as_slice());
    let unwritten = run_failing(&rt, rt.alloc(), COMPILE, [SCRIPT, ""], [0, 1, 0]);
    same(&rt, unwritten.status, Status::WriteFault(Which::Out));
    same(&rt, unwritten.notes.written(), b"write out\n".as_slice());
    same(&rt, unwritten.out.written(), b"".as_slice());
    let untold = run_failing(&rt, rt.alloc(), COMPILE, [SCRIPT, ""], [0, 0, 1]);
    same(&rt, untold.status, Status::WriteFault(Which::Notes));
    assert_eq!(rt; untold.out.written().len(), 376);
}

/// A font of one letter, which another program has drawn too.
const FONT: &str = "STARTFONT 2.1\n\
     FONTBOUNDINGBOX 3 4 0 -1\n\
     STARTCHAR A\n\
     ENCODING 65\n\
     DWIDTH 3 0\n\
     BBX 2 3 0 0\n\
     BITMAP\n\
     40\n\
     C0\n\
     40\n\
     ENDCHAR\n\
     ENDFONT\n";

/// A cue of two lines in that font.
const SCRIPT_OF_TEXT: &str = "origin,0\n\
     display,20,8\n\
     refresh,5\n\
     epoch,90000\n\
     region,0,0,0,20,8,4,0\n\
     cue,90000,180000,0,0,0,1,0,\"A\n\
     AA\"\n";

/// What is shown while the cue stands, and after it.
const PICTURES_OF_TEXT: &str = "picture 90000 20 8\n\
     1*000000FF 1*51F05A00 18*000000FF\n\
     2*51F05A00 18*000000FF\n\
     1*000000FF 1*51F05A00 18*000000FF\n\
     20*000000FF\n\
     1*000000FF 1*51F05A00 2*000000FF 1*51F05A00 15*000000FF\n\
     2*51F05A00 1*000000FF 2*51F05A00 15*000000FF\n\
     1*000000FF 1*51F05A00 2*000000FF 1*51F05A00 15*000000FF\n\
     20*000000FF\n\
     picture 180000 clear\n";

const EXPECT: &str = "expect script.csv font.bdf out.txt 90000 180000";

#[test]
fn a_cue_of_text_is_shown_in_its_font(rt: HostRuntime) {
    let shown = run_failing(&rt, rt.alloc(), EXPECT, [SCRIPT_OF_TEXT, FONT], [0, 0, 0]);
    same(&rt, shown.status, Status::Done { cut: 0 });
    same(&rt, shown.notes.written(), b"done\n".as_slice());
    same(&rt, shown.out.written(), PICTURES_OF_TEXT.as_bytes());
}

#[test]
fn a_letter_that_a_font_has_not_is_refused(rt: HostRuntime) {
    let line = "expect script.csv none out.txt 90000";
    let refused = run(&rt, rt.alloc(), line, SCRIPT_OF_TEXT);
    same(
        &rt,
        refused.notes.written(),
        b"script 6 Glyph 65\n".as_slice(),
    );
    same(&rt, refused.out.written(), b"".as_slice());
}

#[test]
fn a_display_that_a_receiver_has_not_is_refused(rt: HostRuntime) {
    let script = "origin,0\ndisplay,721,576\nrefresh,5\nepoch,90000\nregion,0,0,0,8,8,8,0\n";
    let refused = run(&rt, rt.alloc(), COMPILE, script);
    same(
        &rt,
        refused.notes.written(),
        b"plan DisplayTooLarge 2\n".as_slice(),
    );
    same(&rt, refused.out.written(), b"".as_slice());
}
