//! Two languages that are sent on one PID.

use crate::same::same;
use page_pair::{PairFault, pair_top};
use samples::{sink_of, source_of, words_of};
use std::alloc::Global;
use std::panic::Expect;
use std::process::Abort;
use std::thread::Threads;
use sub_base::{MemSink, NoGate, NoMemory, ToolStatus, Which};

/// A picture of 4 by 2 pixels that is shown for a second.
const SCRIPT: &str = "origin,0\ndisplay,4,2\nrefresh,5\nepoch,90000\nregion,0,0,0,4,2,8,0\n\
    picture,a,8,4,2,0102020203030303\nplace,90000,180000,0,0,0,solid,a\n";

/// The same with another last pixel.
const OTHER_PICTURE: &str = "origin,0\ndisplay,4,2\nrefresh,5\nepoch,90000\nregion,0,0,0,4,2,8,0\n\
    picture,a,8,4,2,0102020203030304\nplace,90000,180000,0,0,0,solid,a\n";

/// The same picture, shown for 10,000 ticks longer.
const OTHER_END: &str = "origin,0\ndisplay,4,2\nrefresh,5\nepoch,90000\nregion,0,0,0,4,2,8,0\n\
    picture,a,8,4,2,0102020203030303\nplace,90000,190000,0,0,0,solid,a\n";

const PAIR: &str = "pair sd 256 1 2 3 a.csv b.csv both.ts";

// What is sent of the script twice, worked out by hand: each language's own segments, the object on
// page 3 with the number 32,768, and the two ends.

/// The head of a transport packet with a payload of 151 bytes, up to the bytes that fill it.
const FIRST_PACKET: [u8; 6] = [0x47, 0x41, 0x00, 0x30, 0x20, 0x00];

/// The head of its PES packet.
const FIRST_UNIT: [u8; 16] = [
    0x00, 0x00, 0x01, 0xBD, 0x00, 0x91, 0x84, 0x80, 0x05, 0x21, 0x00, 0x05, 0xBF, 0x21, 0x20, 0x00,
];

/// Display, page and region of page 1.
const FIRST_PAGE: [u8; 47] = [
    0x0F, 0x14, 0x00, 0x01, 0x00, 0x05, 0x07, 0x00, 0x03, 0x00, 0x01, 0x0F, 0x10, 0x00, 0x01, 0x00,
    0x08, 0x0C, 0x0B, 0x00, 0xFF, 0x00, 0x00, 0x00, 0x00, 0x0F, 0x11, 0x00, 0x01, 0x00, 0x10, 0x00,
    0x0F, 0x00, 0x04, 0x00, 0x02, 0x6F, 0x00, 0x00, 0x03, 0x80, 0x00, 0x00, 0x00, 0xF0, 0x00,
];

/// Those of page 2.
const SECOND_PAGE: [u8; 47] = [
    0x0F, 0x14, 0x00, 0x02, 0x00, 0x05, 0x07, 0x00, 0x03, 0x00, 0x01, 0x0F, 0x10, 0x00, 0x02, 0x00,
    0x08, 0x0C, 0x0B, 0x00, 0xFF, 0x00, 0x00, 0x00, 0x00, 0x0F, 0x11, 0x00, 0x02, 0x00, 0x10, 0x00,
    0x0F, 0x00, 0x04, 0x00, 0x02, 0x6F, 0x00, 0x00, 0x03, 0x80, 0x00, 0x00, 0x00, 0xF0, 0x00,
];

/// The object that both show, on page 3.
const SHARED: [u8; 28] = [
    0x0F, 0x13, 0x00, 0x03, 0x00, 0x16, 0x80, 0x00, 0x01, 0x00, 0x08, 0x00, 0x07, 0x12, 0x01, 0x00,
    0x83, 0x02, 0x00, 0x00, 0xF0, 0x12, 0x00, 0x84, 0x03, 0x00, 0x00, 0xF0,
];

/// The ends of the two sets, and the end of the PES packet.
const ENDS: [u8; 13] = [
    0x0F, 0x80, 0x00, 0x01, 0x00, 0x00, 0x0F, 0x80, 0x00, 0x02, 0x00, 0x00, 0xFF,
];

/// The head of a transport packet with a payload of 45 bytes, up to the bytes that fill it.
const LAST_PACKET: [u8; 6] = [0x47, 0x41, 0x00, 0x31, 0x8A, 0x00];

/// The PES packet in which both pages are cleared.
const LAST_UNIT: [u8; 32] = [
    0x00, 0x00, 0x01, 0xBD, 0x00, 0x27, 0x84, 0x80, 0x05, 0x21, 0x00, 0x0B, 0x7E, 0x41, 0x20, 0x00,
    0x0F, 0x10, 0x00, 0x01, 0x00, 0x02, 0x0C, 0x13, 0x0F, 0x10, 0x00, 0x02, 0x00, 0x02, 0x0C, 0x13,
];

/// What both languages show.
const PICTURES: &str =
    "picture 90000 4 2\n1*51F05AC0 3*912236C0\n4*D29210C0\npicture 180000 clear\n";

/// How a command ended over sources in memory.
#[derive(Drop)]
struct Outcome {
    status: ToolStatus<PairFault>,
    out: MemSink,
    notes: MemSink,
}

/// Carries out the command over these bytes, where the sink fails at the call of that number.
fn run<R: Threads + Sync + Abort>(
    rt: &R,
    alloc: Global,
    text: &str,
    first: &[u8],
    second: &[u8],
    failing: u64,
) -> Outcome {
    let words = words_of(alloc, text).expect(rt, "memory");
    let mut first = source_of(alloc, first, 100, 0).expect(rt, "memory");
    let mut second = source_of(alloc, second, 100, 0).expect(rt, "memory");
    let mut out = sink_of(alloc, 1_000_000, failing).expect(rt, "memory");
    let mut notes = sink_of(alloc, 1_000_000, 0).expect(rt, "memory");
    let status = pair_top(
        rt,
        alloc,
        &words,
        &mut first,
        &mut second,
        &mut out,
        &mut notes,
        &NoGate,
    );
    Outcome { status, out, notes }
}

/// The bytes of an output from one place to another.
fn part(out: &MemSink, from: usize, to: usize) -> &[u8] {
    out.written().get(from..to).unwrap_or(&[])
}

/// The packets of the script sent twice, worked out by hand.
fn packets(alloc: Global) -> Result<Vec<u8>, NoMemory> {
    let mut bytes = Vec::new(alloc);
    bytes.extend_from_slice(&FIRST_PACKET)?;
    bytes.extend_from_slice(&[0xFF; 31])?;
    bytes.extend_from_slice(&FIRST_UNIT)?;
    bytes.extend_from_slice(&FIRST_PAGE)?;
    bytes.extend_from_slice(&SECOND_PAGE)?;
    bytes.extend_from_slice(&SHARED)?;
    bytes.extend_from_slice(&ENDS)?;
    bytes.extend_from_slice(&LAST_PACKET)?;
    bytes.extend_from_slice(&[0xFF; 137])?;
    bytes.extend_from_slice(&LAST_UNIT)?;
    bytes.extend_from_slice(&ENDS)?;
    Ok(bytes)
}

/// What both languages send is sent once: the PES packets have 151 and 45 bytes.
#[test]
fn a_script_and_itself(rt: HostRuntime) {
    let alloc = rt.alloc();
    let script = SCRIPT.as_bytes();
    let sent = run(&rt, alloc, PAIR, script, script, 0);
    same(&rt, sent.status, ToolStatus::Done);
    same(&rt, sent.notes.written(), b"done\n".as_slice());
    same(
        &rt,
        sent.out.written(),
        packets(alloc).expect(&rt, "memory").as_slice(),
    );
}

/// A receiver of either page shows the script.
#[test]
fn pictures_of_both_pages(rt: HostRuntime) {
    let alloc = rt.alloc();
    let stream = packets(alloc).expect(&rt, "memory");
    for line in [
        "pairdump sd 256 1 3 1 both.ts a.txt 90000 180000",
        "pairdump sd 256 2 3 2 both.ts b.txt 90000 180000",
    ] {
        let told = run(&rt, alloc, line, stream.as_slice(), &[], 0);
        same(&rt, told.status, ToolStatus::Done);
        same(&rt, told.out.written(), PICTURES.as_bytes());
    }
}

/// Pictures that differ are sent of each language: the PES packets have 181 and 45 bytes.
#[test]
fn scripts_of_other_pictures(rt: HostRuntime) {
    let alloc = rt.alloc();
    let script = SCRIPT.as_bytes();
    let sent = run(&rt, alloc, PAIR, script, OTHER_PICTURE.as_bytes(), 0);
    same(&rt, sent.status, ToolStatus::Done);
    same(&rt, sent.out.written().len(), 376);
    same(
        &rt,
        part(&sent.out, 4, 13),
        [2, 0, 0xFF, 0, 0, 1, 0xBD, 0, 175].as_slice(),
    );
    same(
        &rt,
        part(&sent.out, 331, 337),
        [0, 0, 1, 0xBD, 0, 39].as_slice(),
    );
}

/// What is refused, and where nothing is written.
#[test]
fn pairs_that_are_refused(rt: HostRuntime) {
    let alloc = rt.alloc();
    let script = SCRIPT.as_bytes();
    let uneven = run(&rt, alloc, PAIR, script, OTHER_END.as_bytes(), 0);
    same(
        &rt,
        uneven.status,
        ToolStatus::Refused(PairFault::Uneven { set: 1 }),
    );
    same(&rt, uneven.notes.written(), b"refused Uneven\n".as_slice());
    same(&rt, uneven.out.written().len(), 0);
    let unwritten = run(&rt, alloc, PAIR, script, script, 1);
    same(&rt, unwritten.status, ToolStatus::WriteFault(Which::Out));
    same(&rt, unwritten.notes.written(), b"write out\n".as_slice());
    let same_pages = "pair sd 256 1 2 1 a.csv b.csv both.ts";
    let usage = run(&rt, alloc, same_pages, script, script, 0);
    same(&rt, usage.status, ToolStatus::Usage);
}
