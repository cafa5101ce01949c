ghost use Rattle.std.specs.Prelude.{◌≤◌};

use crate::compiled_scripts::Outcome;
use crate::same::same;
use dvbsub_cmd::{Status, Which, top};
use samples::first_run::{
    ENCODER_HEAD, FIRST_HEAD, FIRST_UNIT, LATER_HEAD, SECOND_HEAD, SECOND_UNIT, UNSYNCED_HEAD,
    stream as first_run,
};
use samples::streams::{ENCODER_UNIT, packet_of, stream_of};
use samples::{is_seen, words_of};
use std::alloc::Global;
use std::panic::Expect;
use std::process::Abort;
use std::sync::atomic::{AtomicBool, AtomicU32, Ordering};
use std::thread::Threads;
use stream_syntax::PacketFault;
use sub_base::{BandGate, MemSink, MemSource, NoGate, NoMemory};

const DUMP: &str = "dump sd 256 1 2 in.ts out.txt 90000 180000";

/// A tick before the first set, and the tick of it.
const EARLIER: &str = "dump sd 256 1 2 in.ts out.txt 89999 90000";

/// The two packets of the first run in the lesser profiles, in one, two and the most bands.
const LESSER: [&str; 6] = [
    "dump sd 256 1 1 in.ts out.txt 90000 180000",
    "dump sd 256 1 2 in.ts out.txt 90000 180000",
    "dump sd 256 1 64 in.ts out.txt 90000 180000",
    "dump hd 256 1 1 in.ts out.txt 90000 180000",
    "dump hd 256 1 2 in.ts out.txt 90000 180000",
    "dump hd 256 1 64 in.ts out.txt 90000 180000",
];

/// The same in the profile that is for reading alone.
const WIDE: [&str; 3] = [
    "dump wide 256 1 1 in.ts out.txt 90000 180000",
    "dump wide 256 1 2 in.ts out.txt 90000 180000",
    "dump wide 256 1 64 in.ts out.txt 90000 180000",
];

const LARGE: [&str; 3] = [
    "dump large 256 1 1 in.ts out.txt 90000 180000",
    "dump large 256 1 2 in.ts out.txt 90000 180000",
    "dump large 256 1 64 in.ts out.txt 90000 180000",
];

const PICTURES: &str =
    "picture 90000 4 2\n1*51F05AC0 3*912236C0\n4*D29210C0\npicture 180000 clear\n";

const CLEAR_PICTURES: &str = "picture 90000 clear\npicture 180000 clear\n";

const ROWS_HEAD: [u8; 6] = [0x47, 0x41, 0x00, 0x30, 0x77, 0x00];

/// A unit of a display of four columns and five rows, of which rows 1 to 3 are filled with code 1
/// of 8 bits.
#[rattlefmt::skip]
const ROWS_UNIT: [u8; 64] = [
    0x00, 0x00, 0x01, 0xBD, 0x00, 0x3A, 0x84, 0x80, 0x05, 0x21, 0x00, 0x05, 0xBF, 0x21, 0x20, 0x00,
    0x0F, 0x14, 0x00, 0x01, 0x00, 0x05, 0x07, 0x00, 0x03, 0x00, 0x04,
    0x0F, 0x10, 0x00, 0x01, 0x00, 0x08, 0x0C, 0x0B, 0x00, 0xFF, 0x00, 0x00, 0x00, 0x01,
    0x0F, 0x11, 0x00, 0x01, 0x00, 0x0A, 0x00, 0x0F, 0x00, 0x04, 0x00, 0x03, 0x6F, 0x00, 0x01, 0x03,
    0x0F, 0x80, 0x00, 0x01, 0x00, 0x00,
    0xFF,
];

/// The display of five rows, in one, two, seven and the most bands.
const FIVE_ROWS: [&str; 4] = [
    "dump sd 256 1 1 in.ts out.txt 90000",
    "dump sd 256 1 2 in.ts out.txt 90000",
    "dump sd 256 1 7 in.ts out.txt 90000",
    "dump sd 256 1 64 in.ts out.txt 90000",
];

const ROWS_PICTURE: &str =
    "picture 90000 4 5\n4*000000FF\n4*51F05AC0\n4*51F05AC0\n4*51F05AC0\n4*000000FF\n";

/// Words that are no command.
const NO_DUMPS: [&str; 10] = [
    "dump sd 256 1 2 in.ts out.txt",
    "dump sd 256 1 2 in.ts out.txt 180000 90000",
    "dump sd 256 1 2 in.ts out.txt 90000 90000",
    "dump sd 256 1 2 in.ts out.txt 17179869184",
    "dump sd 256 1 2 in.ts out.txt 90000 first",
    "dump sd 256 1 0 in.ts out.txt 90000",
    "dump sd 256 1 65 in.ts out.txt 90000",
    "dump sd 256 0 2 in.ts out.txt 90000",
    "dump sd 31 1 2 in.ts out.txt 90000",
    "dump other 256 1 2 in.ts out.txt 90000",
];

/// Carries out a command over a stream, whose source gives at most `most` bytes a read. The source
/// fails at the read with the number `bad_read`, and the output at the write with the number
/// `bad_write`, which are counted from 1.
pub(crate) fn run_over<R: Threads + Sync + Abort, G: BandGate + Sync>(
    rt: &R,
    alloc: Global,
    line: &str,
    stream: &[u8],
    most: usize,
    fails: [u64; 2],
    gate: &G,
) -> Outcome
    requires { 1 ≤ most }
{
    let words = words_of(alloc, line).expect(rt, "memory");
    let [bad_read, bad_write] = fails;
    let bytes = Vec::from_slice(alloc, stream).expect(rt, "memory");
    let mut first = MemSource::make(
        alloc,
        bytes,
        most,
        vec![in alloc; bad_read].expect(rt, "memory"),
    );
    let mut second = MemSource::make(
        alloc,
        Vec::new(alloc),
        1,
        vec![in alloc; 1u64].expect(rt, "memory"),
    );
    let mut out = MemSink::make(
        alloc,
        1_000_000,
        vec![in alloc; bad_write].expect(rt, "memory"),
    );
    let mut notes = MemSink::make(alloc, 1_000_000, Vec::new(alloc));
    let status = top(
        rt,
        alloc,
        &words,
        &mut first,
        &mut second,
        &mut out,
        &mut notes,
        gate,
    );
    Outcome { status, out, notes }
}

/// A command over a stream, and how it ends.
#[derive(Drop)]
pub(crate) struct Row<'a> {
    line: &'a str,
    stream: &'a [u8],
    status: Status,
    note: &'a str,
    text: &'a str,
}

/// Carries out a command, with reads of at most so many bytes.
fn is_told<R: Threads + Sync + Abort>(rt: &R, alloc: Global, row: &Row<'_>, most: usize)
    requires { 1 ≤ most }
{
    let told = run_over(rt, alloc, row.line, row.stream, most, [0, 0], &NoGate);
    same(rt, told.status, row.status);
    same(rt, told.notes.written(), row.note.as_bytes());
    same(rt, told.out.written(), row.text.as_bytes());
}

/// Carries out each command, with reads of few bytes, of a packet, and of all at once.
pub(crate) fn are_told<R: Threads + Sync + Abort>(rt: &R, alloc: Global, rows: &[Row<'_>]) {
    for row in rows {
        for most in [7, 188, 100_000] {
            is_told(rt, alloc, row, most);
        }
    }
}

pub(crate) fn done_with<'a>(line: &'a str, stream: &'a [u8], text: &'a str) -> Row<'a> {
    Row {
        line,
        stream,
        status: Status::Done { cut: 0 },
        note: "done\n",
        text,
    }
}

/// So many bytes behind the last packet.
pub(crate) fn cut_with<'a>(line: &'a str, stream: &'a [u8], text: &'a str) -> Row<'a> {
    Row {
        line,
        stream,
        status: Status::Done { cut: 100 },
        note: "done cut 100\n",
        text,
    }
}

/// The second packet has another byte in place of its sync byte.
pub(crate) fn refused_with<'a>(line: &'a str, stream: &'a [u8], text: &'a str) -> Row<'a> {
    Row {
        line,
        stream,
        status: Status::StreamRefused {
            packet: 1,
            fault: PacketFault::NoSync,
        },
        note: "stream 1 NoSync\n",
        text,
    }
}

/// Words that are no command: nothing is written.
pub(crate) fn no_command<'a>(line: &'a str) -> Row<'a> {
    Row {
        line,
        stream: &[],
        status: Status::Usage,
        note: "usage\n",
        text: "",
    }
}

#[test]
fn lesser_profiles_show_in_any_bands(rt: HostRuntime) {
    let stream = first_run(rt.alloc()).expect(&rt, "memory");
    for line in LESSER {
        let row = done_with(line, stream.as_slice(), PICTURES);
        is_told(&rt, rt.alloc(), &row, 100_000);
    }
}

#[test]
fn a_wide_receiver_shows_in_any_bands(rt: HostRuntime) {
    let stream = first_run(rt.alloc()).expect(&rt, "memory");
    for line in WIDE {
        let row = done_with(line, stream.as_slice(), PICTURES);
        is_told(&rt, rt.alloc(), &row, 100_000);
    }
}

#[test]
fn a_large_receiver_shows_in_any_bands(rt: HostRuntime) {
    let stream = first_run(rt.alloc()).expect(&rt, "memory");
    for line in LARGE {
        let row = done_with(line, stream.as_slice(), PICTURES);
        is_told(&rt, rt.alloc(), &row, 100_000);
    }
}

#[test]
fn five_rows_are_one_picture_in_any_bands(rt: HostRuntime) {
    let stream = packet_of(&ROWS_HEAD, &ROWS_UNIT);
    for line in FIVE_ROWS {
        are_told(&rt, rt.alloc(), &[done_with(line, &stream, ROWS_PICTURE)]);
    }
}

/// A stream that has begun without its first packet, an empty one, and one that ends within a
/// packet.
#[test]
fn parts_of_a_stream_are_shown(rt: HostRuntime) {
    let alloc = rt.alloc();
    let first = packet_of(&FIRST_HEAD, &FIRST_UNIT);
    let second = packet_of(&SECOND_HEAD, &SECOND_UNIT);
    let cut = stream_of(alloc, first, second, &[0x47; 100]).expect(&rt, "memory");
    let rows = [
        cut_with(DUMP, cut.as_slice(), PICTURES),
        done_with(DUMP, &second, CLEAR_PICTURES),
        done_with(DUMP, &[], CLEAR_PICTURES),
    ];
    are_told(&rt, alloc, &rows)
}

/// The picture stays behind a packet that is lost. Behind one that is refused, only the ticks
/// before a set that came are told.
#[test]
fn losses_and_refusals_are_shown(rt: HostRuntime) {
    let alloc = rt.alloc();
    let first = packet_of(&FIRST_HEAD, &FIRST_UNIT);
    let gap = stream_of(alloc, first, packet_of(&LATER_HEAD, &SECOND_UNIT), &[]).expect(
        &rt, "memory",
    );
    let unsynced = stream_of(alloc, first, packet_of(&UNSYNCED_HEAD, &SECOND_UNIT), &[]).expect(
        &rt, "memory",
    );
    let rows = [
        done_with(DUMP, gap.as_slice(), PICTURES),
        refused_with(DUMP, unsynced.as_slice(), ""),
        refused_with(EARLIER, unsynced.as_slice(), "picture 89999 clear\n"),
    ];
    are_told(&rt, alloc, &rows)
}

#[test]
fn a_read_that_fails_is_told(rt: HostRuntime) {
    let alloc = rt.alloc();
    let stream = first_run(alloc).expect(&rt, "memory");
    let unread = run_over(&rt, alloc, DUMP, stream.as_slice(), 188, [2, 0], &NoGate);
    same(&rt, unread.status, Status::ReadFault(Which::First));
    same(&rt, unread.notes.written(), b"read first\n".as_slice());
    same(&rt, unread.out.written(), b"".as_slice());
}

#[test]
fn a_write_that_fails_is_told(rt: HostRuntime) {
    let alloc = rt.alloc();
    let stream = first_run(alloc).expect(&rt, "memory");
    let unwritten = run_over(&rt, alloc, DUMP, stream.as_slice(), 188, [0, 1], &NoGate);
    same(&rt, unwritten.status, Status::WriteFault(Which::Out));
    same(&rt, unwritten.notes.written(), b"write out\n".as_slice());
    same(&rt, unwritten.out.written(), b"".as_slice());
}

#[test]
fn other_words_are_no_dump(rt: HostRuntime) {
    for line in NO_DUMPS {
        are_told(&rt, rt.alloc(), &[no_command(line)]);
    }
}

/// The text of the picture of the usual encoder's unit: two pixels in a corner of a display of 720
/// by 576.
fn encoder_picture<R: Abort>(rt: &R, alloc: Global, title: &str) -> String {
    let mut text = String::new(alloc);
    text.push_str(title).expect(rt, "memory");
    text.push_str("1*EB808000 1*7E808000 718*000000FF\n")
        .expect(rt, "memory");
    for _ in 1..576 {
        text.push_str("720*000000FF\n").expect(rt, "memory");
    }
    text
}

/// It stands for ten seconds.
#[test]
fn a_usual_encoder_is_shown(rt: HostRuntime) {
    let alloc = rt.alloc();
    let stream = packet_of(&ENCODER_HEAD, &ENCODER_UNIT);
    let mut text = encoder_picture(&rt, alloc, "picture 90000 720 576\n");
    let later = encoder_picture(&rt, alloc, "picture 989999 720 576\n");
    text.push_str(later.as_str()).expect(&rt, "memory");
    text.push_str("picture 990000 clear\n")
        .expect(&rt, "memory");
    let line = "dump sd 256 1 7 in.ts out.txt 90000 989999 990000";
    are_told(&rt, alloc, &[done_with(line, &stream, text.as_str())])
}

/// The usual encoder's packet with that counter, presentation time and byte of its object.
fn encoder_packet(counter: u8, time: [u8; 5], coding: u8) -> [u8; 188] {
    let mut head = ENCODER_HEAD;
    head[3] = counter;
    let mut unit = ENCODER_UNIT;
    unit[9..14].copy_from_slice(&time);
    unit[68] = coding;
    packet_of(&head, &unit)
}

/// The encoder's set at 90000, the same with an object of characters at 180000, a set of state
/// normal at 270000, and the first set again at 360000.
pub(crate) fn four_sets(alloc: Global) -> Result<Vec<u8>, NoMemory> {
    let mut unit = SECOND_UNIT;
    unit[9..14].copy_from_slice(&[0x21, 0x00, 0x11, 0x3D, 0x61]);
    let third = packet_of(&[0x47, 0x41, 0x00, 0x32, 0x98, 0x00], &unit);
    let fourth = encoder_packet(0x33, [0x21, 0x00, 0x15, 0xFC, 0x81], 0x00);
    let behind = stream_of(alloc, third, fourth, &[])?;
    let first = packet_of(&ENCODER_HEAD, &ENCODER_UNIT);
    let second = encoder_packet(0x31, [0x21, 0x00, 0x0B, 0x7E, 0x41], 0x04);
    stream_of(alloc, first, second, behind.as_slice())
}

/// A set that is refused clears the picture, up to the next that is not normal.
#[test]
fn a_broken_set_is_clear(rt: HostRuntime) {
    let alloc = rt.alloc();
    let stream = four_sets(alloc).expect(&rt, "memory");
    let mut text = encoder_picture(&rt, alloc, "picture 90000 720 576\n");
    text.push_str("picture 180000 clear\npicture 270000 clear\n")
        .expect(&rt, "memory");
    let last = encoder_picture(&rt, alloc, "picture 360000 720 576\n");
    text.push_str(last.as_str()).expect(&rt, "memory");
    let line = "dump sd 256 1 2 in.ts out.txt 90000 180000 270000 360000";
    are_told(
        &rt,
        alloc,
        &[done_with(line, stream.as_slice(), text.as_str())],
    )
}

/// Bands 0 and 1 raise their flags, and each looks for the other's.
#[derive(Drop)]
struct Meeting {
    first: AtomicBool,
    second: AtomicBool,
    missed: AtomicU32,
}

impl BandGate for Meeting {
    fn enter(&self, band: u32) {
        let (mine, other) = if band == 0 {
            (&self.first, &self.second)
        } else {
            (&self.second, &self.first)
        };
        mine.store(true, Ordering::SeqCst);
        if !is_seen(other) {
            self.missed.fetch_add(1, Ordering::SeqCst);
        }
    }
}

/// A picture of five rows is drawn in two bands at the same time: both are entered, and each sees
/// the other's flag.
#[test]
fn two_bands_of_a_dump_meet(rt: HostRuntime) {
    let gate = Meeting {
        first: AtomicBool::new(false),
        second: AtomicBool::new(false),
        missed: AtomicU32::new(0),
    };
    let stream = packet_of(&ROWS_HEAD, &ROWS_UNIT);
    let told = run_over(&rt, rt.alloc(), FIVE_ROWS[1], &stream, 188, [0, 0], &gate);
    same(&rt, told.status, Status::Done { cut: 0 });
    same(&rt, told.out.written(), ROWS_PICTURE.as_bytes());
    assert!(rt; gate.first.load(Ordering::SeqCst));
    assert!(rt; gate.second.load(Ordering::SeqCst));
    same(&rt, gate.missed.load(Ordering::SeqCst), 0);
}
