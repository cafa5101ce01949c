ghost use Rattle.std.specs.Prelude.{◌≤◌};

use crate::compiled_scripts::Outcome;
use crate::same::same;
use dvbsub_cmd::{Status, Which, top};
use samples::first_run::{
    BOTH_LINES, ENCODER_HEAD, FIRST_HEAD, FIRST_LINES, FIRST_UNIT, LATER_HEAD, LIST, SECOND_HEAD,
    SECOND_UNIT, UNSYNCED_HEAD,
};
use samples::streams::{ENCODER_UNIT, packet_of, stream_of};
use samples::words_of;
use std::alloc::Global;
use std::panic::Expect;
use std::process::Abort;
use std::thread::Threads;
use stream_syntax::PacketFault;
use sub_base::{MemSink, MemSource, NoGate};

/// The second packet with its error flag set.
const DAMAGED_HEAD: [u8; 6] = [0x47, 0xC1, 0x00, 0x31, 0x98, 0x00];

const BROKEN_HEAD: [u8; 6] = [0x47, 0x41, 0x00, 0x30, 0x97, 0x00];

/// A unit with a page segment of a wrong length, an end segment, and a byte that begins no segment.
#[rattlefmt::skip]
const BROKEN_UNIT: [u8; 32] = [
    0x00, 0x00, 0x01, 0xBD, 0x00, 0x1A, 0x84, 0x80, 0x05, 0x21, 0x00, 0x05, 0xBF, 0x21, 0x20, 0x00,
    0x0F, 0x10, 0x00, 0x01, 0x00, 0x03, 0x0A, 0x08, 0x00, 0x0F, 0x80, 0x00, 0x01, 0x00, 0x00, 0x0E,
];

const OTHER_HEAD: [u8; 6] = [0x47, 0x41, 0x00, 0x31, 0xAE, 0x00];

/// A unit of another stream id.
const OTHER_UNIT: [u8; 9] = [0x00, 0x00, 0x01, 0xC0, 0x00, 0x03, 0x80, 0x00, 0x00];

const GAP_LINES: &str = "unit 0 pts 90000 length 98\n\
     segment 2 14 1 5\n\
     segment 13 10 1 8\n\
     segment 27 11 1 16\n\
     segment 49 13 1 22\n\
     segment 77 80 1 0\n\
     gap 1 1 3\n\
     unit 1 pts 180000 length 31\n\
     segment 2 10 1 2\n\
     segment 10 80 1 0\n";

const ERROR_LINES: &str = "unit 0 pts 90000 length 98\n\
     segment 2 14 1 5\n\
     segment 13 10 1 8\n\
     segment 27 11 1 16\n\
     segment 49 13 1 22\n\
     segment 77 80 1 0\n\
     error 1\n";

/// The lines of a unit as a usual encoder makes it.
const ENCODER_LISTING: &str = "unit 0 pts 90000 length 84\n\
     segment 2 10 1 8\n\
     segment 16 11 1 16\n\
     segment 38 FF 1 2\n\
     segment 46 13 1 11\n\
     segment 63 80 1 0\n";

const BROKEN_LINES: &str = "unit 0 pts 90000 length 32\n\
     fault 6 BadLength\n\
     segment 11 80 1 0\n\
     fault 17 NoSync\n\
     pes 1 OtherStream\n";

/// Lists the stream, whose source gives at most `most` bytes a read and fails at the read, the
/// write and the note of these numbers.
fn run<R: Threads + Sync + Abort>(
    rt: &R,
    alloc: Global,
    stream: &[u8],
    most: usize,
    fails: [u64; 3],
) -> Outcome
    requires { 1 ≤ most }
{
    let words = words_of(alloc, LIST).expect(rt, "memory");
    let [bad_read, bad_write, bad_note] = fails;
    let bytes = Vec::from_slice(alloc, stream).expect(rt, "memory");
    let mut first = MemSource::make(
        alloc,
        bytes,
        most,
        vec![in alloc; bad_read].expect(rt, "memory"),
    );
    let mut second = MemSource::make(
        alloc,
        Vec::new(alloc),
        1,
        vec![in alloc; 1u64].expect(rt, "memory"),
    );
    let mut out = MemSink::make(
        alloc,
        1_000_000,
        vec![in alloc; bad_write].expect(rt, "memory"),
    );
    let mut notes = MemSink::make(
        alloc,
        1_000_000,
        vec![in alloc; bad_note].expect(rt, "memory"),
    );
    let status = top(
        rt,
        alloc,
        &words,
        &mut first,
        &mut second,
        &mut out,
        &mut notes,
        &NoGate,
    );
    Outcome { status, out, notes }
}

/// A stream, and how its listing ends.
#[derive(Drop)]
struct Row<'a> {
    stream: &'a [u8],
    status: Status,
    note: &'a str,
    text: &'a str,
}

/// Lists each stream, in reads of few bytes, of a packet, and of all at once.
fn are_listed<R: Threads + Sync + Abort>(rt: &R, alloc: Global, rows: &[Row<'_>]) {
    for row in rows {
        for most in [7, 188, 100_000] {
            let listed = run(rt, alloc, row.stream, most, [0, 0, 0]);
            same(rt, listed.status, row.status);
            same(rt, listed.notes.written(), row.note.as_bytes());
            same(rt, listed.out.written(), row.text.as_bytes());
        }
    }
}

fn listing_of<'a>(stream: &'a [u8], status: Status, note: &'a str, text: &'a str) -> Row<'a> {
    Row {
        stream,
        status,
        note,
        text,
    }
}

fn done_with<'a>(stream: &'a [u8], text: &'a str) -> Row<'a> {
    listing_of(stream, Status::Done { cut: 0 }, "done\n", text)
}

fn cut_with<'a>(stream: &'a [u8], text: &'a str) -> Row<'a> {
    listing_of(stream, Status::Done { cut: 100 }, "done cut 100\n", text)
}

#[test]
fn whole_and_cut_streams_are_listed(rt: HostRuntime) {
    let alloc = rt.alloc();
    let first = packet_of(&FIRST_HEAD, &FIRST_UNIT);
    let second = packet_of(&SECOND_HEAD, &SECOND_UNIT);
    let begun = [0x47; 100];
    let whole = stream_of(alloc, first, second, &[]).expect(&rt, "memory");
    let cut = stream_of(alloc, first, second, &begun).expect(&rt, "memory");
    let encoder = packet_of(&ENCODER_HEAD, &ENCODER_UNIT);
    let rows = [
        done_with(whole.as_slice(), BOTH_LINES),
        cut_with(cut.as_slice(), BOTH_LINES),
        done_with(&encoder, ENCODER_LISTING),
        done_with(&[], ""),
        cut_with(&begun, ""),
    ];
    are_listed(&rt, alloc, &rows)
}

#[test]
fn losses_and_faults_are_listed(rt: HostRuntime) {
    let alloc = rt.alloc();
    let first = packet_of(&FIRST_HEAD, &FIRST_UNIT);
    let gap = stream_of(alloc, first, packet_of(&LATER_HEAD, &SECOND_UNIT), &[]).expect(
        &rt, "memory",
    );
    let damaged = stream_of(alloc, first, packet_of(&DAMAGED_HEAD, &SECOND_UNIT), &[]).expect(
        &rt, "memory",
    );
    let unsynced = stream_of(alloc, first, packet_of(&UNSYNCED_HEAD, &SECOND_UNIT), &[]).expect(
        &rt, "memory",
    );
    let broken = stream_of(
        alloc,
        packet_of(&BROKEN_HEAD, &BROKEN_UNIT),
        packet_of(&OTHER_HEAD, &OTHER_UNIT),
        &[],
    )
    .expect(&rt, "memory");
    let refused = Status::StreamRefused {
        packet: 1,
        fault: PacketFault::NoSync,
    };
    let rows = [
        done_with(gap.as_slice(), GAP_LINES),
        done_with(damaged.as_slice(), ERROR_LINES),
        done_with(broken.as_slice(), BROKEN_LINES),
        listing_of(
            unsynced.as_slice(),
            refused,
            "stream 1 NoSync\n",
            FIRST_LINES,
        ),
    ];
    are_listed(&rt, alloc, &rows)
}

#[test]
fn a_stream_that_fails_is_told(rt: HostRuntime) {
    let alloc = rt.alloc();
    let first = packet_of(&FIRST_HEAD, &FIRST_UNIT);
    let second = packet_of(&SECOND_HEAD, &SECOND_UNIT);
    let stream = stream_of(alloc, first, second, &[]).expect(&rt, "memory");
    let unread = run(&rt, alloc, stream.as_slice(), 7, [40, 0, 0]);
    same(&rt, unread.status, Status::ReadFault(Which::First));
    same(&rt, unread.notes.written(), b"read first\n".as_slice());
    same(&rt, unread.out.written(), FIRST_LINES.as_bytes());
    let unwritten = run(&rt, alloc, stream.as_slice(), 7, [0, 1, 0]);
    same(&rt, unwritten.status, Status::WriteFault(Which::Out));
    same(&rt, unwritten.notes.written(), b"write out\n".as_slice());
    same(&rt, unwritten.out.written(), b"".as_slice());
    let untold = run(&rt, alloc, stream.as_slice(), 7, [0, 0, 1]);
    same(&rt, untold.status, Status::WriteFault(Which::Notes));
    same(&rt, untold.out.written(), BOTH_LINES.as_bytes());
}
