use crate::same::same;
use crate::shown_pictures::{
    are_told, cut_with, done_with, four_sets, no_command, refused_with, run_over,
};
use dvbsub_cmd::{Status, Which};
use samples::first_run::{
    ENCODER_HEAD, FIRST_HEAD, FIRST_UNIT, LATER_HEAD, SECOND_HEAD, SECOND_UNIT, UNSYNCED_HEAD,
    stream as first_run,
};
use samples::streams::{ENCODER_UNIT, packet_of, stream_of};
use std::panic::Expect;
use sub_base::NoGate;

const CHECK: &str = "check sd 0 256 1 in.ts out.txt";

const FIRST_SET: &str = "set 90000 shown 98 99\n";

const BOTH_SETS: &str = "set 90000 shown 98 99\nset 180000 shown 31 90031\npeak 98\nbreach none\n";

/// The second packet comes 90 ticks behind the first, where the first set is not done.
const BOTH_AT_ONCE: &str =
    "set 90000 shown 98 99\nset 180000 shown 31 90031\npeak 129\nbreach none\n";

const BEHIND_A_GAP: &str =
    "set 90000 shown 98 99\nset 180000 waiting 31 90031\npeak 98\nbreach none\n";

/// The first packet comes when its set is to be shown.
const LATE: &str =
    "set 90000 shown 98 90099\nset 180000 shown 31 90736\npeak 98\nbreach late 90000 90099\n";

/// The first packet comes a tick later, so all times lie 2^33 later.
const LIFTED: &str =
    "set 8590024592 shown 98 90100\nset 8590114592 shown 31 8590024623\npeak 98\nbreach none\n";

const FOUR_SETS: &str = "set 90000 shown 84 85\n\
     set 180000 broken 84 90084\n\
     set 270000 waiting 31 180031\n\
     set 360000 shown 84 270085\n\
     peak 199\n\
     breach none\n";

const OPEN_HEAD: [u8; 6] = [0x47, 0x41, 0x00, 0x30, 0x9E, 0x00];

/// A unit of a page without regions that begins an epoch, and no end of its set.
#[rattlefmt::skip]
const OPEN_UNIT: [u8; 25] = [
    0x00, 0x00, 0x01, 0xBD, 0x00, 0x13, 0x84, 0x80, 0x05, 0x21, 0x00, 0x05, 0xBF, 0x21, 0x20, 0x00,
    0x0F, 0x10, 0x00, 0x01, 0x00, 0x02, 0x0C, 0x0B, 0xFF,
];

/// Words that are no command.
const NO_CHECKS: [&str; 8] = [
    "check wide 0 256 1 in.ts out.txt",
    "check other 0 256 1 in.ts out.txt",
    "check sd 8589934592 256 1 in.ts out.txt",
    "check sd 0 31 1 in.ts out.txt",
    "check sd 0 8191 1 in.ts out.txt",
    "check sd 0 256 0 in.ts out.txt",
    "check sd 0 256 1 in.ts",
    "check sd 0 256 1 in.ts out.txt 90000",
];

#[test]
fn sets_are_told_in_each_profile(rt: HostRuntime) {
    let alloc = rt.alloc();
    let stream = first_run(alloc).expect(&rt, "memory");
    let stream = stream.as_slice();
    let rows = [
        done_with(CHECK, stream, BOTH_SETS),
        done_with("check hd 0 256 1 in.ts out.txt", stream, BOTH_SETS),
        done_with("check large 0 256 1 in.ts out.txt", stream, BOTH_AT_ONCE),
    ];
    are_told(&rt, alloc, &rows)
}

#[test]
fn times_begin_at_the_origin(rt: HostRuntime) {
    let alloc = rt.alloc();
    let stream = first_run(alloc).expect(&rt, "memory");
    let stream = stream.as_slice();
    let rows = [
        done_with("check sd 90000 256 1 in.ts out.txt", stream, LATE),
        done_with("check sd 90001 256 1 in.ts out.txt", stream, LIFTED),
    ];
    are_told(&rt, alloc, &rows)
}

#[test]
fn parts_of_a_stream_are_told(rt: HostRuntime) {
    let alloc = rt.alloc();
    let first = packet_of(&FIRST_HEAD, &FIRST_UNIT);
    let second = packet_of(&SECOND_HEAD, &SECOND_UNIT);
    let cut = stream_of(alloc, first, second, &[0x47; 100]).expect(&rt, "memory");
    let encoder = packet_of(&ENCODER_HEAD, &ENCODER_UNIT);
    let rows = [
        cut_with(CHECK, cut.as_slice(), BOTH_SETS),
        done_with(
            CHECK,
            &encoder,
            "set 90000 shown 84 85\npeak 84\nbreach none\n",
        ),
        done_with(CHECK, &[], "peak 0\nbreach none\n"),
    ];
    are_told(&rt, alloc, &rows)
}

#[test]
fn losses_and_broken_sets_are_told(rt: HostRuntime) {
    let alloc = rt.alloc();
    let first = packet_of(&FIRST_HEAD, &FIRST_UNIT);
    let gap = stream_of(alloc, first, packet_of(&LATER_HEAD, &SECOND_UNIT), &[]).expect(
        &rt, "memory",
    );
    let four = four_sets(alloc).expect(&rt, "memory");
    let rows = [
        done_with(CHECK, gap.as_slice(), BEHIND_A_GAP),
        done_with(CHECK, four.as_slice(), FOUR_SETS),
    ];
    are_told(&rt, alloc, &rows)
}

/// A set that only the end of the stream makes ready is not told behind a packet that is refused.
#[test]
fn no_end_is_told_behind_a_refusal(rt: HostRuntime) {
    let alloc = rt.alloc();
    let first = packet_of(&FIRST_HEAD, &FIRST_UNIT);
    let unsynced = packet_of(&UNSYNCED_HEAD, &SECOND_UNIT);
    let refused = stream_of(alloc, first, unsynced, &[]).expect(&rt, "memory");
    let open = packet_of(&OPEN_HEAD, &OPEN_UNIT);
    let refused_open = stream_of(alloc, open, unsynced, &[]).expect(&rt, "memory");
    let rows = [
        refused_with(CHECK, refused.as_slice(), FIRST_SET),
        refused_with(CHECK, refused_open.as_slice(), ""),
        done_with(
            CHECK,
            &open,
            "set 90000 shown 25 25\npeak 25\nbreach none\n",
        ),
    ];
    are_told(&rt, alloc, &rows)
}

#[test]
fn a_check_that_fails_is_told(rt: HostRuntime) {
    let alloc = rt.alloc();
    let stream = first_run(alloc).expect(&rt, "memory");
    let stream = stream.as_slice();
    let unread = run_over(&rt, alloc, CHECK, stream, 7, [40, 0], &NoGate);
    same(&rt, unread.status, Status::ReadFault(Which::First));
    same(&rt, unread.notes.written(), b"read first\n".as_slice());
    same(&rt, unread.out.written(), FIRST_SET.as_bytes());
    let unwritten = run_over(&rt, alloc, CHECK, stream, 188, [0, 1], &NoGate);
    same(&rt, unwritten.status, Status::WriteFault(Which::Out));
    same(&rt, unwritten.notes.written(), b"write out\n".as_slice());
    same(&rt, unwritten.out.written(), b"".as_slice());
}

#[test]
fn other_words_are_no_check(rt: HostRuntime) {
    for line in NO_CHECKS {
        are_told(&rt, rt.alloc(), &[no_command(line)]);
    }
}
