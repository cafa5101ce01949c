//! The pictures of all display sets of a stream.

use crate::same::same;
use samples::streams::set_packet;
use samples::{sink_of, source_of_packets, words_of};
use std::alloc::Global;
use std::panic::Expect;
use std::process::Abort;
use std::thread::Threads;
use stream_report::{ReportFault, pictures_top};
use stream_syntax::PacketFault;
use sub_base::{MemSink, NoGate, ToolStatus, Which};

const PICTURES: &str = "pictures sd 256 1 2 stream.ts pictures.txt";

/// A display of four columns and two rows, filled with code 1 of 8 bits and timed out after 12
/// seconds; an epoch begins with it.
#[rattlefmt::skip]
const FILLED: [u8; 47] = [
    0x0F, 0x14, 0x00, 0x01, 0x00, 0x05, 0x07, 0x00, 0x03, 0x00, 0x01,
    0x0F, 0x10, 0x00, 0x01, 0x00, 0x08, 0x0C, 0x0B, 0x00, 0xFF, 0x00, 0x00, 0x00, 0x00,
    0x0F, 0x11, 0x00, 0x01, 0x00, 0x0A, 0x00, 0x0F, 0x00, 0x04, 0x00, 0x02, 0x6F, 0x00, 0x01, 0x03,
    0x0F, 0x80, 0x00, 0x01, 0x00, 0x00,
];

/// A page without regions that begins an epoch, never timed out.
const EMPTY: [u8; 14] = [
    0x0F, 0x10, 0x00, 0x01, 0x00, 0x02, 0x00, 0x0B, 0x0F, 0x80, 0x00, 0x01, 0x00, 0x00,
];

/// A page without regions of state normal.
const NORMAL: [u8; 14] = [
    0x0F, 0x10, 0x00, 0x01, 0x00, 0x02, 0x0C, 0x13, 0x0F, 0x80, 0x00, 0x01, 0x00, 0x00,
];

/// A set of page 2.
const OTHER_PAGE: [u8; 14] = [
    0x0F, 0x10, 0x00, 0x02, 0x00, 0x02, 0x0C, 0x0B, 0x0F, 0x80, 0x00, 0x02, 0x00, 0x00,
];

/// A set that has an end and no page.
const NO_PAGE: [u8; 6] = [0x0F, 0x80, 0x00, 0x01, 0x00, 0x00];

/// How a tool ended over a stream in memory.
#[derive(Drop)]
struct Outcome {
    status: ToolStatus<ReportFault>,
    out: MemSink,
    notes: MemSink,
}

/// Carries out `pictures` over packets and more bytes, where the source and the sink fail at the
/// calls of these numbers.
fn run<R: Threads + Sync + Abort>(
    rt: &R,
    alloc: Global,
    text: &str,
    packets: &[[u8; 188]],
    more: &[u8],
    failing: [u64; 2],
) -> Outcome {
    let [bad_read, bad_write] = failing;
    let words = words_of(alloc, text).expect(rt, "memory");
    let mut stream = source_of_packets(alloc, packets, more, 100, bad_read).expect(rt, "memory");
    let mut out = sink_of(alloc, 1_000_000, bad_write).expect(rt, "memory");
    let mut notes = sink_of(alloc, 1_000_000, 0).expect(rt, "memory");
    let status = pictures_top(
        rt,
        alloc,
        &words,
        &mut stream,
        &mut out,
        &mut notes,
        &NoGate,
    );
    Outcome { status, out, notes }
}

/// Two packets, and the text of what is shown of them.
#[derive(Drop)]
struct Row {
    packets: [[u8; 188]; 2],
    text: &'static str,
}

/// The times of sets and of time-outs, by hand: the picture of FILLED is timed out 1,080,000 ticks
/// behind its time.
#[test]
fn pictures_of_two_sets(rt: HostRuntime) {
    let alloc = rt.alloc();
    let rows = [
        // The next set comes first.
        Row {
            packets: [
                set_packet(0, 90_000, &FILLED),
                set_packet(1, 180_000, &EMPTY),
            ],
            text: "picture 90000 4 2\n4*51F05AC0\n4*51F05AC0\npicture 180000 clear\n",
        },
        // The time-out ends with the next set.
        Row {
            packets: [
                set_packet(0, 90_000, &FILLED),
                set_packet(1, 1_170_000, &EMPTY),
            ],
            text: "picture 90000 4 2\n4*51F05AC0\n4*51F05AC0\npicture 1170000 clear\n",
        },
        // And a tick before it.
        Row {
            packets: [
                set_packet(0, 90_000, &FILLED),
                set_packet(1, 1_170_001, &EMPTY),
            ],
            text: "picture 90000 4 2\n4*51F05AC0\n4*51F05AC0\npicture 1170000 clear\n\
                picture 1170001 clear\n",
        },
        // The stream ends: so does the last time-out.
        Row {
            packets: [
                set_packet(0, 90_000, &EMPTY),
                set_packet(1, 180_000, &FILLED),
            ],
            text: "picture 90000 clear\npicture 180000 4 2\n4*51F05AC0\n4*51F05AC0\n\
                picture 1260000 clear\n",
        },
        // A set of the same time is not kept.
        Row {
            packets: [
                set_packet(0, 90_000, &FILLED),
                set_packet(1, 90_000, &EMPTY),
            ],
            text: "picture 90000 4 2\n4*51F05AC0\n4*51F05AC0\npicture 1170000 clear\n",
        },
        // A packet was lost between the two, and the second waits: it is kept, and nothing is
        // shown of it.
        Row {
            packets: [
                set_packet(0, 90_000, &FILLED),
                set_packet(2, 180_000, &NORMAL),
            ],
            text: "picture 90000 4 2\n4*51F05AC0\n4*51F05AC0\npicture 180000 clear\n",
        },
        // The second is broken.
        Row {
            packets: [
                set_packet(0, 90_000, &FILLED),
                set_packet(1, 180_000, &NO_PAGE),
            ],
            text: "picture 90000 4 2\n4*51F05AC0\n4*51F05AC0\npicture 180000 clear\n",
        },
        // Sets of another page alone are none.
        Row {
            packets: [
                set_packet(0, 90_000, &OTHER_PAGE),
                set_packet(1, 180_000, &OTHER_PAGE),
            ],
            text: "",
        },
    ];
    for row in &rows {
        let told = run(&rt, alloc, PICTURES, &row.packets, &[], [0, 0]);
        same(&rt, told.status, ToolStatus::Done);
        same(&rt, told.notes.written(), b"done\n".as_slice());
        same(&rt, told.out.written(), row.text.as_bytes());
    }
}

/// A packet without the sync byte ends the telling, and no time-out is told that did not come.
#[test]
fn what_ends_the_telling(rt: HostRuntime) {
    let alloc = rt.alloc();
    let first = set_packet(0, 90_000, &FILLED);
    let shown = "picture 90000 4 2\n4*51F05AC0\n4*51F05AC0\n";
    let refused = run(&rt, alloc, PICTURES, &[first, [0; 188]], &[], [0, 0]);
    same(
        &rt,
        refused.status,
        ToolStatus::Refused(ReportFault::Stream {
            packet: 1,
            fault: PacketFault::NoSync,
        }),
    );
    same(&rt, refused.notes.written(), b"refused Stream\n".as_slice());
    same(&rt, refused.out.written(), shown.as_bytes());
    let cut = run(&rt, alloc, PICTURES, &[first], &[0x47; 9], [0, 0]);
    same(&rt, cut.status, ToolStatus::Done);
    let unread = run(&rt, alloc, PICTURES, &[first], &[], [2, 0]);
    same(&rt, unread.status, ToolStatus::ReadFault(Which::First));
    let unwritten = run(&rt, alloc, PICTURES, &[first], &[], [0, 1]);
    same(&rt, unwritten.status, ToolStatus::WriteFault(Which::Out));
    let none = run(&rt, alloc, PICTURES, &[], &[], [0, 0]);
    same(&rt, none.status, ToolStatus::Done);
    same(&rt, none.out.written().len(), 0);
}

/// Words that are no command.
#[test]
fn words_that_are_refused(rt: HostRuntime) {
    let alloc = rt.alloc();
    for text in [
        "pictures sd 256 1 0 stream.ts pictures.txt",
        "pictures sd 256 1 65 stream.ts pictures.txt",
        "pictures sd 31 1 2 stream.ts pictures.txt",
        "pictures sd 256 0 2 stream.ts pictures.txt",
        "pictures ld 256 1 2 stream.ts pictures.txt",
        "pictures sd 256 1 2 stream.ts",
        "pictures sd 256 1 2 stream.ts pictures.txt 90000",
        "picture sd 256 1 2 stream.ts pictures.txt",
        "pictures sd 256 1 2 -stream.ts pictures.txt",
    ] {
        let usage = run(&rt, alloc, text, &[], &[], [1, 1]);
        same(&rt, usage.status, ToolStatus::Usage);
        same(&rt, usage.notes.written(), b"usage\n".as_slice());
    }
}
