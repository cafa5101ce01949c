//! The sets and levels of a stream, by the times at which its packets arrive.

use crate::same::same;
use samples::streams::set_packet;
use samples::{sink_of, source_of_packets, words_of};
use std::alloc::Global;
use std::panic::Expect;
use std::process::Abort;
use stream_report::{ReportFault, levels_top};
use stream_syntax::PacketFault;
use sub_base::{MemSink, ToolStatus, Which};

/// A page without regions that begins an epoch, never timed out. A PES packet of it has 31 bytes.
const EMPTY: [u8; 14] = [
    0x0F, 0x10, 0x00, 0x01, 0x00, 0x02, 0x00, 0x0B, 0x0F, 0x80, 0x00, 0x01, 0x00, 0x00,
];

/// A set that has an end and no page. A PES packet of it has 23 bytes.
const NO_PAGE: [u8; 6] = [0x0F, 0x80, 0x00, 0x01, 0x00, 0x00];

/// A packet of another PID.
fn other_packet() -> [u8; 188] {
    let mut packet = [0xFF; 188];
    packet[0] = 0x47;
    packet[1] = 0x01;
    packet[2] = 0x01;
    packet[3] = 0x10;
    packet
}

/// How the tool ended over a stream in memory.
#[derive(Drop)]
struct Outcome {
    status: ToolStatus<ReportFault>,
    out: MemSink,
    notes: MemSink,
}

/// Carries out `levels` over packets and more bytes, where the source and the sink fail at the
/// calls of these numbers.
fn run<R: Abort>(
    rt: &R,
    alloc: Global,
    text: &str,
    packets: &[[u8; 188]],
    more: &[u8],
    failing: [u64; 2],
) -> Outcome {
    let [bad_read, bad_write] = failing;
    let words = words_of(alloc, text).expect(rt, "memory");
    let mut stream = source_of_packets(alloc, packets, more, 100, bad_read).expect(rt, "memory");
    let mut out = sink_of(alloc, 1_000_000, bad_write).expect(rt, "memory");
    let mut notes = sink_of(alloc, 1_000_000, 0).expect(rt, "memory");
    let status = levels_top(alloc, &words, &mut stream, &mut out, &mut notes);
    Outcome { status, out, notes }
}

/// A command, three packets, and the text that is told of them.
#[derive(Drop)]
struct Row {
    words: &'static str,
    packets: [[u8; 188]; 3],
    text: &'static str,
}

/// Packet s arrives at s times 135,360,000 ticks over the rate, rounded up. A set without regions
/// is done as many ticks behind its last packet, or behind the time of the set before it, as it has
/// bytes.
#[test]
fn levels_of_three_packets(rt: HostRuntime) {
    let alloc = rt.alloc();
    let rows = [
        // 90 ticks a packet: the first set is done before the second one comes, which waits.
        Row {
            words: "levels sd 256 1 1504000 stream.ts levels.txt",
            packets: [
                set_packet(0, 90_000, &EMPTY),
                set_packet(1, 180_000, &EMPTY),
                set_packet(2, 270_000, &EMPTY),
            ],
            text: "set 90000 shown 31 31\nset 180000 shown 31 90031\nset 270000 shown 31 180031\n\
                peak 62\nbreach none\n",
        },
        // The second and the third packet arrive in one tick, and no set is done then.
        Row {
            words: "levels sd 256 1 1000000000 stream.ts levels.txt",
            packets: [
                set_packet(0, 90_000, &EMPTY),
                set_packet(1, 180_000, &EMPTY),
                set_packet(2, 270_000, &EMPTY),
            ],
            text: "set 90000 shown 31 31\nset 180000 shown 31 90031\nset 270000 shown 31 180031\n\
                peak 93\nbreach none\n",
        },
        // The second packet arrives at tick 31, as the first set is done.
        Row {
            words: "levels large 256 1 4366452 stream.ts levels.txt",
            packets: [
                set_packet(0, 90_000, &EMPTY),
                set_packet(1, 180_000, &EMPTY),
                other_packet(),
            ],
            text: "set 90000 shown 31 31\nset 180000 shown 31 90031\npeak 31\nbreach none\n",
        },
        // And a tick before that.
        Row {
            words: "levels wide 256 1 4512000 stream.ts levels.txt",
            packets: [
                set_packet(0, 90_000, &EMPTY),
                set_packet(1, 180_000, &EMPTY),
                other_packet(),
            ],
            text: "set 90000 shown 31 31\nset 180000 shown 31 90031\npeak 62\nbreach none\n",
        },
        // At 1,000 bits a second the second packet arrives at tick 135,360, too late for its set.
        Row {
            words: "levels hd 256 1 1000 stream.ts levels.txt",
            packets: [
                set_packet(0, 90_000, &EMPTY),
                set_packet(1, 100_000, &EMPTY),
                other_packet(),
            ],
            text: "set 90000 shown 31 31\nset 100000 shown 31 135391\npeak 31\n\
                breach late 100000 135391\n",
        },
        // Packets of other PIDs count: the third arrives at 270.72 ticks, rounded up.
        Row {
            words: "levels sd 256 1 1000000 stream.ts levels.txt",
            packets: [
                other_packet(),
                other_packet(),
                set_packet(0, 90_000, &EMPTY),
            ],
            text: "set 90000 shown 31 302\npeak 31\nbreach none\n",
        },
        // A set without a page is broken, and takes its bytes all the same; one of an earlier
        // time is dropped, at the tick of its packet.
        Row {
            words: "levels sd 256 1 1504000 stream.ts levels.txt",
            packets: [
                set_packet(0, 90_000, &EMPTY),
                set_packet(1, 180_000, &NO_PAGE),
                set_packet(2, 170_000, &EMPTY),
            ],
            text: "set 90000 shown 31 31\nset 180000 broken 23 90023\n\
                set 170000 notlater 31 180\npeak 54\nbreach none\n",
        },
    ];
    for row in &rows {
        let told = run(&rt, alloc, row.words, &row.packets, &[], [0, 0]);
        same(&rt, told.status, ToolStatus::Done);
        same(&rt, told.notes.written(), b"done\n".as_slice());
        same(&rt, told.out.written(), row.text.as_bytes());
    }
}

const LEVELS: &str = "levels sd 256 1 1504000 stream.ts levels.txt";

/// A packet without the sync byte ends the telling, without the levels.
#[test]
fn what_ends_the_telling(rt: HostRuntime) {
    let alloc = rt.alloc();
    let first = set_packet(0, 90_000, &EMPTY);
    let refused = run(&rt, alloc, LEVELS, &[first, [0; 188]], &[], [0, 0]);
    same(
        &rt,
        refused.status,
        ToolStatus::Refused(ReportFault::Stream {
            packet: 1,
            fault: PacketFault::NoSync,
        }),
    );
    same(&rt, refused.notes.written(), b"refused Stream\n".as_slice());
    same(
        &rt,
        refused.out.written(),
        b"set 90000 shown 31 31\n".as_slice(),
    );
    let cut = run(&rt, alloc, LEVELS, &[first], &[0x47; 9], [0, 0]);
    same(&rt, cut.status, ToolStatus::Done);
    let unread = run(&rt, alloc, LEVELS, &[first], &[], [2, 0]);
    same(&rt, unread.status, ToolStatus::ReadFault(Which::First));
    let unwritten = run(&rt, alloc, LEVELS, &[first], &[], [0, 1]);
    same(&rt, unwritten.status, ToolStatus::WriteFault(Which::Out));
    let none = run(&rt, alloc, LEVELS, &[], &[], [0, 0]);
    same(&rt, none.status, ToolStatus::Done);
    same(&rt, none.out.written(), b"peak 0\nbreach none\n".as_slice());
}

/// Words that are no command.
#[test]
fn words_that_are_refused(rt: HostRuntime) {
    let alloc = rt.alloc();
    for text in [
        "levels sd 256 1 999 stream.ts levels.txt",
        "levels sd 256 1 1000000001 stream.ts levels.txt",
        "levels sd 256 1 01504000 stream.ts levels.txt",
        "levels sd 256 1 PCR stream.ts levels.txt",
        "levels sd 31 1 1504000 stream.ts levels.txt",
        "levels sd 256 0 1504000 stream.ts levels.txt",
        "levels ld 256 1 1504000 stream.ts levels.txt",
        "levels sd 256 1 1504000 stream.ts",
        "level sd 256 1 1504000 stream.ts levels.txt",
        "levels sd 256 1 1504000 -stream.ts levels.txt",
    ] {
        let usage = run(&rt, alloc, text, &[], &[], [1, 1]);
        same(&rt, usage.status, ToolStatus::Usage);
        same(&rt, usage.notes.written(), b"usage\n".as_slice());
    }
}
