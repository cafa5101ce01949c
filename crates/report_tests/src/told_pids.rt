//! What each PID of a stream has of subtitles.

ghost use Rattle.std.specs.Prelude.{◌≤◌, length};

use crate::same::same;
use samples::streams::set_packet;
use samples::{sink_of, source_of_packets, words_of};
use std::alloc::Global;
use std::panic::Expect;
use std::process::Abort;
use stream_report::{ReportFault, pids_inputs, pids_top};
use stream_syntax::PacketFault;
use sub_base::{MemSink, ToolStatus, Which};

const PIDS: &str = "pids stream.ts pids.txt";

/// A set of page 1: page composition, CLUT definition, end of display set.
#[rattlefmt::skip]
const PAGE_ONE: [u8; 22] = [
    0x0F, 0x10, 0x00, 0x01, 0x00, 0x02, 0x00, 0x0B,
    0x0F, 0x12, 0x00, 0x01, 0x00, 0x02, 0x00, 0x0F,
    0x0F, 0x80, 0x00, 0x01, 0x00, 0x00,
];

/// The same for page 2, which takes objects of page 3: two of these, and a region of page 2.
#[rattlefmt::skip]
const PAGE_TWO: [u8; 32] = [
    0x0F, 0x10, 0x00, 0x02, 0x00, 0x02, 0x00, 0x0B,
    0x0F, 0x13, 0x00, 0x03, 0x00, 0x00,
    0x0F, 0x13, 0x00, 0x03, 0x00, 0x00,
    0x0F, 0x11, 0x00, 0x02, 0x00, 0x00,
    0x0F, 0x80, 0x00, 0x02, 0x00, 0x00,
];

/// A CLUT definition of page 1 behind no page, and a page composition twice behind it, of page 4.
#[rattlefmt::skip]
const TWICE: [u8; 24] = [
    0x0F, 0x12, 0x00, 0x01, 0x00, 0x02, 0x00, 0x0F,
    0x0F, 0x10, 0x00, 0x04, 0x00, 0x02, 0x00, 0x0B,
    0x0F, 0x10, 0x00, 0x04, 0x00, 0x02, 0x00, 0x0B,
];

/// A packet of PID 256 and more with a set.
fn packet_of(more: u8, counter: u8, pts: u32, segments: &[u8]) -> [u8; 188]
    requires { length segments.now ≤ 160 }
{
    changed(set_packet(counter, pts, segments), 2, more)
}

/// The same packet with another byte at a place.
fn changed(packet: [u8; 188], place: usize, byte: u8) -> [u8; 188] {
    let mut packet = packet;
    if let Some(changed) = packet.get_mut(place) {
        *changed = byte;
    }
    packet
}

/// How a tool ended over a stream in memory.
#[derive(Drop)]
struct Outcome {
    status: ToolStatus<ReportFault>,
    out: MemSink,
    notes: MemSink,
}

/// Carries out `pids` over packets and more bytes, where the source and the sink fail at the calls
/// of these numbers.
fn run<R: Abort>(
    rt: &R,
    alloc: Global,
    text: &str,
    packets: &[[u8; 188]],
    more: &[u8],
    failing: [u64; 2],
) -> Outcome {
    let [bad_read, bad_write] = failing;
    let words = words_of(alloc, text).expect(rt, "memory");
    let mut stream = source_of_packets(alloc, packets, more, 100, bad_read).expect(rt, "memory");
    let mut out = sink_of(alloc, 1_000_000, bad_write).expect(rt, "memory");
    let mut notes = sink_of(alloc, 1_000_000, 0).expect(rt, "memory");
    let status = pids_top(alloc, &words, &mut stream, &mut out, &mut notes);
    Outcome { status, out, notes }
}

/// Three packets, and what is told of them.
#[derive(Drop)]
struct Row {
    packets: [[u8; 188]; 3],
    text: &'static str,
}

/// Counts of PES packets, of compositions and of what stands alone, by hand.
#[test]
fn pages_of_each_pid(rt: HostRuntime) {
    let alloc = rt.alloc();
    let one = packet_of(0, 0, 90_000, &PAGE_ONE);
    let two = packet_of(0, 1, 180_000, &PAGE_TWO);
    let twice = packet_of(0, 2, 90_001, &TWICE);
    let rows = [
        // A CLUT definition beside its page's composition does not stand alone, and one of another
        // PES packet does; a page composition twice in a PES packet counts once.
        Row {
            packets: [one, two, twice],
            text: "pid 256 units 3 first 90000 last 90001\n\
                page 1 composition 1 ancillary 1\n\
                page 2 composition 1 ancillary 0\n\
                page 3 composition 0 ancillary 2\n\
                page 4 composition 1 ancillary 0\n",
        },
        // Rising PIDs, and rising pages in them, in whatever order they come.
        Row {
            packets: [
                packet_of(7, 0, 5, &TWICE),
                one,
                packet_of(7, 1, 4, &PAGE_ONE),
            ],
            text: "pid 256 units 1 first 90000 last 90000\n\
                page 1 composition 1 ancillary 0\n\
                pid 263 units 2 first 5 last 4\n\
                page 1 composition 1 ancillary 1\n\
                page 4 composition 1 ancillary 0\n",
        },
        // A double is passed over, and a packet that is scrambled too.
        Row {
            packets: [one, one, changed(two, 3, 0xB1)],
            text: "pid 256 units 1 first 90000 last 90000\n\
                page 1 composition 1 ancillary 0\n",
        },
        // So is a PES packet of video. A gap loses none, since each begins with its packet; bytes
        // that begin no segment name no page.
        Row {
            packets: [
                packet_of(1, 0, 1, &[]),
                changed(packet_of(2, 0, 1, &[]), 174, 0xE0),
                packet_of(1, 9, 8_589_934, &[0x0F, 0x10, 0x00]),
            ],
            text: "pid 257 units 2 first 1 last 8589934\n",
        },
        // A PES packet that is not whole at the end of the stream is not told.
        Row {
            packets: [changed(one, 154, 34), [0x47; 188], changed(one, 2, 9)],
            text: "pid 265 units 1 first 90000 last 90000\n\
                page 1 composition 1 ancillary 0\n",
        },
    ];
    for row in &rows {
        let told = run(&rt, alloc, PIDS, &row.packets, &[], [0, 0]);
        same(&rt, told.status, ToolStatus::Done);
        same(&rt, told.notes.written(), b"done\n".as_slice());
        same(&rt, told.out.written(), row.text.as_bytes());
    }
}

/// What was taken before a packet without the sync byte, or before a read that failed, is told.
#[test]
fn what_ends_the_telling(rt: HostRuntime) {
    let alloc = rt.alloc();
    let first = packet_of(0, 0, 90_000, &PAGE_ONE);
    let text = "pid 256 units 1 first 90000 last 90000\npage 1 composition 1 ancillary 0\n";
    let refused = run(&rt, alloc, PIDS, &[first, [0; 188], first], &[], [0, 0]);
    same(
        &rt,
        refused.status,
        ToolStatus::Refused(ReportFault::Stream {
            packet: 1,
            fault: PacketFault::NoSync,
        }),
    );
    same(&rt, refused.notes.written(), b"refused Stream\n".as_slice());
    same(&rt, refused.out.written(), text.as_bytes());
    // The second read has the end of the first packet.
    let unread = run(&rt, alloc, PIDS, &[first], &[], [3, 0]);
    same(&rt, unread.status, ToolStatus::ReadFault(Which::First));
    same(&rt, unread.out.written(), text.as_bytes());
    let unwritten = run(&rt, alloc, PIDS, &[first], &[], [0, 1]);
    same(&rt, unwritten.status, ToolStatus::WriteFault(Which::Out));
    let cut = run(&rt, alloc, PIDS, &[first], &[0x47; 9], [0, 0]);
    same(&rt, cut.status, ToolStatus::Done);
    same(&rt, cut.out.written(), text.as_bytes());
    let none = run(&rt, alloc, PIDS, &[], &[], [0, 0]);
    same(&rt, none.status, ToolStatus::Done);
    same(&rt, none.out.written().len(), 0);
}

/// A segment of page composition of a page.
fn composition_of(page: u8) -> [u8; 6] {
    [0x0F, 0x10, 0x00, page, 0x00, 0x00]
}

/// Of 65 pages the lowest 64 are told, in whatever order they come, and that there are more.
#[test]
fn more_pages_than_are_told(rt: HostRuntime) {
    let alloc = rt.alloc();
    let mut packets = Vec::new(alloc);
    // Pages 69 down to 5.
    for number in 0u8..65 {
        packets
            .push(packet_of(0, number % 16, 1, &composition_of(69 - number)))
            .expect(&rt, "memory");
    }
    let told = run(&rt, alloc, PIDS, packets.as_slice(), &[], [0, 0]);
    same(&rt, told.status, ToolStatus::Done);
    let text = told.out.written();
    assert!(&rt;
        text.starts_with(b"pid 256 units 65 first 1 last 1\npage 5 composition 1 ancillary 0\n")
    );
    assert!(&rt; text.ends_with(b"page 68 composition 1 ancillary 0\nmore\n"));
    let fewer = run(
        &rt,
        alloc,
        PIDS,
        packets.as_slice().get(1..).unwrap_or(&[]),
        &[],
        [0, 0],
    );
    assert!(&rt;
        fewer
            .out
            .written()
            .ends_with(b"page 68 composition 1 ancillary 0\n")
    );
}

/// Words that are no command, and where the files stand.
#[test]
fn words_that_are_refused(rt: HostRuntime) {
    let alloc = rt.alloc();
    for text in [
        "pids stream.ts",
        "pids stream.ts pids.txt 256",
        "pid stream.ts pids.txt",
        "pids -stream.ts pids.txt",
    ] {
        let usage = run(&rt, alloc, text, &[], &[], [1, 1]);
        same(&rt, usage.status, ToolStatus::Usage);
        same(&rt, usage.notes.written(), b"usage\n".as_slice());
        same(
            &rt,
            pids_inputs(&words_of(alloc, text).expect(&rt, "memory")).out,
            None,
        );
    }
    let places = pids_inputs(&words_of(alloc, PIDS).expect(&rt, "memory"));
    same(&rt, places.first, Some(1));
    same(&rt, places.out, Some(2));
}
