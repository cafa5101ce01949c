//! The sets and levels of a stream, by the clock of the programme that lists the PID.

use crate::same::same;
use samples::streams::{packet_of, set_packet};
use samples::{sink_of, source_of_packets, words_of};
use std::panic::Expect;
use stream_report::levels_top;
use sub_base::ToolStatus;

/// A page without regions that begins an epoch, never timed out. A PES packet of it has 31 bytes.
const EMPTY: [u8; 14] = [
    0x0F, 0x10, 0x00, 0x01, 0x00, 0x02, 0x00, 0x0B, 0x0F, 0x80, 0x00, 0x01, 0x00, 0x00,
];

/// A packet with a PAT: programme 1 has its PMT on PID 32.
#[rattlefmt::skip]
const PAT: [u8; 21] = [
    0x47, 0x40, 0x00, 0x10, 0x00, 0x00, 0xB0, 0x0D, 0x00, 0x01, 0xC1, 0x00, 0x00, 0x00, 0x01, 0xE0,
    0x20, 0xA2, 0xC3, 0x29, 0x41,
];

/// A packet with a PMT of programme 1: its clock is on PID 257, and PID 256 is private data.
#[rattlefmt::skip]
const PMT: [u8; 26] = [
    0x47, 0x40, 0x20, 0x10, 0x00, 0x02, 0xB0, 0x12, 0x00, 0x01, 0xC1, 0x00, 0x00, 0xE1, 0x01, 0xF0,
    0x00, 0x06, 0xE1, 0x00, 0xF0, 0x00, 0xE5, 0xDE, 0x7C, 0x98,
];

/// Samples of the clock, in ticks of 90 kHz.
const AT_9000: [u8; 6] = [0x00, 0x00, 0x11, 0x94, 0x7E, 0x00];

const AT_9400: [u8; 6] = [0x00, 0x00, 0x12, 0x5C, 0x7E, 0x00];

const AT_209000: [u8; 6] = [0x00, 0x01, 0x98, 0x34, 0x7E, 0x00];

const AT_200: [u8; 6] = [0x00, 0x00, 0x00, 0x64, 0x7E, 0x00];

/// 200 ticks before the clock goes round.
const AT_8589934392: [u8; 6] = [0xFF, 0xFF, 0xFF, 0x9C, 0x7E, 0x00];

/// A packet of that PID, 256 to 511, with a sample and no payload.
fn clock_packet(pid: u8, sample: [u8; 6]) -> [u8; 188] {
    let [a, b, c, d, e, f] = sample;
    packet_of(&[0x47, 0x01, pid, 0x20, 0xB7, 0x10, a, b, c, d, e, f], &[])
}

/// A packet of PID 258 with a payload.
fn other_packet() -> [u8; 188] {
    packet_of(&[0x47, 0x01, 0x02, 0x10], &[])
}

/// Five packets behind a PAT and a PMT, and the text that is told of them.
#[derive(Drop)]
struct Row {
    packets: [[u8; 188]; 5],
    text: &'static str,
}

/// Between two samples packets arrive evenly; those before the first at it, and those behind the
/// last at that. A set without regions is done as many ticks behind its last packet, or behind the
/// time of the set before it, as it has bytes.
#[test]
fn levels_by_the_clock(rt: HostRuntime) {
    let alloc = rt.alloc();
    let rows = [
        // 100 ticks a packet: the sets arrive at 9100 and 9300.
        Row {
            packets: [
                clock_packet(1, AT_9000),
                set_packet(0, 99_000, &EMPTY),
                other_packet(),
                set_packet(1, 189_000, &EMPTY),
                clock_packet(1, AT_9400),
            ],
            text: "set 99000 shown 31 9131\nset 189000 shown 31 99031\npeak 31\nbreach none\n",
        },
        // The clock goes round between them, and times with it.
        Row {
            packets: [
                clock_packet(1, AT_8589934392),
                set_packet(0, 90_000, &EMPTY),
                other_packet(),
                set_packet(1, 180_000, &EMPTY),
                clock_packet(1, AT_200),
            ],
            text: "set 8590024592 shown 31 8589934523\nset 8590114592 shown 31 8590024623\n\
                peak 31\nbreach none\n",
        },
        // A sample of another PID says nothing: both sets arrive with the last sample.
        Row {
            packets: [
                clock_packet(1, AT_9000),
                set_packet(0, 99_000, &EMPTY),
                clock_packet(2, AT_209000),
                set_packet(1, 189_000, &EMPTY),
                other_packet(),
            ],
            text: "set 99000 shown 31 9031\nset 189000 shown 31 99031\npeak 62\nbreach none\n",
        },
        // 100,000 ticks a packet: the set arrives behind its time.
        Row {
            packets: [
                other_packet(),
                clock_packet(1, AT_9000),
                set_packet(0, 99_000, &EMPTY),
                clock_packet(1, AT_209000),
                other_packet(),
            ],
            text: "set 99000 shown 31 109031\npeak 31\nbreach late 99000 109031\n",
        },
        // Without a sample all packets arrive at tick 0.
        Row {
            packets: [
                other_packet(),
                set_packet(0, 90_000, &EMPTY),
                other_packet(),
                set_packet(1, 180_000, &EMPTY),
                other_packet(),
            ],
            text: "set 90000 shown 31 31\nset 180000 shown 31 90031\npeak 62\nbreach none\n",
        },
    ];
    for row in &rows {
        let [first, second, third, fourth, fifth] = row.packets;
        let pat = packet_of(&PAT, &[]);
        let pmt = packet_of(&PMT, &[]);
        let packets = [pat, pmt, first, second, third, fourth, fifth];
        let words = words_of(alloc, "levels sd 256 1 pcr stream.ts levels.txt").expect(
            &rt, "memory",
        );
        let mut stream = source_of_packets(alloc, &packets, &[], 100, 0).expect(&rt, "memory");
        let mut out = sink_of(alloc, 1_000_000, 0).expect(&rt, "memory");
        let mut notes = sink_of(alloc, 1_000_000, 0).expect(&rt, "memory");
        let status = levels_top(alloc, &words, &mut stream, &mut out, &mut notes);
        same(&rt, status, ToolStatus::Done);
        same(&rt, out.written(), row.text.as_bytes());
    }
}
