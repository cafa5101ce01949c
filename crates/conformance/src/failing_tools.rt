use crate::failing::{each_note_fails, each_write_fails};
use crate::refused_growth::ends_with_or_without_memory;
use crate::running::{Asked, Edges, Wanted, done, ends_as, reading, run, sound};
use crate::same::same;
use samples::streams::packet_of;
use std::alloc::Global;
use std::panic::Expect;
use std::process::Abort;
use std::thread::Threads;

const MUX: &str = "mux 1 100 256 1 eng 2 101 257 7 fre eng.ts fre.ts both.ts";

const TAKE: &str = "take 1 both.ts eng.ts";

/// The packet of the PAT of these services, up to its stuffing, worked out by the syntax tables of
/// ISO/IEC 13818-1.
#[rattlefmt::skip]
const PAT: [u8; 25] = [
    0x47, 0x40, 0x00, 0x10, 0x00, 0x00, 0xB0, 0x11, 0x00, 0x01, 0xC1, 0x00, 0x00, 0x00, 0x01, 0xE0,
    0x64, 0x00, 0x02, 0xE0, 0x65, 0x1C, 0x68, 0x1A, 0x50,
];

/// That of the first service's PMT.
#[rattlefmt::skip]
const FIRST_PMT: [u8; 36] = [
    0x47, 0x40, 0x64, 0x10, 0x00, 0x02, 0xB0, 0x1C, 0x00, 0x01, 0xC1, 0x00, 0x00, 0xFF, 0xFF, 0xF0,
    0x00, 0x06, 0xE1, 0x00, 0xF0, 0x0A, 0x59, 0x08, 0x65, 0x6E, 0x67, 0x10, 0x00, 0x01, 0x00, 0x01,
    0xDD, 0xB0, 0x49, 0xDA,
];

/// That of the second service's PMT.
#[rattlefmt::skip]
const SECOND_PMT: [u8; 36] = [
    0x47, 0x40, 0x65, 0x10, 0x00, 0x02, 0xB0, 0x1C, 0x00, 0x02, 0xC1, 0x00, 0x00, 0xFF, 0xFF, 0xF0,
    0x00, 0x06, 0xE1, 0x01, 0xF0, 0x0A, 0x59, 0x08, 0x66, 0x72, 0x65, 0x10, 0x00, 0x07, 0x00, 0x07,
    0x57, 0xF0, 0x8D, 0x78,
];

/// The packets of the first stream.
fn first_packets() -> [[u8; 188]; 2] {
    [
        packet_of(&[0x47, 0x01, 0x00, 0x10], &[1]),
        packet_of(&[0x47, 0x01, 0x00, 0x11], &[2]),
    ]
}

/// The packets of the second stream.
fn second_packets() -> [[u8; 188]; 2] {
    [
        packet_of(&[0x47, 0x01, 0x01, 0x10], &[3]),
        packet_of(&[0x47, 0x01, 0x01, 0x11], &[4]),
    ]
}

fn stream_of<R: Abort>(rt: &R, alloc: Global, packets: &[[u8; 188]]) -> Vec<u8> {
    let mut stream = Vec::new(alloc);
    for packet in packets {
        stream.extend_from_slice(packet).expect(rt, "memory");
    }
    stream
}

/// A table's packet the second time.
fn again(head: &[u8]) -> [u8; 188] {
    let mut packet = packet_of(head, &[]);
    packet[3] = 0x11;
    packet
}

/// Both streams in one multiplex: the tables, and two frames of a table, a packet of the first
/// stream and one of the second.
fn multiplex<R: Abort>(rt: &R, alloc: Global) -> Vec<u8> {
    let [first, second] = first_packets();
    let [beside_first, beside_second] = second_packets();
    stream_of(
        rt,
        alloc,
        &[
            packet_of(&PAT, &[]),
            packet_of(&FIRST_PMT, &[]),
            packet_of(&SECOND_PMT, &[]),
            again(&PAT),
            first,
            beside_first,
            again(&FIRST_PMT),
            second,
            beside_second,
        ],
    )
}

/// The tool ends with that status, and what it has put out begins its output.
fn ends_within<R: Threads + Sync + Abort>(
    rt: &R,
    alloc: Global,
    asked: &Asked<'_>,
    edges: Edges,
    note: &str,
    whole: &[u8],
) {
    let ended = run(rt, alloc, asked, edges);
    same(rt, ended.notes.written(), note.as_bytes());
    same(rt, ended.code, 5);
    assert!(rt; whole.starts_with(ended.out.written()));
}

/// Each read of each source fails in turn, with a byte a call, a few, a packet, and all at once.
fn each_read_fails<R: Threads + Sync + Abort>(
    rt: &R,
    alloc: Global,
    asked: &Asked<'_>,
    whole: &[u8],
) {
    for most in [1, 7, 188, 100_000] {
        let edges = Edges {
            most_read: most,
            ..sound(100_000)
        };
        for read in 0..asked.first.len().div_ceil(most).saturating_add(1) {
            let bad = Edges {
                bad_read: (read as u64).saturating_add(1),
                ..edges
            };
            ends_within(rt, alloc, asked, bad, "read first\n", whole);
        }
        if !asked.second.is_empty() {
            for read in 0..asked.second.len().div_ceil(most).saturating_add(1) {
                let bad = Edges {
                    bad_font_read: (read as u64).saturating_add(1),
                    ..edges
                };
                ends_within(rt, alloc, asked, bad, "read second\n", whole);
            }
        }
        ends_as(rt, alloc, asked, edges, done(whole));
    }
}

/// Each write of the output and of the status' line fails in turn.
fn each_write_and_note_fails<R: Threads + Sync + Abort>(
    rt: &R,
    alloc: Global,
    asked: &Asked<'_>,
    whole: &[u8],
) {
    for most in [7, 188, 100_000] {
        each_write_fails(rt, alloc, asked, most, whole);
    }
    let untold = Wanted {
        code: 6,
        ..done(whole)
    };
    each_note_fails(rt, alloc, asked, untold)
}

#[test]
fn each_read_of_two_streams_fails(rt: HostRuntime) {
    let alloc = rt.alloc();
    let first = stream_of(&rt, alloc, &first_packets());
    let second = stream_of(&rt, alloc, &second_packets());
    let asked = Asked {
        line: MUX,
        first: first.as_slice(),
        second: second.as_slice(),
    };
    each_read_fails(&rt, alloc, &asked, multiplex(&rt, alloc).as_slice())
}

#[test]
fn each_read_of_a_multiplex_fails(rt: HostRuntime) {
    let alloc = rt.alloc();
    let both = multiplex(&rt, alloc);
    let first = stream_of(&rt, alloc, &first_packets());
    each_read_fails(
        &rt,
        alloc,
        &reading(TAKE, both.as_slice()),
        first.as_slice(),
    )
}

#[test]
fn each_write_of_a_multiplex_fails(rt: HostRuntime) {
    let alloc = rt.alloc();
    let first = stream_of(&rt, alloc, &first_packets());
    let second = stream_of(&rt, alloc, &second_packets());
    let asked = Asked {
        line: MUX,
        first: first.as_slice(),
        second: second.as_slice(),
    };
    each_write_and_note_fails(&rt, alloc, &asked, multiplex(&rt, alloc).as_slice())
}

#[test]
fn each_write_of_taken_packets_fails(rt: HostRuntime) {
    let alloc = rt.alloc();
    let both = multiplex(&rt, alloc);
    let first = stream_of(&rt, alloc, &first_packets());
    each_write_and_note_fails(
        &rt,
        alloc,
        &reading(TAKE, both.as_slice()),
        first.as_slice(),
    )
}

#[test]
fn memory_of_mux(rt: HostRuntime) {
    let alloc = rt.alloc();
    let first = stream_of(&rt, alloc, &first_packets());
    let second = stream_of(&rt, alloc, &second_packets());
    let asked = Asked {
        line: MUX,
        first: first.as_slice(),
        second: second.as_slice(),
    };
    ends_with_or_without_memory(&rt, alloc, &asked, multiplex(&rt, alloc).as_slice())
}

#[test]
fn memory_of_take(rt: HostRuntime) {
    let alloc = rt.alloc();
    let both = multiplex(&rt, alloc);
    let first = stream_of(&rt, alloc, &first_packets());
    ends_with_or_without_memory(
        &rt,
        alloc,
        &reading(TAKE, both.as_slice()),
        first.as_slice(),
    )
}
