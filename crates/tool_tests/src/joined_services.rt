//! Two streams of subtitles that are joined to a multiplex.

ghost use Rattle.std.specs.Prelude.{◌≤◌};

use crate::same::same;
use samples::{sink_of, source_of, source_of_packets, words_of};
use service_mux::{MuxFault, mux_top, take_top};
use std::alloc::Global;
use std::panic::Expect;
use std::process::Abort;
use sub_base::{MemSink, NoMemory, ToolStatus, Which};

/// The words of a multiplex of the services 1 and 2, with PMTs on the PIDs 100 and 101 and streams
/// on 256 and 257.
const WORDS: &str = "mux 1 100 256 1 eng 2 101 257 7 fre eng.ts fre.ts both.ts";

/// A packet of that PID whose bytes behind the head are all this one.
fn packet_of(pid: u16, counter: u8, byte: u8) -> [u8; 188] {
    let mut packet = [byte; 188];
    packet[0] = 0x47;
    packet[1] = (pid >> 8) as u8;
    packet[2] = (pid & 255) as u8;
    packet[3] = 0x10 | counter & 15;
    packet
}

/// How a command ended over two streams in memory.
#[derive(Drop)]
struct Outcome {
    status: ToolStatus<MuxFault>,
    out: MemSink,
    notes: MemSink,
}

/// Which of the calls fails: a read of the first or the second stream, a write, the note.
#[derive(Clone, Copy)]
struct Failing {
    first: u64,
    second: u64,
    out: u64,
    notes: u64,
}

const NONE_FAILS: Failing = Failing {
    first: 0,
    second: 0,
    out: 0,
    notes: 0,
};

/// Carries out the command over these packets, whose sources give at most `most` bytes a read.
fn run<R: Abort>(
    rt: &R,
    alloc: Global,
    text: &str,
    first: &[[u8; 188]],
    second: &[[u8; 188]],
    most: usize,
    failing: Failing,
) -> Outcome
    requires { 1 ≤ most }
{
    let words = words_of(alloc, text).expect(rt, "memory");
    let mut first = source_of_packets(alloc, first, &[], most, failing.first).expect(rt, "memory");
    let mut second = source_of_packets(alloc, second, &[], most, failing.second).expect(
        rt, "memory",
    );
    let mut out = sink_of(alloc, 1_000_000, failing.out).expect(rt, "memory");
    let mut notes = sink_of(alloc, 1_000_000, failing.notes).expect(rt, "memory");
    let status = mux_top(alloc, &words, &mut first, &mut second, &mut out, &mut notes);
    Outcome { status, out, notes }
}

/// The PID and the counter of each packet that was written.
fn heads_of(alloc: Global, out: &MemSink) -> Result<Vec<(u16, u8)>, NoMemory> {
    let (packets, _) = out.written().as_chunks::<188>();
    let mut heads = Vec::new(alloc);
    for packet in packets {
        let pid = u16::from(packet[1] & 31) << 8 | u16::from(packet[2]);
        heads.push((pid, packet[3] & 15))?;
    }
    Ok(heads)
}

/// The packets of two streams: one of the first is of another PID, without a payload, and the
/// second has fewer.
fn first_packets() -> [[u8; 188]; 3] {
    let mut other = packet_of(300, 0, 2);
    other[3] = 0;
    [packet_of(256, 0, 1), other, packet_of(256, 1, 3)]
}

fn second_packets() -> [[u8; 188]; 1] {
    [packet_of(257, 5, 4)]
}

/// Tables come before the frames and in their turns; a packet that is of another PID or missing is
/// the null packet.
#[test]
fn a_multiplex_has_tables_and_frames(rt: HostRuntime) {
    let wanted = [
        (0, 0),
        (100, 0),
        (101, 0),
        (0, 1),
        (256, 0),
        (257, 5),
        (100, 1),
        (8191, 0),
        (8191, 0),
        (101, 1),
        (256, 1),
        (8191, 0),
    ];
    for most in [1, 188, 1_000] {
        let alloc = rt.alloc();
        let muxed = run(
            &rt,
            alloc,
            WORDS,
            &first_packets(),
            &second_packets(),
            most,
            NONE_FAILS,
        );
        same(&rt, muxed.status, ToolStatus::Done);
        same(&rt, muxed.notes.written(), b"done\n".as_slice());
        same(
            &rt,
            heads_of(alloc, &muxed.out).expect(&rt, "memory").as_slice(),
            wanted.as_slice(),
        );
        same(
            &rt,
            muxed.out.written().get(752..940),
            Some(packet_of(256, 0, 1).as_slice()),
        );
    }
}

/// A stream that is longer than the other one is joined up to its end, be it the first or the
/// second.
#[test]
fn the_longer_stream_is_joined_whole(rt: HostRuntime) {
    let wanted = [
        (0, 0),
        (100, 0),
        (101, 0),
        (0, 1),
        (256, 0),
        (257, 0),
        (100, 1),
        (8191, 0),
        (257, 1),
    ];
    let first = [packet_of(256, 0, 1)];
    let second = [packet_of(257, 0, 2), packet_of(257, 1, 3)];
    let alloc = rt.alloc();
    let muxed = run(&rt, alloc, WORDS, &first, &second, 1_000, NONE_FAILS);
    same(&rt, muxed.status, ToolStatus::Done);
    same(
        &rt,
        heads_of(alloc, &muxed.out).expect(&rt, "memory").as_slice(),
        wanted.as_slice(),
    );
}

/// In frame 127 no table has its turn; in frame 128 it is the PAT's again.
#[test]
fn tables_come_again_each_128_frames(rt: HostRuntime) {
    let alloc = rt.alloc();
    let first = [packet_of(256, 0, 1); 129];
    let muxed = run(&rt, alloc, WORDS, &first, &[], 100_000, NONE_FAILS);
    let heads = heads_of(alloc, &muxed.out).expect(&rt, "memory");
    same(&rt, heads.get(3 + 3 * 126), Some(&(8191, 0)));
    same(&rt, heads.get(3 + 3 * 127), Some(&(8191, 0)));
    same(&rt, heads.get(3 + 3 * 128), Some(&(0, 2)));
}

/// What was joined is taken out again: the packets of each service, byte for byte.
#[test]
fn services_are_taken_out_again(rt: HostRuntime) {
    let alloc = rt.alloc();
    let muxed = run(
        &rt,
        alloc,
        WORDS,
        &first_packets(),
        &second_packets(),
        1_000,
        NONE_FAILS,
    );
    let [one, _, three] = first_packets();
    let both = [one, three];
    for (line, wanted) in [
        ("take 1 both.ts out.ts", both.as_slice()),
        ("take 2 both.ts out.ts", second_packets().as_slice()),
    ] {
        let words = words_of(alloc, line).expect(&rt, "memory");
        let mut stream = source_of(alloc, muxed.out.written(), 1_000, 0).expect(&rt, "memory");
        let mut out = sink_of(alloc, 1_000_000, 0).expect(&rt, "memory");
        let mut notes = sink_of(alloc, 1_000_000, 0).expect(&rt, "memory");
        let status = take_top(alloc, &words, &mut stream, &mut out, &mut notes);
        same(&rt, status, ToolStatus::Done);
        same(&rt, out.written(), wanted.as_flattened());
    }
}

/// In one frame the first stream comes first.
#[test]
fn packets_without_the_sync_byte_are_refused(rt: HostRuntime) {
    let bad = [0; 188];
    let (one, two) = (packet_of(256, 0, 1), packet_of(257, 0, 2));
    let first_at_1 = ToolStatus::Refused(MuxFault::FirstNoSync { packet: 1 });
    let second_at_0 = ToolStatus::Refused(MuxFault::SecondNoSync { packet: 0 });
    let second_at_1 = ToolStatus::Refused(MuxFault::SecondNoSync { packet: 1 });
    let rows = [
        (
            [one, bad],
            [two, bad],
            first_at_1,
            6,
            b"refused FirstNoSync\n".as_slice(),
        ),
        (
            [one, bad],
            [bad, two],
            second_at_0,
            3,
            b"refused SecondNoSync\n".as_slice(),
        ),
        (
            [one, one],
            [two, bad],
            second_at_1,
            6,
            b"refused SecondNoSync\n".as_slice(),
        ),
    ];
    for (first, second, status, count, note) in rows {
        let muxed = run(&rt, rt.alloc(), WORDS, &first, &second, 1_000, NONE_FAILS);
        same(&rt, muxed.status, status);
        same(&rt, muxed.out.written().len(), 188 * count);
        same(&rt, muxed.notes.written(), note);
    }
}

#[test]
fn failing_sources_and_sinks_are_told(rt: HostRuntime) {
    let rows = [
        (
            Failing {
                first: 1,
                ..NONE_FAILS
            },
            ToolStatus::ReadFault(Which::First),
        ),
        (
            Failing {
                second: 1,
                ..NONE_FAILS
            },
            ToolStatus::ReadFault(Which::Second),
        ),
        (
            Failing {
                out: 1,
                ..NONE_FAILS
            },
            ToolStatus::WriteFault(Which::Out),
        ),
        (
            Failing {
                notes: 1,
                ..NONE_FAILS
            },
            ToolStatus::WriteFault(Which::Notes),
        ),
    ];
    for (failing, status) in rows {
        let muxed = run(
            &rt,
            rt.alloc(),
            WORDS,
            &first_packets(),
            &second_packets(),
            1_000,
            failing,
        );
        same(&rt, muxed.status, status);
    }
}

#[test]
fn other_words_are_no_command(rt: HostRuntime) {
    let lines = [
        "mux 1 100 256 1 eng 1 101 257 7 fre a b c",
        "mux 1 100 256 1 eng 2 100 257 7 fre a b c",
        "mux 1 100 256 1 eng 2 101 256 7 fre a b c",
        "mux 1 100 256 1 eng 2 256 257 7 fre a b c",
        "mux 0 100 256 1 eng 2 101 257 7 fre a b c",
        "mux 65536 100 256 1 eng 2 101 257 7 fre a b c",
        "mux 1 31 256 1 eng 2 101 257 7 fre a b c",
        "mux 1 100 8191 1 eng 2 101 257 7 fre a b c",
        "mux 1 100 256 0 eng 2 101 257 7 fre a b c",
        "mux 1 100 256 1 Eng 2 101 257 7 fre a b c",
        "mux 1 100 256 1 en 2 101 257 7 fre a b c",
        "mux 1 100 256 1 eng 2 101 257 7 fre a b",
        "mux 1 100 256 1 eng 2 101 257 7 fre a b -",
        "take 1 a b",
    ];
    for line in lines {
        let muxed = run(
            &rt,
            rt.alloc(),
            line,
            &first_packets(),
            &second_packets(),
            1_000,
            NONE_FAILS,
        );
        same(&rt, muxed.status, ToolStatus::Usage);
        same(&rt, muxed.notes.written(), b"usage\n".as_slice());
        same(&rt, muxed.out.written(), b"".as_slice());
    }
}
