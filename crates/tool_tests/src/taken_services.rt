//! Services of subtitles that are taken out of a multiplex.

ghost use Rattle.std.specs.Prelude.{◌≤◌};

use crate::same::same;
use samples::{sink_of, source_of_packets, words_of};
use service_mux::{TakeFault, take_top};
use std::alloc::Global;
use std::panic::Expect;
use std::process::Abort;
use sub_base::{MemSink, ToolStatus, Which};

// Sections that were worked out by hand from the tables of the standard, with their CRC.

/// A PAT: service 5 has its PMT on PID 64 (hexadecimal, as those below), service 6 on 65.
const PAT: [u8; 20] = [
    0x00, 0xB0, 0x11, 0x00, 0x01, 0xC1, 0x00, 0x00, 0x00, 0x05, 0xE0, 0x64, 0x00, 0x06, 0xE0, 0x65,
    0x22, 0x96, 0x15, 0xBF,
];

/// A later PAT: service 5 has its PMT on PID 66.
const LATER_PAT: [u8; 16] = [
    0x00, 0xB0, 0x0D, 0x00, 0x01, 0xC3, 0x00, 0x00, 0x00, 0x05, 0xE0, 0x66, 0x15, 0x0F, 0x76, 0xBA,
];

/// The PMT of service 5: video on PID 100, and subtitles on PID 120.
const PMT: [u8; 36] = [
    0x02, 0xB0, 0x21, 0x00, 0x05, 0xC1, 0x00, 0x00, 0xFF, 0xFF, 0xF0, 0x00, 0x02, 0xE1, 0x00, 0xF0,
    0x00, 0x06, 0xE1, 0x20, 0xF0, 0x0A, 0x59, 0x08, 0x65, 0x6E, 0x67, 0x10, 0x00, 0x01, 0x00, 0x01,
    0xC5, 0x9A, 0xFB, 0x6A,
];

/// Another PMT of service 5: subtitles on PID 130, with a descriptor without content.
const OTHER_PMT: [u8; 23] = [
    0x02, 0xB0, 0x14, 0x00, 0x05, 0xC1, 0x00, 0x00, 0xFF, 0xFF, 0xF0, 0x00, 0x06, 0xE1, 0x30, 0xF0,
    0x02, 0x59, 0x00, 0x63, 0xB9, 0x6B, 0x05,
];

/// The PMT of service 9: subtitles on PID 130.
const PMT_OF_NINE: [u8; 31] = [
    0x02, 0xB0, 0x1C, 0x00, 0x09, 0xC1, 0x00, 0x00, 0xFF, 0xFF, 0xF0, 0x00, 0x06, 0xE1, 0x30, 0xF0,
    0x0A, 0x59, 0x08, 0x65, 0x6E, 0x67, 0x10, 0x00, 0x01, 0x00, 0x01, 0x30, 0x4C, 0x5A, 0x03,
];

/// The PMT of service 6, without subtitles.
const PMT_OF_SIX: [u8; 21] = [
    0x02, 0xB0, 0x12, 0x00, 0x06, 0xC1, 0x00, 0x00, 0xFF, 0xFF, 0xF0, 0x00, 0x02, 0xE1, 0x00, 0xF0,
    0x00, 0xD8, 0x92, 0xB6, 0x12,
];

/// A PMT of service 5 that is not in force yet: subtitles on PID 130.
const NEXT_PMT: [u8; 31] = [
    0x02, 0xB0, 0x1C, 0x00, 0x05, 0xC0, 0x00, 0x00, 0xFF, 0xFF, 0xF0, 0x00, 0x06, 0xE1, 0x30, 0xF0,
    0x0A, 0x59, 0x08, 0x65, 0x6E, 0x67, 0x10, 0x00, 0x01, 0x00, 0x01, 0xE8, 0x9F, 0x04, 0x31,
];

/// A PMT of service 5 with a wrong CRC: subtitles on PID 130.
const BROKEN_PMT: [u8; 31] = [
    0x02, 0xB0, 0x1C, 0x00, 0x05, 0xC1, 0x00, 0x00, 0xFF, 0xFF, 0xF0, 0x00, 0x06, 0xE1, 0x30, 0xF0,
    0x0A, 0x59, 0x08, 0x65, 0x6E, 0x67, 0x10, 0x00, 0x01, 0x00, 0x01, 0x1B, 0x1D, 0xB3, 0xC2,
];

/// A packet that begins with these bytes, and then those, with FF behind.
fn packet_of(head: &[u8], payload: &[u8]) -> [u8; 188] {
    with_bytes(with_bytes([0xFF; 188], 0, head), head.len(), payload)
}

/// The packet with these bytes from that place on.
fn with_bytes(mut packet: [u8; 188], place: usize, bytes: &[u8]) -> [u8; 188] {
    for (byte, given) in packet.iter_mut().skip(place).zip(bytes) {
        *byte = *given;
    }
    packet
}

/// A packet with a section behind its pointer of 0.
fn section_of(pid: u8, counter: u8, section: &[u8]) -> [u8; 188] {
    packet_of(&[0x47, 0x40, pid, 0x10 | counter, 0x00], section)
}

/// A packet of subtitles, PID 120 and upwards.
fn subtitles_of(pid: u8, counter: u8) -> [u8; 188] {
    packet_of(&[0x47, 0x01, pid, 0x10 | counter], b"subtitles")
}

/// How a command ended over a stream in memory: the status, what `out` received, and the note.
#[derive(Drop)]
struct Outcome {
    status: ToolStatus<TakeFault>,
    out: MemSink,
    notes: MemSink,
}

/// Carries out the command over these packets and further bytes, whose source gives at most `most`
/// bytes a read and fails at the read, the write and the note of these numbers.
fn run<R: Abort>(
    rt: &R,
    alloc: Global,
    text: &str,
    packets: &[[u8; 188]],
    further: &[u8],
    most: usize,
    fails: [u64; 3],
) -> Outcome
    requires { 1 ≤ most }
{
    let [bad_read, bad_write, bad_note] = fails;
    let words = words_of(alloc, text).expect(rt, "memory");
    let mut first = source_of_packets(alloc, packets, further, most, bad_read).expect(rt, "memory");
    let mut out = sink_of(alloc, 1_000_000, bad_write).expect(rt, "memory");
    let mut notes = sink_of(alloc, 1_000_000, bad_note).expect(rt, "memory");
    let status = take_top(alloc, &words, &mut first, &mut out, &mut notes);
    Outcome { status, out, notes }
}

/// That service 5 of these packets has those of these numbers, however they are read.
fn are_taken<R: Abort>(rt: &R, alloc: Global, packets: &[[u8; 188]], numbers: &[usize]) {
    let mut wanted = Vec::new(alloc);
    for number in numbers {
        wanted
            .extend_from_slice(packets.get(*number).expect(rt, "no packet"))
            .expect(rt, "memory");
    }
    for most in [7, 188, 100_000] {
        let taken = run(
            rt,
            alloc,
            "take 5 in.ts out.ts",
            packets,
            &[0x47; 100],
            most,
            [0; 3],
        );
        same(&rt, taken.status, ToolStatus::Done);
        same(&rt, taken.notes.written(), b"done\n".as_slice());
        same(&rt, taken.out.written(), wanted.as_slice());
    }
}

/// That these packets have no subtitles of the service.
fn are_none<R: Abort>(rt: &R, alloc: Global, text: &str, number: u16, packets: &[[u8; 188]]) {
    let taken = run(rt, alloc, text, packets, &[], 1_000, [0; 3]);
    same(
        &rt,
        taken.status,
        ToolStatus::Refused(TakeFault::NoService { number }),
    );
    same(
        &rt,
        taken.notes.written(),
        b"refused NoService\n".as_slice(),
    );
    same(&rt, taken.out.written(), b"".as_slice());
}

#[test]
fn packets_behind_the_tables_are_taken(rt: HostRuntime) {
    let packets = [
        subtitles_of(0x20, 0),
        section_of(0x64, 0, &OTHER_PMT),
        section_of(0x00, 0, &PAT),
        subtitles_of(0x20, 1),
        section_of(0x64, 1, &PMT),
        subtitles_of(0x20, 9),
        subtitles_of(0x30, 0),
        packet_of(&[0x47, 0x01, 0x30, 0x00], b"damaged"),
        // Neither the counter nor the error flag of what is taken is looked at.
        packet_of(&[0x47, 0x81, 0x20, 0x00], b"damaged"),
        section_of(0x64, 2, &OTHER_PMT),
        section_of(0x00, 1, &LATER_PAT),
        subtitles_of(0x20, 9),
    ];
    are_taken(&rt, rt.alloc(), &packets, &[5, 8, 11])
}

#[test]
fn tables_that_do_not_count_are_passed_by(rt: HostRuntime) {
    let packets = [
        section_of(0x00, 0, &PMT_OF_NINE),
        section_of(0x00, 1, &PAT),
        section_of(0x64, 0, &PAT),
        section_of(0x00, 2, &LATER_PAT),
        section_of(0x66, 0, &OTHER_PMT),
        section_of(0x64, 1, &PMT_OF_NINE),
        section_of(0x64, 2, &NEXT_PMT),
        section_of(0x64, 3, &BROKEN_PMT),
        subtitles_of(0x30, 0),
        subtitles_of(0x20, 0),
        section_of(0x64, 4, &PMT),
        subtitles_of(0x30, 1),
        subtitles_of(0x20, 1),
    ];
    are_taken(&rt, rt.alloc(), &packets, &[12])
}

/// A packet of PID 64 that ends with the first 20 bytes of a section: an adaptation field of 162
/// bytes leaves room for the pointer and these.
fn begun_with(section: &[u8]) -> [u8; 188] {
    let head = packet_of(&[0x47, 0x40, 0x64, 0x30, 0xA2, 0x00], &[]);
    with_bytes(with_bytes(head, 167, &[0x00]), 168, section)
}

#[test]
fn sections_go_on_in_later_packets(rt: HostRuntime) {
    let packets = [
        section_of(0x00, 0, &PAT),
        begun_with(&PMT),
        // No payload, the same packet again, and one of another PID.
        packet_of(&[0x47, 0x00, 0x64, 0x20, 0xB7], &[]),
        begun_with(&PMT),
        section_of(0x65, 5, &PMT_OF_SIX),
        packet_of(&[0x47, 0x00, 0x64, 0x11], PMT.get(20..).unwrap_or(&[])),
        subtitles_of(0x20, 0),
    ];
    are_taken(&rt, rt.alloc(), &packets, &[6])
}

#[test]
fn bytes_before_the_pointer_end_a_section(rt: HostRuntime) {
    let rest = PMT.get(20..).unwrap_or(&[]);
    let rest_of_nine = PMT_OF_NINE.get(20..).unwrap_or(&[]);
    // The service's section ends there, or begins behind the end of another one.
    let ended = packet_of(&[0x47, 0x40, 0x64, 0x11, 0x10], rest);
    let followed = packet_of(&[0x47, 0x40, 0x64, 0x11, 0x0B], rest_of_nine);
    let rows = [
        [begun_with(&PMT), with_bytes(ended, 21, &PMT_OF_NINE)],
        [begun_with(&PMT_OF_NINE), with_bytes(followed, 16, &PMT)],
    ];
    for [begun, ended] in rows {
        let packets = [
            section_of(0x00, 0, &PAT),
            begun,
            ended,
            subtitles_of(0x20, 0),
        ];
        are_taken(&rt, rt.alloc(), &packets, &[3]);
    }
}

#[test]
fn sections_stand_together_up_to_stuffing(rt: HostRuntime) {
    let both = with_bytes(section_of(0x64, 0, &PMT_OF_NINE), 36, &PMT);
    let stuffed = with_bytes(section_of(0x64, 0, &PMT_OF_NINE), 37, &PMT);
    let table = section_of(0x00, 0, &PAT);
    let subtitles = subtitles_of(0x20, 0);
    are_taken(&rt, rt.alloc(), &[table, both, subtitles], &[2]);
    let packets = [table, stuffed, subtitles];
    are_none(&rt, rt.alloc(), "take 5 in.ts out.ts", 5, &packets);
    // Behind the first byte FF nothing is a section, whatever stands there.
    let hidden = with_bytes(section_of(0x64, 0, &[0xFF, 0x00, 0x00]), 8, &PMT);
    let packets = [table, hidden, subtitles];
    are_none(&rt, rt.alloc(), "take 5 in.ts out.ts", 5, &packets)
}

#[test]
fn the_first_of_several_tables_counts(rt: HostRuntime) {
    let packets = [
        section_of(0x00, 0, &PAT),
        with_bytes(section_of(0x64, 0, &PMT), 41, &OTHER_PMT),
        subtitles_of(0x30, 0),
        subtitles_of(0x20, 0),
    ];
    are_taken(&rt, rt.alloc(), &packets, &[3])
}

/// A packet with the counter of the one before it is taken for that packet sent twice.
#[test]
fn a_packet_that_is_sent_twice_counts_once(rt: HostRuntime) {
    let packets = [
        section_of(0x00, 0, &PAT),
        begun_with(&PMT),
        section_of(0x64, 0, &OTHER_PMT),
        packet_of(&[0x47, 0x00, 0x64, 0x11], PMT.get(20..).unwrap_or(&[])),
        subtitles_of(0x30, 0),
        subtitles_of(0x20, 0),
    ];
    are_taken(&rt, rt.alloc(), &packets, &[5])
}

#[test]
fn sections_that_are_cut_off_are_dropped(rt: HostRuntime) {
    let rest = PMT.get(20..).unwrap_or(&[]);
    let next = packet_of(&[0x47, 0x00, 0x64, 0x11], rest);
    let second = packet_of(&[0x47, 0x00, 0x64, 0x12], rest);
    let rows = [
        // A missing packet.
        [second, second],
        // An error flag, a reserved control, an adaptation field that is too long.
        [packet_of(&[0x47, 0x80, 0x64, 0x11], rest), next],
        [packet_of(&[0x47, 0x00, 0x64, 0x01], rest), next],
        [packet_of(&[0x47, 0x00, 0x64, 0x21, 0xB8], &[]), next],
        // A pointer past the packet, and one to a section that follows too soon.
        [packet_of(&[0x47, 0x40, 0x64, 0x11, 0xB8], rest), second],
        [packet_of(&[0x47, 0x40, 0x64, 0x11, 0x0F], rest), second],
    ];
    for [dropping, later] in rows {
        let packets = [
            section_of(0x00, 0, &PAT),
            begun_with(&PMT),
            dropping,
            later,
            subtitles_of(0x20, 0),
        ];
        are_none(&rt, rt.alloc(), "take 5 in.ts out.ts", 5, &packets);
    }
}

#[test]
fn a_service_without_subtitles_is_refused(rt: HostRuntime) {
    let packets = [
        section_of(0x00, 0, &PAT),
        section_of(0x65, 0, &PMT_OF_SIX),
        section_of(0x64, 0, &PMT),
        subtitles_of(0x20, 0),
    ];
    let alloc = rt.alloc();
    are_none(&rt, alloc, "take 6 in.ts out.ts", 6, &packets);
    are_none(&rt, alloc, "take 1 in.ts out.ts", 1, &packets);
    are_none(&rt, alloc, "take 65535 in.ts out.ts", 65_535, &packets);
    are_none(&rt, alloc, "take 5 in.ts out.ts", 5, &[])
}

#[test]
fn a_stream_that_fails_is_told(rt: HostRuntime) {
    let alloc = rt.alloc();
    let subtitles = subtitles_of(0x20, 0);
    let packets = [
        section_of(0x00, 0, &PAT),
        section_of(0x64, 0, &PMT),
        subtitles,
        packet_of(&[0x48, 0x01, 0x20, 0x10], &[]),
        subtitles,
    ];
    let rows = [
        (
            [0, 0, 0],
            ToolStatus::Refused(TakeFault::NoSync { packet: 3 }),
            "refused NoSync\n",
            subtitles.as_slice(),
        ),
        (
            [4, 0, 0],
            ToolStatus::ReadFault(Which::First),
            "read first\n",
            &subtitles,
        ),
        (
            [0, 1, 0],
            ToolStatus::WriteFault(Which::Out),
            "write out\n",
            &[],
        ),
    ];
    for (fails, status, note, written) in rows {
        let taken = run(&rt, alloc, "take 5 in.ts out.ts", &packets, &[], 188, fails);
        same(&rt, taken.status, status);
        same(&rt, taken.notes.written(), note.as_bytes());
        same(&rt, taken.out.written(), written);
    }
    let whole = [
        section_of(0x00, 0, &PAT),
        section_of(0x64, 0, &PMT),
        subtitles,
    ];
    let untold = run(
        &rt,
        alloc,
        "take 5 in.ts out.ts",
        &whole,
        &[],
        188,
        [0, 0, 1],
    );
    same(&rt, untold.status, ToolStatus::WriteFault(Which::Notes));
    same(&rt, untold.out.written(), subtitles.as_slice());
}

#[test]
fn other_words_are_wrong(rt: HostRuntime) {
    let packets = [
        section_of(0x00, 0, &PAT),
        section_of(0x64, 0, &PMT),
        subtitles_of(0x20, 0),
    ];
    let rows = [
        "take 0 in.ts out.ts",
        "take 65536 in.ts out.ts",
        "take 05 in.ts out.ts",
        "take 5 in.ts",
        "take 5 in.ts out.ts more",
        "take 5 -in.ts out.ts",
        "take 5  out.ts",
        "mux 5 in.ts out.ts",
    ];
    for text in rows {
        let taken = run(&rt, rt.alloc(), text, &packets, &[], 188, [0; 3]);
        same(&rt, taken.status, ToolStatus::Usage);
        same(&rt, taken.notes.written(), b"usage\n".as_slice());
        same(&rt, taken.out.written(), b"".as_slice());
    }
}
