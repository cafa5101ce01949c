//! Two streams that are joined at a cut.

use crate::same::{same, same_at};
use samples::{sink_of, source_of_packets, words_of};
use splice::{SpliceFault, splice_top};
use std::alloc::Global;
use std::panic::Expect;
use std::process::Abort;
use sub_base::{MemSink, ToolStatus, Which};

// Bytes that were worked out by hand from the tables of the standards.

/// The PES packet of a picture of four by two pixels, shown at 90000.
pub(crate) const SHOWING: [u8; 98] = [
    0x00, 0x00, 0x01, 0xBD, 0x00, 0x5C, 0x84, 0x80, 0x05, 0x21, 0x00, 0x05, 0xBF, 0x21, 0x20, 0x00,
    0x0F, 0x14, 0x00, 0x01, 0x00, 0x05, 0x07, 0x00, 0x03, 0x00, 0x01, 0x0F, 0x10, 0x00, 0x01, 0x00,
    0x08, 0x0C, 0x0B, 0x00, 0xFF, 0x00, 0x00, 0x00, 0x00, 0x0F, 0x11, 0x00, 0x01, 0x00, 0x10, 0x00,
    0x0F, 0x00, 0x04, 0x00, 0x02, 0x6F, 0x00, 0x00, 0x03, 0x00, 0x00, 0x00, 0x00, 0xF0, 0x00, 0x0F,
    0x13, 0x00, 0x01, 0x00, 0x16, 0x00, 0x00, 0x01, 0x00, 0x08, 0x00, 0x07, 0x12, 0x01, 0x00, 0x83,
    0x02, 0x00, 0x00, 0xF0, 0x12, 0x00, 0x84, 0x03, 0x00, 0x00, 0xF0, 0x0F, 0x80, 0x00, 0x01, 0x00,
    0x00, 0xFF,
];

/// The PES packet that takes it away, at 180000.
pub(crate) const CLEARING: [u8; 31] = [
    0x00, 0x00, 0x01, 0xBD, 0x00, 0x19, 0x84, 0x80, 0x05, 0x21, 0x00, 0x0B, 0x7E, 0x41, 0x20, 0x00,
    0x0F, 0x10, 0x00, 0x01, 0x00, 0x02, 0x0C, 0x13, 0x0F, 0x80, 0x00, 0x01, 0x00, 0x00, 0xFF,
];

/// The times 270000 and 360000 in a PES packet.
pub(crate) const AT_270000: [u8; 5] = [0x21, 0x00, 0x11, 0x3D, 0x61];

pub(crate) const AT_360000: [u8; 5] = [0x21, 0x00, 0x15, 0xFC, 0x81];

/// The packet of PID 256 with that counter that ends with the unit, whose time is this one.
pub(crate) fn packet_with(counter: u8, unit: &[u8], time: Option<&[u8; 5]>) -> [u8; 188] {
    let mut packet = [0xFF; 188];
    let start = 188usize.saturating_sub(unit.len());
    packet[0] = 0x47;
    packet[1] = 0x41;
    packet[2] = 0x00;
    packet[3] = 0x30 | counter & 15;
    packet[4] = (start.saturating_sub(5) & 255) as u8;
    packet[5] = 0x00;
    for (byte, given) in packet.iter_mut().skip(start).zip(unit) {
        *byte = *given;
    }
    if let Some(time) = time {
        for (byte, given) in packet.iter_mut().skip(start).skip(9).zip(time) {
            *byte = *given;
        }
    }
    packet
}

/// The stream of the picture: two packets.
pub(crate) fn picture_stream() -> [[u8; 188]; 2] {
    [
        packet_with(0, &SHOWING, None),
        packet_with(1, &CLEARING, None),
    ]
}

/// How a command ended over two streams in memory.
#[derive(Drop)]
pub(crate) struct Outcome {
    pub status: ToolStatus<SpliceFault>,
    pub out: MemSink,
    pub notes: MemSink,
}

/// Joins the packets of two streams, and some bytes behind each that are no packet, as the words
/// say; a read of the first and of the second source
/// and a write fail at these numbers.
pub(crate) fn join<R: Abort>(
    rt: &R,
    alloc: Global,
    text: &str,
    first: &[[u8; 188]],
    second: &[[u8; 188]],
    fails: [u64; 3],
) -> Outcome {
    let words = words_of(alloc, text).expect(rt, "memory");
    let [first_read, second_read, bad_write] = fails;
    let mut first = source_of_packets(alloc, first, &[0x47; 100], 100, first_read).expect(
        rt, "memory",
    );
    let mut second = source_of_packets(alloc, second, &[0x47; 100], 1_000, second_read).expect(
        rt, "memory",
    );
    let mut out = sink_of(alloc, 1_000_000, bad_write).expect(rt, "memory");
    let mut notes = sink_of(alloc, 1_000_000, 0).expect(rt, "memory");
    let status = splice_top(alloc, &words, &mut first, &mut second, &mut out, &mut notes);
    Outcome { status, out, notes }
}

/// A stream with itself: the second time its sets come 180000 ticks later, their packets in the
/// next slots and with the next counters.
#[test]
fn a_stream_with_itself(rt: HostRuntime) {
    let alloc = rt.alloc();
    let stream = picture_stream();
    let joined = join(
        &rt,
        alloc,
        "splice sd 256 1 0 270000 a a o",
        &stream,
        &stream,
        [0; 3],
    );
    same(&rt, joined.status, ToolStatus::Done);
    same(&rt, joined.notes.written(), b"done\n".as_slice());
    let wanted = [
        packet_with(0, &SHOWING, None),
        packet_with(1, &CLEARING, None),
        packet_with(2, &SHOWING, Some(&AT_270000)),
        packet_with(3, &CLEARING, Some(&AT_360000)),
    ];
    let (packets, rest) = joined.out.written().as_chunks::<188>();
    same(&rt, rest.len(), 0);
    same(&rt, packets.len(), 4);
    for (packet, wanted) in packets.iter().zip(&wanted) {
        same(&rt, packet.as_slice(), wanted.as_slice());
    }
}

/// Cuts beside the end of the first stream, and far behind it; and a second stream without sets.
#[test]
fn cuts_of_a_stream_with_itself(rt: HostRuntime) {
    let alloc = rt.alloc();
    let stream = picture_stream();
    let close = ToolStatus::Refused(SpliceFault::CutTooClose { last: 180_000 });
    let far = ToolStatus::Refused(SpliceFault::CutTooFar { last: 180_000 });
    let none = ToolStatus::Refused(SpliceFault::NoModeChange);
    let cases = [
        ("splice sd 256 1 0 183600 a a o", 2, close, 0),
        ("splice sd 256 1 0 183601 a a o", 2, ToolStatus::Done, 752),
        ("splice sd 256 1 0 4295147296 a a o", 2, far, 0),
        ("splice sd 256 1 0 270000 a b o", 0, none, 0),
        ("splice sd 256 1 0 90000 a a o", 2, ToolStatus::Done, 376),
        ("splice wide 256 1 0 90000 a a o", 2, ToolStatus::Usage, 0),
    ];
    for (text, packets, status, bytes) in cases {
        let second = stream.get(..packets).unwrap_or(&[]);
        let joined = join(&rt, alloc, text, &stream, second, [0; 3]);
        same_at(&rt, text, joined.status, status);
        same_at(&rt, text, joined.out.written().len(), bytes);
    }
    let alone = join(
        &rt,
        alloc,
        "splice sd 256 1 0 90000 a a o",
        &stream,
        &stream,
        [0; 3],
    );
    let (packets, _) = alone.out.written().as_chunks::<188>();
    for (packet, wanted) in packets.iter().zip(&stream) {
        same(&rt, packet.as_slice(), wanted.as_slice());
    }
}

/// Streams that lack a packet, that begin with the second set, and with another first byte: the
/// kind of the fault goes before the stream. Reads and writes that fail.
#[test]
fn streams_that_are_not_joined(rt: HostRuntime) {
    let alloc = rt.alloc();
    let good = picture_stream();
    let [first, second] = good;
    let lossy = [first, packet_with(3, &CLEARING, None)];
    let late = [second, second];
    let mut other = first;
    other[0] = 0x48;
    let bad = [first, other];
    let text = "splice sd 256 1 0 270000 a b o";
    let cases = [
        (&bad, &bad, [0; 3], "refused Packet\n"),
        (&lossy, &bad, [0; 3], "refused Packet\n"),
        (&late, &lossy, [0; 3], "refused Lost\n"),
        (&late, &good, [0; 3], "refused NotShown\n"),
        (&good, &late, [0; 3], "refused NotShown\n"),
        (&good, &good, [2, 0, 0], "read first\n"),
        (&bad, &good, [0, 1, 0], "read second\n"),
        (&good, &good, [0, 0, 1], "write out\n"),
    ];
    for (one, two, fails, note) in cases {
        let joined = join(&rt, alloc, text, one, two, fails);
        same_at(&rt, note, joined.notes.written(), note.as_bytes());
        same_at(&rt, note, joined.out.written().len(), 0);
    }
    let refused = join(&rt, alloc, text, &lossy, &good, [0; 3]);
    let fault = SpliceFault::Lost {
        second: false,
        packet: 1,
    };
    same(&rt, refused.status, ToolStatus::Refused(fault));
    let refused = join(&rt, alloc, text, &good, &bad, [0; 3]);
    let fault = SpliceFault::Packet {
        second: true,
        packet: 1,
        fault: stream_syntax::PacketFault::NoSync,
    };
    same(&rt, refused.status, ToolStatus::Refused(fault));
    let failed = join(&rt, alloc, text, &good, &good, [0, 0, 1]);
    same(&rt, failed.status, ToolStatus::WriteFault(Which::Out));
}
