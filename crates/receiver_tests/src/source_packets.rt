use crate::same::same;
use packet_source::{PacketSource, StreamEnd};
use std::alloc::Global;
use std::panic::Expect;
use std::process::Abort;
use stream_syntax::PACKET_LENGTH;
use sub_base::{MemSource, NoMemory};

/// A stream of so many bytes, given at most so many a read, with a read that fails, where it is not
/// 0; and what comes of it: how many packets, how many failures, and how the stream ends.
#[derive(Clone, Copy)]
struct Row {
    size: usize,
    most: usize,
    bad_read: u64,
    packets: usize,
    failures: usize,
    cut: u64,
}

/// Bytes that count from 0 to 250 again and again, so that each packet of a stream begins with
/// another one.
fn counting_bytes(alloc: Global, size: usize) -> Result<Vec<u8>, NoMemory> {
    let mut bytes = Vec::new(alloc);
    for place in 0..size {
        bytes.push((place % 251) as u8)?;
    }
    Ok(bytes)
}

/// The packets in hand come behind those that were taken before.
fn take_packets<R: Abort>(rt: &R, packets: &PacketSource, taken: &mut Vec<u8>) {
    same(rt, packets.first(), (taken.len() / PACKET_LENGTH) as u64);
    for packet in packets.packets() {
        taken.extend_from_slice(packet).expect(rt, "memory");
    }
}

/// Takes all packets of the row's stream, and goes on behind a failure.
fn is_taken<R: Abort>(rt: &R, alloc: Global, row: Row) {
    let bytes = counting_bytes(alloc, row.size).expect(rt, "memory");
    let fails = vec![in alloc; row.bad_read].expect(rt, "memory");
    let mut source = MemSource::make(alloc, bytes, row.most.max(1), fails);
    let mut packets = PacketSource::make(alloc).expect(rt, "memory");
    let mut taken = Vec::new(alloc);
    let mut end = StreamEnd::Unread;
    let mut failures = 0usize;
    for call in 0..1_000 {
        match packets.fill(&mut source) {
            Ok(()) => take_packets(rt, &packets, &mut taken),
            Err(StreamEnd::Unread) => failures = failures.saturating_add(1),
            Err(whole) => {
                end = whole;
                break;
            }
        }
    }
    let whole = counting_bytes(alloc, row.packets.saturating_mul(PACKET_LENGTH)).expect(
        rt, "memory",
    );
    same(rt, taken.as_slice(), whole.as_slice());
    same(rt, failures, row.failures);
    same(rt, end, StreamEnd::Whole { cut: row.cut });
}

/// A stream that is read without a failure.
fn read_whole(size: usize, most: usize, packets: usize, cut: u64) -> Row {
    Row {
        size,
        most,
        bad_read: 0,
        packets,
        failures: 0,
        cut,
    }
}

#[test]
fn whole_packets_are_given(rt: HostRuntime) {
    let rows = [
        read_whole(0, 1, 0, 0),
        read_whole(1, 1, 0, 1),
        read_whole(187, 1_000, 0, 187),
        read_whole(188, 1_000, 1, 0),
        read_whole(376, 1, 2, 0),
        read_whole(564, 187, 3, 0),
        read_whole(564, 188, 3, 0),
        read_whole(564, 189, 3, 0),
        read_whole(600, 189, 3, 36),
        read_whole(600, 400, 3, 36),
        read_whole(939, 1_000, 4, 187),
    ];
    for row in rows {
        is_taken(&rt, rt.alloc(), row);
    }
}

#[test]
fn nothing_is_lost_where_a_read_fails(rt: HostRuntime) {
    let first = Row {
        bad_read: 1,
        failures: 1,
        ..read_whole(600, 189, 3, 36)
    };
    let third = Row {
        bad_read: 3,
        failures: 1,
        ..read_whole(600, 187, 3, 36)
    };
    let last = Row {
        bad_read: 5,
        failures: 1,
        ..read_whole(600, 189, 3, 36)
    };
    for row in [first, third, last] {
        is_taken(&rt, rt.alloc(), row);
    }
}
