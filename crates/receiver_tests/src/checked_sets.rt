use crate::same::same;
use crate::sending::{END, FILLED, NORMAL, OPEN, packet_of};
use check_text::Check;
use command_text::{TextBuffer, flush};
use decoder_model::Pages;
use packet_source::{PacketSource, StreamEnd};
use packet_walk::{WalkEnd, walk_packets};
use std::alloc::Global;
use std::panic::Expect;
use std::process::Abort;
use sub_base::{MemSink, MemSource, NoMemory, Profile, ProfileName};

/// The second packet is lost. The sets have 64, 31, 23 and again 64 bytes, and a slot 705 ticks;
/// the third set has no page, and the last one an earlier time than the others.
const ALL_ENDS: &str = "set 90000 shown 64 65\n\
     set 180000 waiting 31 90031\n\
     set 270000 broken 23 180023\n\
     set 45000 notlater 64 2115\n\
     peak 118\n\
     breach none\n";

/// The first set is whole at slot 0, by the unit of another time at slot 2.
const BEFORE: &str = "set 90000 shown 25 25\nset 180000 shown 64 90065\npeak 64\nbreach none\n";

/// The last set is ready with the end of the stream.
const AT_END: &str = "set 64 shown 64 65\nset 90000 shown 25 730\npeak 64\nbreach late 64 65\n";

/// A packet without subtitles.
fn null_packet() -> [u8; 188] {
    let mut packet = [0xFF; 188];
    packet[..4].copy_from_slice(&[0x47, 0x1F, 0xFF, 0x10]);
    packet
}

/// The packets, one after the other.
fn joined(alloc: Global, packets: &[[u8; 188]]) -> Result<Vec<u8>, NoMemory> {
    let mut bytes = Vec::new(alloc);
    for packet in packets {
        bytes.extend_from_slice(packet)?;
    }
    Ok(bytes)
}

/// What is told of the packets to the end of the stream, of page 1 out of PID 256 from tick 0 on.
fn told_of<R: Abort>(rt: &R, alloc: Global, packets: &[[u8; 188]]) -> MemSink {
    let bytes = joined(alloc, packets).expect(rt, "memory");
    let mut stream = MemSource::make(alloc, bytes, 100_000, Vec::new(alloc));
    let mut out = MemSink::make(alloc, 100_000, Vec::new(alloc));
    let mut check = Check::make(
        alloc,
        &Profile::of(ProfileName::Sd),
        0,
        256,
        Pages::only(1),
    ).expect(rt, "memory");
    let mut buffer = TextBuffer::make(alloc).expect(rt, "memory");
    let mut source = PacketSource::make(alloc).expect(rt, "memory");
    let end = walk_packets(&mut stream, &mut out, &mut buffer, &mut check, &mut source);
    let WalkEnd::Stream(StreamEnd::Whole { .. }) = end else {
        rt.panic("the stream is not read whole")
    };
    check.finish(&mut out, &mut buffer);
    flush(&mut out, &mut buffer);
    out
}

#[test]
fn what_becomes_of_sets(rt: HostRuntime) {
    let packets = [
        packet_of(0, 90_000, &FILLED),
        packet_of(2, 180_000, &NORMAL),
        packet_of(3, 270_000, &END),
        packet_of(4, 45_000, &FILLED),
    ];
    same(
        &rt,
        told_of(&rt, rt.alloc(), &packets).written(),
        ALL_ENDS.as_bytes(),
    );
}

#[test]
fn set_stands_before_bytes_of_another_time(rt: HostRuntime) {
    let packets = [
        packet_of(0, 90_000, &OPEN),
        null_packet(),
        packet_of(1, 180_000, &FILLED),
    ];
    same(
        &rt,
        told_of(&rt, rt.alloc(), &packets).written(),
        BEFORE.as_bytes(),
    );
}

#[test]
fn set_is_late(rt: HostRuntime) {
    let packets = [packet_of(0, 64, &FILLED), packet_of(1, 90_000, &OPEN)];
    same(
        &rt,
        told_of(&rt, rt.alloc(), &packets).written(),
        AT_END.as_bytes(),
    );
}
