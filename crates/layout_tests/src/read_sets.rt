use crate::same::same;
use decoder_model::Pages;
use set_reader::{Came, SetReader};
use std::panic::Expect;
use std::process::Abort;
use stream_syntax::{Event, PacketFault};

/// A page without regions of state normal, and the end of its set.
const NORMAL: [u8; 14] = [
    0x0F, 0x10, 0x00, 0x01, 0x00, 0x02, 0x0C, 0x13, 0x0F, 0x80, 0x00, 0x01, 0x00, 0x00,
];

/// The bytes of a PES packet before these 14 bytes of segments, at tick 90,000.
const HEAD: [u8; 16] = [
    0x00, 0x00, 0x01, 0xBD, 0x00, 0x19, 0x84, 0x80, 0x05, 0x21, 0x00, 0x05, 0xBF, 0x21, 0x20, 0x00,
];

/// A transport packet of PID 256 that holds the PES packet whole.
fn packet_of(counter: u8) -> [u8; 188] {
    let mut packet = [0xFF; 188];
    packet[..6].copy_from_slice(&[0x47, 0x41, 0x00, 0x30 + counter % 16, 152, 0x00]);
    packet[157..173].copy_from_slice(&HEAD);
    packet[173..187].copy_from_slice(&NORMAL);
    packet
}

/// A set is ready with its segments until it is given; a packet of a scrambled unit behind a
/// missing one means two losses; and one without a sync byte is not taken.
#[test]
fn what_comes_of_packets(rt: HostRuntime) {
    let mut reader = SetReader::make(rt.alloc(), 256, Pages::only(1), 24_576).expect(&rt, "memory");
    same(
        &rt,
        reader.feed(&packet_of(0)),
        Ok(Came {
            event: Event::Followed,
            losses: 0,
        }),
    );
    same(&rt, reader.arrival().bytes, 31);
    let Some(ready) = reader.ready() else {
        rt.panic("no set is ready")
    };
    same(&rt, (ready.time, ready.size), (90_000, 31));
    same(&rt, ready.segments, Ok(&NORMAL[..]));
    reader.give();
    assert!(rt; reader.ready().is_none());
    let mut scrambled = packet_of(2);
    scrambled[163] = 0x94;
    same(
        &rt,
        reader.feed(&scrambled),
        Ok(Came {
            event: Event::Gap {
                expected: 1,
                found: 2,
            },
            losses: 2,
        }),
    );
    assert!(rt; reader.arrival().dropped);
    assert!(rt; reader.ready().is_none());
    same(&rt, reader.feed(&[0; 188]), Err(PacketFault::NoSync));
}
