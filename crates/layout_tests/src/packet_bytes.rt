use crate::same::same;
use samples::streams::packet_of;
use std::panic::Expect;
use ts_packets::{Demux, Event, PacketFault, Packetiser, null_packet};

/// The units of the first worked stream, with the times 90000 and 180000.
const FIRST_UNIT: [u8; 98] = [
    0x00, 0x00, 0x01, 0xBD, 0x00, 0x5C, 0x84, 0x80, 0x05, 0x21, 0x00, 0x05, 0xBF, 0x21, 0x20, 0x00,
    0x0F, 0x14, 0x00, 0x01, 0x00, 0x05, 0x07, 0x00, 0x03, 0x00, 0x01, 0x0F, 0x10, 0x00, 0x01, 0x00,
    0x08, 0x0C, 0x0B, 0x00, 0xFF, 0x00, 0x00, 0x00, 0x00, 0x0F, 0x11, 0x00, 0x01, 0x00, 0x10, 0x00,
    0x0F, 0x00, 0x04, 0x00, 0x02, 0x6F, 0x00, 0x00, 0x03, 0x00, 0x00, 0x00, 0x00, 0xF0, 0x00, 0x0F,
    0x13, 0x00, 0x01, 0x00, 0x16, 0x00, 0x00, 0x01, 0x00, 0x08, 0x00, 0x07, 0x12, 0x01, 0x00, 0x83,
    0x02, 0x00, 0x00, 0xF0, 0x12, 0x00, 0x84, 0x03, 0x00, 0x00, 0xF0, 0x0F, 0x80, 0x00, 0x01, 0x00,
    0x00, 0xFF,
];

const SECOND_UNIT: [u8; 31] = [
    0x00, 0x00, 0x01, 0xBD, 0x00, 0x19, 0x84, 0x80, 0x05, 0x21, 0x00, 0x0B, 0x7E, 0x41, 0x20, 0x00,
    0x0F, 0x10, 0x00, 0x01, 0x00, 0x02, 0x0C, 0x13, 0x0F, 0x80, 0x00, 0x01, 0x00, 0x00, 0xFF,
];

const FIRST_HEAD: [u8; 6] = [0x47, 0x41, 0x00, 0x30, 0x55, 0x00];

const SECOND_HEAD: [u8; 6] = [0x47, 0x41, 0x00, 0x31, 0x98, 0x00];

#[test]
fn worked_packets_are_written(rt: HostRuntime) {
    let mut packetiser = Packetiser::make(256);
    let mut packet = [0; 188];
    packetiser.packet(&FIRST_UNIT, true, &mut packet);
    same(
        &rt,
        packet.as_slice(),
        packet_of(&FIRST_HEAD, &FIRST_UNIT).as_slice(),
    );
    packetiser.packet(&SECOND_UNIT, true, &mut packet);
    same(
        &rt,
        packet.as_slice(),
        packet_of(&SECOND_HEAD, &SECOND_UNIT).as_slice(),
    );
    null_packet(&mut packet);
    same(
        &rt,
        packet.as_slice(),
        packet_of(&[0x47, 0x1F, 0xFF, 0x10], &[]).as_slice(),
    );
}

#[test]
fn worked_stream_gives_its_two_units(rt: HostRuntime) {
    let mut demux = Demux::make(rt.alloc(), 256, 24_576).expect(&rt, "memory");
    let fed = demux
        .feed(&packet_of(&FIRST_HEAD, &FIRST_UNIT))
        .expect(&rt, "a packet");
    same(&rt, fed.event, Event::Followed);
    same(&rt, fed.unit.expect(&rt, "no unit"), FIRST_UNIT.as_slice());
    let fed = demux
        .feed(&packet_of(&SECOND_HEAD, &SECOND_UNIT))
        .expect(&rt, "a packet");
    same(&rt, fed.event, Event::Followed);
    same(&rt, fed.unit.expect(&rt, "no unit"), SECOND_UNIT.as_slice());
}

#[test]
fn unit_behind_missing_packets_comes_out(rt: HostRuntime) {
    let mut demux = Demux::make(rt.alloc(), 256, 24_576).expect(&rt, "memory");
    same(
        &rt,
        demux
            .feed(&packet_of(&FIRST_HEAD, &FIRST_UNIT))
            .expect(&rt, "a packet")
            .event,
        Event::Followed,
    );
    let fed = demux
        .feed(&packet_of(&[0x47, 0x41, 0x00, 0x33, 0x98, 0x00], &SECOND_UNIT))
        .expect(&rt, "a packet");
    same(
        &rt,
        fed.event,
        Event::Gap {
            expected: 1,
            found: 3,
        },
    );
    same(&rt, fed.unit.expect(&rt, "no unit"), SECOND_UNIT.as_slice());
}

#[test]
fn each_event_has_its_numbers(rt: HostRuntime) {
    let waiting = packet_of(&[], &[]);
    let mut demux = Demux::make(rt.alloc(), 256, 24_576).expect(&rt, "memory");
    let table = [
        // No unit is there; any first counter follows.
        ([0x47, 0x01, 0x00, 0x19, 0x00], Event::Dropped, 0),
        ([0x47, 0x01, 0x00, 0x19, 0x00], Event::Double, 0),
        ([0x47, 0x01, 0x01, 0x1F, 0x00], Event::Other, 0),
        ([0x47, 0x01, 0x00, 0x2F, 0xB7], Event::NoPayload, 0),
        ([0x47, 0x81, 0x00, 0xDA, 0x00], Event::ErrorFlag, 0),
        // The damaged packet's counter was not looked at.
        (
            [0x47, 0x01, 0x00, 0x1B, 0x00],
            Event::Gap {
                expected: 10,
                found: 11,
            },
            0,
        ),
        // A unit without start code prefix is handed out as it is.
        ([0x47, 0x41, 0x00, 0x1C, 0x11], Event::Followed, 184),
        (
            [0x47, 0x41, 0x00, 0x1E, 0x11],
            Event::Gap {
                expected: 13,
                found: 14,
            },
            184,
        ),
        // Two bytes wait for more.
        ([0x47, 0x41, 0x00, 0x3F, 0xB5], Event::Followed, 0),
        ([0x47, 0x41, 0x00, 0x30, 0xB5], Event::Short { have: 2 }, 0),
        ([0x47, 0x01, 0x00, 0x11, 0x11], Event::Followed, 186),
        ([0x47, 0x01, 0x00, 0x12, 0x11], Event::Dropped, 0),
    ];
    for (head, event, length) in table {
        let mut packet = waiting;
        for (byte, given) in packet.iter_mut().zip(&head) {
            *byte = *given;
        }
        same(&rt, demux.is_other(&packet), event == Event::Other);
        let fed = demux.feed(&packet).expect(&rt, "a packet");
        same(&rt, fed.event, event);
        same(&rt, fed.unit.map_or(0, |unit| unit.len()), length);
    }
    let mut small = Demux::make(rt.alloc(), 256, 97).expect(&rt, "memory");
    let fed = small
        .feed(&packet_of(&FIRST_HEAD, &FIRST_UNIT))
        .expect(&rt, "a packet");
    same(&rt, fed.event, Event::TooLong { need: 98, size: 97 });
    assert!(rt; fed.unit.is_none());
}

#[test]
fn faults_leave_the_demultiplexer_as_it_was(rt: HostRuntime) {
    let mut demux = Demux::make(rt.alloc(), 256, u64::MAX).expect(&rt, "memory");
    let table = [
        ([0x48, 0x41, 0x00, 0x31, 0x98], PacketFault::NoSync),
        ([0x48, 0x41, 0x01, 0x31, 0x98], PacketFault::NoSync),
        ([0x47, 0x01, 0x00, 0x50, 0x00], PacketFault::Scrambled),
        ([0x47, 0x01, 0x00, 0x00, 0x00], PacketFault::ReservedControl),
        ([0x47, 0x01, 0x00, 0x20, 0xB8], PacketFault::BadAdaptation),
        ([0x47, 0x01, 0x00, 0x30, 0xB8], PacketFault::BadAdaptation),
        ([0x47, 0x01, 0x00, 0x30, 0xB7], PacketFault::BadAdaptation),
    ];
    for (head, fault) in table {
        assert!(rt; !demux.is_other(&packet_of(&head, &[])));
        same(&rt, demux.feed(&packet_of(&head, &[])).err(), Some(fault));
    }
    let fed = demux
        .feed(&packet_of(&SECOND_HEAD, &SECOND_UNIT))
        .expect(&rt, "a packet");
    same(&rt, fed.unit.expect(&rt, "no unit"), SECOND_UNIT.as_slice());
}
