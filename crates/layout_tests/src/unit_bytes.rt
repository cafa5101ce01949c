use crate::same::{same, same_at};
use pes_packets::{PesFault, read_pes, unit_lengths, write_pes, write_unit};
use std::panic::Expect;

/// The second packet of the first worked stream: its time is 180000, and it has a page segment and
/// an end segment.
const SECOND_UNIT: [u8; 31] = [
    0x00, 0x00, 0x01, 0xBD, 0x00, 0x19, 0x84, 0x80, 0x05, 0x21, 0x00, 0x0B, 0x7E, 0x41, 0x20, 0x00,
    0x0F, 0x10, 0x00, 0x01, 0x00, 0x02, 0x0C, 0x13, 0x0F, 0x80, 0x00, 0x01, 0x00, 0x00, 0xFF,
];

#[test]
fn worked_packet_is_read_and_written(rt: HostRuntime) {
    let packet = read_pes(&SECOND_UNIT).expect(&rt, "a PES packet");
    same(&rt, packet.pts, 180_000);
    same(
        &rt,
        packet
            .segments
            .to_vec(rt.alloc())
            .expect(&rt, "memory")
            .as_slice(),
        &SECOND_UNIT[16..],
    );

    let mut out = Vec::new(rt.alloc());
    write_pes(
        180_000,
        &[0x20, 0x00, 0x0F, 0x80, 0x00, 0x01, 0x00, 0x00, 0xFF],
        &mut out,
    )
    .expect(&rt, "room");
    same(&rt, out.len(), 23);
    same(&rt, read_pes(&out).expect(&rt, "a PES packet").pts, 180_000);

    let mut unit = Vec::new(rt.alloc());
    write_unit(180_000, &SECOND_UNIT[16..30], &mut unit).expect(&rt, "room");
    same(&rt, unit.as_slice(), SECOND_UNIT.as_slice());
}

#[test]
fn one_wrong_byte_is_the_first_fault(rt: HostRuntime) {
    let table = [
        (0, 0x01, PesFault::NoPrefix),
        (3, 0xC0, PesFault::OtherStream(0xC0)),
        (5, 0x18, PesFault::BadHeader),
        (6, 0x44, PesFault::BadHeader),
        (6, 0x94, PesFault::Scrambled),
        (7, 0x40, PesFault::NoPts),
        (8, 0x04, PesFault::BadHeader),
        (8, 0xFF, PesFault::BadHeader),
        (9, 0x20, PesFault::BadMarker),
        (11, 0x0A, PesFault::BadMarker),
        (13, 0x40, PesFault::BadMarker),
        (14, 0x10, PesFault::OtherField(0x10)),
        (15, 0x01, PesFault::OtherField(0x20)),
    ];
    for (place, byte, fault) in table {
        let mut bytes = SECOND_UNIT;
        if let Some(changed) = bytes.get_mut(place) {
            *changed = byte;
        }
        same_at(&rt, place, read_pes(&bytes).err(), Some(fault));
    }
    for length in 0..6 {
        same(
            &rt,
            read_pes(SECOND_UNIT.get(..length).unwrap_or(&[])).err(),
            Some(PesFault::NoPrefix),
        );
    }
}

/// A unit takes segments up to 65,524 bytes, one more begins the next unit, and a longer segment
/// stands alone.
#[test]
fn segments_are_shared_out_to_units(rt: HostRuntime) {
    let mut out = Vec::new(rt.alloc());
    unit_lengths(&[], &mut out).expect(&rt, "memory");
    same(&rt, out.len(), 0);
    unit_lengths(&[11, 8, 6], &mut out).expect(&rt, "memory");
    same(&rt, out.as_slice(), [42].as_slice());
    unit_lengths(&[65_507, 11, 6], &mut out).expect(&rt, "memory");
    same(&rt, out.as_slice(), [42, 65_541].as_slice());
    unit_lengths(&[65_507, 12, 6], &mut out).expect(&rt, "memory");
    same(&rt, out.as_slice(), [42, 65_541, 65_536, 23].as_slice());
    unit_lengths(&[47, 65_614, 6], &mut out).expect(&rt, "memory");
    same(
        &rt,
        out.as_slice(),
        [42, 65_541, 65_536, 23, 64, 65_631, 23].as_slice(),
    );
}
