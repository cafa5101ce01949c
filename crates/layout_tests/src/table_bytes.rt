ghost use Rattle.std.specs.Prelude.{◌<◌, ◌^◌};

use crate::same::same;
use psi_tables::{Section, SectionFault, Service, crc, read_section, write_pat, write_pmt};
use std::panic::Expect;

/// A PAT of stream 1 that lists number 1 with PID 4096.
const PAT: [u8; 16] = [
    0x00, 0xB0, 0x0D, 0x00, 0x01, 0xC1, 0x00, 0x00, 0x00, 0x01, 0xF0, 0x00, 0x2A, 0xB1, 0x04, 0xB2,
];

/// A PAT with all reserved bits 0, version 7, and a network's entry first; number 7 comes twice.
const PLAIN_PAT: [u8; 24] = [
    0x00, 0x00, 0x15, 0x12, 0x34, 0x0F, 0x00, 0x00, 0x00, 0x00, 0x00, 0x10, 0x00, 0x07, 0x01, 0x23,
    0x00, 0x07, 0x04, 0x56, 0xF1, 0x78, 0x59, 0x3E,
];

/// The PMT of number 258 with descriptors of its own and six streams: video, audio, teletext by
/// another descriptor, sections with a descriptor of subtitles, and two of subtitles. The first of
/// these, with PID 260, has its descriptor of subtitles behind another one.
const PMT: [u8; 89] = [
    0x02, 0xB0, 0x56, 0x01, 0x02, 0xC1, 0x00, 0x00, 0xE1, 0x00, 0xF0, 0x06, 0x05, 0x04, 0x48, 0x44,
    0x4D, 0x56, 0x02, 0xE1, 0x00, 0xF0, 0x03, 0x52, 0x01, 0x01, 0x03, 0xE1, 0x01, 0xF0, 0x06, 0x0A,
    0x04, 0x64, 0x65, 0x75, 0x00, 0x06, 0xE1, 0x02, 0xF0, 0x03, 0x6A, 0x01, 0x00, 0x05, 0xE1, 0x03,
    0xF0, 0x02, 0x59, 0x00, 0x06, 0xE1, 0x04, 0xF0, 0x0D, 0x52, 0x01, 0x59, 0x59, 0x08, 0x65, 0x6E,
    0x67, 0x10, 0x00, 0x01, 0x00, 0x01, 0x06, 0xE1, 0x05, 0xF0, 0x0A, 0x59, 0x08, 0x66, 0x72, 0x65,
    0x10, 0x00, 0x02, 0x00, 0x02, 0x4F, 0x24, 0x88, 0xDD,
];

/// The PMT of number 5, whose descriptor of subtitles counts no bytes.
const SHORT_PMT: [u8; 23] = [
    0x02, 0xB0, 0x14, 0x00, 0x05, 0xC1, 0x00, 0x00, 0xFF, 0xFF, 0xF0, 0x00, 0x06, 0xFF, 0xFE, 0xF0,
    0x02, 0x59, 0x00, 0xAE, 0x11, 0xAB, 0x9F,
];

/// The PAT of eight services with the numbers from 1000 on and the PIDs from 8191 down.
const EIGHT: [u8; 44] = [
    0x00, 0xB0, 0x29, 0x00, 0x01, 0xC1, 0x00, 0x00, 0x03, 0xE8, 0xFF, 0xFF, 0x03, 0xE9, 0xFF, 0xFE,
    0x03, 0xEA, 0xFF, 0xFD, 0x03, 0xEB, 0xFF, 0xFC, 0x03, 0xEC, 0xFF, 0xFB, 0x03, 0xED, 0xFF, 0xFA,
    0x03, 0xEE, 0xFF, 0xF9, 0x03, 0xEF, 0xFF, 0xF8, 0xD9, 0x67, 0xF7, 0xCE,
];

/// The PMT of number 65535 with French subtitles in PID 8190 on page 4660.
const FRENCH: [u8; 31] = [
    0x02, 0xB0, 0x1C, 0xFF, 0xFF, 0xC1, 0x00, 0x00, 0xFF, 0xFF, 0xF0, 0x00, 0x06, 0xFF, 0xFE, 0xF0,
    0x0A, 0x59, 0x08, 0x66, 0x72, 0x65, 0x10, 0x12, 0x34, 0x12, 0x34, 0x4C, 0x39, 0x03, 0x87,
];

#[test]
fn the_check_value_of_the_crc(rt: HostRuntime) {
    same(&rt, crc(b"123456789"), 0x0376_E6E7);
    same(&rt, crc(&[]), 0xFFFF_FFFF);
    same(&rt, crc(&PMT), 0);
}

#[test]
fn tables_name_services(rt: HostRuntime) {
    let pat = read_section(&PAT).expect(&rt, "a section");
    same(
        &rt,
        pat,
        Section::Pat {
            stream: 1,
            entries: &PAT[8..12],
        },
    );
    same(
        &rt,
        (pat.pmt_of(1), pat.pmt_of(2), pat.subtitles_of(1)),
        (Some(4096), None, None),
    );
    let plain = read_section(&PLAIN_PAT).expect(&rt, "a section");
    same(
        &rt,
        (plain.pmt_of(0), plain.pmt_of(7)),
        (Some(16), Some(0x123)),
    );

    let pmt = read_section(&PMT).expect(&rt, "a section");
    same(
        &rt,
        pmt,
        Section::Pmt {
            number: 258,
            streams: &PMT[18..85],
        },
    );
    same(
        &rt,
        (pmt.subtitles_of(258), pmt.subtitles_of(1), pmt.pmt_of(258)),
        (Some(260), None, None),
    );
    same(
        &rt,
        read_section(&SHORT_PMT)
            .expect(&rt, "a section")
            .subtitles_of(5),
        Some(0x1FFE),
    );
}

#[test]
fn each_fault_comes_by_its_test(rt: HostRuntime) {
    let rows = [
        (&[].as_slice(), SectionFault::Cut { have: 0 }),
        (&[0x00, 0xB0].as_slice(), SectionFault::Cut { have: 2 }),
        (
            &[
                0x00, 0xB0, 0x0D, 0x00, 0x01, 0xC1, 0x00, 0x00, 0x00, 0x01, 0xF0, 0x00, 0x2A, 0xB1,
                0x04,
            ]
            .as_slice(),
            SectionFault::Cut { have: 15 },
        ),
        (
            &[
                0x00, 0xB0, 0x08, 0x01, 0x01, 0x01, 0x01, 0x01, 0x01, 0x01, 0x01,
            ]
            .as_slice(),
            SectionFault::BadLength { length: 8 },
        ),
        // The CRC's last bit is another one.
        (
            &[
                0x00, 0xB0, 0x0D, 0x00, 0x01, 0xC1, 0x00, 0x00, 0x00, 0x01, 0xF0, 0x00, 0x2A, 0xB1,
                0x04, 0xB3,
            ]
            .as_slice(),
            SectionFault::BadCrc { crc: 0x04C11DB7 },
        ),
        (
            &[
                0x01, 0xB0, 0x09, 0x00, 0x01, 0xC1, 0x00, 0x00, 0xB4, 0x83, 0xBE, 0xDD,
            ]
            .as_slice(),
            SectionFault::OtherTable(0x01),
        ),
        (
            &[
                0x42, 0xB0, 0x0A, 0x00, 0x01, 0xC1, 0x00, 0x00, 0x01, 0x8B, 0x68, 0x0F, 0x4F,
            ]
            .as_slice(),
            SectionFault::OtherTable(0x42),
        ),
        (
            &[
                0x00, 0xB0, 0x0D, 0x00, 0x01, 0xC0, 0x00, 0x00, 0x00, 0x01, 0xF0, 0x00, 0x65, 0xE6,
                0x6C, 0xA3,
            ]
            .as_slice(),
            SectionFault::NotCurrent,
        ),
        // An entry that is cut.
        (
            &[
                0x00, 0xB0, 0x0C, 0x00, 0x01, 0xC1, 0x00, 0x00, 0x00, 0x01, 0xF0, 0xF4, 0x30, 0x9D,
                0x2F,
            ]
            .as_slice(),
            SectionFault::BadLoop,
        ),
        // No room for the head of a PMT's body.
        (
            &[
                0x02, 0xB0, 0x0C, 0x00, 0x01, 0xC1, 0x00, 0x00, 0xFF, 0xFF, 0xF0, 0x28, 0x22, 0x73,
                0x2C,
            ]
            .as_slice(),
            SectionFault::BadLoop,
        ),
        // Descriptors of the service that pass the body's end.
        (
            &[
                0x02, 0xB0, 0x0D, 0x00, 0x01, 0xC1, 0x00, 0x00, 0xFF, 0xFF, 0xF0, 0x01, 0x18, 0x09,
                0xCA, 0x88,
            ]
            .as_slice(),
            SectionFault::BadLoop,
        ),
        // A descriptor of the service that is cut.
        (
            &[
                0x02, 0xB0, 0x0F, 0x00, 0x01, 0xC1, 0x00, 0x00, 0xFF, 0xFF, 0xF0, 0x02, 0x09, 0x01,
                0x23, 0x4C, 0x84, 0xF2,
            ]
            .as_slice(),
            SectionFault::BadLoop,
        ),
        // A descriptor of the service without its length.
        (
            &[
                0x02, 0xB0, 0x0E, 0x00, 0x01, 0xC1, 0x00, 0x00, 0xFF, 0xFF, 0xF0, 0x01, 0x09, 0x4F,
                0x2E, 0xDB, 0x42,
            ]
            .as_slice(),
            SectionFault::BadLoop,
        ),
        // A stream's head that is cut.
        (
            &[
                0x02, 0xB0, 0x11, 0x00, 0x01, 0xC1, 0x00, 0x00, 0xFF, 0xFF, 0xF0, 0x00, 0x06, 0xE1,
                0x00, 0xF0, 0x46, 0x27, 0x48, 0xAF,
            ]
            .as_slice(),
            SectionFault::BadLoop,
        ),
        // Descriptors of a stream that pass the body's end.
        (
            &[
                0x02, 0xB0, 0x12, 0x00, 0x01, 0xC1, 0x00, 0x00, 0xFF, 0xFF, 0xF0, 0x00, 0x06, 0xE1,
                0x00, 0xF0, 0x01, 0x6E, 0x58, 0xB1, 0x53,
            ]
            .as_slice(),
            SectionFault::BadLoop,
        ),
        // A stream's descriptor that is cut.
        (
            &[
                0x02, 0xB0, 0x14, 0x00, 0x01, 0xC1, 0x00, 0x00, 0xFF, 0xFF, 0xF0, 0x00, 0x06, 0xE1,
                0x00, 0xF0, 0x02, 0x59, 0x01, 0x9E, 0xB3, 0xDA, 0x00,
            ]
            .as_slice(),
            SectionFault::BadLoop,
        ),
    ];
    for (bytes, fault) in rows {
        same(&rt, read_section(bytes), Err(fault));
    }
}

/// Of two faults that come one behind the other in the order of the tests, the first is told.
#[test]
fn the_first_fault_is_told(rt: HostRuntime) {
    let rows = [
        (
            &[0x00, 0xB0, 0x08].as_slice(),
            SectionFault::Cut { have: 3 },
        ),
        (
            &[
                0x00, 0xB0, 0x08, 0x01, 0x01, 0x01, 0x01, 0x01, 0x01, 0x01, 0x01,
            ]
            .as_slice(),
            SectionFault::BadLength { length: 8 },
        ),
        (
            &[
                0x01, 0xB0, 0x09, 0x00, 0x01, 0xC1, 0x00, 0x00, 0xB4, 0x83, 0xBE, 0xDC,
            ]
            .as_slice(),
            SectionFault::BadCrc { crc: 0x04C11DB7 },
        ),
        (
            &[
                0x01, 0xB0, 0x09, 0x00, 0x01, 0xC0, 0x00, 0x00, 0xB5, 0x5B, 0x12, 0x5A,
            ]
            .as_slice(),
            SectionFault::OtherTable(0x01),
        ),
        (
            &[
                0x00, 0xB0, 0x0A, 0x00, 0x01, 0xC0, 0x00, 0x00, 0x00, 0xD2, 0x10, 0xAE, 0x40,
            ]
            .as_slice(),
            SectionFault::NotCurrent,
        ),
    ];
    for (bytes, fault) in rows {
        same(&rt, read_section(bytes), Err(fault));
    }
}

#[test]
fn the_longest_section(rt: HostRuntime) {
    let mut bytes = [0; 1025];
    bytes[1] = 0xB3;
    bytes[2] = 0xFD;
    // Its length is taken, so that the CRC is looked at.
    same(
        &rt,
        matches!(read_section(&bytes), Err(SectionFault::BadCrc { .. })),
        true,
    );
    bytes[2] = 0xFE;
    same(
        &rt,
        read_section(&bytes),
        Err(SectionFault::BadLength { length: 1022 }),
    );
}

/// The service with that place among eight.
fn service(place: u16) -> Service
    requires { place < 8 }
    ensures { (result.pmt < 2 ^ 13) × (result.pid < 2 ^ 13) }
{
    Service {
        number: 1000 + place,
        pmt: 8191 - place,
        pid: 32 + place,
        page: place,
        language: *b"eng",
    }
}

#[test]
fn tables_are_written_behind_what_was_there(rt: HostRuntime) {
    let services = [
        service(0),
        service(1),
        service(2),
        service(3),
        service(4),
        service(5),
        service(6),
        service(7),
    ];
    let mut out = Vec::new(rt.alloc());
    out.extend_from_slice(&PAT).expect(&rt, "memory");
    write_pat(&services, &mut out).expect(&rt, "room");
    same(&rt, &out[..16], PAT.as_slice());
    same(&rt, &out[16..], EIGHT.as_slice());

    let french = Service {
        number: 65_535,
        pmt: 100,
        pid: 8190,
        page: 0x1234,
        language: *b"fre",
    };
    out.clear();
    write_pmt(&french, &mut out).expect(&rt, "room");
    same(&rt, out.as_slice(), FRENCH.as_slice());
}
