//! The services of subtitles that the tables of a stream list.

ghost use Rattle.std.specs.Prelude.{◌≤◌};

use crate::same::same;
use psi_tables::crc;
use samples::streams::packet_of;
use samples::{sink_of, source_of_packets, words_of};
use std::alloc::Global;
use std::panic::Expect;
use std::process::Abort;
use stream_report::pids_top;
use sub_base::{NoMemory, ToolStatus};

/// The table ids of a PAT and of a PMT.
const PAT: u8 = 0x00;

const PMT: u8 = 0x02;

/// The entries of a PAT: the network's PID 16, service 1 on PID 100, service 2 on the same PID,
/// service 1 once more, on PID 101, and service 5 on PID 102.
#[rattlefmt::skip]
const ENTRIES: [u8; 20] = [
    0x00, 0x00, 0xE0, 0x10, 0x00, 0x01, 0xE0, 0x64, 0x00, 0x02, 0xE0, 0x64, 0x00, 0x01, 0xE0, 0x65,
    0x00, 0x05, 0xE0, 0x66,
];

/// Those of a later PAT: service 1 on PID 102.
const LATER_ENTRIES: [u8; 4] = [0x00, 0x01, 0xE0, 0x66];

/// The body of the PMT of service 1. On PID 257 a descriptor of another tag, and two entries of
/// subtitles: deu, type 16, pages 1 and 1; eng, type 36, pages 258 and 3. On PID 258 video with a
/// descriptor of subtitles. On PID 259 a descriptor of another tag, and one of subtitles whose
/// entry is cut.
#[rattlefmt::skip]
const MAP_OF_ONE: [u8; 69] = [
    0xFF, 0xFF, 0xF0, 0x00, 0x06, 0xE1, 0x01, 0xF0, 0x15, 0x52, 0x01, 0x07, 0x59, 0x10, 0x64, 0x65,
    0x75, 0x10, 0x00, 0x01, 0x00, 0x01, 0x65, 0x6E, 0x67, 0x24, 0x01, 0x02, 0x00, 0x03, 0x02, 0xE1,
    0x02, 0xF0, 0x0A, 0x59, 0x08, 0x66, 0x72, 0x61, 0x10, 0x00, 0x01, 0x00, 0x01, 0x06, 0xE1, 0x03,
    0xF0, 0x13, 0x56, 0x08, 0x69, 0x74, 0x61, 0x10, 0x00, 0x01, 0x00, 0x01, 0x59, 0x07, 0x6E, 0x6F,
    0x72, 0x10, 0x00, 0x01, 0x00,
];

/// That of service 2. On PID 256 the language 00 x FF, type 32, pages 9 and 7.
#[rattlefmt::skip]
const MAP_OF_TWO: [u8; 19] = [
    0xFF, 0xFF, 0xF0, 0x00, 0x06, 0xE1, 0x00, 0xF0, 0x0A, 0x59, 0x08, 0x00, 0x78, 0xFF, 0x20, 0x00,
    0x09, 0x00, 0x07,
];

/// That of service 5. On PID 257 dan, type 17, pages 258 and 2, and swe, type 17, pages 1 and 0.
#[rattlefmt::skip]
const MAP_OF_FIVE: [u8; 29] = [
    0xFF, 0xFF, 0xF0, 0x00, 0x06, 0xE1, 0x01, 0xF0, 0x14, 0x59, 0x08, 0x64, 0x61, 0x6E, 0x11, 0x01,
    0x02, 0x00, 0x02, 0x59, 0x08, 0x73, 0x77, 0x65, 0x11, 0x00, 0x01, 0x00, 0x00,
];

/// One of service 1 that does not count. On PID 256 spa, type 16, pages 1 and 1.
#[rattlefmt::skip]
const OTHER_MAP: [u8; 19] = [
    0xFF, 0xFF, 0xF0, 0x00, 0x06, 0xE1, 0x00, 0xF0, 0x0A, 0x59, 0x08, 0x73, 0x70, 0x61, 0x10, 0x00,
    0x01, 0x00, 0x01,
];

/// A section of a table with that id and body, in force, with its CRC.
fn section_of<R: Abort>(rt: &R, alloc: Global, table: u8, number: u16, body: &[u8]) -> Vec<u8> {
    let length = (body.len() % 4_000) as u16 + 9;
    let [high, low] = [(length / 256) as u8, (length % 256) as u8];
    let [above, below] = [(number / 256) as u8, (number % 256) as u8];
    let head = [
        table,
        high.wrapping_add(0xB0),
        low,
        above,
        below,
        0xC1,
        0,
        0,
    ];
    let mut section = Vec::from_slice(alloc, &head).expect(rt, "memory");
    section.extend_from_slice(body).expect(rt, "memory");
    let crc = crc(&section);
    section
        .extend_from_slice(&crc.to_be_bytes())
        .expect(rt, "memory");
    section
}

/// A packet of that PID, below 256, with a piece of a section at its end.
fn piece_packet(pid: u8, starts: bool, counter: u8, piece: &[u8]) -> [u8; 188] {
    let flags = if starts { 0x40 } else { 0x00 };
    let control: u8 = if piece.len() < 184 { 0x30 } else { 0x10 };
    let field = 183usize.saturating_sub(piece.len()) as u8;
    let control = (counter % 16).wrapping_add(control);
    packet_of(&[0x47, flags, pid, control, field, 0x00], piece)
}

/// The packets of a stream with tables.
#[derive(Drop)]
struct Tables {
    packets: Vec<[u8; 188]>,
}

impl Tables {
    /// Sends a section on that PID in pieces of so many bytes, the first with that counter.
    fn send<R: Abort>(&mut self, rt: &R, pid: u8, counter: u8, section: &[u8], size: usize)
        requires { 1 ≤ size }
    {
        let mut payload = Vec::from_slice(*self.packets.allocator(), &[0]).expect(rt, "memory");
        payload.extend_from_slice(section).expect(rt, "memory");
        let mut counter = counter;
        let mut starts = true;
        for piece in payload.chunks(size) {
            self.packets
                .push(piece_packet(pid, starts, counter, piece))
                .expect(rt, "memory");
            counter = counter.wrapping_add(1);
            starts = false;
        }
    }
}

/// That `pids` tells this text of packets.
fn is_told<R: Abort>(rt: &R, alloc: Global, packets: &[[u8; 188]], text: &[u8]) {
    let words = words_of(alloc, "pids stream.ts pids.txt").expect(rt, "memory");
    let mut stream = source_of_packets(alloc, packets, &[], 1_000, 0).expect(rt, "memory");
    let mut out = sink_of(alloc, 1_000_000, 0).expect(rt, "memory");
    let mut notes = sink_of(alloc, 1_000_000, 0).expect(rt, "memory");
    let status = pids_top(alloc, &words, &mut stream, &mut out, &mut notes);
    same(&rt, status, ToolStatus::Done);
    same(&rt, notes.written(), b"done\n".as_slice());
    same(&rt, out.written(), text);
}

/// The first PAT and the first PMTs behind it count, in order of PID, page, service and ancillary
/// page.
#[test]
fn services_of_tables(rt: HostRuntime) {
    let alloc = rt.alloc();
    let mut tables = Tables {
        packets: Vec::new(alloc),
    };
    let other = section_of(&rt, alloc, PMT, 1, &OTHER_MAP);
    let one = section_of(&rt, alloc, PMT, 1, &MAP_OF_ONE);
    let two = section_of(&rt, alloc, PMT, 2, &MAP_OF_TWO);
    let five = section_of(&rt, alloc, PMT, 5, &MAP_OF_FIVE);
    // A PMT before the PAT is passed over.
    tables.send(&rt, 100, 7, &other, 184);
    is_told(&rt, alloc, &tables.packets, b"");
    tables.send(&rt, 0, 0, &section_of(&rt, alloc, PAT, 1, &ENTRIES), 184);
    // Services 1 and 2 on one PID, that of 1 over several packets; none on PID 101.
    tables.send(&rt, 101, 0, &other, 184);
    tables.send(&rt, 100, 8, &one, 30);
    tables.send(&rt, 100, 3, &two, 184);
    // Later tables change nothing, nor does a service that is not looked for on its PID.
    tables.send(&rt, 100, 4, &other, 184);
    tables.send(
        &rt,
        0,
        1,
        &section_of(&rt, alloc, PAT, 1, &LATER_ENTRIES),
        184,
    );
    tables.send(&rt, 102, 0, &other, 184);
    tables.send(&rt, 102, 1, &five, 184);
    is_told(
        &rt,
        alloc,
        &tables.packets,
        b"service 2 pid 256 ?x? type 32 page 9 ancillary 7\n\
          service 1 pid 257 deu type 16 page 1 ancillary 1\n\
          service 5 pid 257 swe type 17 page 1 ancillary 0\n\
          service 1 pid 257 eng type 36 page 258 ancillary 3\n\
          service 5 pid 257 dan type 17 page 258 ancillary 2\n",
    )
}

/// The body of a PMT with 124 entries of subtitles on PID 256 and so many: deu, type 16, pages 1
/// and 1.
fn full_map(alloc: Global, pid: u8) -> Result<Vec<u8>, NoMemory> {
    // One stream of private data with 1,000 bytes of descriptors, each of 31 entries.
    let head = [0xFF, 0xFF, 0xF0, 0x00, 0x06, 0xE1, pid, 0xF3, 0xE8];
    let mut body = Vec::from_slice(alloc, &head)?;
    for _ in 0..4 {
        body.extend_from_slice(&[0x59, 248])?;
        for _ in 0..31 {
            body.extend_from_slice(b"deu\x10\x00\x01\x00\x01")?;
        }
    }
    Ok(body)
}

/// Of more than 512 services the lowest 512 are told.
#[test]
fn lowest_services(rt: HostRuntime) {
    let alloc = rt.alloc();
    let mut entries = Vec::new(alloc);
    let mut tables = Tables {
        packets: Vec::new(alloc),
    };
    // Services 1 to 5 on PIDs 101 to 105.
    for number in 1u8..6 {
        entries
            .extend_from_slice(&[0x00, number, 0xE0, 100 + number])
            .expect(&rt, "memory");
    }
    tables.send(&rt, 0, 0, &section_of(&rt, alloc, PAT, 1, &entries), 184);
    let mut text = Vec::new(alloc);
    for number in 1u8..6 {
        let map = section_of(
            &rt,
            alloc,
            PMT,
            u16::from(number),
            &full_map(alloc, 4 + number).expect(&rt, "memory"),
        );
        tables.send(&rt, 100 + number, 0, &map, 184);
        // Four services have 124 entries each, and the fifth, of 124, sixteen more.
        let told = if number < 5 { 124 } else { 16 };
        for _ in 0..told {
            text.extend_from_slice(b"service ").expect(&rt, "memory");
            text.push(b'0' + number).expect(&rt, "memory");
            text.extend_from_slice(b" pid 26").expect(&rt, "memory");
            text.push(b'0' + number).expect(&rt, "memory");
            text.extend_from_slice(b" deu type 16 page 1 ancillary 1\n")
                .expect(&rt, "memory");
        }
    }
    text.extend_from_slice(b"more\n").expect(&rt, "memory");
    is_told(&rt, alloc, &tables.packets, &text)
}
