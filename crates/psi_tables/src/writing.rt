//! Sections of programme tables written as bytes.

ghost use Rattle.std.specs.Prelude.{◌≡◌, ◌+◌, ◌*◌, ◌-◌, ◌<◌, ◌≤◌, ◌++◌, ◌^◌, All, IfErr, OnOk, drop, length, vec_len};
ghost use Rattle.std.specs.Vec.{vec_capacity};
ghost use Rattle.byteorder.specs.Endian.{big_bytes};
ghost use Rattle.psi_tables.specs.Crc.{crc_of};
ghost use Rattle.psi_tables.specs.Writing.{head_bytes, pat_entry, pmt_body, written_pat, written_pmt};
ghost use Rattle.psi_tables.specs.declared.service.Service.{Service};

use crate::checksum::crc;
use crate::loops::{PRIVATE_DATA, SUBTITLING};
use crate::section::{CRC, HEAD, PAT, PMT};
use crate::service::Service;
use byteorder::{BigEndian, ByteOrder};
use stream_syntax::NULL_PID;
use sub_base::NoMemory;

/// The bytes of an entry of a PAT.
const ENTRY: usize = 4;

/// The bytes of the body of a PMT with one stream that has a descriptor of subtitles.
const PMT_BODY: usize = 19;

/// The id of the transport stream.
const STREAM: u16 = 1;

/// The three reserved bits above a PID.
const ABOVE_PID: u16 = 0xE000;

/// The four reserved bits above the length of descriptors.
const ABOVE_LENGTH: u16 = 0xF000;

/// The type of subtitles for a display of any shape (EN 300 468, table 26, subtitling_type).
const ANY_SHAPE: u8 = 0x10;

/// The bytes that the length of a descriptor of subtitles counts.
const SUBTITLING_LENGTH: u8 = 8;

/// Appends the section of a PAT that lists services, in stream 1. Version and section numbers are
/// 0, reserved bits are 1. After want of memory `out` is as before.
pub fn write_pat(services: &[Service], out: &mut Vec<u8>) -> Result<(), NoMemory>
    requires count { (1 ≤ length services.now) × (length services.now ≤ 8) }
    requires pids { All (λ service. (service.pmt < 2 ^ 13) × (service.pid < 2 ^ 13))
        services.now }
    ensures section { OnOk result
        (out.new.items ≡ out.old.items ++ written_pat services.now) }
    ensures kept { IfErr result (λ _. out.new.items ≡ out.old.items) }
{
    let size = ENTRY * services.len();
    // All memory first, so that no part of a section is left where there is none.
    out.reserve(HEAD + size + CRC)?;
    let start = out.len();
    append(out, &head_bytes(PAT, STREAM, size));
    for service in services {
        append(out, &pat_entry(service));
    }
    append_crc(out, start);
    Ok(())
}

/// Appends the section of the PMT of a service: one stream of private data in PES packets, with
/// a descriptor of subtitles, and no PCR. Version and section numbers are 0, reserved bits are 1.
/// After want of memory `out` is as before.
pub fn write_pmt(service: &Service, out: &mut Vec<u8>) -> Result<(), NoMemory>
    requires { (service.now.pmt < 2 ^ 13) × (service.now.pid < 2 ^ 13) }
    ensures section { OnOk result
        (out.new.items ≡ out.old.items ++ written_pmt service.now) }
    ensures kept { IfErr result (λ _. out.new.items ≡ out.old.items) }
{
    let body = pmt_body(service);
    out.reserve(HEAD + body.len() + CRC)?;
    let start = out.len();
    append(out, &head_bytes(PMT, service.number, body.len()));
    append(out, &body);
    append_crc(out, start);
    Ok(())
}

/// The bytes of a section before its body, which has so many bytes.
fn head_bytes(table: u8, id: u16, size: usize) -> [u8; HEAD]
    requires { size ≤ 1012 }
    ensures { result ≡ head_bytes table id size }
{
    // What the length counts: the last five bytes of the head, the body and the CRC.
    let (length, id) = (word(0xB000 + (HEAD - 3 + size + CRC) as u16), word(id));
    // Reserved bits, version 0, and a table that is current; section 0 of those up to 0.
    [table, length[0], length[1], id[0], id[1], 0xC1, 0, 0]
}

/// The bytes of an entry of a PAT.
fn pat_entry(service: &Service) -> [u8; ENTRY]
    requires { service.now.pmt < 2 ^ 13 }
    ensures { result ≡ pat_entry service.now }
{
    let (number, pmt) = (word(service.number), word(ABOVE_PID + service.pmt));
    [number[0], number[1], pmt[0], pmt[1]]
}

/// The bytes of the body of a PMT.
fn pmt_body(service: &Service) -> [u8; PMT_BODY]
    requires { service.now.pid < 2 ^ 13 }
    ensures bytes { result ≡ pmt_body service.now }
    ensures size { length (pmt_body service.now) ≡ 19 }
{
    let (pcr, program_info) = (word(ABOVE_PID + NULL_PID), word(ABOVE_LENGTH));
    let (pid, info) = (word(ABOVE_PID + service.pid), word(ABOVE_LENGTH + 10));
    let (language, page) = (service.language, word(service.page));
    [
        pcr[0],
        pcr[1],
        program_info[0],
        program_info[1],
        PRIVATE_DATA,
        pid[0],
        pid[1],
        info[0],
        info[1],
        SUBTITLING,
        SUBTITLING_LENGTH,
        language[0],
        language[1],
        language[2],
        ANY_SHAPE,
        page[0],
        page[1],
        page[0],
        page[1],
    ]
}

/// Appends the CRC of the bytes from a place on, for which there is room.
fn append_crc(out: &mut Vec<u8>, start: usize)
    requires start { start ≤ vec_len out.old }
    requires room { vec_len out.old + 4 ≤ vec_capacity out.old }
    ensures { out.new.items ≡ out.old.items ++ big_bytes 4 (crc_of (drop start out.old.items)) }
{
    let mut bytes = [0; CRC];
    BigEndian::write_u32(&mut bytes, crc(&out[start..]));
    append(out, &bytes);
}

/// Appends bytes for which there is room.
fn append(out: &mut Vec<u8>, bytes: &[u8])
    requires { vec_len out.old + length bytes.now ≤ vec_capacity out.old }
    ensures items { out.new.items ≡ out.old.items ++ bytes.now }
    ensures len { vec_len out.new ≡ vec_len out.old + length bytes.now }
    ensures capacity { vec_capacity out.old ≤ vec_capacity out.new }
{
    // Room was reserved, so that this takes no memory.
    out.extend_from_slice(bytes).unwrap();
}

/// A number of 16 bits as bytes.
fn word(number: u16) -> [u8; 2]
    ensures { result ≡ big_bytes 2 number }
{
    let mut bytes = [0; 2];
    BigEndian::write_u16(&mut bytes, number);
    bytes
}
