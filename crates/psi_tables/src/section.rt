ghost use Rattle.std.specs.Prelude.{◌≡◌, ◌==◌, ◌||◌, true, Some, IsOkAnd, MatchResult, if◌then◌else◌};
ghost use Rattle.psi_tables.specs.Sections.{Pat, Pmt, SectionValue, contents, is_body, is_cut, is_pmt_body, valid_section, section_fault, streams_in};
ghost use Rattle.psi_tables.specs.Services.{clock_in, pid_named, pmt_named};

use crate::checksum::crc;
use crate::fault::SectionFault;
use crate::loops::{are_descriptors, are_entries, are_streams, pid_listed, subtitle_pid};
use crate::word::{thirteen_at, twelve_at, word_at};
use stream_syntax::NULL_PID;

/// The table id of a PAT (ISO/IEC 13818-1, table 2-31).
pub(crate) const PAT: u8 = 0x00;

/// The table id of a PMT.
pub(crate) const PMT: u8 = 0x02;

/// The bytes before those that a section's length counts.
const LENGTH_END: usize = 3;

/// The least and the greatest length of a section (section_length): what its head has behind the
/// length and the CRC are 9 bytes, and the whole has 1,024 at most.
const SHORTEST: usize = 9;

const LONGEST: usize = 1021;

/// The bytes of a section before its body.
pub(crate) const HEAD: usize = 8;

/// The bytes of the CRC.
pub(crate) const CRC: usize = 4;

/// The bytes of a PMT's body before its descriptors.
const PMT_HEAD: usize = 4;

/// A section of a programme table (ISO/IEC 13818-1, 2.4.4), borrowed from the bytes that it was
/// read from.
#[derive(Clone, Copy, Debug, PartialEq, Eq)]
pub enum Section<'a> {
    /// A section of the programme association table.
    Pat {
        /// The id of the transport stream (transport_stream_id).
        stream: u16,
        /// The entries, four bytes each.
        entries: &'a [u8],
    },
    /// A section of a programme map table.
    Pmt {
        /// The number of the service (program_number).
        number: u16,
        /// The streams, each of five bytes and its descriptors.
        streams: &'a [u8],
    },
}

impl Section<'_> {
    /// The PID of the PMT of a service, where this is a PAT that lists it.
    pub fn pmt_of(&self, number: u16) -> Option<u16>
        ensures { result ≡ pmt_named number (contents self.now) }
    {
        match *self {
            Section::Pat { entries, .. } => pid_listed(number, entries),
            Section::Pmt { .. } => None,
        }
    }

    /// The PID of the subtitles of a service: that of the first stream of private data with a
    /// descriptor of subtitles, where this is the service's PMT.
    pub fn subtitles_of(&self, service: u16) -> Option<u16>
        ensures { result ≡ pid_named service (contents self.now) }
    {
        match *self {
            Section::Pmt { number, streams } if number == service => subtitle_pid(streams),
            _ => None,
        }
    }
}

/// The PID of the clock of a PMT (PCR_PID), by the bytes of its section; none where they are too
/// short or say that there is none.
pub fn clock_pid(section: &[u8]) -> Option<u16>
    ensures { result ≡ clock_in section.now }
{
    if section.len() < HEAD + 2 {
        return None;
    }
    let pid = thirteen_at(section, HEAD);
    if pid == NULL_PID { None } else { Some(pid) }
}

/// Reads the section that begins the bytes; other bytes may follow it. Nothing is copied, and
/// reserved bits are not looked at.
///
/// The fault is that of the first test that fails.
#[tactic(auto, using(crate::proofs::SectionLaws::every_section, crate::proofs::SectionLaws::every_fault))]
pub fn read_section(bytes: &[u8]) -> Result<Section<'_>, SectionFault>
    ensures exact { MatchResult result
        (λ section. valid_section bytes.now ≡ Some (contents section))
        (λ fault. section_fault bytes.now ≡ Some fault) }
    // Bytes that are a section are taken as this section.
    ensures every_section { (value : SectionValue) → valid_section bytes.now ≡ Some value
        → IsOkAnd result (λ section. contents section ≡ value) }
    ensures every_fault { (fault : SectionFault) → section_fault bytes.now ≡ Some fault
        → result ≡ Err fault }
{
    section_of(bytes)
}

/// The section that begins the bytes, or the fault of the first test that fails.
fn section_of(bytes: &[u8]) -> Result<Section<'_>, SectionFault>
    ensures { MatchResult result
        (λ section. valid_section bytes.now ≡ Some (contents section))
        (λ fault. section_fault bytes.now ≡ Some fault) }
{
    if is_cut(bytes) {
        let have = bytes.len() as u32;
        return Err(SectionFault::Cut { have });
    }
    let length = twelve_at(bytes, 1);
    if length < SHORTEST || length > LONGEST {
        let length = length as u16;
        return Err(SectionFault::BadLength { length });
    }
    let end = LENGTH_END + length;
    let crc = crc(&bytes[..end]);
    if crc != 0 {
        return Err(SectionFault::BadCrc { crc });
    }
    let table = bytes[0];
    if !is_table(table) {
        return Err(SectionFault::OtherTable(table));
    }
    if bytes[5] % 2 == 0 {
        return Err(SectionFault::NotCurrent);
    }
    let body = &bytes[HEAD..end - CRC];
    if !is_body(table, body) {
        return Err(SectionFault::BadLoop);
    }
    Ok(section_with(table, word_at(bytes, 3), body))
}

/// Whether the bytes end before the section does that begins them.
fn is_cut(bytes: &[u8]) -> bool
    ensures { result ≡ is_cut bytes.now }
{
    bytes.len() < LENGTH_END || bytes.len() < LENGTH_END + twelve_at(bytes, 1)
}

/// Whether a table id is that of a PAT or of a PMT.
fn is_table(table: u8) -> bool
    ensures { result ≡ (table == 0 || table == 2) }
{
    matches!(table, PAT | PMT)
}

/// Whether a body is that of a PAT, or of a PMT.
fn is_body(table: u8, body: &[u8]) -> bool
    ensures { result ≡ is_body table body.now }
{
    if table == PAT {
        are_entries(body)
    } else {
        is_pmt_body(body)
    }
}

/// Whether a body is that of a PMT.
fn is_pmt_body(body: &[u8]) -> bool
    ensures { result ≡ is_pmt_body body.now }
{
    if body.len() < PMT_HEAD {
        return false;
    }
    let end = PMT_HEAD + twelve_at(body, 2);
    body.len() >= end && are_descriptors(&body[PMT_HEAD..end]) && are_streams(&body[end..])
}

/// The section of a table id with that id and body.
fn section_with(table: u8, id: u16, body: &[u8]) -> Section<'_>
    requires { is_body table body.now ≡ true }
    ensures { contents result
        ≡ (if table == 0 then Pat id body.now else Pmt id (streams_in body.now)) }
{
    if table == PAT {
        Section::Pat {
            stream: id,
            entries: body,
        }
    } else {
        Section::Pmt {
            number: id,
            streams: &body[PMT_HEAD + twelve_at(body, 2)..],
        }
    }
}
