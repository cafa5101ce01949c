//! The loops of programme tables: descriptors, streams and entries one after another.

ghost use Rattle.std.specs.Prelude.{◌≡◌, ◌==◌, ◌<◌, [], length, MatchOption};
ghost use Rattle.std.specs.List.{list_any};
ghost use Rattle.psi_tables.specs.Loops.{are_descriptors, are_entries, are_streams, descriptors_of, entries_of, streams_of};
ghost use Rattle.psi_tables.specs.Services.{is_subtitles, is_subtitling, pid_listed, subtitle_pid};
ghost use Rattle.psi_tables.specs.Walking.{IsFirstDescriptor, IsFirstEntry, IsFirstStream, stream_value};

use crate::word::{thirteen_at, twelve_at, word_at};

/// The bytes of an entry of a PAT.
const ENTRY: usize = 4;

/// The bytes of a stream before its descriptors.
const STREAM_HEAD: usize = 5;

/// The bytes of a descriptor before those that its length counts.
const DESCRIPTOR_HEAD: usize = 2;

/// The stream type of private data in PES packets (ISO/IEC 13818-1, table 2-34).
pub const PRIVATE_DATA: u8 = 0x06;

/// The tag of a descriptor of subtitles (EN 300 468, 6.2.41).
pub const SUBTITLING: u8 = 0x59;

/// A programme in a PAT (ISO/IEC 13818-1, 2.4.4.3).
#[derive(Clone, Copy, Debug, PartialEq, Eq)]
pub struct ProgrammeEntry {
    /// Its number (program_number). The number 0 stands for the network's PID.
    pub number: u16,
    /// The PID of its PMT (program_map_PID).
    pub pid: u16,
}

/// A descriptor (ISO/IEC 13818-1, 2.6).
#[derive(Clone, Copy)]
pub struct DescriptorEntry<'a> {
    /// Its kind (descriptor_tag).
    pub tag: u8,
    /// The bytes that its length counts.
    pub content: &'a [u8],
}

/// A stream of a PMT (ISO/IEC 13818-1, 2.4.4.8).
#[derive(Clone, Copy)]
pub struct StreamEntry<'a> {
    /// What it carries (stream_type).
    pub kind: u8,
    /// Its PID (elementary_PID).
    pub pid: u16,
    /// Its descriptors.
    pub descriptors: &'a [u8],
}

impl StreamEntry<'_> {
    /// Whether it carries subtitles.
    fn is_subtitles(&self) -> bool
        ensures { result ≡ is_subtitles (stream_value self.now) }
    {
        self.kind == PRIVATE_DATA && has_subtitling(self.descriptors)
    }
}

// ---- descriptors

/// The descriptor that begins the bytes, and the bytes behind it; none where it is cut.
#[tactic(auto, using(crate::proofs::LoopLaws::descriptor_first, crate::proofs::LoopLaws::descriptor_short, crate::proofs::LoopLaws::descriptor_cut))]
pub fn first_descriptor(bytes: &[u8]) -> Option<(DescriptorEntry<'_>, &[u8])>
    ensures { MatchOption result (descriptors_of bytes.now ≡ [])
        (λ found. IsFirstDescriptor bytes.now found.0 found.1.now) }
{
    if bytes.len() < DESCRIPTOR_HEAD {
        return None;
    }
    let end = DESCRIPTOR_HEAD + usize::from(bytes[1]);
    if bytes.len() < end {
        return None;
    }
    let descriptor = DescriptorEntry {
        tag: bytes[0],
        content: &bytes[DESCRIPTOR_HEAD..end],
    };
    Some((descriptor, &bytes[end..]))
}

/// Whether bytes are whole descriptors.
#[tactic(auto, using(crate::proofs::LoopLaws::are_descriptors_next, crate::proofs::LoopLaws::are_descriptors_end))]
pub(crate) fn are_descriptors(bytes: &[u8]) -> bool
    ensures { result ≡ are_descriptors bytes.now }
{
    let mut rest = bytes;
    while let Some((_, behind)) = first_descriptor(rest) {
        rest = behind;
    }
    rest.is_empty()
}

/// Whether a descriptor of subtitles is among descriptors.
#[tactic(auto, using(crate::proofs::LoopLaws::any_descriptor_next, crate::proofs::LoopLaws::any_descriptor_end))]
fn has_subtitling(descriptors: &[u8]) -> bool
    ensures { result ≡ list_any is_subtitling (descriptors_of descriptors.now) }
{
    let mut rest = descriptors;
    while let Some((descriptor, behind)) = first_descriptor(rest) {
        if descriptor.tag == SUBTITLING {
            return true;
        }
        rest = behind;
    }
    false
}

// ---- streams

/// The stream that begins the bytes, and the bytes behind it; none where it is cut.
#[tactic(auto, using(crate::proofs::LoopLaws::stream_first, crate::proofs::LoopLaws::stream_short, crate::proofs::LoopLaws::stream_cut))]
pub fn first_stream(bytes: &[u8]) -> Option<(StreamEntry<'_>, &[u8])>
    ensures { MatchOption result (streams_of bytes.now ≡ [])
        (λ found. IsFirstStream bytes.now found.0 found.1.now) }
{
    if bytes.len() < STREAM_HEAD {
        return None;
    }
    let end = STREAM_HEAD + twelve_at(bytes, 3);
    if bytes.len() < end {
        return None;
    }
    let stream = StreamEntry {
        kind: bytes[0],
        pid: thirteen_at(bytes, 1),
        descriptors: &bytes[STREAM_HEAD..end],
    };
    Some((stream, &bytes[end..]))
}

/// Whether bytes are whole streams, each with whole descriptors.
#[tactic(auto, using(crate::proofs::LoopLaws::are_streams_next, crate::proofs::LoopLaws::are_streams_end))]
pub(crate) fn are_streams(bytes: &[u8]) -> bool
    ensures { result ≡ are_streams bytes.now }
{
    let mut rest = bytes;
    while let Some((stream, behind)) = first_stream(rest) {
        if !are_descriptors(stream.descriptors) {
            return false;
        }
        rest = behind;
    }
    rest.is_empty()
}

/// The PID of the first stream of subtitles.
#[tactic(auto, using(crate::proofs::LoopLaws::subtitle_pid_next, crate::proofs::LoopLaws::subtitle_pid_end))]
pub(crate) fn subtitle_pid(streams: &[u8]) -> Option<u16>
    ensures { result ≡ subtitle_pid streams.now }
{
    let mut rest = streams;
    while let Some((stream, behind)) = first_stream(rest) {
        if stream.is_subtitles() {
            return Some(stream.pid);
        }
        rest = behind;
    }
    None
}

// ---- entries

/// The programme that begins the entries of a PAT, and the bytes behind it; none where it is cut.
#[tactic(auto, using(crate::proofs::LoopLaws::entry_first, crate::proofs::LoopLaws::entry_short))]
pub fn first_entry(bytes: &[u8]) -> Option<(ProgrammeEntry, &[u8])>
    ensures { MatchOption result (entries_of bytes.now ≡ [])
        (λ found. IsFirstEntry bytes.now found.0 found.1.now) }
{
    if bytes.len() < ENTRY {
        return None;
    }
    let entry = ProgrammeEntry {
        number: word_at(bytes, 0),
        pid: thirteen_at(bytes, 2),
    };
    Some((entry, &bytes[ENTRY..]))
}

/// Whether bytes are whole entries of a PAT.
pub(crate) fn are_entries(bytes: &[u8]) -> bool
    ensures { result ≡ are_entries bytes.now }
{
    bytes.len() % ENTRY == 0
}

/// The PID that entries of a PAT list for a service, the first of them.
#[tactic(auto, using(crate::proofs::LoopLaws::pid_listed_next, crate::proofs::LoopLaws::pid_listed_end))]
pub(crate) fn pid_listed(number: u16, entries: &[u8]) -> Option<u16>
    ensures { result ≡ pid_listed number entries.now }
{
    let mut rest = entries;
    while let Some((entry, behind)) = first_entry(rest) {
        if entry.number == number {
            return Some(entry.pid);
        }
        rest = behind;
    }
    None
}
