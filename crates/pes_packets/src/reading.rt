ghost use Rattle.std.specs.Prelude.{◌≡◌, ℕ, ◌+◌, ◌/◌, ◌^◌, ◌<◌, ◌≤◌, List, length, slice_index, None, Some, Ok, Err, IsOkAnd, IfNone, IfOk, IfErr};
ghost use Rattle.std.specs.Bool.{OnFalse};
ghost use Rattle.stream_syntax.specs.Pes.{Gives, IsPes, field_place, pes_fault, pes_of, pts_in};
ghost use Rattle.stream_syntax.specs.Pes.{lacks_prefix as prefix_fails, has_bad_head as head_fails, has_bad_header_length as header_length_fails, lacks_marker as marker_fails, is_other_field as field_fails};

use byteorder::{BigEndian, ByteOrder};
use stream_syntax::{DATA_IDENTIFIER, PRIVATE_STREAM_1, PesFault, SUBTITLE_STREAM};

/// A PES packet of a subtitle stream: its presentation time in ticks of 90 kHz, and the bytes of
/// its data field behind data identifier and subtitle stream id.
#[derive(Clone, Copy, Debug, PartialEq, Eq)]
pub struct Pes<'a> {
    /// The presentation time, below 2^33 (PTS).
    pub pts: u64,
    /// The bytes in which segments stand one after another (the subtitling_segments of the
    /// PES_data_field, with its end marker).
    pub segments: &'a [u8],
}

/// The bytes before the header's length, and the length itself.
const FIXED_LENGTH: usize = 9;

/// Reads the bytes as one PES packet of a subtitle stream.
pub fn read_pes(bytes: &[u8]) -> Result<Pes<'_>, PesFault>
    // What is read has the layout, and what has the layout is read.
    ensures found { IfOk result (λ pes. IsPes bytes.now pes.pts pes.segments.now) }
    ensures only { (pts : ℕ) (segments : List ℕ) → IsPes bytes.now pts segments
        → IsOkAnd result (λ pes. (pes.pts ≡ pts) × (pes.segments.now ≡ segments)) }

    // A fault is that of the first test that fails.
    ensures fault { IfErr result (λ fault. pes_fault bytes.now ≡ Some fault) }
    ensures exact { Gives (λ pes. (pes.pts, pes.segments.now)) result (pes_of bytes.now) }

    // A presentation time has 33 bits.
    ensures timely { IfOk result (λ pes. pes.pts < 2 ^ 33) }
{
    read(bytes)
}

/// The packet's time and segments, or the fault of the first test that fails.
fn read(bytes: &[u8]) -> Result<Pes<'_>, PesFault>
    ensures gives { Gives (λ pes. (pes.pts, pes.segments.now)) result (pes_of bytes.now) }
    ensures timely { IfOk result (λ pes. pes.pts < 2 ^ 33) }
{
    match fault_of(bytes) {
        Some(fault) => Err(fault),
        None => Ok(Pes {
            pts: pts_of(bytes),
            segments: &bytes[FIXED_LENGTH + usize::from(bytes[8]) + 2..],
        }),
    }
}

/// The fault of the first test that the bytes fail.
fn fault_of(bytes: &[u8]) -> Option<PesFault>
    ensures first { result ≡ pes_fault bytes.now }
    ensures long { IfNone result
        ((field_place bytes.now + 2 ≤ length bytes.now) × (5 ≤ slice_index bytes.now 8)) }
{
    if lacks_prefix(bytes) {
        return Some(PesFault::NoPrefix);
    }
    if bytes[3] != PRIVATE_STREAM_1 {
        return Some(PesFault::OtherStream(bytes[3]));
    }
    if has_bad_head(bytes) {
        return Some(PesFault::BadHeader);
    }
    if bytes[6] >> 4 & 3 != 0 {
        return Some(PesFault::Scrambled);
    }
    // PTS_DTS_flags: 2 and 3 say that there is a presentation time.
    if bytes[7] >> 6 < 2 {
        return Some(PesFault::NoPts);
    }
    if has_bad_header_length(bytes) {
        return Some(PesFault::BadHeader);
    }
    if lacks_marker(bytes) {
        return Some(PesFault::BadMarker);
    }
    if is_other_field(bytes) {
        return Some(PesFault::OtherField(bytes[FIXED_LENGTH + usize::from(bytes[8])]));
    }
    None
}

/// Whether the bytes are too short for prefix, stream id and length, or lack the start code prefix.
fn lacks_prefix(bytes: &[u8]) -> bool
    ensures exact { result ≡ prefix_fails bytes.now }
    ensures enough { OnFalse result (6 ≤ length bytes.now) }
{
    bytes.len() < 6 || bytes[0] != 0 || bytes[1] != 0 || bytes[2] != 1
}

/// Whether the head is cut, the length field gives another count of bytes, or the header does not
/// begin with the bits 10.
fn has_bad_head(bytes: &[u8]) -> bool
    requires { 6 ≤ length bytes.now }
    ensures exact { result ≡ head_fails bytes.now }
    ensures enough { OnFalse result (9 ≤ length bytes.now) }
{
    bytes.len() < FIXED_LENGTH
        || bytes.len() != 6 + usize::from(BigEndian::read_u16(&bytes[4..]))
        || bytes[6] >> 6 != 2
}

/// Whether the header has no room for the presentation time, or the data field is cut.
fn has_bad_header_length(bytes: &[u8]) -> bool
    requires { 9 ≤ length bytes.now }
    ensures exact { result ≡ header_length_fails bytes.now }
    ensures enough { OnFalse result
        ((field_place bytes.now + 2 ≤ length bytes.now) × (5 ≤ slice_index bytes.now 8)) }
{
    bytes[8] < 5 || bytes.len() < FIXED_LENGTH + usize::from(bytes[8]) + 2
}

/// Whether a marker bit of the presentation time is 0.
fn lacks_marker(bytes: &[u8]) -> bool
    requires { 14 ≤ length bytes.now }
    ensures exact { result ≡ marker_fails bytes.now }
{
    bytes[9] & 1 == 0 || bytes[11] & 1 == 0 || bytes[13] & 1 == 0
}

/// Whether the PES data field has another data identifier or subtitle stream id.
fn is_other_field(bytes: &[u8]) -> bool
    requires { field_place bytes.now + 2 ≤ length bytes.now }
    ensures exact { result ≡ field_fails bytes.now }
{
    let field = FIXED_LENGTH + usize::from(bytes[8]);
    bytes[field] != DATA_IDENTIFIER || bytes[field + 1] != SUBTITLE_STREAM
}

/// The presentation time in the header.
fn pts_of(bytes: &[u8]) -> u64
    requires { 14 ≤ length bytes.now }
    ensures value { result ≡ pts_in bytes.now }
    ensures timely { result < 2 ^ 33 }
{
    let high = u64::from(bytes[9] >> 1 & 7);
    let middle = u64::from(BigEndian::read_u16(&bytes[10..]) >> 1);
    let low = u64::from(BigEndian::read_u16(&bytes[12..]) >> 1);
    (high << 30) + (middle << 15) + low
}
