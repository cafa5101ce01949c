//! The segments of a display set, which stand one after the other.

ghost use Rattle.std.specs.Prelude.{◌≡◌, ◌+◌, ◌*◌, ◌≤◌, ◌==◌, ◌∷◌, [], All, IfOk, IfSome, List, None, length, map, ℕ};
ghost use Rattle.decoder_model.specs.Contents.{has_state, page_in};
ghost use Rattle.decoder_model.specs.Faults.{contents_in};
ghost use Rattle.decoder_model.specs.Readings.{AreReadings, IsReading, Reading};
ghost use Rattle.decoder_model.specs.Received.{IsFramed};
ghost use Rattle.display_sets.specs.Filling.{AreBytes};
ghost use Rattle.pes_packets.specs.Units.{IsSegmentLength};
ghost use Rattle.stream_syntax.specs.declared.page.State.TheVariants.{ModeChange};
ghost use Rattle.segments.specs.Contents.{contents};
ghost use Rattle.stream_syntax.specs.Segments.{state_number};
ghost use Rattle.splice.specs.Private.Walks.{is_new_page as is_new_page_of, opens_anew};

use segments::{Segment, State, read_frame, read_segment};
use std::alloc::Global;
use sub_base::NoMemory;

/// The bytes of the first of the segments, and those behind it. None where there is no segment.
pub(crate) fn first_segment(bytes: &[u8]) -> Option<(&[u8], &[u8])>
    ensures none { result ≡ None → (segments : List (List ℕ)) → AreBytes segments bytes.now
        → segments ≡ [] }
    ensures first { IfSome result (λ parts.
        (segments : List (List ℕ)) → AreBytes segments bytes.now
        → (rest : List (List ℕ)) × (segments ≡ parts.0.now ∷ rest) × AreBytes rest parts.1.now) }
    ensures size { IfSome result (λ parts. IsSegmentLength (length parts.0.now)) }
    ensures shorter { IfSome result (λ parts.
        length parts.0.now + length parts.1.now ≡ length bytes.now) }
{
    let Ok(frame) = read_frame(bytes) else {
        return None;
    };
    Some(bytes.split_at(frame.whole))
}

/// Whether one of the segments is a page of the state mode change.
pub(crate) fn is_mode_change(bytes: &[u8]) -> bool
    ensures { (segments : List (List ℕ)) (readings : List Reading)
        → AreBytes segments bytes.now → AreReadings segments readings
        → result ≡ has_state ModeChange (contents_in readings) }
{
    let mut rest = bytes;
    while let Some((segment, behind)) = first_segment(rest) {
        if is_opening(segment) {
            return true;
        }
        rest = behind;
    }
    false
}

/// Whether the segment is a page of the state mode change.
fn is_opening(segment: &[u8]) -> bool
    ensures { (reading : Reading) → IsFramed segment.now → IsReading segment.now reading
        → result ≡ opens_anew reading }
{
    match read_segment(segment) {
        Ok((read, _)) => is_new_page(read),
        Err(_) => false,
    }
}

/// The same of a segment that is read.
fn is_new_page(segment: Segment<'_>) -> bool
    ensures { result ≡ is_new_page_of (page_in (contents segment.entry)) }
{
    match segment {
        Segment::Page(page) => is_new(page.state),
        Segment::Region(_)
        | Segment::Clut(_)
        | Segment::Object(_)
        | Segment::Display(_)
        | Segment::End
        | Segment::Passed => false,
    }
}

fn is_new(state: State) -> bool
    ensures { result ≡ (state_number state == state_number ModeChange) }
{
    match state {
        State::ModeChange => true,
        State::Acquisition => false,
        State::Normal => false,
    }
}

/// The lengths of the segments, in bytes.
pub(crate) fn segment_lengths(alloc: Global, bytes: &[u8]) -> Result<Vec<u32>, NoMemory>
    ensures lengths { IfOk result (λ lengths.
        (segments : List (List ℕ)) → AreBytes segments bytes.now
        → lengths.items ≡ map length segments) }
    ensures each { IfOk result (λ lengths. All IsSegmentLength lengths.items) }
    ensures few { IfOk result (λ lengths. 6 * length lengths.items ≤ length bytes.now) }
{
    let mut lengths = Vec::new(alloc);
    let mut rest = bytes;
    while let Some((segment, behind)) = first_segment(rest) {
        lengths.push(length_of(segment))?;
        rest = behind;
    }
    Ok(lengths)
}

/// The bytes of a segment.
fn length_of(segment: &[u8]) -> u32
    requires { IsSegmentLength (length segment.now) }
    ensures { result ≡ length segment.now }
{
    segment.len() as u32
}
