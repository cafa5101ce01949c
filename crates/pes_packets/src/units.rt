ghost use Rattle.std.specs.Prelude.{◌≡◌, ℕ, ◌+◌, ◌^◌, ◌<◌, ◌≤◌, ◌↔◌, IsTrue, List, [], ◌∷◌, ◌++◌, map, length, All, OnOk, OnErr, IfSome, option_to_list, vec_capacity};
ghost use Rattle.pes_packets.specs.Units.{IsSharedOut, IsSegmentLength, IsOpenAfter, AreUnitLengths, unit_length};

use sub_base::{NoMemory, UNIT_ROOM};

/// The bytes of a PES packet that are no segments: its header, data identifier, subtitle stream id
/// and end marker.
pub const OTHER_BYTES: u64 = 17;

/// The unit, the PES packet, that takes the next one of segments that are shared out by their
/// lengths. A unit takes the segments in their order while it has room for them, and a segment that
/// no unit has room for stands alone in its own.
#[derive(Clone, Copy, Debug, PartialEq, Eq)]
pub struct OpenUnit {
    /// The bytes of its segments, 0 where there was no segment so far.
    pub(crate) bytes: u64,
}

impl OpenUnit {
    /// The unit that takes the first segment.
    pub fn new() -> OpenUnit
        ensures taken { IsOpenAfter [] [] result.bytes }
        ensures short { result.bytes ≤ 2 ^ 31 }
    {
        OpenUnit { bytes: 0 }
    }

    /// Takes the next segment, of so many bytes. Where the unit has no room for it, the unit is
    /// closed before it and its length is the answer, and the segment is the first of the next
    /// unit.
    pub fn take(&mut self, segment: u32) -> Option<u32>
        requires segment { IsSegmentLength segment }
        requires short { self.old.bytes ≤ 2 ^ 31 }
        ensures taken { (segments lengths : List ℕ)
            → IsOpenAfter segments lengths self.old.bytes
            → IsOpenAfter (segments ++ segment ∷ []) (lengths ++ option_to_list result)
            self.new.bytes }
        ensures short { self.new.bytes ≤ 2 ^ 31 }

        // A unit that is closed has segments, and bytes besides.
        ensures begun { IfSome result (λ unit. 0 < self.old.bytes) }
        ensures some { IfSome result (λ unit. OTHER_BYTES ≤ unit) }
    {
        let bytes = u64::from(segment);
        if has_room(self.bytes, bytes) {
            self.bytes += bytes;
            return None;
        }
        let length = length_with(self.bytes);
        self.bytes = bytes;
        Some(length)
    }

    /// The length of the unit; none where there was no segment.
    pub fn length(&self) -> Option<u32>
        requires short { self.now.bytes ≤ 2 ^ 31 }
        ensures lengths { (segments lengths : List ℕ)
            → IsOpenAfter segments lengths self.now.bytes
            → AreUnitLengths segments (lengths ++ option_to_list result) }
        ensures begun { IfSome result (λ unit. 0 < self.now.bytes) }
        ensures some { IfSome result (λ unit. OTHER_BYTES ≤ unit) }
    {
        if self.bytes == 0 {
            return None;
        }
        Some(length_with(self.bytes))
    }
}

/// Whether a unit with so many bytes of segments takes one of that many more. The first one is
/// always taken.
fn has_room(taken: u64, bytes: u64) -> bool
    requires { taken + bytes < 2 ^ 64 }
    ensures { IsTrue result ↔ (0 < taken → taken + bytes ≤ UNIT_ROOM) }
{
    // A segment that no unit has room for stands in one by itself, so that every set has a size.
    // Such a set is refused by its longest segment later.
    taken == 0 || taken + bytes <= UNIT_ROOM
}

/// The length of a unit with so many bytes of segments.
fn length_with(bytes: u64) -> u32
    requires { bytes ≤ 2 ^ 31 }
    ensures { result ≡ OTHER_BYTES + bytes }
{
    (OTHER_BYTES + bytes) as u32
}

/// Appends the lengths of the units in which segments of these lengths are sent, all in bytes.
/// After want of memory
/// `out` is as before.
pub fn unit_lengths(segments: &[u32], out: &mut Vec<u32>) -> Result<(), NoMemory>
    requires { All IsSegmentLength segments.now }
    ensures units { OnOk result
        ((units : List (List ℕ)) × (IsSharedOut (λ bytes. bytes) segments.now units)
        × (out.new.items ≡ out.old.items ++ map (unit_length (λ bytes. bytes)) units)) }
    ensures only { (units : List (List ℕ)) → IsSharedOut (λ bytes. bytes) segments.now units
        → OnOk result
        (out.new.items ≡ out.old.items ++ map (unit_length (λ bytes. bytes)) units) }
    ensures kept { OnErr result (out.new.items ≡ out.old.items) }
{
    out.reserve(segments.len())?;
    append_lengths(segments, out);
    Ok(())
}

/// Appends the lengths of the units where there is room for as many as there are segments.
fn append_lengths(segments: &[u32], out: &mut Vec<u32>)
    requires segments { All IsSegmentLength segments.now }
    requires room { length out.old.items + length segments.now ≤ vec_capacity out.old }
    ensures { (lengths : List ℕ) × (AreUnitLengths segments.now lengths)
        × (out.new.items ≡ out.old.items ++ lengths) }
{
    let mut unit = OpenUnit::new();
    for segment in segments {
        push_given(unit.take(*segment), out);
    }
    push_given(unit.length(), out);
}

/// Puts a length last, where there is one and room for it.
fn push_given(given: Option<u32>, out: &mut Vec<u32>)
    requires { IfSome given (λ unit. length out.old.items < vec_capacity out.old) }
    ensures items { out.new.items ≡ out.old.items ++ option_to_list given }
    ensures capacity { vec_capacity out.new ≡ vec_capacity out.old }
{
    if let Some(length) = given {
        out.push_reserved(length);
    }
}
