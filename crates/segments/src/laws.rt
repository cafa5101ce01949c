//! Laws of the layout of segments, over all bytes.

ghost use Rattle.std.specs.Prelude.{◌≡◌, ◌++◌, List, ℕ, length, take};
ghost use Rattle.segments.specs.Sizes.{size_of};
ghost use Rattle.stream_syntax.specs.Segments.{IsKindOf, IsSegment, IsWritable, SegmentValue, spelled};
ghost use Rattle.stream_syntax.specs.Tests.{byte_at};

/// No segment begins another one, and bytes are a segment with one value at most.
pub fn one_reading()
    ensures { (a b x y : List ℕ) (one other : SegmentValue) → IsSegment a one
        → IsSegment b other
        → a ++ x ≡ b ++ y → (a ≡ b) × (one ≡ other) }
{}

/// The second byte of a segment is its segment type, so a walk by types reads no bodies.
pub fn kind_of_segment()
    ensures { (bytes : List ℕ) (value : SegmentValue) → IsSegment bytes value
        → IsKindOf value (byte_at 1 bytes) }
{}

/// What was written is read again, whatever follows it.
pub fn read_again()
    ensures { (page : ℕ) (value : SegmentValue) (rest : List ℕ) → IsWritable page value
        → IsSegment (take (length (spelled page value)) (spelled page value ++ rest)) value }
{}

/// A segment that is written has as many bytes as are counted for its kind.
pub fn written_sizes()
    ensures { (page : ℕ) (value : SegmentValue) → IsWritable page value
        → length (spelled page value) ≡ size_of value }
{}
