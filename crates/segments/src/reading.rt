ghost use Rattle.std.specs.Prelude.{◌≡◌, ◌<◌, ◌≤◌, ◌+◌, ℕ, List, None, Ok, IfErr, IfOk, IfSome, IsOkAnd, IsSomeAnd, OnOk, length, take};
ghost use Rattle.segments.specs.Contents.{contents, object_value};
ghost use Rattle.segments.specs.Framing.{IsFrameOf};
ghost use Rattle.segments.specs.Reading.{object_at, object_in, value_in};
ghost use Rattle.stream_syntax.specs.SegmentTests.{
  AreBlocks,
  IsBodyFault,
  IsSegmentFault,
  body_tests,
  object_tests,
  bottom_in,
  top_in,
};
ghost use Rattle.stream_syntax.specs.Segments.{IsKindOf, IsSegment, SegmentValue};
ghost use Rattle.stream_syntax.specs.Tests.{byte_at, first_fault, word_at};

use crate::clut::{ClutSeg, clut_of};
use crate::display::{DisplaySeg, display_of};
use crate::frame::{Frame, read_frame};
use crate::object::{ObjectSeg, check_blocks, object_of};
use crate::page::{PageSeg, page_of};
use crate::region::{RegionSeg, region_of};
use stream_syntax::{
    CLUT_DEFINITION, DISPLAY_DEFINITION, END_OF_DISPLAY_SET, OBJECT_DATA, PAGE_COMPOSITION,
    REGION_COMPOSITION, SegmentFault,
};

/// A segment (EN 300 743, clause 7.2), borrowed from the bytes that it was read from.
#[derive(Clone, Copy, Debug, PartialEq, Eq)]
pub enum Segment<'a> {
    /// A page composition.
    Page(PageSeg<'a>),
    /// A region composition.
    Region(RegionSeg<'a>),
    /// A CLUT definition.
    Clut(ClutSeg<'a>),
    /// Object data.
    Object(ObjectSeg<'a>),
    /// A display definition.
    Display(DisplaySeg),
    /// The end of a display set.
    End,
    /// A segment of another type, which is passed over.
    Passed,
}

/// Reads the segment that begins the bytes, and tells its whole length; other bytes may follow it.
/// Nothing is copied.
///
/// The fault is that of the first test that fails: its place counts from the segment's first byte.
pub fn read_segment(bytes: &[u8]) -> Result<(Segment<'_>, usize), SegmentFault>
    // The bytes so far are a segment with that value.
    ensures segment { IfOk result
        (λ found. IsSegment (take found.1 bytes.now) (contents found.0)) }
    ensures kind { IfOk result (λ found. IsKindOf (contents found.0) (byte_at 1 bytes.now)) }
    ensures size { IfOk result (λ found. found.1 ≡ 6 + word_at 4 bytes.now) }
    ensures within { IfOk result (λ found. found.1 ≤ length bytes.now) }
    // No other prefix of the bytes is a segment, and none with another value.
    ensures every_segment { (value : SegmentValue) (size : ℕ) → size ≤ length bytes.now
        → IsSegment (take size bytes.now) value
        → IsOkAnd result (λ found. (contents found.0 ≡ value) × (found.1 ≡ size)) }
    ensures fault { IfErr result (IsSegmentFault bytes.now) }
    ensures every_fault { (fault : SegmentFault) → IsSegmentFault bytes.now fault
        → result ≡ Err fault }
{
    let frame = read_frame(bytes)?;
    let segment = frame.segment()?;
    Ok((segment, frame.whole))
}

impl<'a> Frame<'a> {
    /// Reads the segment that this is the frame of. Nothing is copied, and the head is not read
    /// again.
    ///
    /// The fault is that of the first test of the body that fails: its place counts from the
    /// segment's first byte.
    // A caller that knows the type, or asks only whether there is a fault, does without the rest.
    #[inline(always)]
    pub fn segment(&self) -> Result<Segment<'a>, SegmentFault>
        // No head frames more.
        requires { length self.now.body.now < 65536 }
        // Of whatever bytes this is the frame: those of the segment have that value.
        ensures segment { (bytes : List ℕ) → IsFrameOf bytes self.now
            → IfOk result (λ segment. IsSegment (take self.now.whole bytes) (contents segment)) }
        ensures kind { (bytes : List ℕ) → IsFrameOf bytes self.now
            → IfOk result (λ segment. IsKindOf (contents segment) (byte_at 1 bytes)) }
        // No other prefix of them is a segment, and none with another value.
        ensures every_segment { (bytes : List ℕ) → IsFrameOf bytes self.now
            → (value : SegmentValue) (size : ℕ) → size ≤ length bytes
            → IsSegment (take size bytes) value
            → IsOkAnd result
            (λ segment. (contents segment ≡ value) × (self.now.whole ≡ size)) }
        ensures fault { (bytes : List ℕ) → IsFrameOf bytes self.now
            → IfErr result (IsSegmentFault bytes) }
        ensures every_fault { (bytes : List ℕ) → IsFrameOf bytes self.now
            → (fault : SegmentFault) → IsSegmentFault bytes fault → result ≡ Err fault }
    {
        by_kind(self.kind, self.body)
    }

    /// The object of a body of object data whose blocks were tested before: they are not walked
    /// again. None where what stands before the blocks is faulty.
    #[inline]
    pub fn tested_object(&self) -> Option<ObjectSeg<'a>>
        ensures value { IfSome result
            (λ object. object_at self.now.body.now ≡ Ok (object_value object)) }
        ensures valid { first_fault (object_tests self.now.body.now) ≡ None
            → IsSomeAnd result (λ object. object_value object ≡ object_in self.now.body.now) }
        ensures fields { IfSome result
            (λ object. (length object.top.now ≤ 65535) × (length object.bottom.now ≤ 65535)) }
    {
        match object_of(self.body) {
            Ok(object) => Some(object),
            Err(_) => None,
        }
    }
}

/// Reads a body by its segment type.
#[inline(always)]
fn by_kind(kind: u8, body: &[u8]) -> Result<Segment<'_>, SegmentFault>
    requires { length body.now < 65536 }
    ensures value { IfOk result (λ segment. contents segment ≡ value_in kind body.now) }
    ensures passes { OnOk result (first_fault (body_tests kind body.now) ≡ None) }
    ensures blocks { OnOk result
        (kind ≡ OBJECT_DATA → AreBlocks (top_in body.now) (bottom_in body.now)) }
    ensures fault { IfErr result (IsBodyFault kind body.now) }
{
    match kind {
        PAGE_COMPOSITION => Ok(Segment::Page(page_of(body)?)),
        REGION_COMPOSITION => Ok(Segment::Region(region_of(body)?)),
        CLUT_DEFINITION => Ok(Segment::Clut(clut_of(body)?)),
        OBJECT_DATA => {
            let object = object_of(body)?;
            check_blocks(object.top, object.bottom)?;
            Ok(Segment::Object(object))
        }
        DISPLAY_DEFINITION => Ok(Segment::Display(display_of(body)?)),
        END_OF_DISPLAY_SET => Ok(Segment::End),
        _ => Ok(Segment::Passed),
    }
}
