//! The segments of a type in a set of which no segment is refused, one after another. The others
//! are passed over by their heads.

ghost use Rattle.std.specs.Prelude.{◌≡◌, ◌<◌, [], List, IfSome, MatchOption, filter, length};
ghost use Rattle.stream_syntax.specs.Segments.{IsPassedOver, of_clut, of_object, of_region};
ghost use Rattle.decoder_model.specs.Readings.{Content};
ghost use Rattle.segments.specs.Contents.{clut_value, contents, object_value, region_value};
ghost use Rattle.segments.specs.Framing.{IsFrame};
ghost use Rattle.page_core.specs.Handed.{AreContents, HasFieldSizes};
ghost use Rattle.page_core.specs.Private.RegionSteps.{IsValidHead, IsValidValue};
ghost use Rattle.page_core.specs.Private.Walks.{IsNextFront, IsNextOf, is_clut, is_content_of, is_object, is_region};

use crate::front::{Front, cut_front, read_one};
use segments::{ClutSeg, ObjectSeg, RegionSeg, Segment};
use stream_syntax::{CLUT_DEFINITION, OBJECT_DATA, REGION_COMPOSITION};

/// A segment, and the bytes behind it.
#[derive(Clone, Copy)]
pub(crate) struct Next<'a, S> {
    pub segment: S,
    pub rest: &'a [u8],
}

/// The bytes from the first segment of a type on; none where there is none.
fn next_front(bytes: &[u8], kind: u8) -> Option<Front<'_>>
    requires { IsPassedOver kind → ⊥ }
    ensures next { (set : List Content) → AreContents set bytes.now
        → MatchOption result (filter (is_content_of kind) set ≡ []) (IsNextFront kind set) }
    ensures framed { IfSome result (λ front. IsFrame front.frame) }
    ensures shorter { IfSome result (λ front. length front.rest.now < length bytes.now) }
{
    let mut rest = bytes;
    while let Some(front) = cut_front(rest) {
        if front.frame.kind == kind {
            return Some(front);
        }
        rest = front.rest;
    }
    None
}

/// The first segment of a type in the bytes; none where there is none.
fn next_of(bytes: &[u8], kind: u8) -> Option<Next<'_, Segment<'_>>>
    requires { IsPassedOver kind → ⊥ }
    ensures next { (set : List Content) → AreContents set bytes.now
        → MatchOption result (filter (is_content_of kind) set ≡ [])
        (λ next. IsNextOf (is_content_of kind) set (contents next.segment) next.rest.now) }
    ensures shorter { IfSome result (λ next. length next.rest.now < length bytes.now) }
    ensures valid { IfSome result (λ next. IsValidValue (contents next.segment)) }
{
    let front = next_front(bytes, kind)?;
    match read_one(&front.frame) {
        Ok(segment) => Some(Next {
            segment,
            rest: front.rest,
        }),
        Err(_) => None,
    }
}

/// The first region segment in the bytes; none where there is none.
pub(crate) fn next_region(bytes: &[u8]) -> Option<Next<'_, RegionSeg<'_>>>
    ensures next { (set : List Content) → AreContents set bytes.now
        → MatchOption result (filter is_region set ≡ [])
        (λ next. IsNextOf is_region set (of_region (region_value next.segment)) next.rest.now) }
    ensures shorter { IfSome result (λ next. length next.rest.now < length bytes.now) }
    ensures valid { IfSome result (λ next. IsValidHead (region_value next.segment).head) }
{
    let next = next_of(bytes, REGION_COMPOSITION)?;
    match next.segment {
        Segment::Region(segment) => Some(Next {
            segment,
            rest: next.rest,
        }),
        _ => None,
    }
}

/// The first CLUT segment in the bytes; none where there is none.
pub(crate) fn next_clut(bytes: &[u8]) -> Option<Next<'_, ClutSeg<'_>>>
    ensures next { (set : List Content) → AreContents set bytes.now
        → MatchOption result (filter is_clut set ≡ [])
        (λ next. IsNextOf is_clut set (of_clut (clut_value next.segment)) next.rest.now) }
    ensures shorter { IfSome result (λ next. length next.rest.now < length bytes.now) }
{
    let next = next_of(bytes, CLUT_DEFINITION)?;
    match next.segment {
        Segment::Clut(segment) => Some(Next {
            segment,
            rest: next.rest,
        }),
        _ => None,
    }
}

/// The first object segment in the bytes, whose blocks are not walked again; none where there is
/// none.
pub(crate) fn next_object(bytes: &[u8]) -> Option<Next<'_, ObjectSeg<'_>>>
    ensures next { (set : List Content) → AreContents set bytes.now
        → MatchOption result (filter is_object set ≡ [])
        (λ next. IsNextOf is_object set (of_object (object_value next.segment)) next.rest.now) }
    ensures shorter { IfSome result (λ next. length next.rest.now < length bytes.now) }
    ensures fields { IfSome result
        (λ next. HasFieldSizes (of_object (object_value next.segment))) }
{
    let front = next_front(bytes, OBJECT_DATA)?;
    match front.frame.tested_object() {
        Some(segment) => Some(Next {
            segment,
            rest: front.rest,
        }),
        None => None,
    }
}
