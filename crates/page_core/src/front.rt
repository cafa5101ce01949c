//! The segments of a set one after another, as they are handed over.

ghost use Rattle.std.specs.Prelude.{◌<◌, IfOk, IfSome, IsSomeAnd, List, ℕ, length};
ghost use Rattle.decoder_model.specs.Readings.{Reading, IsReading};
ghost use Rattle.decoder_model.specs.Received.{BeginsWith};
ghost use Rattle.segments.specs.Contents.{contents};
ghost use Rattle.segments.specs.Framing.{IsFrame, IsFrameOf};
ghost use Rattle.page_core.specs.Handed.{IsFrameCutOff, Matches};
ghost use Rattle.page_core.specs.Private.RegionSteps.{IsValidValue};

use segments::{Frame, Segment, SegmentFault, read_frame};

/// The segment at the front of some bytes as its head frames it, and the bytes behind it.
#[derive(Clone, Copy, Debug)]
pub(crate) struct Front<'a> {
    pub frame: Frame<'a>,
    pub rest: &'a [u8],
}

/// Cuts off the segment at the front of whole segments by its head alone; none where no whole
/// segment is there.
pub(crate) fn cut_front(bytes: &[u8]) -> Option<Front<'_>>
    ensures cut { (reading : Reading) (rest : List ℕ) → BeginsWith bytes.now reading rest
        → IsSomeAnd result (IsFrameCutOff reading rest) }
    ensures framed { IfSome result (λ front. IsFrame front.frame) }
    ensures shorter { IfSome result (λ front. length front.rest.now < length bytes.now) }
{
    let Ok(frame) = read_frame(bytes) else {
        return None;
    };
    let (_, rest) = bytes.split_at(frame.whole);
    Some(Front { frame, rest })
}

/// Reads the segment of a frame.
pub(crate) fn read_one<'a>(frame: &Frame<'a>) -> Result<Segment<'a>, SegmentFault>
    requires { IsFrame frame.now }
    ensures matches { (segment : List ℕ) (reading : Reading) → IsFrameOf segment frame.now
        → IsReading segment reading → Matches result reading }
    ensures valid { IfOk result (λ segment. IsValidValue (contents segment)) }
{
    frame.segment()
}
