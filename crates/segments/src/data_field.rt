//! The segments of a data field one after another, by their heads alone.

ghost use Rattle.std.specs.Prelude.{◌≡◌, [], ◌∷◌, false, IfErr, IfOk};
ghost use Rattle.stream_syntax.specs.DataField.{broken, ends_segments as has_ended, frames_of};
ghost use Rattle.segments.specs.Framing.{IsFirstFrame, TellsFirst, frames_left};

use crate::frame::{Frame, read_frame};
use stream_syntax::{END_OF_FIELD, SegmentFault};

/// The frames of the segments of a data field, in order. Behind a faulty head nothing is looked
/// for.
#[derive(Clone, Copy, Debug)]
pub struct FieldFrames<'a> {
    rest: &'a [u8],
}

/// The frames of the segments of a data field (EN 300 743, clause 7.2), up to the end of the field,
/// its end marker FF in a segment's place, or the fault of a head.
///
/// The field is what stands behind its data identifier and subtitle stream id. Bodies are not read.
pub fn frames(field: &[u8]) -> FieldFrames<'_>
    ensures { frames_left result ≡ frames_of field.now }
{
    FieldFrames { rest: field }
}

impl<'a> Iterator for FieldFrames<'a> {
    ghost use Rattle.std.specs.Iterator.{item_count};

    type Item = Result<Frame<'a>, SegmentFault>;

    ghost next_gives = { TellsFirst };

    ghost remaining = { item_count frames_left };

    // A head is read in the loop itself, and not handed over in memory.
    #[inline(always)]
    fn next(&mut self) -> Option<Result<Frame<'a>, SegmentFault>> {
        if ends_segments(self.rest) {
            return None;
        }
        match first_frame(self.rest) {
            Ok((frame, behind)) => {
                self.rest = behind;
                Some(Ok(frame))
            }
            Err(fault) => {
                // Where a head is faulty, nothing says where the next segment begins.
                self.rest = &[];
                Some(Err(fault))
            }
        }
    }
}

/// The frame of the segment at the front of a field that has not ended, and the bytes behind this
/// segment.
#[inline(always)]
fn first_frame(field: &[u8]) -> Result<(Frame<'_>, &[u8]), SegmentFault>
    requires { has_ended field.now ≡ false }
    ensures frame { IfOk result
        (λ found. IsFirstFrame (frames_of field.now) (frames_of found.1.now) found.0) }
    ensures fault { IfErr result (λ fault. frames_of field.now ≡ broken fault ∷ []) }
{
    match read_frame(field) {
        Ok(frame) => Ok((frame, &field[frame.whole..])),
        Err(fault) => Err(fault),
    }
}

/// Whether no segment begins here.
fn ends_segments(bytes: &[u8]) -> bool
    ensures { result ≡ has_ended bytes.now }
{
    match bytes {
        [] => true,
        [first, ..] => *first == END_OF_FIELD,
    }
}
