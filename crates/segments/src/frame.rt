ghost use Rattle.std.specs.Prelude.{◌≡◌, ◌+◌, ◌≤◌, length, take, drop, IfOk};
ghost use Rattle.std.specs.Result.{result_err};
ghost use Rattle.stream_syntax.specs.Fields.{HasFields};
ghost use Rattle.stream_syntax.specs.PixelCodes.{bits_of};
ghost use Rattle.stream_syntax.specs.SegmentTests.{frame_tests};
ghost use Rattle.stream_syntax.specs.Segments.{head_fields};
ghost use Rattle.stream_syntax.specs.Tests.{byte_at, word_at, first_fault};

use crate::fault::cut;
use crate::word::read_word;
use stream_syntax::{SEGMENT_SYNC, SegmentFault, SegmentKind};

/// The bytes of a segment's head.
pub(crate) const HEAD: usize = 6;

/// A segment as its head frames it (EN 300 743, clause 7.2).
#[derive(Clone, Copy, Debug, PartialEq, Eq)]
pub struct Frame<'a> {
    /// The segment type (segment_type).
    pub kind: u8,
    /// The page id (page_id).
    pub page: u16,
    /// The bytes after the head, as many as segment_length says.
    pub body: &'a [u8],
    /// The bytes of the whole segment, its head included.
    pub whole: usize,
}

/// Reads the head of the segment that begins the bytes; other bytes may follow it.
///
/// The fault is `NoSync` or `Cut`.
#[inline(always)]
pub fn read_frame(bytes: &[u8]) -> Result<Frame<'_>, SegmentFault>
    ensures fault { result_err result ≡ first_fault (frame_tests bytes.now) }
    ensures kind { IfOk result (λ frame. frame.kind ≡ byte_at 1 bytes.now) }
    ensures page { IfOk result (λ frame. frame.page ≡ word_at 2 bytes.now) }
    ensures whole { IfOk result (λ frame. frame.whole ≡ 6 + word_at 4 bytes.now) }
    ensures within { IfOk result (λ frame. frame.whole ≤ length bytes.now) }
    ensures head { IfOk result
        (λ frame. HasFields (head_fields frame.kind frame.page (length frame.body.now))
        (bits_of (take 6 bytes.now))) }
    ensures body { IfOk result
        (λ frame. frame.body.now ≡ take (word_at 4 bytes.now) (drop 6 bytes.now)) }
{
    if bytes.is_empty() || bytes[0] != SEGMENT_SYNC {
        return Err(SegmentFault {
            place: 0,
            kind: SegmentKind::NoSync,
        });
    }
    if bytes.len() < HEAD {
        return Err(cut(bytes));
    }
    let whole = HEAD + read_word(bytes, 4) as usize;
    if bytes.len() < whole {
        return Err(cut(bytes));
    }
    Ok(Frame {
        kind: bytes[1],
        page: read_word(bytes, 2),
        body: &bytes[HEAD..whole],
        whole,
    })
}
