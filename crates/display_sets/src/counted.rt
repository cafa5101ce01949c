//! What counts for the sets of a service's pages in a data field, one after another.

ghost use Rattle.std.specs.Prelude.{◌≡◌, ◌==◌};
ghost use Rattle.std.specs.List.{list_any};
ghost use Rattle.stream_syntax.specs.Segments.{set_kinds};
ghost use Rattle.sub_base.specs.Lists.{has_some};
ghost use Rattle.decoder_model.specs.Frames.{shared_kinds};
ghost use Rattle.display_sets.specs.Counted.{IsNextCounted, counted_in, is_counted as counts_with};

use decoder_model::Pages;
use segments::frames;
use stream_syntax::{
    CLUT_DEFINITION, DISPLAY_DEFINITION, END_OF_DISPLAY_SET, OBJECT_DATA, PAGE_COMPOSITION,
    REGION_COMPOSITION, SegmentFault,
};

/// A segment that counts, and the bytes of the field behind it.
#[derive(Clone, Copy, Debug)]
pub(crate) struct Front<'a> {
    pub segment: &'a [u8],
    pub rest: &'a [u8],
}

/// The first segment of these pages in a data field, or the fault at which the field breaks off
/// before one.
pub(crate) fn next_counted(pages: Pages, field: &[u8]) -> Option<Result<Front<'_>, SegmentFault>>
    ensures { IsNextCounted pages field.now result }
{
    let mut rest = field;
    for head in frames(field) {
        let frame = match head {
            Ok(frame) => frame,
            Err(fault) => return Some(Err(fault)),
        };
        let (segment, behind) = rest.split_at(frame.whole);
        if is_counted(pages, frame.page, frame.kind) {
            return Some(Ok(Front {
                segment,
                rest: behind,
            }));
        }
        rest = behind;
    }
    None
}

/// Whether something in a data field counts for the sets of these pages.
pub(crate) fn counts(pages: Pages, field: &[u8]) -> bool
    ensures { result ≡ has_some (counted_in pages field.now) }
{
    next_counted(pages, field).is_some()
}

/// Whether a segment with this page id and of this type counts for the display sets of the pages.
/// Where both pages are the same, those of the composition page are all.
fn is_counted(pages: Pages, id: u16, kind: u8) -> bool
    ensures { result ≡ counts_with pages id kind }
{
    (id == pages.composition && is_set_kind(kind))
        || (id == pages.ancillary && is_shared_kind(kind))
}

/// Whether a segment of this type belongs to a display set.
fn is_set_kind(kind: u8) -> bool
    ensures { result ≡ list_any (λ other. kind == other) set_kinds }
{
    matches!(
        kind,
        PAGE_COMPOSITION
            | REGION_COMPOSITION
            | CLUT_DEFINITION
            | OBJECT_DATA
            | DISPLAY_DEFINITION
            | END_OF_DISPLAY_SET
    )
}

/// Whether a segment of this type may stand on an ancillary page.
fn is_shared_kind(kind: u8) -> bool
    ensures { result ≡ list_any (λ other. kind == other) shared_kinds }
{
    matches!(kind, CLUT_DEFINITION | OBJECT_DATA)
}
