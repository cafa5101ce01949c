//! The pixel data of an object, painted into a region (EN 300 743, clause 7.2.5).

ghost use Rattle.std.specs.Prelude.{◌≡◌, None, ◌+◌, ◌<◌, ◌≤◌, ◌^◌, length, option_map};
ghost use Rattle.stream_syntax.specs.Segments.{of_object};
ghost use Rattle.segments.specs.Contents.{object_value};
ghost use Rattle.block_painting.specs.Writing.{IsWritten};
ghost use Rattle.decoder_model.specs.Faults.{depth_fault, too_deep_fault};
ghost use Rattle.decoder_model.specs.Readings.{Content, AreObjectFields};
ghost use Rattle.decoder_model.specs.declared.set_fault.SetFault.{SetFault};
ghost use Rattle.pixel_store.specs.Regions.{KeepsOthers};
ghost use Rattle.page_core.specs.Private.Painted.{HasRegion, bottom_bytes, code_by_fields, field_runs};

use crate::node::RegionNode;
use block_painting::{FieldPlace, paint_block};
use pixel_store::Store;
use segments::ObjectSeg;
use stream_syntax::{CodeFault, CodeKind, Listing, SegmentFault, SegmentKind};

/// The place in an object segment of the first byte of its top block.
const TOP_BLOCK: u32 = 13;

/// Paints both fields of an object from the corner of a listing on, as far as the region has the
/// pixels. An empty bottom block stands for the top block. Answers the fault of the first string
/// that is deeper than the region, in the top block or else in the bottom one: nothing is painted
/// from there on.
pub(crate) fn paint_object(
    store: &mut Store,
    region: &RegionNode,
    object: &ObjectSeg<'_>,
    listing: Listing,
    see_through: bool,
) -> Option<SegmentFault>
    requires region { HasRegion region.now.head region.now.slot store.old }
    requires top { length object.now.top.now ≤ 65535 }
    requires bottom { length object.now.bottom.now ≤ 65535 }
    ensures others { KeepsOthers region.now.slot store.old store.new }
    ensures fault { (content : Content)
        → AreObjectFields (of_object (object_value object.now)) content.top content.bottom
        → option_map SetFault.Segment result
        ≡ depth_fault region.now.head.depth content (object_value object.now) }
    ensures written { (content : Content)
        → AreObjectFields (of_object (object_value object.now)) content.top content.bottom
        → depth_fault region.now.head.depth content (object_value object.now) ≡ None
        → IsWritten region.now.slot
        (λ x y. code_by_fields see_through
        (field_runs region.now.head.depth content.top content.bottom) x y listing)
        store.old store.new }
{
    let depth = region.head.depth;
    let top = FieldPlace {
        listing,
        first_row: 0,
        see_through,
    };
    if let Some(place) = paint_block(store, region.slot, top, object.top, depth) {
        return Some(too_deep(TOP_BLOCK, place));
    }
    let bottom = FieldPlace {
        listing,
        first_row: 1,
        see_through,
    };
    let block = bottom_block(object);
    match paint_block(store, region.slot, bottom, block, depth) {
        None => None,
        Some(place) => Some(too_deep(TOP_BLOCK + object.top.len() as u32, place)),
    }
}

/// The block of the bottom field: where its own is empty, that of the top field.
fn bottom_block<'a>(object: &ObjectSeg<'a>) -> &'a [u8]
    ensures { result.now ≡ bottom_bytes (object_value object.now) }
{
    if object.bottom.is_empty() {
        object.top
    } else {
        object.bottom
    }
}

/// The fault of a string that is too deep, at a place of a block that begins at a place of the
/// segment.
fn too_deep(block: u32, place: u32) -> SegmentFault
    requires { block + place < 2 ^ 32 }
    ensures { SetFault.Segment result ≡ too_deep_fault block place }
{
    SegmentFault {
        place: block + place,
        kind: SegmentKind::Code(CodeFault {
            place,
            kind: CodeKind::TooDeep,
        }),
    }
}
