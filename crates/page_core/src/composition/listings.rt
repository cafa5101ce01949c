//! The listings of a region that an object paints (EN 300 743, clause 7.2.5).

ghost use Rattle.std.specs.Prelude.{◌≡◌, ◌<◌, ◌≤◌, None, length, option_map};
ghost use Rattle.std.specs.Option.{option_or};
ghost use Rattle.sub_base.specs.Lists.{last_given};
ghost use Rattle.comp_pool.specs.Pool.{list_of};
ghost use Rattle.decoder_model.specs.Readings.{Content, AreObjectFields};
ghost use Rattle.decoder_model.specs.declared.set_fault.SetFault.{SetFault};
ghost use Rattle.pixel_store.specs.Regions.{KeepsOthers};
ghost use Rattle.segments.specs.Contents.{object_value};
ghost use Rattle.stream_syntax.specs.Segments.{of_object};
ghost use Rattle.page_core.specs.Private.Listings.{code_by_node, code_by_pair, due_node, painted_node as painted_node_of};
ghost use Rattle.page_core.specs.Private.Lists.{IsRewritten};
ghost use Rattle.page_core.specs.Private.Nodes.{list_count, listing_in, listings_list};
ghost use Rattle.block_painting.specs.Writing.{IsWritten};
ghost use Rattle.page_core.specs.Private.ObjectFaults.{fault_by_node, fault_through};
ghost use Rattle.page_core.specs.Private.Painted.{HasRegion, field_runs};

use crate::composition::FIRST_LISTINGS;
use crate::node::{ListingNode, Node, RegionNode};
use crate::painting_objects::paint_object;
use comp_pool::Pool;
use pixel_store::Store;
use segments::ObjectSeg;
use stream_syntax::SegmentFault;

/// What an object is painted by: its id, its version, and whether pixels of code 1 leave the region
/// as it is.
#[derive(Clone, Copy)]
pub(crate) struct Painter {
    pub(crate) object: u16,
    pub(crate) version: u8,
    pub(crate) see_through: bool,
}

/// The list of the listings of a region.
pub(crate) fn listings_of(id: u8) -> u32
    ensures list { result ≡ listings_list id }
    ensures within { result < list_count }
{
    FIRST_LISTINGS + u32::from(id)
}

/// Paints the object through the items of a list, in order, and keeps its version for the listings
/// that it paints. Answers its fault in the region, where it paints any.
#[tactic(auto, using(comp_pool::proofs::NodeLaws::in_some_list))]
pub(crate) fn paint_list(
    pool: &mut Pool<Node>,
    list: u32,
    painter: Painter,
    object: &ObjectSeg<'_>,
    region: &RegionNode,
    store: &mut Store,
) -> Option<SegmentFault>
    requires list { list < length pool.old.lists }
    requires region { HasRegion region.now.head region.now.slot store.old }
    requires top { length object.now.top.now ≤ 65535 }
    requires bottom { length object.now.bottom.now ≤ 65535 }
    ensures nodes { IsRewritten list (painted_node_of painter) pool.old pool.new }
    ensures others { KeepsOthers region.now.slot store.old store.new }
    ensures fault { (content : Content)
        → AreObjectFields (of_object (object_value object.now)) content.top content.bottom
        → option_map SetFault.Segment result
        ≡ fault_through painter region.now.head.depth content (object_value object.now)
        (list_of pool.old list) }
    ensures written { (content : Content)
        → AreObjectFields (of_object (object_value object.now)) content.top content.bottom
        → fault_through painter region.now.head.depth content (object_value object.now)
        (list_of pool.old list) ≡ None
        → IsWritten region.now.slot
        (λ x y. last_given (code_by_pair painter
        (field_runs region.now.head.depth content.top content.bottom) x y)
        (list_of pool.old list)) store.old store.new }
{
    let mut fault = None;
    let mut place = pool.first(list);
    while let Some(node) = place {
        place = pool.next(node);
        let found = paint_through(pool.item(node), painter, object, region, store);
        fault = first_fault(fault, found);
        let item = painted_node(pool.item(node), painter);
        pool.set_item(node, item);
    }
    fault
}

/// Paints the object through what a node has, where that is a listing that it paints, and answers
/// its fault there.
fn paint_through(
    node: Node,
    painter: Painter,
    object: &ObjectSeg<'_>,
    region: &RegionNode,
    store: &mut Store,
) -> Option<SegmentFault>
    requires region { HasRegion region.now.head region.now.slot store.old }
    requires top { length object.now.top.now ≤ 65535 }
    requires bottom { length object.now.bottom.now ≤ 65535 }
    ensures others { KeepsOthers region.now.slot store.old store.new }
    ensures fault { (content : Content)
        → AreObjectFields (of_object (object_value object.now)) content.top content.bottom
        → option_map SetFault.Segment result
        ≡ fault_by_node painter region.now.head.depth content (object_value object.now) node }
    ensures written { (content : Content)
        → AreObjectFields (of_object (object_value object.now)) content.top content.bottom
        → fault_by_node painter region.now.head.depth content (object_value object.now) node
        ≡ None
        → IsWritten region.now.slot
        (λ x y. code_by_node painter
        (field_runs region.now.head.depth content.top content.bottom) x y (listing_in node))
        store.old store.new }
{
    match node {
        Node::Listing(kept) if is_due(kept, painter) => paint_object(
            store,
            region,
            object,
            kept.listing,
            painter.see_through,
        ),
        _ => None,
    }
}

/// What a node has behind the object: a listing that it paints has its version.
fn painted_node(node: Node, painter: Painter) -> Node
    ensures { result ≡ painted_node_of painter node }
{
    match node {
        Node::Listing(kept) if is_due(kept, painter) => Node::Listing(ListingNode {
            listing: kept.listing,
            painted: Some(painter.version),
        }),
        other => other,
    }
}

/// The first of two faults.
fn first_fault(one: Option<SegmentFault>, other: Option<SegmentFault>) -> Option<SegmentFault>
    ensures { result ≡ option_or one other }
{
    match one {
        Some(fault) => Some(fault),
        None => other,
    }
}

/// Whether the object paints a listing: it names the object, and is unpainted or was painted with
/// another version.
pub(crate) fn is_due(kept: ListingNode, object: Painter) -> bool
    ensures { result ≡ due_node object kept }
{
    kept.listing.object == object.object && kept.painted != Some(object.version)
}
