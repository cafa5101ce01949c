//! An object painted in all regions (EN 300 743, clause 7.2.5).

ghost use Rattle.std.specs.Prelude.{◌≡◌, ◌≤◌, All, None, length, option_map};
ghost use Rattle.comp_pool.specs.Pool.{list_of};
ghost use Rattle.decoder_model.specs.Readings.{Content, AreObjectFields};
ghost use Rattle.decoder_model.specs.declared.set_fault.SetFault.{SetFault};
ghost use Rattle.pixel_store.specs.Regions.{KeepsOthers};
ghost use Rattle.segments.specs.Contents.{object_value};
ghost use Rattle.stream_syntax.specs.Segments.{of_object};
ghost use Rattle.page_core.specs.Composition.{KeptRegion};
ghost use Rattle.page_core.specs.Private.Everywhere.{AreApart, AreIdsApart, AreKeptWritten, AreWritten, HasNoFault, HasNoFaults, HasRegionAt, HaveRegions, IsEverywhere, IsPaintedAt, KeepsAt, KeepsRoom, IsWrittenAt, IsWrittenIn, with_all_painted};
ghost use Rattle.page_core.specs.Private.Listings.{painted_node, painter_of};
ghost use Rattle.page_core.specs.Private.Lists.{IsRewritten};
ghost use Rattle.page_core.specs.Private.Nodes.{kept_in, list_count, listings_list, region_node};
ghost use Rattle.page_core.specs.Private.ObjectFaults.{fault_in_kept, fault_in_node, fault_in_pair, fault_in_region_node, least_of, told};
ghost use Rattle.page_core.specs.Private.Painted.{HasRegion};

use crate::composition::listings::{Painter, listings_of, paint_list};
use crate::composition::objects::{RegionFault, fault_of, lesser, painter};
use crate::composition::{CompositionMemory, REGIONS};
use crate::node::{Node, RegionNode};
use comp_pool::Pool;
use pixel_store::Store;
use segments::ObjectSeg;
use stream_syntax::SegmentFault;

impl CompositionMemory {
    /// Paints the object through all listings that it paints, region by region, and keeps its
    /// version for them. Answers its fault in the region of the least id in which it has one.
    pub(crate) fn paint_everywhere(
        &mut self,
        object: &ObjectSeg<'_>,
        store: &mut Store,
    ) -> Option<SegmentFault>
        requires regions { All (λ (kept : KeptRegion). HasRegion kept.head kept.slot store.old)
            self.old.regions }
        requires top { length object.now.top.now ≤ 65535 }
        requires bottom { length object.now.bottom.now ≤ 65535 }
        ensures composition { self.new ≡ with_all_painted (painter_of object.now) self.old }
        ensures regions { All (λ (kept : KeptRegion). HasRegion kept.head kept.slot store.new)
            self.old.regions }
        ensures room { KeepsRoom store.old store.new }
        ensures fault { (content : Content)
            → AreObjectFields (of_object (object_value object.now)) content.top content.bottom
            → AreIdsApart self.old.regions
            → option_map SetFault.Segment result
            ≡ option_map (λ found. found.1)
            (least_of (fault_in_kept (painter_of object.now) content (object_value object.now))
            self.old.regions) }
        ensures written { (content : Content)
            → AreObjectFields (of_object (object_value object.now)) content.top content.bottom
            → least_of (fault_in_kept (painter_of object.now) content (object_value object.now))
            self.old.regions ≡ None → AreIdsApart self.old.regions
            → AreKeptWritten (painter_of object.now) content self.old.regions store.old
            store.new }
    {
        fault_of(paint_regions(&mut self.pool, painter(object), object, store))
    }
}

/// Paints the object in all regions, one after another, and answers its fault in the region of the
/// least id in which it has one.
fn paint_regions(
    pool: &mut Pool<Node>,
    painter: Painter,
    object: &ObjectSeg<'_>,
    store: &mut Store,
) -> Option<RegionFault>
    requires lists { length pool.old.lists ≡ list_count }
    requires regions { HaveRegions pool.old store.old }
    requires top { length object.now.top.now ≤ 65535 }
    requires bottom { length object.now.bottom.now ≤ 65535 }
    ensures nodes { IsEverywhere painter pool.old pool.new }
    ensures regions { HaveRegions pool.old store.new }
    ensures room { KeepsRoom store.old store.new }
    ensures fault { (content : Content)
        → AreObjectFields (of_object (object_value object.now)) content.top content.bottom
        → AreApart pool.old
        → option_map told result
        ≡ least_of (fault_in_pair pool.old painter content (object_value object.now))
        (list_of pool.old 1) }
    ensures written { (content : Content)
        → AreObjectFields (of_object (object_value object.now)) content.top content.bottom
        → HasNoFaults painter content (object_value object.now) pool.old → AreApart pool.old
        → AreWritten painter content pool.old (kept_in region_node (list_of pool.old 1)) store.old
        store.new }
{
    let mut least = None;
    let mut place = pool.first(REGIONS);
    while let Some(node) = place {
        place = pool.next(node);
        let item = pool.item(node);
        least = lesser(least, paint_at(pool, painter, object, item, store));
    }
    least
}

/// Paints the object in the region that a node has, and answers its fault there.
fn paint_at(
    pool: &mut Pool<Node>,
    painter: Painter,
    object: &ObjectSeg<'_>,
    node: Node,
    store: &mut Store,
) -> Option<RegionFault>
    requires lists { length pool.old.lists ≡ list_count }
    requires region { HasRegionAt node store.old }
    requires top { length object.now.top.now ≤ 65535 }
    requires bottom { length object.now.bottom.now ≤ 65535 }
    ensures nodes { IsPaintedAt painter node pool.old pool.new }
    ensures others { KeepsAt node store.old store.new }
    ensures fault { (content : Content)
        → AreObjectFields (of_object (object_value object.now)) content.top content.bottom
        → option_map told result
        ≡ fault_in_node pool.old painter content (object_value object.now) node }
    ensures written { (content : Content)
        → AreObjectFields (of_object (object_value object.now)) content.top content.bottom
        → IsWrittenAt painter content (object_value object.now) pool.old node store.old
        store.new }
{
    match node {
        Node::Region(region) => paint_in(pool, painter, object, &region, store),
        _ => None,
    }
}

/// Paints the object through the listings of a region that it paints, and answers its fault there.
fn paint_in(
    pool: &mut Pool<Node>,
    painter: Painter,
    object: &ObjectSeg<'_>,
    region: &RegionNode,
    store: &mut Store,
) -> Option<RegionFault>
    requires lists { length pool.old.lists ≡ list_count }
    requires region { HasRegion region.now.head region.now.slot store.old }
    requires top { length object.now.top.now ≤ 65535 }
    requires bottom { length object.now.bottom.now ≤ 65535 }
    ensures nodes { IsRewritten (listings_list region.now.head.region) (painted_node painter)
        pool.old pool.new }
    ensures others { KeepsOthers region.now.slot store.old store.new }
    ensures fault { (content : Content)
        → AreObjectFields (of_object (object_value object.now)) content.top content.bottom
        → option_map told result
        ≡ fault_in_region_node pool.old painter content (object_value object.now) region.now }
    ensures written { (content : Content)
        → AreObjectFields (of_object (object_value object.now)) content.top content.bottom
        → HasNoFault painter content (object_value object.now) pool.old region.now
        → IsWrittenIn painter content pool.old region.now store.old store.new }
{
    let list = listings_of(region.head.region);
    let fault = paint_list(pool, list, painter, object, region, store)?;
    Some(RegionFault {
        region: region.head.region,
        fault,
    })
}
