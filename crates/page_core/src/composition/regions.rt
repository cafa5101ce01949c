//! The regions of the composition memory, changed by region segments (EN 300 743, clause 7.2.3).

ghost use Rattle.std.specs.Prelude.{◌≡◌, ◌+◌, ◌<◌, ◌≤◌, Some, None, IfSome, true, length, slice_set};
ghost use Rattle.std.specs.Option.{is_some};
ghost use Rattle.comp_pool.specs.Pool.{IsInList};
ghost use Rattle.segments.specs.Contents.{region_value};
ghost use Rattle.page_core.specs.Composition.{AreIdsApart, region_in, taken_nodes};
ghost use Rattle.page_core.specs.Private.PoolChanges.{HasListings, IsRegionSet};
ghost use Rattle.page_core.specs.Private.RegionSteps.{slot_in, with_head, with_listings, with_region, without_listings};

use crate::composition::listings::listings_of;
use crate::composition::{CompositionMemory, REGIONS, node_at};
use crate::node::{ListingNode, Node, RegionNode};
use comp_pool::{NodeId, Pool};
use segments::RegionSeg;

impl CompositionMemory {
    /// Takes the listings of the region of that id out.
    pub(crate) fn clear_listings(&mut self, id: u8)
        requires { is_some (region_in self.old id) ≡ true }
        ensures { self.new ≡ without_listings id self.old }
    {
        self.pool.clear(listings_of(id));
    }

    /// Puts the listings of a segment behind those of its region, all of them unpainted.
    pub(crate) fn add_listings(&mut self, region: &RegionSeg<'_>)
        requires room { length (region_value region.now).listings ≤ self.old.free }
        ensures { self.new
            ≡ with_listings region.now.region (region_value region.now).listings self.old }
    {
        push_listings(&mut self.pool, listings_of(region.region), region);
    }

    /// Gives the region of the node's id the node's head.
    pub(crate) fn set_region(&mut self, region: RegionNode)
        requires slot { slot_in self.old region.head.region ≡ Some region.slot }
        requires apart { AreIdsApart self.old.regions }
        ensures { self.new ≡ with_head region.head self.old }
    {
        set_node(
            &mut self.pool,
            node_at(&self.regions, region.head.region),
            Node::Region(region),
        );
    }

    /// Puts a region in that the epoch does not have, without listings.
    pub(crate) fn add_region(&mut self, region: RegionNode)
        requires room { 0 < self.old.free }
        requires new { region_in self.old region.head.region ≡ None }
        requires counted { self.old.free + taken_nodes self.old ≡ self.old.size }
        requires apart { AreIdsApart self.old.regions }
        ensures { self.new ≡ with_region region.head region.slot self.old }
    {
        let id = region.head.region;
        if let Ok(node) = self.pool.push_back(REGIONS, Node::Region(region)) {
            name_node(&mut self.regions, id, node);
        }
    }
}

// Puts the listings of a segment at the end of a list.
fn push_listings(pool: &mut Pool<Node>, list: u32, region: &RegionSeg<'_>)
    requires list { list < length pool.old.lists }
    requires room { length (region_value region.now).listings ≤ pool.old.free }
    ensures { HasListings list (region_value region.now).listings pool.old pool.new }
{
    for i in 0..region.count() {
        let unpainted = ListingNode {
            listing: region.listing(i),
            painted: None,
        };
        let _ = pool.push_back(list, Node::Listing(unpainted));
    }
}

// Gives a node of the regions another item.
#[tactic(auto, using(comp_pool::proofs::NodeLaws::in_some_list))]
fn set_node(pool: &mut Pool<Node>, node: Option<NodeId>, item: Node)
    requires list { 1 < length pool.old.lists }
    requires listed { IfSome node (λ node. IsInList pool.old 1 node) }
    ensures { IsRegionSet node item pool.old pool.new }
{
    let _ = pool.first(REGIONS); // That no node is in two lists is wanted.
    if let Some(node) = node {
        pool.set_item(node, item);
    }
}

// Keeps the name of the node of an id.
fn name_node(nodes: &mut [Option<NodeId>; 256], id: u8, node: NodeId)
    ensures named { nodes.new ≡ slice_set nodes.old id (Some node) }
    ensures byte { id < 256 }
    ensures whole { length nodes.old ≡ 256 }
{
    nodes[usize::from(id)] = Some(node);
}
