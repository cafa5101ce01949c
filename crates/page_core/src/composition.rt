//! The composition memory of a receiver (EN 300 743, clause 5.2): one fixed array of nodes for all
//! of its lists.

ghost use Rattle.std.specs.Prelude.{◌≡◌, ◌<◌, ◌∷◌, [], ℕ, None, IfOk, IfSome, MatchOption, length, option_map, slice_index_or};
ghost use Rattle.page_core.specs.Composition.{no_composition, without_colour};
ghost use Rattle.page_core.specs.Private.Nodes.{IsPoppedAs};
ghost use Rattle.page_core.specs.Private.Nodes.{AreKind, IsRegionOf, colour_in, place_kept, region_node};
ghost use Rattle.comp_pool.specs.Pool.{IsInList, NoneTwice, list_of};
ghost use Rattle.page_core.specs.Private.Known.{IsRegionIn};

mod cluts;
mod everywhere;
mod lengths;
mod listings;
mod lookup;
mod objects;
mod page;
mod regions;
mod walk;

use crate::lists::pop_front;
use crate::node::{Node, RegionNode, TablePlace};
use comp_pool::{NodeId, Pool};
pub use lookup::Entries;
use std::alloc::Global;
use std::marker::Model;
use stream_syntax::PageEntry;
use sub_base::NoMemory;

// The lists of the pool: the entries of the page, the regions, the CLUTs, and the table entries
// that are set. The listings of a region are behind these, by its id.
const ENTRIES: u32 = 0;

const REGIONS: u32 = 1;

const CLUTS: u32 = 2;

const COLOURS: u32 = 3;

const FIRST_LISTINGS: u32 = 4;

const LISTS: u32 = FIRST_LISTINGS + 256;

/// The page, the regions, the CLUTs, and what is set in them.
#[derive(Drop)]
pub(crate) struct CompositionMemory {
    pool: Pool<Node>,
    // The nodes of regions and CLUTs, by id.
    regions: [Option<NodeId>; 256],
    cluts: [Option<NodeId>; 256],
}

impl Model for CompositionMemory {
    ghost use Rattle.page_core.specs.Composition.{Composition};
    ghost use Rattle.page_core.specs.Private.Nodes.{composition_of, IsSorted, IsIndexed};

    ghost Value = { Composition };

    ghost view = { λ c. composition_of c.pool };

    ghost invariant = { λ c. IsSorted c.pool × IsIndexed c.pool c.regions c.cluts };
}

impl CompositionMemory {
    /// So many nodes, all free. All memory is taken here.
    pub fn make(alloc: Global, nodes: u32) -> Result<CompositionMemory, NoMemory>
        ensures { IfOk result (λ memory. memory ≡ no_composition nodes) }
    {
        let nothing = Node::Entry(PageEntry {
            region: 0,
            x: 0,
            y: 0,
        });
        Ok(CompositionMemory {
            pool: Pool::make(alloc, nodes, LISTS, nothing)?,
            regions: no_nodes(),
            cluts: no_nodes(),
        })
    }

    /// Takes out the first of the table entries that are set; none where none is.
    pub fn take_colour(&mut self) -> Option<TablePlace>
        ensures taken { MatchOption result
            ((self.old.set_entries ≡ []) × (self.new ≡ self.old))
            (λ place. (self.old.set_entries ≡ place_kept place ∷ self.new.set_entries)
            × (self.new ≡ without_colour self.old)) }
    {
        pop_colour(&mut self.pool)
    }

    /// The region of that id; none where the epoch has none.
    pub fn region(&self, id: u8) -> Option<RegionNode>
        ensures { IsRegionIn self.now id result }
    {
        region_at(&self.pool, node_at(&self.regions, id))
    }

    /// Frees all nodes.
    pub fn reset(&mut self)
        ensures { self.new ≡ no_composition self.old.size }
    {
        self.pool.reset();
        self.regions = no_nodes();
        self.cluts = no_nodes();
    }

    /// How many nodes are free.
    pub fn free(&self) -> u32
        ensures { result ≡ self.now.free }
    {
        self.pool.free_nodes()
    }
}

fn node_at(nodes: &[Option<NodeId>; 256], id: u8) -> Option<NodeId>
    ensures node { result ≡ slice_index_or nodes.now id None }
    ensures byte { id < 256 }
{
    nodes[usize::from(id)]
}

// The region that a node of the regions has.
#[tactic(auto, using(comp_pool::proofs::NodeLaws::in_some_list))]
fn region_at(pool: &Pool<Node>, node: Option<NodeId>) -> Option<RegionNode>
    requires list { 1 < length pool.now.lists }
    requires listed { IfSome node (λ node. IsInList pool.now 1 node) }
    ensures region { IsRegionOf pool.now node result }
    ensures distinct { NoneTwice pool.now }
{
    let _ = pool.first(REGIONS);
    match node {
        None => None,
        Some(node) => region_in(pool.item(node)),
    }
}

fn region_in(node: Node) -> Option<RegionNode>
    ensures { result ≡ region_node node }
{
    match node {
        Node::Region(region) => Some(region),
        _ => None,
    }
}

// Takes out the first of the table entries that are set.
fn pop_colour(pool: &mut Pool<Node>) -> Option<TablePlace>
    requires list { 3 < length pool.old.lists }
    requires kind { AreKind colour_in (list_of pool.old 3) }
    ensures { MatchOption result ((list_of pool.old 3 ≡ []) × (pool.new ≡ pool.old))
        (λ place. IsPoppedAs colour_in 3 (place_kept place) pool.old pool.new) }
{
    match pop_front(pool, COLOURS) {
        None => None,
        Some(node) => place_in(node),
    }
}

fn place_in(node: Node) -> Option<TablePlace>
    ensures { option_map place_kept result ≡ colour_in node }
{
    match node {
        Node::Colour(place) => Some(place),
        _ => None,
    }
}

fn no_nodes() -> [Option<NodeId>; 256]
    ensures { (id : ℕ) → id < 256 → slice_index_or result id None ≡ None }
{
    [None; 256]
}
