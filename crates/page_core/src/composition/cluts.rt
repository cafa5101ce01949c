//! The CLUTs of the epoch in the composition memory, and the table entries that are set.

ghost use Rattle.std.specs.Prelude.{◌≡◌, ◌==◌, ◌<◌, ℕ, IfSome, MatchOption, None, Some, length, option_map, slice_index_or, if◌then◌else◌};
ghost use Rattle.comp_pool.specs.Changes.{replaced};
ghost use Rattle.comp_pool.specs.Pool.{IsInList, NoneTwice, node_count};
ghost use Rattle.page_core.specs.Private.ClutSteps.{IsPushed, IsVersionOf, with_clut, with_colour};
ghost use Rattle.page_core.specs.Composition.{KeptClut, clut_in};
ghost use Rattle.page_core.specs.Private.Nodes.{clut_node, place_kept};

use crate::composition::{CLUTS, COLOURS, CompositionMemory, node_at};
use crate::node::{ClutNode, Node, TablePlace};
use comp_pool::{NodeId, Pool};

impl CompositionMemory {
    /// The version of the CLUT of that id; none where the epoch has none.
    pub(crate) fn clut_version(&self, id: u8) -> Option<u8>
        ensures { result ≡ option_map (λ (kept : KeptClut). kept.version) (clut_in self.now id) }
    {
        version_at(&self.pool, node_at(&self.cluts, id))
    }

    /// Keeps the version of a CLUT. A CLUT that is new takes a node, and is left out where none is
    /// free.
    pub(crate) fn set_clut(&mut self, clut: u8, version: u8)
        ensures { self.new ≡ with_clut clut version self.old }
    {
        let item = Node::Clut(ClutNode { clut, version });
        match node_at(&self.cluts, clut) {
            Some(node) => replace(&mut self.pool, node, item),
            None => {
                if let Some(node) = push(&mut self.pool, CLUTS, item) {
                    set_node(&mut self.cluts, clut, node);
                }
            }
        }
    }

    /// One more table entry is set, and has this node; none where no node is free.
    pub(crate) fn push_colour(&mut self, place: TablePlace) -> Option<NodeId>
        ensures { MatchOption result ((self.old.free ≡ 0) × (self.new ≡ self.old))
            (λ node. (0 < self.old.free)
            × (self.new ≡ with_colour (place_kept place) self.old)) }
    {
        push(&mut self.pool, COLOURS, Node::Colour(place))
    }
}

// Puts an item at the end of a list; none where no node is free.
fn push(pool: &mut Pool<Node>, list: u32, item: Node) -> Option<NodeId>
    requires { list < length pool.old.lists }
    ensures { MatchOption result ((pool.old.free ≡ 0) × (pool.new ≡ pool.old))
        (λ node. (0 < pool.old.free) × IsPushed list (node, item) pool.old pool.new) }
{
    match pool.push_back(list, item) {
        Ok(node) => Some(node),
        Err(_) => None,
    }
}

// Gives a node of the CLUTs another item.
#[tactic(auto, using(comp_pool::proofs::NodeLaws::in_some_list))]
fn replace(pool: &mut Pool<Node>, node: NodeId, item: Node)
    requires list { 2 < length pool.old.lists }
    requires listed { IsInList pool.old 2 node }
    ensures replaced { pool.new ≡ replaced node item pool.old }
    ensures nodes { node_count pool.new ≡ node_count pool.old }
    ensures distinct { NoneTwice pool.old }
{
    let _ = pool.first(CLUTS);
    pool.set_item(node, item);
}

// The node of an id is this one.
fn set_node(nodes: &mut [Option<NodeId>; 256], id: u8, node: NodeId)
    ensures { (other : ℕ) → other < 256
        → slice_index_or nodes.new other None
        ≡ (if id == other then Some node else slice_index_or nodes.old other None) }
{
    nodes[usize::from(id)] = Some(node);
}

// The version that a node of the CLUTs has.
#[tactic(auto, using(comp_pool::proofs::NodeLaws::in_some_list))]
fn version_at(pool: &Pool<Node>, node: Option<NodeId>) -> Option<u8>
    requires list { 2 < length pool.now.lists }
    requires listed { IfSome node (λ node. IsInList pool.now 2 node) }
    ensures version { IsVersionOf pool.now node result }
    ensures distinct { NoneTwice pool.now }
{
    let _ = pool.first(CLUTS);
    match node {
        None => None,
        Some(node) => version_in(pool.item(node)),
    }
}

fn version_in(node: Node) -> Option<u8>
    ensures { result ≡ option_map (λ (kept : KeptClut). kept.version) (clut_node node) }
{
    match node {
        Node::Clut(clut) => Some(clut.version),
        _ => None,
    }
}
