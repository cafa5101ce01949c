//! The nodes of a list of the composition memory, one after another.

ghost use Rattle.std.specs.Prelude.{◌≡◌, ◌<◌, ◌∷◌, [], MatchOption, length};
ghost use Rattle.comp_pool.specs.Pool.{list_of};
ghost use Rattle.comp_pool.specs.declared.node.NodeId.{NodeId as NodeOf};

use crate::node::Node;
use comp_pool::{NodeId, Pool};
use std::marker::Model;

/// What the nodes of a list have, one after another. It is seen as the list of the nodes that come.
#[derive(Drop)]
pub(crate) struct Walk<'a> {
    pool: &'a Pool<Node>,
    // Only the view reads it.
    list: u32,
    next: Option<NodeId>,
}

impl<'a> Model for Walk<'a> {
    ghost use Rattle.std.specs.Prelude.{List};
    ghost use Rattle.comp_pool.specs.Places.{rest_from};
    ghost use Rattle.comp_pool.specs.Pool.{list_of};
    ghost use Rattle.comp_pool.specs.declared.node.NodeId.{NodeId};
    ghost use Rattle.page_core.specs.Private.Steps.{IsWalkOf};
    ghost use Rattle.page_core.specs.declared.node.Node.{Node};

    ghost Value = { List (NodeId × Node) };

    ghost view = { λ w. rest_from w.next (list_of w.pool.now w.list) };

    ghost invariant = { λ w. IsWalkOf w.pool.now w.list w.next };
}

impl Walk<'_> {
    /// The start of a list.
    pub(crate) fn start(pool: &Pool<Node>, list: u32) -> Walk<'_>
        requires { list < length pool.now.lists }
        ensures { result ≡ list_of pool.now list }
    {
        Walk {
            pool,
            list,
            next: pool.first(list),
        }
    }

    /// What the next node has; none exactly behind the last one.
    pub(crate) fn next_item(&mut self) -> Option<Node>
        ensures { MatchOption result ((self.old ≡ []) × (self.new ≡ []))
            (λ item. (node : NodeOf) × (self.old ≡ (node, item) ∷ self.new)) }
    {
        let node = self.next?;
        let item = self.pool.item(node);
        self.next = self.pool.next(node);
        Some(item)
    }
}
