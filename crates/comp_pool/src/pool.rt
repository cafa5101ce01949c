ghost use Rattle.std.specs.Prelude.{◌≡◌, ◌↔◌, ℕ, ◌<◌, length, IfOk, IsErr, OnErr, Contains};
ghost use Rattle.comp_pool.specs.Pool.{empty_pool, list_of, IsInList, IsInSomeList, NoneTwice, node_count};
ghost use Rattle.comp_pool.specs.Changes.{pushed, unlinked, replaced, cleared, emptied};
ghost use Rattle.comp_pool.specs.Places.{first_of, behind};

use crate::fault::Full;
use crate::links::{at, free_again, free_all, move_to};
use crate::node::NodeId;
use std::alloc::Global;
use std::marker::Model;
use sub_base::NoMemory;

/// A fixed array of nodes, each with an item, in a fixed number of doubly linked lists, numbered
/// from 0. Contracts see the lists, as pairs of a node and its item, and the number of free nodes.
#[derive(Drop)]
pub struct Pool<T: Copy> {
    count: u32,
    nexts: Vec<usize>,
    backs: Vec<usize>,
    items: Vec<T>,
    // Only the view reads it, as the item of an index that has none.
    filler: T,
    free: u32,
}

impl<T: Copy> Model for Pool<T> {
    ghost use Rattle.std.specs.Prelude.{length};
    ghost use Rattle.comp_pool.specs.Pool.{PoolOf};
    ghost use Rattle.comp_pool.specs.Private.View.{IsKept, pool_of};

    ghost Value = { PoolOf T };

    ghost view = { λ p. pool_of p.count p.nexts.items p.filler p.items.items };

    ghost invariant = { λ p. IsKept p.count p.nexts.items p.backs.items (length p.items.items) p.free };
}

impl<T: Copy> Pool<T> {
    /// A pool of so many nodes and lists: all lists are empty, and all nodes free. `filler` is what
    /// the nodes hold until items are pushed; no call answers it. The only call that takes memory.
    pub fn make(alloc: Global, nodes: u32, lists: u32, filler: T) -> Result<Pool<T>, NoMemory>
        ensures empty { IfOk result (λ pool. pool ≡ empty_pool lists nodes) }
        ensures distinct { IfOk result (λ pool. NoneTwice pool) }
        ensures nodes { IfOk result (λ pool. node_count pool ≡ nodes) }
    {
        let total = nodes as usize + lists as usize + 1;
        let mut nexts = vec![in alloc; 0usize; total]?;
        let mut backs = vec![in alloc; 0usize; total]?;
        free_all(&mut nexts, &mut backs, nodes);
        let items = vec![in alloc; filler; nodes as usize]?;
        Ok(Pool {
            count: nodes,
            nexts,
            backs,
            items,
            filler,
            free: nodes,
        })
    }

    /// Puts an item at the end of a list, in a node that was free. `Full` exactly where no node is
    /// free; nothing is changed then.
    pub fn push_back(&mut self, list: u32, item: T) -> Result<NodeId, Full>
        requires { list < length self.old.lists }
        ensures pushed { IfOk result (λ node. self.new ≡ pushed list (node, item) self.old) }
        ensures fresh { IfOk result (λ node. ¬ IsInSomeList self.old node) }
        ensures full { IsErr result ↔ (self.old.free ≡ 0) }
        ensures unchanged { OnErr result (self.new ≡ self.old) }
        ensures distinct { NoneTwice self.new }
        ensures nodes { node_count self.new ≡ node_count self.old }
    {
        let node = at(&self.nexts, self.count as usize);
        if node >= self.count as usize {
            return Err(Full);
        }
        let number = node as u32;
        self.free -= 1;
        move_to(
            &mut self.nexts,
            &mut self.backs,
            self.count,
            number,
            0,
            list as usize + 1,
        );
        self.items[node] = item;
        Ok(NodeId { number })
    }

    /// Takes a node out of the list that it is in, and answers its item. The others keep their
    /// order.
    pub fn unlink(&mut self, list: u32, node: NodeId) -> T
        requires { IsInList self.old list node }
        ensures unlinked { self.new ≡ unlinked list node self.old }
        ensures item { Contains (list_of self.old list) (node, result) }
        ensures one_item { NoneTwice self.old }
        ensures distinct { NoneTwice self.new }
        ensures nodes { node_count self.new ≡ node_count self.old }
    {
        move_to(
            &mut self.nexts,
            &mut self.backs,
            self.count,
            node.number,
            list as usize + 1,
            0,
        );
        self.free += 1;
        self.items[node.number as usize]
    }

    /// Takes all nodes out of a list, in time linear in the list.
    pub fn clear(&mut self, list: u32)
        requires { list < length self.old.lists }
        ensures cleared { self.new ≡ cleared list self.old }
        ensures distinct { NoneTwice self.new }
        ensures nodes { node_count self.new ≡ node_count self.old }
    {
        while let Some(node) = self.first(list) {
            let _ = self.unlink(list, node);
        }
    }

    /// Takes all nodes out of all lists, in time linear in the nodes.
    pub fn reset(&mut self)
        ensures emptied { self.new ≡ emptied self.old }
        ensures distinct { NoneTwice self.new }
        ensures nodes { node_count self.new ≡ node_count self.old }
    {
        free_again(&mut self.nexts, &mut self.backs, self.count);
        self.free = self.count;
    }

    /// How many nodes are free.
    pub fn free_nodes(&self) -> u32
        ensures { result ≡ self.now.free }
    {
        self.free
    }

    /// The first node of a list. `None` exactly where the list is empty.
    pub fn first(&self, list: u32) -> Option<NodeId>
        requires { list < length self.now.lists }
        ensures first { result ≡ first_of (list_of self.now list) }
        ensures distinct { NoneTwice self.now }
    {
        let node = at(&self.nexts, self.count as usize + (list as usize + 1));
        if node < self.count as usize {
            Some(NodeId {
                number: node as u32,
            })
        } else {
            None
        }
    }

    /// The node behind a node in its list. `None` exactly behind the last one.
    pub fn next(&self, node: NodeId) -> Option<NodeId>
        requires { IsInSomeList self.now node }
        ensures { (list : ℕ) → IsInList self.now list node
            → result ≡ behind node (list_of self.now list) }
    {
        let next = at(&self.nexts, node.number as usize);
        if next < self.count as usize {
            Some(NodeId {
                number: next as u32,
            })
        } else {
            None
        }
    }

    /// The item of a node.
    pub fn item(&self, node: NodeId) -> T
        requires { IsInSomeList self.now node }
        ensures item { (list : ℕ) → IsInList self.now list node
            → Contains (list_of self.now list) (node, result) }
        ensures one_item { NoneTwice self.now }
    {
        let _ = &self.count; // The invariant is wanted before the index.
        let index = node.number as usize;
        self.items[index]
    }

    /// Gives a node another item.
    pub fn set_item(&mut self, node: NodeId, item: T)
        requires { IsInSomeList self.old node }
        ensures replaced { self.new ≡ replaced node item self.old }
        ensures distinct { NoneTwice self.new }
        ensures nodes { node_count self.new ≡ node_count self.old }
    {
        let _ = &self.count; // The invariant is wanted before the index.
        self.items[node.number as usize] = item;
    }
}
