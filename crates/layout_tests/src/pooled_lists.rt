ghost use Rattle.std.specs.Prelude.{◌≡◌, ◌≢◌, ℕ, ◌*◌, ◌<◌, ◌≤◌, length, map, IfOk};
ghost use Rattle.comp_pool.specs.Pool.{list_of, NoneTwice};
ghost use Rattle.layout_tests.specs.Private.ManyNodes.{HasIndex};

use crate::same::same;
use comp_pool::{Full, NodeId, Pool};
use std::alloc::{AllocError, Global};
use std::panic::Expect;
use std::process::Abort;
use std::test::Fail;

// The items of a list, found by walking it.
#[tactic(auto, using(comp_pool::proofs::NodeLaws::in_list_first, comp_pool::proofs::NodeLaws::in_some_list, comp_pool::proofs::WalkLaws::walk_start))]
fn items_of(alloc: Global, pool: &Pool<u32>, list: u32) -> Result<Vec<u32>, AllocError>
    requires { list < length pool.now.lists }
    ensures { IfOk result (λ items. items.items ≡ map (λ p. p.1) (list_of pool.now list)) }
{
    let mut items = Vec::new(alloc);
    let mut place = pool.first(list);
    while let Some(node) = place {
        items.push(pool.item(node))?;
        place = pool.next(node);
    }
    Ok(items)
}

/// Two nodes: with both in list 0 nothing can be pushed to list 1.
#[test]
#[tactic(auto, using(comp_pool::proofs::NodeLaws::in_list_pushed, comp_pool::proofs::NodeLaws::in_list_after_push))]
fn full_pool_refuses(rt: HostRuntime) {
    let mut pool = Pool::make(rt.alloc(), 2, 2, 0u32).expect(&rt, "memory");
    let five = pool.push_back(0, 5).expect(&rt, "room");
    pool.push_back(0, 6).expect(&rt, "room");
    same(&rt, pool.free_nodes(), 0);
    same(&rt, pool.push_back(1, 7), Err(Full));
    same(&rt, pool.unlink(0, five), 5);
    same(
        &rt,
        items_of(rt.alloc(), &pool, 0)
            .expect(&rt, "memory")
            .as_slice(),
        [6].as_slice(),
    );
    same(&rt, pool.free_nodes(), 1);
}

/// Three nodes in one list: the middle one is taken out, and its node is used again at the end.
#[test]
#[tactic(auto, using(comp_pool::proofs::NodeLaws::in_list_pushed, comp_pool::proofs::NodeLaws::in_list_after_push, comp_pool::proofs::NodeLaws::in_some_list_pushed))]
fn middle_node_taken_out(rt: HostRuntime) {
    let mut pool = Pool::make(rt.alloc(), 3, 1, 0u32).expect(&rt, "memory");
    pool.push_back(0, 5).expect(&rt, "room");
    let six = pool.push_back(0, 6).expect(&rt, "room");
    pool.push_back(0, 7).expect(&rt, "room");
    same(&rt, pool.unlink(0, six), 6);
    same(
        &rt,
        items_of(rt.alloc(), &pool, 0)
            .expect(&rt, "memory")
            .as_slice(),
        [5, 7].as_slice(),
    );
    same(&rt, pool.free_nodes(), 1);
    let eight = pool.push_back(0, 8).expect(&rt, "room");
    same(
        &rt,
        items_of(rt.alloc(), &pool, 0)
            .expect(&rt, "memory")
            .as_slice(),
        [5, 7, 8].as_slice(),
    );
    same(&rt, pool.free_nodes(), 0);
    same(&rt, pool.item(eight), 8);
    pool.set_item(eight, 9);
    same(
        &rt,
        items_of(rt.alloc(), &pool, 0)
            .expect(&rt, "memory")
            .as_slice(),
        [5, 7, 9].as_slice(),
    );
    pool.clear(0);
    same(&rt, pool.free_nodes(), 3);
}

/// An item's first node and the ones behind it, and a pool that starts anew.
#[test]
#[tactic(auto, using(comp_pool::proofs::NodeLaws::in_some_list_pushed, comp_pool::proofs::NodeLaws::in_some_list_after_push))]
fn lists_of_their_own(rt: HostRuntime) {
    let mut pool = Pool::make(rt.alloc(), 3, 2, 0u32).expect(&rt, "memory");
    let one = pool.push_back(0, 1).expect(&rt, "room");
    let two = pool.push_back(1, 2).expect(&rt, "room");
    let three = pool.push_back(0, 3).expect(&rt, "room");
    same(&rt, pool.first(0), Some(one));
    same(&rt, pool.next(one), Some(three));
    same(&rt, pool.next(three), None);
    same(&rt, pool.first(1), Some(two));
    same(&rt, pool.next(two), None);
    pool.reset();
    same(&rt, pool.first(0), None);
    same(&rt, pool.first(1), None);
    same(&rt, pool.free_nodes(), 3);
}

// Pushes the items from 0 on.
fn push_all(alloc: Global, pool: &mut Pool<u32>, count: u32) -> Result<Vec<NodeId>, Fail>
    requires list { 0 < length pool.old.lists }
    requires distinct { NoneTwice pool.old }
    ensures count { IfOk result (λ nodes. length nodes.items ≡ count) }
    ensures indices { IfOk result (λ nodes. (k : ℕ) → HasIndex pool.new nodes.items k) }
    ensures distinct { NoneTwice pool.new }
{
    let mut nodes = Vec::new(alloc);
    for item in 0..count {
        let node = pool.push_back(0, item)?;
        nodes.push(node)?;
    }
    Ok(nodes)
}

// Takes out the node of an index, which has the index as its item.
fn take_out(rt: &impl Abort, pool: &mut Pool<u32>, nodes: &[NodeId], index: u32)
    requires node { index < length nodes.now }
    requires index { HasIndex pool.old nodes.now index }
    requires distinct { NoneTwice pool.old }
    ensures others { (k : ℕ) → k ≢ index → HasIndex pool.old nodes.now k
        → HasIndex pool.new nodes.now k }
    ensures distinct { NoneTwice pool.new }
{
    let item = pool.unlink(0, nodes[index as usize]);
    same(rt, item, index);
}

fn take_odd(rt: &impl Abort, pool: &mut Pool<u32>, nodes: &[NodeId], half: u32)
    requires few { half ≤ 2000000 }
    requires count { length nodes.now ≡ 2 * half }
    requires indices { (k : ℕ) → HasIndex pool.old nodes.now k }
    requires distinct { NoneTwice pool.old }
    ensures even { (k : ℕ) → HasIndex pool.new nodes.now (2 * k) }
    ensures distinct { NoneTwice pool.new }
{
    for k in 0..half {
        take_out(rt, pool, nodes, 2 * k + 1);
    }
}

fn take_even(rt: &impl Abort, pool: &mut Pool<u32>, nodes: &[NodeId], half: u32)
    requires few { half ≤ 2000000 }
    requires count { length nodes.now ≡ 2 * half }
    requires indices { (k : ℕ) → HasIndex pool.old nodes.now (2 * k) }
    requires distinct { NoneTwice pool.old }
{
    for k in 0..half {
        take_out(rt, pool, nodes, 2 * (half - 1 - k));
    }
}

/// Four million nodes in one list, of which the odd ones are taken out from the front and the even
/// ones from the back: a body that searches the list, or moves its items, takes hours.
#[test]
fn many_nodes_in_any_order(rt: HostRuntime) -> Result<(), Fail> {
    let mut pool = Pool::make(rt.alloc(), 4_000_000, 1, 0u32)?;
    let nodes = push_all(rt.alloc(), &mut pool, 4_000_000)?;
    same(&rt, pool.free_nodes(), 0);
    take_odd(&rt, &mut pool, nodes.as_slice(), 2_000_000);
    same(&rt, pool.free_nodes(), 2_000_000);
    take_even(&rt, &mut pool, nodes.as_slice(), 2_000_000);
    same(&rt, pool.free_nodes(), 4_000_000);
    Ok(())
}
