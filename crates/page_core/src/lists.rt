//! What is done with the lists of a pool.

ghost use Rattle.std.specs.Prelude.{◌≡◌, ◌<◌, [], length, MatchOption};
ghost use Rattle.comp_pool.specs.Pool.{list_of};
ghost use Rattle.page_core.specs.Private.Lists.{IsPopped};

use crate::node::Node;
use comp_pool::Pool;

/// Takes the first node out of a list, and answers its item; none where the list is empty.
#[tactic(auto, using(crate::proofs::ColourTables::Popping::empty_list, comp_pool::proofs::NodeLaws::in_list_first))]
pub(crate) fn pop_front(pool: &mut Pool<Node>, list: u32) -> Option<Node>
    requires { list < length pool.old.lists }
    ensures { MatchOption result ((list_of pool.old list ≡ []) × (pool.new ≡ pool.old))
        (λ item. IsPopped list item pool.old pool.new) }
{
    let node = pool.first(list)?;
    Some(pool.unlink(list, node))
}
