//! How many nodes lists of the composition memory have.

ghost use Rattle.std.specs.Prelude.{◌≡◌, ◌<◌, ◌^◌, length, Some};
ghost use Rattle.comp_pool.specs.Pool.{list_of, node_count};
ghost use Rattle.page_core.specs.Composition.{KeptRegion, region_in};

use crate::composition::listings::listings_of;
use crate::composition::walk::Walk;
use crate::composition::{CompositionMemory, ENTRIES};
use crate::node::Node;
use comp_pool::Pool;

impl CompositionMemory {
    /// How many entries the page has.
    pub(crate) fn entry_count(&self) -> u32
        requires { self.now.size < 2 ^ 31 }
        ensures { result ≡ length self.now.entries }
    {
        length_of(&self.pool, ENTRIES)
    }

    /// How many listings the region of that id has, where there is one.
    pub(crate) fn listing_count(&self, id: u8) -> u32
        requires { self.now.size < 2 ^ 31 }
        ensures { (kept : KeptRegion) → region_in self.now id ≡ Some kept
            → result ≡ length kept.listings }
    {
        length_of(&self.pool, listings_of(id))
    }
}

// How many nodes a list has.
fn length_of(pool: &Pool<Node>, list: u32) -> u32
    requires list { list < length pool.now.lists }
    requires few { node_count pool.now < 2 ^ 31 }
    ensures { result ≡ length (list_of pool.now list) }
{
    let mut count = 0;
    let mut walk = Walk::start(pool, list);
    while let Some(_) = walk.next_item() {
        count += 1;
    }
    count
}
