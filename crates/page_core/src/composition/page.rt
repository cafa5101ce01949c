//! The entries of a page, put into the composition memory.

ghost use Rattle.std.specs.Prelude.{◌≡◌, ◌+◌, ◌<◌, ◌≤◌, [], length};
ghost use Rattle.comp_pool.specs.Pool.{list_of};
ghost use Rattle.segments.specs.Contents.{page_value};
ghost use Rattle.page_core.specs.Composition.{with_entries};
ghost use Rattle.page_core.specs.Private.PageEntries.{HasEntries};

use crate::composition::{CompositionMemory, ENTRIES};
use crate::node::Node;
use comp_pool::Pool;
use segments::PageSeg;

impl CompositionMemory {
    /// Puts the entries of a page in the place of those that were there.
    pub(crate) fn set_entries(&mut self, page: &PageSeg<'_>)
        requires room { length (page_value page.now).entries
            ≤ self.old.free + length self.old.entries }
        ensures { self.new ≡ with_entries (page_value page.now).entries self.old }
    {
        self.pool.clear(ENTRIES);
        push_entries(&mut self.pool, page);
    }

    /// Takes the entries of the page out.
    pub fn clear_entries(&mut self)
        ensures { self.new ≡ with_entries [] self.old }
    {
        self.pool.clear(ENTRIES);
    }
}

// Puts the entries of a page into their list, which is empty.
fn push_entries(pool: &mut Pool<Node>, page: &PageSeg<'_>)
    requires list { 0 < length pool.old.lists }
    requires empty { list_of pool.old 0 ≡ [] }
    requires room { length (page_value page.now).entries ≤ pool.old.free }
    ensures { HasEntries (page_value page.now).entries pool.old pool.new }
{
    for i in 0..page.count() {
        let _ = pool.push_back(ENTRIES, Node::Entry(page.entry(i)));
    }
}
