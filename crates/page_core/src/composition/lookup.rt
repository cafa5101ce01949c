//! The entries of the page in the composition memory, in order.

ghost use Rattle.std.specs.Prelude.{◌≡◌, ◌==◌, ◌∷◌, [], MatchOption};
ghost use Rattle.std.specs.List.{list_any};
ghost use Rattle.stream_syntax.specs.declared.page.PageEntry.{PageEntry as EntryOf};
ghost use Rattle.page_core.specs.Private.Nodes.{entry_in as entry_of};

use crate::composition::{CompositionMemory, ENTRIES};
use crate::node::Node;
use comp_pool::{NodeId, Pool};
use std::marker::Model;
use stream_syntax::PageEntry;

/// The entries of a page, one after another. It is seen as the list of the entries that come.
#[derive(Drop)]
pub struct Entries<'a> {
    pool: &'a Pool<Node>,
    next: Option<NodeId>,
}

impl<'a> Model for Entries<'a> {
    ghost use Rattle.std.specs.Prelude.{List};
    ghost use Rattle.stream_syntax.specs.declared.page.PageEntry.{PageEntry};
    ghost use Rattle.comp_pool.specs.Pool.{list_of};
    ghost use Rattle.page_core.specs.Private.Entries.{entries_left, IsWalk};

    ghost Value = { List PageEntry };

    ghost view = { λ e. entries_left e.pool.now e.next };

    ghost invariant = { λ e. IsWalk e.pool.now e.next };
}

impl Entries<'_> {
    /// The next entry; none exactly after the last one.
    pub fn next_entry(&mut self) -> Option<PageEntry>
        ensures { MatchOption result ((self.old ≡ []) × (self.new ≡ []))
            (λ entry. self.old ≡ entry ∷ self.new) }
    {
        let node = self.next?;
        let entry = entry_in(self.pool.item(node));
        self.next = self.pool.next(node);
        entry
    }
}

/// The entry that a node has.
fn entry_in(node: Node) -> Option<PageEntry>
    ensures { result ≡ entry_of node }
{
    match node {
        Node::Entry(entry) => Some(entry),
        _ => None,
    }
}

impl CompositionMemory {
    /// The entries of the page, in order.
    pub(crate) fn entries(&self) -> Entries<'_>
        ensures { result ≡ self.now.entries }
    {
        Entries {
            pool: &self.pool,
            next: self.pool.first(ENTRIES),
        }
    }

    /// Whether the page lists a region of that id.
    pub(crate) fn is_listed(&self, id: u8) -> bool
        ensures { result ≡ list_any (λ (entry : EntryOf). entry.region == id) self.now.entries }
    {
        let mut entries = self.entries();
        while let Some(entry) = entries.next_entry() {
            if entry.region == id {
                return true;
            }
        }
        false
    }
}
