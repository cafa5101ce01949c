//! The nodes of the composition memory.

use pixel_store::Slot;
use stream_syntax::{Listing, PageEntry, RegionHead};
use sub_base::Depth;

/// What a node of the composition memory has.
#[derive(Clone, Copy)]
pub(crate) enum Node {
    /// An entry of the page.
    Entry(PageEntry),
    Region(RegionNode),
    Listing(ListingNode),
    Clut(ClutNode),
    /// An entry of a table of a CLUT that is set.
    Colour(TablePlace),
}

/// A region: its head by its last taken segment, and the slot of its pixels.
#[derive(Clone, Copy)]
pub(crate) struct RegionNode {
    pub head: RegionHead,
    pub slot: Slot,
}

/// A listing of a region, and the version (object_version_number) with which its object was painted
/// last.
#[derive(Clone, Copy)]
pub(crate) struct ListingNode {
    pub listing: Listing,
    pub painted: Option<u8>,
}

/// A CLUT (CLUT_id) and its version (CLUT_version_number).
#[derive(Clone, Copy)]
pub(crate) struct ClutNode {
    pub clut: u8,
    pub version: u8,
}

/// An entry (CLUT_entry_id) of the table of a depth of a CLUT.
#[derive(Clone, Copy)]
pub(crate) struct TablePlace {
    pub clut: u8,
    pub depth: Depth,
    pub entry: u8,
}
