use stream_syntax::State;
use sub_base::Items;

/// A display set: its presentation time, its page state, and what it carries. Cues and colours are
/// indices into the lists of its epoch, from 0.
#[derive(Drop)]
pub struct PlannedSet {
    /// The presentation time, in ticks.
    pub pts: u64,
    /// The page state.
    pub state: State,
    /// The record of the script that brings the set, from 1.
    pub row: u64,
    /// The index of its epoch in the script.
    pub epoch: u32,
    /// The version of the page, 0 to 15.
    pub page_version: u8,
    /// The ids of the regions that the page lists, from the top of the display.
    pub shown: Items<u8>,
    /// The regions that are sent, in order of their ids.
    pub regions: Items<SentRegion>,
    /// The CLUTs that are sent, in order of their ids.
    pub cluts: Items<SentClut>,
    /// The cues whose objects are sent, in the script's order.
    pub cues: Items<u32>,
}

/// A region as a set sends it.
#[derive(Drop)]
pub struct SentRegion {
    /// The id of the region.
    pub id: u8,
    /// Its version, 0 to 15.
    pub version: u8,
    /// Whether the region is filled with code 0 before its objects are drawn.
    pub fill: bool,
    /// The cues that the region lists, in the script's order.
    pub cues: Items<u32>,
}

/// The entries of a CLUT as a set sends them.
#[derive(Drop)]
pub struct SentClut {
    /// The id of the CLUT.
    pub clut: u8,
    /// Its version, 0 to 15.
    pub version: u8,
    /// The colour rows that are sent, by depth and entry.
    pub rows: Items<u32>,
}
