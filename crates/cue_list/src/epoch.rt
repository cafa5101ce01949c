ghost use Rattle.std.specs.Prelude.{◌≡◌};
ghost use Rattle.cue_list.specs.Authored.{is_live};

use cue_records::{ColourRow, Region};
use sub_base::Items;

/// A span of a programme in which the regions stay as they are: from its start to the start of the
/// next one.
#[derive(Drop)]
pub struct Epoch {
    /// The tick at which it starts.
    pub start: u64,
    /// The record of the script that starts it, from 1.
    pub row: u64,
    /// The regions, in the script's order.
    pub regions: Items<Region>,
    /// The colours of CLUT entries, in the script's order.
    pub colours: Items<ColourRow>,
    /// The cues, in the script's order.
    pub cues: Items<Cue>,
}

/// A picture that is shown in a region for a time.
#[derive(Clone, Copy, Debug, PartialEq, Eq)]
pub struct Cue {
    /// The first tick at which it is shown.
    pub start: u64,
    /// The tick from which on it is shown no more.
    pub end: u64,
    /// The record of the script, from 1.
    pub row: u64,
    /// The region's number.
    pub region: u8,
    /// The column of the picture's left edge, in pixels of the region.
    pub x: u16,
    /// The row of the picture's upper edge, in pixels of the region.
    pub y: u16,
    /// The index of the picture in the script's list of pictures.
    pub picture: u32,
    /// Whether code 1 of the picture lets what lies beneath be seen.
    pub see_through: bool,
}

impl Cue {
    /// Whether the cue is shown at a tick.
    pub fn is_live_at(&self, tick: u64) -> bool
        ensures { result ≡ is_live tick self.now }
    {
        self.start <= tick && tick < self.end
    }
}
