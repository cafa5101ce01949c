ghost use Rattle.std.specs.Prelude.{◌≡◌, ◌<◌, ◌^◌};
ghost use Rattle.cue_records.specs.RowValues.{area as area_of_head};

use sub_base::{Colour, Depth};

/// The sides of the display, in pixels.
#[derive(Clone, Copy, Debug)]
pub struct DisplayRow {
    /// 1 to 1,920.
    pub width: u16,
    /// 1 to 1,080.
    pub height: u16,
}

/// The depth of a picture and its sides, in pixels.
#[derive(Clone, Copy, Debug)]
pub struct PictureHead {
    /// The bits of its codes.
    pub depth: Depth,
    /// 1 to 1,920 in a record; 0 for an empty text.
    pub width: u16,
    /// 1 to 1,080 in a record.
    pub height: u16,
}

/// When and where a picture is placed: ticks, the region, and the place in it, in pixels.
#[derive(Clone, Copy, Debug)]
pub struct PlaceRow {
    /// The first tick at which it is shown.
    pub start: u64,
    /// The tick from which on it is shown no more.
    pub end: u64,
    /// The number of the region.
    pub region: u8,
    /// The column of its left edge in the region.
    pub x: u16,
    /// The row of its upper edge in the region.
    pub y: u16,
}

/// A colour that an entry of a CLUT has at one depth, from a tick on.
#[derive(Clone, Copy, Debug, PartialEq, Eq)]
pub struct ColourRow {
    /// The tick from which the entry has the colour.
    pub tick: u64,
    /// The record of the script, from 1.
    pub row: u64,
    /// The number of the CLUT.
    pub clut: u8,
    /// The depth whose table has the entry.
    pub depth: Depth,
    /// The number of the entry, below the codes of the depth.
    pub entry: u8,
    /// The colour as it is shown.
    pub colour: Colour,
}

/// How many codes a picture of these sides has.
pub fn area(head: PictureHead) -> u64
    ensures value { result ≡ area_of_head head }
    ensures most { result < 2 ^ 32 }
{
    u64::from(head.width) * u64::from(head.height)
}
