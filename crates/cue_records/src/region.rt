ghost use Rattle.std.specs.Prelude.{◌≡◌};
ghost use Rattle.cue_records.specs.Regions.{has_room_at, lies_on, share_row};

use crate::row_values::PictureHead;
use sub_base::Depth;

/// A part of the display that shows cues: its place on the display and its sides in pixels, the
/// depth of its pixel codes, and its CLUT (EN 300 743, region composition segment).
#[derive(Clone, Copy, Debug, PartialEq, Eq)]
pub struct Region {
    /// The region's number in its epoch, 0 to 255.
    pub id: u8,
    /// The column of its left edge, in pixels of the display.
    pub x: u16,
    /// The row of its upper edge, in pixels of the display.
    pub y: u16,
    /// The pixels of a row, at least 1.
    pub width: u16,
    /// The rows, at least 1.
    pub height: u16,
    /// The bits of its pixel codes.
    pub depth: Depth,
    /// The number of its CLUT.
    pub clut: u8,
}

impl Region {
    /// Whether the region lies on a display of these sides.
    pub fn lies_on(&self, width: u16, height: u16) -> bool
        ensures { result ≡ lies_on width height self.now }
    {
        // In 32 bits, as the sum of a place and a side may pass 16.
        u32::from(self.x) + u32::from(self.width) <= u32::from(width)
            && u32::from(self.y) + u32::from(self.height) <= u32::from(height)
    }

    /// Whether the two regions share a row of the display.
    pub fn shares_row_with(&self, other: &Region) -> bool
        ensures { result ≡ share_row self.now other.now }
    {
        u32::from(self.y) < u32::from(other.y) + u32::from(other.height)
            && u32::from(other.y) < u32::from(self.y) + u32::from(self.height)
    }

    /// Whether a picture lies inside the region at a place of it.
    pub fn has_room_at(&self, x: u16, y: u16, head: PictureHead) -> bool
        ensures { result ≡ has_room_at self.now x y head }
    {
        u32::from(x) + u32::from(head.width) <= u32::from(self.width)
            && u32::from(y) + u32::from(head.height) <= u32::from(self.height)
    }
}
