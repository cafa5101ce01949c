/// What one code of a pixel code string draws: `length` pixels from column `x` of a line on, both
/// counted from 0 at the start of the block. `read` is the pixel code as it stands in the string
/// and `code` the region's pixel code after the map table (EN 300 743, pixel-data sub-block).
#[derive(Clone, Copy, Debug, PartialEq, Eq)]
pub struct Run {
    /// The column of the first pixel.
    pub x: u32,
    /// The line of the block, which is every second row of the region.
    pub line: u32,
    /// How many pixels are drawn.
    pub length: u32,
    /// The code as it is in the string.
    pub read: u8,
    /// The region's code, which is drawn.
    pub code: u8,
}
