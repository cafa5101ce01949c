use sub_base::Depth;

/// An object that a region shows, and the place of its upper left corner in pixels of the region
/// (EN 300 743, region composition segment).
#[derive(Clone, Copy, Debug, PartialEq, Eq)]
pub struct Listing {
    /// The id of the object (object_id).
    pub object: u16,
    /// The column of its left edge, 0 to 4,095 (object_horizontal_position).
    pub x: u16,
    /// The row of its upper edge, 0 to 4,095 (object_vertical_position).
    pub y: u16,
}

/// A region without its objects (EN 300 743, region composition segment): its sides in pixels, the
/// bits of its pixel codes, its CLUT, and the codes with which it is filled at each depth.
#[derive(Clone, Copy, Debug, PartialEq, Eq)]
pub struct RegionHead {
    /// The id of the region (region_id).
    pub region: u8,
    /// The version, 0 to 15 (region_version_number): a segment of the same version as the last one
    /// of its id changes nothing.
    pub version: u8,
    /// Whether the region is filled with the code of its depth before its objects are drawn
    /// (region_fill_flag).
    pub fill: bool,
    /// The pixels of a row, at least 1 (region_width).
    pub width: u16,
    /// The rows, at least 1 (region_height).
    pub height: u16,
    /// The bits of its pixel codes (region_depth).
    pub depth: Depth,
    /// The id of its CLUT (CLUT_id).
    pub clut: u8,
    /// The code that fills a region of 8 bits (region_8-bit_pixel_code).
    pub code8: u8,
    /// The code that fills a region of 4 bits, 0 to 15 (region_4-bit_pixel-code).
    pub code4: u8,
    /// The code that fills a region of 2 bits, 0 to 3 (region_2-bit_pixel-code).
    pub code2: u8,
}
