/// The page state of a display set: whether a receiver can begin at it (EN 300 743, page
/// composition segment, page_state).
#[derive(Clone, Copy, Debug, PartialEq, Eq)]
pub enum State {
    /// The set changes the page that is shown (normal case).
    Normal,
    /// The set has the whole page again, so a receiver can begin here (acquisition point).
    Acquisition,
    /// The set begins a new page, of which nothing was known before (mode change).
    ModeChange,
}

/// A region that the page shows, and the place of its upper left corner in pixels of the display
/// (EN 300 743, page composition segment).
#[derive(Clone, Copy, Debug, PartialEq, Eq)]
pub struct PageEntry {
    /// The id of the region (region_id).
    pub region: u8,
    /// The column of its left edge (region_horizontal_address).
    pub x: u16,
    /// The row of its upper edge (region_vertical_address).
    pub y: u16,
}
