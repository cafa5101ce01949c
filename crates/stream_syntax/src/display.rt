/// The part of the display in which regions are placed: its first and last column and its first and
/// last row, the ends included (EN 300 743, display definition segment, display_window).
#[derive(Clone, Copy, Debug, PartialEq, Eq)]
pub struct Window {
    /// The first column, in pixels of the display (display_window_horizontal_position_minimum).
    pub left: u16,
    /// The last column (display_window_horizontal_position_maximum).
    pub right: u16,
    /// The first row (display_window_vertical_position_minimum).
    pub top: u16,
    /// The last row (display_window_vertical_position_maximum).
    pub bottom: u16,
}
