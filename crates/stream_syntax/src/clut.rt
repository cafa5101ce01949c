use sub_base::Colour;

/// An entry of a CLUT: in which of the three tables it stands, and its colour as it is shown
/// (EN 300 743, CLUT definition segment).
#[derive(Clone, Copy, Debug, PartialEq, Eq)]
pub struct ClutEntry {
    /// The number of the entry in its tables, 0 to 255 (CLUT_entry_id).
    pub entry: u8,
    /// It stands in the table for codes of two bits (2-bit/entry_CLUT_flag).
    pub two: bool,
    /// It stands in the table for codes of four bits (4-bit/entry_CLUT_flag).
    pub four: bool,
    /// It stands in the table for codes of eight bits (8-bit/entry_CLUT_flag).
    pub eight: bool,
    /// The colour, as a receiver shows it (Y_value, Cr_value, Cb_value, T_value).
    pub colour: Colour,
}
