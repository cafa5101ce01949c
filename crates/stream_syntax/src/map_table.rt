/// The map tables of a pixel data block: 2 bit codes to 4 bit codes, 2 bit to 8 bit, and 4 bit to 8
/// bit (EN 300 743, pixel-data sub-block).
#[derive(Clone, Copy, Debug, PartialEq, Eq)]
pub enum MapTable {
    /// Of 2 bit codes in a region of 4 bits (2_to_4-bit_map-table).
    TwoToFour,
    /// Of 2 bit codes in a region of 8 bits (2_to_8-bit_map-table).
    TwoToEight,
    /// Of 4 bit codes in a region of 8 bits (4_to_8-bit_map-table).
    FourToEight,
}
