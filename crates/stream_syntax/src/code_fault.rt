use thiserror::Error;

/// Why a sub-block of a pixel data block is not in the grammar (EN 300 743, pixel-data sub-block).
/// The kinds stand in the order in which they are tested.
#[derive(Clone, Copy, Debug, PartialEq, Eq, Error)]
pub enum CodeKind {
    /// The type byte (data_type) names no sub-block.
    #[error("unknown sub-block type")]
    UnknownType,
    /// The string has more bits per pixel code than the region.
    #[error("string deeper than the region")]
    TooDeep,
    /// The string has no end code in the block.
    #[error("string without an end code")]
    CutString,
    /// The map table is longer than the rest of the block.
    #[error("cut map table")]
    CutTable,
}

/// The first sub-block of a pixel data block that is not in the grammar: the place of its type
/// byte, counted from the block's first byte, and why.
#[derive(Clone, Copy, Debug, PartialEq, Eq, Error)]
#[error("{kind} at byte {place}")]
pub struct CodeFault {
    /// The offset of the type byte in the block.
    pub place: u32,
    /// The first test that fails there.
    pub kind: CodeKind,
}
