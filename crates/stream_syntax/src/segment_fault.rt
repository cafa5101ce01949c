use crate::code_fault::CodeFault;
use thiserror::Error;

/// What is wrong with the bytes of a segment.
#[derive(Clone, Copy, Debug, PartialEq, Eq, Error)]
pub enum SegmentKind {
    /// No byte is there, or the first is not 0F (sync_byte).
    #[error("no sync byte")]
    NoSync,
    /// The bytes end before the segment does.
    #[error("cut short")]
    Cut,
    /// The length (segment_length) is none that the kind of segment can have.
    #[error("a length that does not fit")]
    BadLength,
    /// The page state (page_state) has the reserved value 11.
    #[error("a reserved page state")]
    ReservedState,
    /// The depth of a region (region_depth) is not 1, 2 or 3.
    #[error("an unknown depth")]
    BadDepth,
    /// The object is coded as characters (object_coding_method 1, or an object_type other than 0 in
    /// a region's listing).
    #[error("an object of characters")]
    CharacterObject,
    /// The object is held in the receiver (object_provider_flag).
    #[error("an object that the receiver holds")]
    HeldObject,
    /// The object is coded progressively (object_coding_method 2).
    #[error("progressively coded pixels")]
    Progressive,
    /// The coding method (object_coding_method) has the reserved value 3.
    #[error("a reserved coding method")]
    ReservedMethod,
    /// A pixel data block of the object is not in the grammar: its own fault, whose place counts in
    /// that block.
    #[error("{0}")]
    Code(CodeFault),
    /// The window (display_window) is empty, or passes the display.
    #[error("a window outside the display")]
    BadWindow,
    /// A side of a region is 0.
    #[error("a region without pixels")]
    ZeroSize,
}

/// The first fault of a segment, and its place: a count of bytes from the segment's first.
#[derive(Clone, Copy, Debug, PartialEq, Eq, Error)]
#[error("{kind} at byte {place} of the segment")]
pub struct SegmentFault {
    /// The offset from the segment's first byte.
    pub place: u32,
    /// The first test that fails.
    pub kind: SegmentKind,
}
