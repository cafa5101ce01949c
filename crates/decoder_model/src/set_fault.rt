use stream_syntax::SegmentFault;
use thiserror::Error;

/// Why a display set is broken (EN 300 743, clauses 5.2 and 7.2). The kinds stand in the order of
/// the tests, with two exceptions: pixel code strings that are too deep are found last, as the
/// objects are painted, and the last kind is found before a set is whole.
#[derive(Clone, Copy, Debug, PartialEq, Eq, Error)]
pub enum SetFault {
    /// A segment is refused, or the pixel code strings of an object are deeper than a region that
    /// it is painted in.
    #[error("{0}")]
    Segment(SegmentFault),
    /// A second segment of this type with this id: a region of the same id, a page or a display,
    /// whose id is 0.
    #[error("a second segment of type {kind} with id {id}")]
    TwiceInSet { kind: u8, id: u8 },
    /// The set has no page composition segment.
    #[error("no page composition segment")]
    NoPage,
    /// The display has more columns or rows than the profile.
    #[error("the display of {width} by {height} pixels is larger than the profile's")]
    DisplayTooLarge { width: u32, height: u32 },
    /// The page shows a region that no region composition segment of the epoch defines.
    #[error("the page shows region {id}, which is not defined")]
    NoSuchRegion { id: u8 },
    /// The region has another size or depth than before in the epoch.
    #[error("region {id} has another size or depth than before")]
    RegionChanged { id: u8 },
    /// The region needs more bytes of pixels than are free.
    #[error("the region needs {need} bytes of pixels, and {free} are free")]
    PixelFull { need: u64, free: u64 },
    /// The page composition has more nodes than the profile.
    #[error("the composition has {size} nodes, more than the profile's")]
    CompositionFull { size: u32 },
    /// The segments up to the first that has no room have this many bytes with it, more than the
    /// coded data buffer.
    #[error("the segments up to the first without room have {size} bytes, more than the profile's")]
    SetTooLong { size: u64 },
}
