use stream_syntax::Listing;

/// Where the lines of a field of an object go: from the corner of a listing on, the lines of the
/// top field to every second row from the first one on, those of the bottom field to the rows
/// between (EN 300 743, clause 7.2.5).
#[derive(Clone, Copy, Debug, PartialEq, Eq)]
pub struct FieldPlace {
    /// The listing of the object in the region, with the corner from which the lines go on.
    pub listing: Listing,
    /// 0 for the top field, 1 for the bottom field.
    pub first_row: u32,
    /// Whether pixels of code 1, as it is read, leave the region as it is
    /// (non_modifying_colour_flag of EN 300 743).
    pub see_through: bool,
}
