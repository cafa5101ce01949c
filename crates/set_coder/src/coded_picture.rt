use picture_fields::FieldLengths;
use sub_base::Depth;

/// The pixel data blocks of a picture's two fields for a region of a depth, one behind the other.
#[derive(Drop)]
pub struct CodedPicture {
    /// The picture's index in the script.
    pub(crate) number: u32,
    pub(crate) region: Depth,
    pub(crate) lengths: FieldLengths,
    pub(crate) blocks: Vec<u8>,
}

/// Where the blocks of a picture stand among those that are kept, for a region of each depth. It is
/// a hint: what is found by it is looked at before it is used.
#[derive(Clone, Copy, Debug, PartialEq, Eq)]
pub struct Slots {
    pub(crate) two: Option<usize>,
    pub(crate) four: Option<usize>,
    pub(crate) eight: Option<usize>,
}

/// The blocks of the pictures that the cues of a script show, each coded once for each depth of the
/// regions that show it. With them the sets of the script are measured and written without coding a
/// picture again.
#[derive(Drop)]
pub struct KeptBlocks {
    pub(crate) slots: Vec<Slots>,
    pub(crate) coded: Vec<CodedPicture>,
}

/// Kept blocks that are looked up as sets are measured and written; none for a set that is coded by
/// itself.
#[derive(Clone, Copy)]
pub(crate) struct BlockLookup<'a> {
    pub(crate) slots: &'a [Slots],
    pub(crate) coded: &'a [CodedPicture],
}
