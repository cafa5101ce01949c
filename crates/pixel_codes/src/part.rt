ghost use Rattle.std.specs.Prelude.{◌≡◌, ◌+◌, ◌<◌, ◌≤◌, length, take, IsTrue, ◌↔◌, IfOk, IfErr, ◌∷◌};
ghost use Rattle.stream_syntax.specs.PixelBlocks.{Part, IsPart, IsRefused, IsNoDeeper, table_size};
ghost use Rattle.pixel_codes.specs.Heads as parts;

use code_strings::string_end;
use stream_syntax::{
    CodeKind, EIGHT_BIT_STRING, END_OF_LINE, FOUR_BIT_STRING, FOUR_TO_EIGHT_TABLE, MapTable,
    TWO_BIT_STRING, TWO_TO_EIGHT_TABLE, TWO_TO_FOUR_TABLE,
};
use sub_base::Depth;

/// What the type byte of a sub-block says (data_type of EN 300 743, pixel-data sub-block).
#[derive(Clone, Copy, Debug, PartialEq, Eq)]
pub enum Head {
    /// A pixel code string of a depth follows.
    PixelString(Depth),
    /// The entries of a map table follow.
    Table(MapTable),
    /// The line has ended: nothing follows.
    LineEnd,
}

/// The sub-block that a type byte begins; none where it begins none.
pub fn head_of(first: u8) -> Option<Head>
    ensures { result ≡ parts.head_of first }
{
    match first {
        TWO_BIT_STRING => Some(Head::PixelString(Depth::Two)),
        FOUR_BIT_STRING => Some(Head::PixelString(Depth::Four)),
        EIGHT_BIT_STRING => Some(Head::PixelString(Depth::Eight)),
        TWO_TO_FOUR_TABLE => Some(Head::Table(MapTable::TwoToFour)),
        TWO_TO_EIGHT_TABLE => Some(Head::Table(MapTable::TwoToEight)),
        FOUR_TO_EIGHT_TABLE => Some(Head::Table(MapTable::FourToEight)),
        END_OF_LINE => Some(Head::LineEnd),
        _ => None,
    }
}

/// How many bytes of entries a map table has.
pub fn size_of_table(table: MapTable) -> usize
    ensures { result ≡ table_size table }
{
    match table {
        MapTable::TwoToFour => 2,
        MapTable::TwoToEight => 4,
        MapTable::FourToEight => 16,
    }
}

/// Whether a string of that depth may stand in the pixel data of a region of that depth.
pub fn is_no_deeper(depth: Depth, region: Depth) -> bool
    ensures { IsTrue result ↔ IsNoDeeper depth region }
{
    match depth {
        Depth::Two => true,
        Depth::Four => region != Depth::Two,
        Depth::Eight => region == Depth::Eight,
    }
}

/// The bytes of the sub-block with this type byte and what follows it, or why none begins so.
pub(crate) fn part_size(first: u8, body: &[u8], region: Depth) -> Result<usize, CodeKind>
    requires { length body.now ≤ 65534 }
    ensures part { IfOk result
        (λ size. (1 ≤ size) × (size ≤ length body.now + 1) × (part : Part)
        × IsPart region part (take size (first ∷ body.now))) }
    ensures refused { IfErr result (λ kind. IsRefused region kind (first ∷ body.now)) }
{
    match head_of(first) {
        None => Err(CodeKind::UnknownType),
        Some(Head::LineEnd) => Ok(1),
        Some(Head::PixelString(depth)) => {
            if is_no_deeper(depth, region) {
                let size = string_end(body, depth).ok_or(CodeKind::CutString)?;
                Ok(1 + size)
            } else {
                Err(CodeKind::TooDeep)
            }
        }
        Some(Head::Table(table)) => {
            let size = size_of_table(table);
            if body.len() < size {
                Err(CodeKind::CutTable)
            } else {
                Ok(1 + size)
            }
        }
    }
}
