//! The pixels of one code.

ghost use Rattle.std.specs.Prelude.{◌≡◌, ◌+◌, ◌*◌, ◌<◌, ◌≤◌, false, length, min, replicate};
ghost use Rattle.sub_base.specs.Depth.{code_count};
ghost use Rattle.string_painting.specs.Codes.{codes_in_byte};
ghost use Rattle.string_painting.specs.Painting.{region_code as code_in_region, IsMapTable, laid_over, LaysPixels};
ghost use Rattle.string_painting.specs.Private.Columns.{PaintsColumns};
ghost use Rattle.string_painting.specs.Private.Pairs.{LaysPair};
ghost use Rattle.string_painting.specs.Private.Packing.{half_of};

use crate::columns::{paint_column, paint_columns, paint_pair};
use sub_base::Depth;

/// How the pixels of a string are laid over those of a region.
#[derive(Clone, Copy, Debug, PartialEq, Eq)]
pub struct Brush {
    /// The depth of the string.
    pub string: Depth,
    /// The depth of the region.
    pub region: Depth,
    /// Whether pixels of code 1, as it is read, leave the region as it is
    /// (non_modifying_colour_flag of EN 300 743).
    pub see_through: bool,
}

impl Brush {
    /// The same brush, with depths that are known where it is used.
    #[inline(always)]
    pub(crate) fn at_depths(self, string: Depth, region: Depth) -> Brush
        requires string { string ≡ self.string }
        requires region { region ≡ self.region }
        ensures { result ≡ self }
    {
        Brush {
            string,
            region,
            see_through: self.see_through,
        }
    }
}

/// Where pixels are laid: the columns of the row, and the first column of the pixels.
#[derive(Clone, Copy, Debug, PartialEq, Eq)]
pub struct RowPlace {
    /// How many columns the region has. Codes of the row behind these stay as they are.
    pub width: u16,
    /// The column of the first pixel, which may lie behind the last column.
    pub x: u32,
}

/// The region's code for a code of a string.
#[inline(always)]
fn region_code(brush: Brush, table: &[u8], code: u8) -> u8
    requires table { IsMapTable brush table.now }
    requires code { code < code_count brush.string }
    ensures code { result ≡ code_in_region brush table.now code }
    ensures fits { result < code_count brush.region }
{
    match (brush.string, brush.region) {
        (Depth::Two, Depth::Four) => half(table[code as usize / 2], code),
        (Depth::Two, Depth::Eight) => table[code as usize],
        (Depth::Four, Depth::Eight) => table[code as usize],
        _ => code,
    }
}

/// The half of a byte for a code, the high one for an even code.
#[inline(always)]
fn half(byte: u8, code: u8) -> u8
    ensures { result ≡ half_of byte code }
{
    if code % 2 == 0 { byte / 16 } else { byte % 16 }
}

// Paints so many columns from a place on, as far as the row has them.
#[inline(always)]
fn paint_run(row: &mut [u8], region: Depth, place: RowPlace, count: u32, code: u8)
    requires width { place.width ≤ length row.old * codes_in_byte region }
    requires code { code < code_count region }
    ensures { PaintsColumns region (min place.x place.width)
        (min (place.x + count) place.width) code row.old row.new }
{
    let width = usize::from(place.width);
    let from = place.x as usize;
    if count == 1 {
        if from < width {
            paint_column(row, region, from, code);
        }
    } else {
        let to = from + count as usize;
        paint_columns(row, region, from.min(width), to.min(width), code);
    }
}

/// Lays so many pixels of a code, as it is read, over columns from one on, as far as the row has
/// them.
#[inline(always)]
pub(crate) fn lay_pixels(
    row: &mut [u8],
    place: RowPlace,
    brush: Brush,
    table: &[u8],
    count: u32,
    read: u8,
)
    requires width { place.width ≤ length row.old * codes_in_byte brush.region }
    requires table { IsMapTable brush table.now }
    requires code { read < code_count brush.string }
    ensures { LaysPixels brush.region (laid_over brush table.now) place.width place.x
        (replicate count read) row.old row.new }
{
    if brush.see_through && read == 1 {
        return;
    }
    let code = region_code(brush, table, read);
    paint_run(row, brush.region, place, count, code);
}

/// Lays two single pixels over a column and the one behind it, both of the region.
#[inline(always)]
pub(crate) fn lay_pair(
    row: &mut [u8],
    place: RowPlace,
    brush: Brush,
    table: &[u8],
    first: u8,
    second: u8,
)
    requires width { place.width ≤ length row.old * codes_in_byte brush.region }
    requires table { IsMapTable brush table.now }
    requires first { first < code_count brush.string }
    requires second { second < code_count brush.string }
    requires seen { brush.see_through ≡ false }
    requires room { place.x + 1 < place.width }
    ensures { LaysPair brush table.now place first second row.old row.new }
{
    let before = region_code(brush, table, first);
    let behind = region_code(brush, table, second);
    paint_pair(row, brush.region, place.x as usize, before, behind);
}
