//! Where a region is in the buffer, and its rows there.

ghost use Rattle.std.specs.Prelude.{◌≡◌, ℕ, ◌+◌, ◌*◌, ◌%◌, ◌<◌, ◌≤◌, ◌⊎◌, ◌^◌, length, slice_index, slice_range};
ghost use Rattle.sub_base.specs.Depth.{code_count};
ghost use Rattle.string_painting.specs.Codes.{codes_in_byte};
ghost use Rattle.pixel_store.specs.Private.Extents.{stride_of, size_of, row_start as start_of, pixel, Fits};
ghost use Rattle.pixel_store.specs.Private.Painting.{PaintsRow, Fills};

use crate::byte::{code, codes_over, pattern, whole_bytes};
use crate::span::{fill, paint};
use sub_base::Depth;

/// The first byte of a region, and its sides and depth.
#[derive(Clone, Copy)]
pub struct Extent {
    pub offset: usize,
    pub width: u16,
    pub height: u16,
    pub depth: Depth,
}

/// How many bytes a row takes.
pub(crate) fn stride(extent: Extent) -> usize
    ensures { result ≡ stride_of extent }
{
    (usize::from(extent.width) * usize::from(extent.depth.bits()) + 7) / 8
}

/// How many bytes the region takes.
pub(crate) fn size(extent: Extent) -> usize
    ensures { result ≡ size_of extent }
{
    stride(extent) * usize::from(extent.height)
}

/// The first byte of a row.
pub(crate) fn row_start(extent: Extent, y: u16) -> usize
    requires { start_of extent y < 2 ^ 64 }
    ensures { result ≡ start_of extent y }
{
    extent.offset + usize::from(y) * stride(extent)
}

/// The code in a column of a row.
pub(crate) fn code_at(bytes: &[u8], extent: Extent, x: u16, y: u16) -> u8
    requires fits { Fits bytes.now extent }
    requires x { x < extent.width }
    requires y { y < extent.height }
    ensures { result ≡ pixel bytes.now extent x y }
{
    let x = usize::from(x);
    let index = row_start(extent, y) + whole_bytes(extent.depth, x);
    code(extent.depth, bytes[index], codes_over(extent.depth, x))
}

/// The bytes of a row.
pub(crate) fn packed_row(bytes: &[u8], extent: Extent, y: u16) -> &[u8]
    requires fits { Fits bytes.now extent }
    requires y { y < extent.height }
    ensures { result.now
        ≡ slice_range bytes.now (start_of extent y) (start_of extent y + stride_of extent) }
{
    let start = row_start(extent, y);
    &bytes[start..start + stride(extent)]
}

// Paints the columns from `from` up to `to` of a row. What works on the slice of the whole buffer
// has a function of its own, so that callers see the buffer as one list.
fn paint_row_in(bytes: &mut [u8], extent: Extent, y: u16, from: usize, to: usize, code: u8)
    requires fits { Fits bytes.old extent }
    requires y { y < extent.height }
    requires order { from ≤ to }
    requires to { to ≤ extent.width }
    requires code { code < code_count extent.depth }
    ensures { PaintsRow extent y from to code bytes.old bytes.new }
{
    paint(bytes, extent.depth, row_start(extent, y), from, to, code);
}

// Paints all rows, where they have no bits behind their last pixels: they are one span of equal
// bytes.
fn fill_whole(bytes: &mut [u8], extent: Extent, code: u8)
    requires fits { Fits bytes.old extent }
    requires full { extent.width % codes_in_byte extent.depth ≡ 0 }
    requires code { code < code_count extent.depth }
    ensures { Fills extent extent.height code bytes.old bytes.new }
{
    let end = extent.offset + size(extent);
    fill(bytes, extent.offset, end, pattern(extent.depth, code));
}

// Paints all rows, one after another.
fn fill_each_row(bytes: &mut [u8], extent: Extent, code: u8)
    requires fits { Fits bytes.old extent }
    requires code { code < code_count extent.depth }
    ensures { Fills extent extent.height code bytes.old bytes.new }
{
    let width = usize::from(extent.width);
    for y in 0..extent.height {
        paint_row_in(bytes, extent, y, 0, width, code);
    }
}

// Paints all rows.
fn fill_rows_in(bytes: &mut [u8], extent: Extent, code: u8)
    requires fits { Fits bytes.old extent }
    requires code { code < code_count extent.depth }
    ensures { Fills extent extent.height code bytes.old bytes.new }
{
    if codes_over(extent.depth, usize::from(extent.width)) == 0 {
        fill_whole(bytes, extent, code);
    } else {
        fill_each_row(bytes, extent, code);
    }
}

/// Paints the columns from `from` up to `to` of a row.
pub(crate) fn paint_row(
    bytes: &mut Vec<u8>,
    extent: Extent,
    y: u16,
    from: usize,
    to: usize,
    code: u8,
)
    requires fits { Fits bytes.old.items extent }
    requires y { y < extent.height }
    requires order { from ≤ to }
    requires to { to ≤ extent.width }
    requires code { code < code_count extent.depth }
    ensures paints { PaintsRow extent y from to code bytes.old.items bytes.new.items }
    ensures length { length bytes.new.items ≡ length bytes.old.items }
{
    paint_row_in(bytes.as_mut_slice(), extent, y, from, to, code);
}

/// Paints all rows.
pub(crate) fn fill_rows(bytes: &mut Vec<u8>, extent: Extent, code: u8)
    requires fits { Fits bytes.old.items extent }
    requires code { code < code_count extent.depth }
    ensures fills { Fills extent extent.height code bytes.old.items bytes.new.items }
    ensures length { length bytes.new.items ≡ length bytes.old.items }
{
    fill_rows_in(bytes.as_mut_slice(), extent, code);
}

/// Sets some bytes to 0.
pub(crate) fn clear(bytes: &mut Vec<u8>, from: usize, to: usize)
    requires order { from ≤ to }
    requires to { to ≤ length bytes.old.items }
    ensures inside { (i : ℕ) → from ≤ i → i < to → slice_index bytes.new.items i ≡ 0 }
    ensures outside { (i : ℕ) → (i < from) ⊎ (to ≤ i)
        → slice_index bytes.new.items i ≡ slice_index bytes.old.items i }
    ensures length { length bytes.new.items ≡ length bytes.old.items }
{
    fill(bytes.as_mut_slice(), from, to, 0);
}
