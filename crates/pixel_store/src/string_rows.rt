//! Pixel code strings painted into rows of a region.

ghost use Rattle.std.specs.Prelude.{◌≡◌, ℕ, ◌+◌, ◌*◌, ◌^◌, ◌<◌, List, ◌++◌, length};
ghost use Rattle.stream_syntax.specs.PixelCodes.{Code, IsString};
ghost use Rattle.string_painting.specs.Painting.{IsMapTable, laid_over, pixels_of_codes};
ghost use Rattle.pixel_store.specs.Private.Extents.{Fits};
ghost use Rattle.pixel_store.specs.Private.Painting.{KeepsRows, LaysRow, TellsString};

use crate::extent::{Extent, row_start, stride};
use string_painting::{Brush, Painted, RowPlace, paint_string};

// Paints a string into a row: the row's bytes alone are lent to the painter.
fn paint_string_in(
    bytes: &mut [u8],
    extent: Extent,
    x: u32,
    y: u16,
    string: &[u8],
    brush: Brush,
    table: &[u8],
) -> Painted
    requires fits { Fits bytes.old extent }
    requires region { brush.region ≡ extent.depth }
    requires table { IsMapTable brush table.now }
    requires room { x + 284 * (8 * length string.now) < 2 ^ 32 }
    requires y { y < extent.height }
    ensures keeps { KeepsRows extent y bytes.old bytes.new }
    ensures painted { (codes : List Code) (front rest : List ℕ) → string.now ≡ front ++ rest
        → IsString brush.string codes front
        → LaysRow extent y (laid_over brush table.now) x (pixels_of_codes brush.string codes)
        bytes.old bytes.new }
    ensures told { TellsString brush x string.now result }
{
    let start = row_start(extent, y);
    let row = &mut bytes[start..start + stride(extent)];
    let place = RowPlace {
        width: extent.width,
        x,
    };
    paint_string(row, place, string, brush, table)
}

// What painting of a string tells, with no row to paint.
fn told_string(x: u32, string: &[u8], brush: Brush, table: &[u8]) -> Painted
    requires table { IsMapTable brush table.now }
    requires room { x + 284 * (8 * length string.now) < 2 ^ 32 }
    ensures told { TellsString brush x string.now result }
{
    paint_string(&mut [], RowPlace { width: 0, x }, string, brush, table)
}

// Paints a string into a row, where the region has it.
fn paint_string_at(
    bytes: &mut [u8],
    extent: Extent,
    x: u32,
    y: u32,
    string: &[u8],
    brush: Brush,
    table: &[u8],
) -> Painted
    requires fits { Fits bytes.old extent }
    requires region { brush.region ≡ extent.depth }
    requires table { IsMapTable brush table.now }
    requires room { x + 284 * (8 * length string.now) < 2 ^ 32 }
    ensures keeps { KeepsRows extent y bytes.old bytes.new }
    ensures painted { (codes : List Code) (front rest : List ℕ) → string.now ≡ front ++ rest
        → IsString brush.string codes front
        → LaysRow extent y (laid_over brush table.now) x (pixels_of_codes brush.string codes)
        bytes.old bytes.new }
    ensures told { TellsString brush x string.now result }
{
    if y < u32::from(extent.height) {
        paint_string_in(bytes, extent, x, y as u16, string, brush, table)
    } else {
        told_string(x, string, brush, table)
    }
}

/// Paints a pixel code string into row y from column x on, as far as the region has the pixels.
pub(crate) fn paint_row_string(
    bytes: &mut Vec<u8>,
    extent: Extent,
    x: u32,
    y: u32,
    string: &[u8],
    brush: Brush,
    table: &[u8],
) -> Painted
    requires fits { Fits bytes.old.items extent }
    requires region { brush.region ≡ extent.depth }
    requires table { IsMapTable brush table.now }
    requires room { x + 284 * (8 * length string.now) < 2 ^ 32 }
    ensures keeps { KeepsRows extent y bytes.old.items bytes.new.items }
    ensures painted { (codes : List Code) (front rest : List ℕ) → string.now ≡ front ++ rest
        → IsString brush.string codes front
        → LaysRow extent y (laid_over brush table.now) x (pixels_of_codes brush.string codes)
        bytes.old.items bytes.new.items }
    ensures told { TellsString brush x string.now result }
    ensures length { length bytes.new.items ≡ length bytes.old.items }
{
    paint_string_at(bytes.as_mut_slice(), extent, x, y, string, brush, table)
}
