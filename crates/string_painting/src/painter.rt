//! A string painted from its first code to its end.

ghost use Rattle.std.specs.Prelude.{◌≡◌, ℕ, ◌+◌, ◌*◌, ◌^◌, ◌<◌, ◌≤◌, List, ◌++◌, length, IfSome};
ghost use Rattle.sub_base.specs.Depth.{code_count};
ghost use Rattle.stream_syntax.specs.PixelCodes.{Code, IsString};
ghost use Rattle.string_painting.specs.Codes.{codes_in_byte, packed_code};
ghost use Rattle.string_painting.specs.Painting.{IsMapTable, laid_over, LaysPixels, pixels_of_codes};
ghost use Rattle.string_painting.specs.Private.Pairs.{IsBehind, LaysOn};
ghost use Rattle.string_painting.specs.Private.Strings.{PaintsString};

use crate::drawing::{Brush, RowPlace, lay_pair, lay_pixels};
use crate::field::field;
use crate::packing::started_bytes;
use crate::token::read_token;
use code_strings::Token;
use sub_base::Depth;

/// What was painted.
#[derive(Clone, Copy, Debug, PartialEq, Eq)]
pub struct Painted {
    /// The bytes of the string, with its end and the fill to a whole byte.
    pub size: usize,
    /// The column behind its last pixel.
    pub x: u32,
}

/// Paints the string that begins some bytes into a row of a region, from a column on (EN 300 743,
/// 2-bit, 4-bit and 8-bit pixel code strings). Pixels behind the region's last column are not
/// painted. `table` are the bytes of the map table between the two depths, as they stand in a
/// block; where the depths are the same they are not looked at. Of bytes that begin no string the
/// codes before their end may be painted.
pub fn paint_string(
    row: &mut [u8],
    place: RowPlace,
    string: &[u8],
    brush: Brush,
    table: &[u8],
) -> Painted
    requires width { place.width ≤ length row.old * codes_in_byte brush.region }
    requires table { IsMapTable brush table.now }
    requires room { place.x + 284 * (8 * length string.now) < 2 ^ 32 }
    ensures painted { (codes : List Code) (front rest : List ℕ) → string.now ≡ front ++ rest
        → IsString brush.string codes front
        → LaysPixels brush.region (laid_over brush table.now) place.width place.x
        (pixels_of_codes brush.string codes) row.old row.new }
    ensures size { (codes : List Code) (front rest : List ℕ) → string.now ≡ front ++ rest
        → IsString brush.string codes front → result.size ≡ length front }
    ensures column { (codes : List Code) (front rest : List ℕ) → string.now ≡ front ++ rest
        → IsString brush.string codes front
        → result.x ≡ place.x + length (pixels_of_codes brush.string codes) }
    ensures beside { (x : ℕ) → place.width ≤ x
        → packed_code brush.region row.new x ≡ packed_code brush.region row.old x }
    ensures within { result.size ≤ length string.now }
    ensures forward { place.x ≤ result.x }
    ensures short { result.x ≤ place.x + 284 * (8 * result.size) }
{
    paint_at_depths(row, place, string, brush, table)
}

/// The same, with depths that are known where codes are read and put.
fn paint_at_depths(
    row: &mut [u8],
    place: RowPlace,
    string: &[u8],
    brush: Brush,
    table: &[u8],
) -> Painted
    requires width { place.width ≤ length row.old * codes_in_byte brush.region }
    requires table { IsMapTable brush table.now }
    requires room { place.x + 284 * (8 * length string.now) < 2 ^ 32 }
    ensures { PaintsString brush table.now place string.now result row.old row.new }
{
    match (brush.string, brush.region) {
        (Depth::Two, Depth::Two) => {
            let known = brush.at_depths(Depth::Two, Depth::Two);
            paint_codes(row, place, string, known, table)
        }
        (Depth::Two, Depth::Four) => {
            let known = brush.at_depths(Depth::Two, Depth::Four);
            paint_codes(row, place, string, known, table)
        }
        (Depth::Two, Depth::Eight) => {
            let known = brush.at_depths(Depth::Two, Depth::Eight);
            paint_codes(row, place, string, known, table)
        }
        (Depth::Four, Depth::Four) => {
            let known = brush.at_depths(Depth::Four, Depth::Four);
            paint_codes(row, place, string, known, table)
        }
        (Depth::Four, Depth::Eight) => {
            let known = brush.at_depths(Depth::Four, Depth::Eight);
            paint_codes(row, place, string, known, table)
        }
        (Depth::Eight, Depth::Eight) => {
            let known = brush.at_depths(Depth::Eight, Depth::Eight);
            paint_codes(row, place, string, known, table)
        }
        // No string is deeper than its region.
        _ => paint_codes(row, place, string, brush, table),
    }
}

/// Paints code after code.
#[inline(always)]
fn paint_codes(
    row: &mut [u8],
    start: RowPlace,
    string: &[u8],
    brush: Brush,
    table: &[u8],
) -> Painted
    requires width { start.width ≤ length row.old * codes_in_byte brush.region }
    requires table { IsMapTable brush table.now }
    requires room { start.x + 284 * (8 * length string.now) < 2 ^ 32 }
    ensures { PaintsString brush table.now start string.now result row.old row.new }
{
    let mut x = start.x;
    let mut place = 0;
    while let Some((token, next)) = read_token(string, place, brush.string) {
        match token {
            Token::End => {
                return Painted {
                    size: started_bytes(brush.string, next),
                    x,
                };
            }
            Token::Pixels { length, code } => {
                let pen = RowPlace {
                    width: start.width,
                    x,
                };
                let further = lay_on(row, pen, string, brush, table, length, code, next);
                x += length + further;
                place = next + further as usize;
            }
        }
    }
    Painted {
        size: string.len(),
        x,
    }
}

/// Lays the pixels of a code that ends before field `next`, and with a single pixel the one of the
/// code behind it, if that gives one too: most codes of smoothed text stand so. Answers how many
/// codes it laid behind the first.
#[inline(always)]
fn lay_on(
    row: &mut [u8],
    pen: RowPlace,
    string: &[u8],
    brush: Brush,
    table: &[u8],
    count: u32,
    read: u8,
    next: usize,
) -> u32
    requires width { pen.width ≤ length row.old * codes_in_byte brush.region }
    requires table { IsMapTable brush table.now }
    requires code { read < code_count brush.string }
    ensures laid { LaysOn brush table.now string.now pen count read next result row.old row.new }
    ensures few { result ≤ 1 }
{
    match single_behind(string, pen, brush, count, next) {
        Some(second) => {
            lay_pair(row, pen, brush, table, read, second);
            1
        }
        None => {
            lay_pixels(row, pen, brush, table, count, read);
            0
        }
    }
}

/// The code of a single pixel at field `next` that may be laid at once with the one that ends
/// before: both lie in the region, and nothing is seen through.
#[inline(always)]
fn single_behind(string: &[u8], pen: RowPlace, brush: Brush, count: u32, next: usize) -> Option<u8>
    ensures { IfSome result (IsBehind brush string.now pen count next) }
{
    if count != 1 || brush.see_through || pen.x as usize + 1 >= usize::from(pen.width) {
        return None;
    }
    let second = field(string, next, brush.string)?;
    if second == 0 {
        return None;
    }
    Some(second)
}
