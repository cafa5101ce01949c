//! Columns of a packed row that get one code.

ghost use Rattle.std.specs.Prelude.{◌≡◌, ℕ, ◌+◌, ◌*◌, ◌/◌, ◌%◌, ◌^◌, ◌<◌, ◌≤◌, ◌⊎◌, length, slice_index};
ghost use Rattle.sub_base.specs.Depth.{code_count};
ghost use Rattle.string_painting.specs.Codes.{codes_in_byte};
ghost use Rattle.string_painting.specs.Private.Columns.{PaintsColumns, PaintsPair};

use crate::packing::{codes_over, codes_per_byte, painted, painted_once, pattern, whole_bytes};
use sub_base::Depth;

// Paints some codes of one byte.
#[inline(always)]
fn paint_in_byte(row: &mut [u8], region: Depth, index: usize, from: usize, to: usize, code: u8)
    requires inside { from < to → index < length row.old }
    requires order { from ≤ to }
    requires to { to ≤ codes_in_byte region }
    requires code { code < code_count region }
    ensures { PaintsColumns region (index * codes_in_byte region + from)
        (index * codes_in_byte region + to) code row.old row.new }
{
    if from < to {
        row[index] = painted(region, row[index], from, to, code);
    }
}

// Sets some bytes to a value.
#[inline(always)]
fn fill(row: &mut [u8], from: usize, to: usize, value: u8)
    requires order { from ≤ to }
    requires to { to ≤ length row.old }
    ensures inside { (i : ℕ) → from ≤ i → i < to → slice_index row.new i ≡ value }
    ensures outside { (i : ℕ) → (i < from) ⊎ (to ≤ i)
        → slice_index row.new i ≡ slice_index row.old i }
{
    row[from..to].fill(value);
}

// Paints all codes of some bytes.
#[inline(always)]
fn paint_bytes(row: &mut [u8], region: Depth, from: usize, to: usize, code: u8)
    requires order { from ≤ to }
    requires to { to ≤ length row.old }
    requires code { code < code_count region }
    ensures { PaintsColumns region (from * codes_in_byte region) (to * codes_in_byte region) code
        row.old row.new }
{
    fill(row, from, to, pattern(region, code));
}

// Paints columns of a row with several codes in a byte: whole bytes between the two ends.
#[inline(always)]
fn paint_packed(row: &mut [u8], region: Depth, from: usize, to: usize, code: u8)
    requires order { from ≤ to }
    requires to { to ≤ length row.old * codes_in_byte region }
    requires code { code < code_count region }
    ensures { PaintsColumns region from to code row.old row.new }
{
    let first = whole_bytes(region, from);
    let last = whole_bytes(region, to);
    let begin = codes_over(region, from);
    let end = codes_over(region, to);
    if first == last {
        paint_in_byte(row, region, first, begin, end, code);
    } else {
        paint_in_byte(row, region, first, begin, codes_per_byte(region), code);
        paint_bytes(row, region, first + 1, last, code);
        paint_in_byte(row, region, last, 0, end, code);
    }
}

/// Paints the columns from `from` up to `to` of a row.
#[inline(always)]
pub(crate) fn paint_columns(row: &mut [u8], region: Depth, from: usize, to: usize, code: u8)
    requires order { from ≤ to }
    requires to { to ≤ length row.old * codes_in_byte region }
    requires code { code < code_count region }
    ensures { PaintsColumns region from to code row.old row.new }
{
    match region {
        Depth::Eight => paint_bytes(row, region, from, to, code),
        _ => paint_packed(row, region, from, to, code),
    }
}

/// Paints one column of a row.
#[inline(always)]
pub(crate) fn paint_column(row: &mut [u8], region: Depth, x: usize, code: u8)
    requires x { x < length row.old * codes_in_byte region }
    requires code { code < code_count region }
    ensures { PaintsColumns region x (x + 1) code row.old row.new }
{
    let index = whole_bytes(region, x);
    row[index] = painted_once(region, row[index], codes_over(region, x), code);
}

/// Paints two columns, the first of which is `x`, by one load and one store where both lie in the
/// same byte.
#[inline(always)]
pub(crate) fn paint_pair(row: &mut [u8], region: Depth, x: usize, first: u8, second: u8)
    requires x { x + 1 < length row.old * codes_in_byte region }
    requires near { x < 2 ^ 16 }
    requires first { first < code_count region }
    requires second { second < code_count region }
    ensures { PaintsPair region x first second row.old row.new }
{
    if codes_over(region, x) + 1 < codes_per_byte(region) {
        paint_pair_in_byte(row, region, x, first, second);
    } else {
        paint_column(row, region, x, first);
        paint_column(row, region, x + 1, second);
    }
}

// Paints two columns of one byte.
#[inline(always)]
fn paint_pair_in_byte(row: &mut [u8], region: Depth, x: usize, first: u8, second: u8)
    requires x { x + 1 < length row.old * codes_in_byte region }
    requires room { x % codes_in_byte region + 1 < codes_in_byte region }
    requires first { first < code_count region }
    requires second { second < code_count region }
    ensures { PaintsPair region x first second row.old row.new }
{
    let index = whole_bytes(region, x);
    let over = codes_over(region, x);
    let byte = painted_once(region, row[index], over, first);
    row[index] = painted_once(region, byte, over + 1, second);
}
