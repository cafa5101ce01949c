use anyhow::Result;
use indexed_picture::Indexed;
use std::alloc::Global;
use sub_base::Depth;

/// A picture of two lines of the letter H, drawn with one code and its edge with another.
pub fn picture(alloc: Global, depth: Depth) -> Result<Indexed> {
    let mut codes = Vec::new(alloc);
    for y in 0u16..48 {
        for x in 0u16..720 {
            codes.push(code_at(x % 12, y % 24))?;
        }
    }
    Ok(Indexed::from_codes(alloc, 720, 48, depth, codes)?)
}

/// The code at a place of a letter's box of 12 by 24.
fn code_at(column: u16, line: u16) -> u8 {
    match (column, line) {
        (_, 20..) | (11, _) => 0,
        (0..=1 | 8..=9, _) | (_, 9..=10) => 1,
        (2 | 10, _) => 2,
        _ => 0,
    }
}
