//! Taking sets one after another, and the rows of what is shown.

use crate::runs::pixels_in_runs;
use page_core::{Core, Scene, SetEnd};
use pixel_codes::check_block;
use segments::{Segment, read_segment};
use sub_base::{Colour, Depth};

/// Reads the segments of so many sets, and says how many there were.
pub fn read_sets(sets: &[Vec<u8>], times: u32) -> u64 {
    let mut segments = 0u64;
    for pts in 0..times {
        segments = segments.wrapping_add(segments_in(set_at(sets, pts)));
    }
    segments
}

/// How many segments there are.
fn segments_in(bytes: &[u8]) -> u64 {
    let mut segments = 0u64;
    let mut rest = bytes;
    while let Ok((_segment, size)) = read_segment(rest) {
        segments = segments.wrapping_add(1);
        rest = &rest[size..];
    }
    segments
}

/// Reads the segments of so many sets, and the runs of their objects, which nobody paints, and says
/// how many pixels these have.
pub fn read_runs(sets: &[Vec<u8>], times: u32) -> u64 {
    let mut pixels = 0u64;
    for pts in 0..times {
        pixels = pixels.wrapping_add(pixels_in(set_at(sets, pts)));
    }
    pixels
}

/// How many pixels the runs of the objects among some segments have.
fn pixels_in(bytes: &[u8]) -> u64 {
    let mut pixels = 0u64;
    let mut rest = bytes;
    while let Ok((segment, size)) = read_segment(rest) {
        if let Segment::Object(object) = segment {
            pixels = pixels
                .wrapping_add(pixels_of(object.top))
                .wrapping_add(pixels_of(object.bottom));
        }
        rest = &rest[size..];
    }
    pixels
}

/// How many pixels the runs of a block have.
fn pixels_of(bytes: &[u8]) -> u64 {
    if bytes.len() > 65_535 {
        return 0;
    }
    let Ok(block) = check_block(bytes, Depth::Eight) else {
        return 0;
    };
    pixels_in_runs(&block)
}

/// Takes so many sets, a tick apart, and says how many were shown.
pub fn take_sets(core: &mut Core, sets: &[Vec<u8>], times: u32) -> u32 {
    let mut shown = 0u32;
    for pts in 0..times {
        if matches!(
            core.take_set(u64::from(pts), set_at(sets, pts)),
            SetEnd::Shown
        ) {
            shown = shown.wrapping_add(1);
        }
    }
    shown
}

/// Takes so many sets, a tick apart, makes all rows of the display behind each, and says how many
/// were shown.
pub fn take_and_draw(core: &mut Core, sets: &[Vec<u8>], times: u32, row: &mut [Colour]) -> u32 {
    let mut shown = 0u32;
    for pts in 0..times {
        if matches!(
            core.take_set(u64::from(pts), set_at(sets, pts)),
            SetEnd::Shown
        ) {
            draw(&core.scene(), row);
            shown = shown.wrapping_add(1);
        }
    }
    shown
}

/// The set of that tick: the first one, and then those behind it in turn.
fn set_at(sets: &[Vec<u8>], pts: u32) -> &[u8] {
    let place = match pts.checked_sub(1) {
        Some(later) => 1 + later as usize % sets.len().saturating_sub(1).max(1),
        None => 0,
    };
    match sets.get(place) {
        Some(set) => set.as_slice(),
        None => &[],
    }
}

/// Makes all rows of a display, one after another in one row.
fn draw(scene: &Scene<'_>, row: &mut [Colour]) {
    for y in 0..scene.height() {
        if let Some(places) = row.get_mut(..scene.width() as usize) {
            scene.row_into(y, places);
        }
    }
}

/// Takes one more set; a number that the rows behind it give, or none where it is not shown.
pub fn sum_of_rows(core: &mut Core, sets: &[Vec<u8>], pts: u32, row: &mut [Colour]) -> Option<u64> {
    match core.take_set(u64::from(pts), set_at(sets, pts)) {
        SetEnd::Shown => Some(check_sum(&core.scene(), row)),
        _ => None,
    }
}

/// Makes all rows of a display, and a number that they give.
fn check_sum(scene: &Scene<'_>, row: &mut [Colour]) -> u64 {
    let mut sum = 0u64;
    for y in 0..scene.height() {
        if let Some(places) = row.get_mut(..scene.width() as usize) {
            scene.row_into(y, places);
            sum = sum.wrapping_mul(31).wrapping_add(sum_of(places));
        }
    }
    sum
}

/// A number that the colours of a row give.
fn sum_of(row: &[Colour]) -> u64 {
    let mut sum = 0u64;
    for colour in row {
        sum = sum
            .wrapping_mul(31)
            .wrapping_add(u64::from(colour.y) + u64::from(colour.t));
    }
    sum
}
