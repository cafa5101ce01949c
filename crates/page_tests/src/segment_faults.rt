//! Each fault of a segment, told of its set, and what may not be twice in a set.

use crate::same::same_at;
use crate::taken_sets::{
    CHARACTERS, CLUT, CLUT_AGAIN, EMPTY_PAGE, END, FILLED_NEXT, OBJECT, OTHER, PAGE, REGION,
    SMALL_DISPLAY, in_segment, sd_core, take,
};
use decoder_model::{SetEnd, SetFault};
use page_core::Core;
use std::alloc::Global;
use std::process::Abort;
use stream_syntax::{CodeFault, CodeKind, SegmentKind};

// A segment, and the place and the kind of its fault.
type Row<'a> = (&'a [u8], u32, SegmentKind);

// A page is shown; then a set with the segment is broken by it, though the segment behind it has a
// fault as well. The place counts from the segment's first byte, and all memory is free behind the
// set.
fn are_broken<R: Abort>(rt: &R, alloc: Global, rows: &[Row<'_>]) {
    let mut core = sd_core(rt, alloc);
    are_broken_in(rt, &mut core, rows);
}

fn are_broken_in<R: Abort>(rt: &R, core: &mut Core, rows: &[Row<'_>]) {
    let mut pts = 0u32;
    for (segment, place, kind) in rows {
        pts = pts.wrapping_add(2);
        let shown = take(core, pts, &[PAGE, REGION, OBJECT, END]);
        same_at(rt, pts, (shown, core.free_nodes()), (SetEnd::Shown, 509));
        let end = take(core, pts.wrapping_add(1), &[PAGE, segment, CHARACTERS, END]);
        same_at(rt, pts, end, in_segment(*place, *kind));
        same_at(
            rt,
            pts,
            (core.free_nodes(), core.free_pixels()),
            (512, 81_920),
        );
    }
}

/// A page's length is that of its two bytes and six for each entry. It is tested before the state.
#[test]
fn pages(rt: HostRuntime) {
    let rows: [Row<'_>; 5] = [
        (&[15, 16, 0, 1, 0, 0], 4, SegmentKind::BadLength),
        (&[15, 16, 0, 1, 0, 1, 10], 4, SegmentKind::BadLength),
        (
            &[15, 16, 0, 1, 0, 7, 10, 8, 1, 0, 0, 0, 0],
            4,
            SegmentKind::BadLength,
        ),
        (&[15, 16, 0, 1, 0, 3, 10, 12, 0], 4, SegmentKind::BadLength),
        (&[15, 16, 0, 1, 0, 2, 10, 12], 7, SegmentKind::ReservedState),
    ];
    are_broken(&rt, rt.alloc(), &rows)
}

/// A region has ten bytes at least, sides of a pixel at least, and one of three depths.
#[test]
fn regions(rt: HostRuntime) {
    let rows: [Row<'_>; 7] = [
        (
            &[15, 17, 0, 1, 0, 9, 1, 8, 0, 2, 0, 1, 0x24, 0, 0],
            4,
            SegmentKind::BadLength,
        ),
        (
            &[15, 17, 0, 1, 0, 10, 1, 8, 0, 0, 0, 1, 0x24, 0, 0, 0],
            8,
            SegmentKind::ZeroSize,
        ),
        (
            &[15, 17, 0, 1, 0, 10, 1, 8, 0, 2, 0, 0, 0x24, 0, 0, 0],
            8,
            SegmentKind::ZeroSize,
        ),
        (
            &[15, 17, 0, 1, 0, 10, 1, 8, 0, 2, 0, 0, 0x20, 0, 0, 0],
            8,
            SegmentKind::ZeroSize,
        ),
        (
            &[15, 17, 0, 1, 0, 10, 1, 8, 0, 2, 0, 1, 0x20, 0, 0, 0],
            12,
            SegmentKind::BadDepth,
        ),
        (
            &[15, 17, 0, 1, 0, 10, 1, 8, 0, 2, 0, 1, 0x30, 0, 0, 0],
            12,
            SegmentKind::BadDepth,
        ),
        (
            &[15, 17, 0, 1, 0, 10, 1, 8, 0, 2, 0, 1, 0x3C, 0, 0, 0],
            12,
            SegmentKind::BadDepth,
        ),
    ];
    are_broken(&rt, rt.alloc(), &rows)
}

/// The listings of a region are tested from the left: whether they have six bytes, then their type,
/// then their provider.
#[test]
fn listings(rt: HostRuntime) {
    let one = |length, kinds| [
        15, 17, 0, 1, 0, length, 1, 8, 0, 2, 0, 1, 0x24, 0, 0, 0, 0, 5, kinds, 0, 0, 0,
    ];
    let (characters, held, both) = (one(16, 0x40), one(16, 0x10), one(16, 0xF0));
    let cut = one(15, 0);
    let second = |kinds| [
        15, 17, 0, 1, 0, 22, 1, 8, 0, 2, 0, 1, 0x24, 0, 0, 0, 0, 5, 0, 0, 0, 0, 0, 5, kinds, 0, 0,
        0,
    ];
    let rows: [Row<'_>; 6] = [
        (cut.get(..21).unwrap_or(&[]), 4, SegmentKind::BadLength),
        (&characters, 18, SegmentKind::CharacterObject),
        (&held, 18, SegmentKind::HeldObject),
        (&both, 18, SegmentKind::CharacterObject),
        (&second(0x80), 24, SegmentKind::CharacterObject),
        (&second(0x20), 24, SegmentKind::HeldObject),
    ];
    are_broken(&rt, rt.alloc(), &rows)
}

/// A CLUT has two bytes at least, and each entry six in the full range and four else.
#[test]
fn cluts(rt: HostRuntime) {
    let rows: [Row<'_>; 5] = [
        (&[15, 18, 0, 1, 0, 0], 4, SegmentKind::BadLength),
        (&[15, 18, 0, 1, 0, 1, 0], 4, SegmentKind::BadLength),
        (
            &[15, 18, 0, 1, 0, 7, 0, 0, 1, 0x81, 100, 128, 128],
            4,
            SegmentKind::BadLength,
        ),
        (
            &[15, 18, 0, 1, 0, 5, 0, 0, 1, 0x80, 100],
            4,
            SegmentKind::BadLength,
        ),
        (
            &[15, 18, 0, 1, 0, 7, 0, 0, 1, 0x80, 100, 0, 2],
            4,
            SegmentKind::BadLength,
        ),
    ];
    are_broken(&rt, rt.alloc(), &rows)
}

/// An object's coding method is tested where it has three bytes, and then its length: seven bytes
/// and both blocks, or a byte 0 more.
#[test]
fn objects(rt: HostRuntime) {
    let rows: [Row<'_>; 8] = [
        (&[15, 19, 0, 1, 0, 2, 0, 5], 4, SegmentKind::BadLength),
        (
            &[15, 19, 0, 1, 0, 3, 0, 5, 4],
            8,
            SegmentKind::CharacterObject,
        ),
        (&[15, 19, 0, 1, 0, 3, 0, 5, 8], 8, SegmentKind::Progressive),
        (
            &[15, 19, 0, 1, 0, 3, 0, 5, 12],
            8,
            SegmentKind::ReservedMethod,
        ),
        (
            &[15, 19, 0, 1, 0, 6, 0, 5, 0, 0, 0, 0],
            4,
            SegmentKind::BadLength,
        ),
        (
            &[15, 19, 0, 1, 0, 8, 0, 5, 0, 0, 2, 0, 0, 240],
            4,
            SegmentKind::BadLength,
        ),
        (
            &[15, 19, 0, 1, 0, 9, 0, 5, 0, 0, 1, 0, 0, 240, 1],
            4,
            SegmentKind::BadLength,
        ),
        (
            &[15, 19, 0, 1, 0, 10, 0, 5, 0, 0, 1, 0, 0, 240, 0, 0],
            4,
            SegmentKind::BadLength,
        ),
    ];
    are_broken(&rt, rt.alloc(), &rows)
}

// The fault of a code block, as that of its segment, in which the block begins at that place.
fn code(block: u32, place: u32, kind: CodeKind) -> (u32, SegmentKind) {
    (
        block.wrapping_add(place),
        SegmentKind::Code(CodeFault { place, kind }),
    )
}

/// The first sub-block of the top block that is not in the grammar, and, where there is none, that
/// of the bottom block.
#[test]
fn codes(rt: HostRuntime) {
    let rows: [(&[u8], (u32, SegmentKind)); 7] = [
        (
            &[15, 19, 0, 1, 0, 9, 0, 5, 0, 0, 2, 0, 0, 0x10, 0x55],
            code(13, 0, CodeKind::CutString),
        ),
        (
            &[15, 19, 0, 1, 0, 10, 0, 5, 0, 0, 3, 0, 0, 240, 0x12, 1],
            code(13, 1, CodeKind::CutString),
        ),
        (
            &[15, 19, 0, 1, 0, 9, 0, 5, 0, 0, 2, 0, 0, 0x20, 1],
            code(13, 0, CodeKind::CutTable),
        ),
        (
            &[15, 19, 0, 1, 0, 11, 0, 5, 0, 0, 4, 0, 0, 0x21, 0, 1, 2],
            code(13, 0, CodeKind::CutTable),
        ),
        (
            &[15, 19, 0, 1, 0, 8, 0, 5, 0, 0, 1, 0, 0, 0x13],
            code(13, 0, CodeKind::UnknownType),
        ),
        (
            &[
                15, 19, 0, 1, 0, 11, 0, 5, 0, 0, 1, 0, 3, 240, 240, 240, 0x99,
            ],
            code(14, 2, CodeKind::UnknownType),
        ),
        (
            &[15, 19, 0, 1, 0, 11, 0, 5, 0, 0, 2, 0, 2, 240, 0x23, 0x11, 1],
            code(13, 1, CodeKind::UnknownType),
        ),
    ];
    let rows = rows.map(|(segment, (place, kind))| (segment, place, kind));
    are_broken(&rt, rt.alloc(), &rows)
}

/// A display has five bytes at least, and thirteen with a window, which lies in the display.
#[test]
fn displays(rt: HostRuntime) {
    let window = |left, right, top, bottom| [
        15, 20, 0, 1, 0, 13, 8, 0, 3, 0, 1, 0, left, 0, right, 0, top, 0, bottom,
    ];
    let rows: [Row<'_>; 6] = [
        (&[15, 20, 0, 1, 0, 4, 0, 0, 3, 0], 4, SegmentKind::BadLength),
        (
            &[15, 20, 0, 1, 0, 12, 8, 0, 3, 0, 1, 0, 0, 0, 3, 0, 0, 0],
            4,
            SegmentKind::BadLength,
        ),
        (&window(2, 1, 0, 1), 11, SegmentKind::BadWindow),
        (&window(0, 4, 0, 1), 11, SegmentKind::BadWindow),
        (&window(0, 3, 1, 0), 11, SegmentKind::BadWindow),
        (&window(0, 3, 0, 2), 11, SegmentKind::BadWindow),
    ];
    are_broken(&rt, rt.alloc(), &rows)
}

/// A page, a display and a region may be once in a set, with the same version or another; CLUTs,
/// objects and ends may be there again.
#[test]
fn twice_in_a_set(rt: HostRuntime) {
    let mut core = sd_core(&rt, rt.alloc());
    twice_in_a_set_in(&rt, &mut core);
}

fn twice_in_a_set_in<R: Abort>(rt: &R, core: &mut Core) {
    let twice = |kind, id| SetEnd::Broken(SetFault::TwiceInSet { kind, id });
    let rows: [(&[&[u8]], SetEnd); 7] = [
        (&[PAGE, REGION, EMPTY_PAGE], twice(16, 0)),
        (&[SMALL_DISPLAY, PAGE, REGION, SMALL_DISPLAY], twice(20, 0)),
        (&[PAGE, REGION, REGION], twice(17, 1)),
        (&[PAGE, REGION, FILLED_NEXT, CHARACTERS], twice(17, 1)),
        (&[PAGE, REGION, CLUT, CLUT_AGAIN], SetEnd::Shown),
        (&[PAGE, REGION, OBJECT, OTHER], SetEnd::Shown),
        (&[PAGE, REGION, END, END], SetEnd::Shown),
    ];
    for pts in 0..rows.len() {
        let (parts, end) = rows[pts];
        same_at(rt, pts, take(core, pts as u32, parts), end);
    }
}
