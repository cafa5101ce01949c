ghost use Rattle.std.specs.Prelude.{◌≡◌, true};
ghost use Rattle.decoder_model.specs.declared.set_end.SetEnd.TheVariants.{Shown};

use crate::same::same_at;
use crate::taken_sets::{in_segment, put, sd_core};
use page_core::{Core, SetEnd};
use std::process::Abort;
use stream_syntax::{CodeFault, CodeKind, SegmentKind};
use sub_base::Depth;

/// A line of the two bit codes 1, 2 and 3; of the four bit codes 1 and A; and of the eight bit
/// codes 01 and C8.
pub(crate) const TWO_BITS: [u8; 4] = [0x10, 0x6C, 0x00, 0xF0];

const FOUR_BITS: [u8; 4] = [0x11, 0x1A, 0x00, 0xF0];

const EIGHT_BITS: [u8; 6] = [0x12, 0x01, 0xC8, 0x00, 0x00, 0xF0];

/// The line of two bit codes behind a map table in which 1 stands for 5, 2 for 1 and 3 for F.
const MAPPED: [u8; 7] = [0x20, 0x05, 0x1F, 0x10, 0x6C, 0x00, 0xF0];

/// A line without pixels, and the line of two bit codes below it.
const SECOND_LINE: [u8; 5] = [0xF0, 0x10, 0x6C, 0x00, 0xF0];

/// No pixels.
const EMPTY_LINE: [u8; 1] = [0xF0];

/// An object that is painted in a region of eight by three pixels, which has the fill code of its
/// depth, and the packed rows of the region then.
#[derive(Clone, Copy)]
struct Painted<'a> {
    depth: Depth,
    top: &'a [u8],
    bottom: &'a [u8],
    see_through: bool,
    x: u8,
    y: u8,
    rows: [&'a [u8]; 3],
}

/// A mode change that lists region 0.
const PAGE: &[u8] = &[15, 16, 0, 1, 0, 8, 10, 8, 0, 0, 0, 0, 0, 0];

/// Puts a region of so many by so many pixels, with that id and that CLUT and the fill codes 5A, 6
/// and 2, that lists object 0 at a place.
pub(crate) fn put_region(
    bytes: &mut [u8; 4096],
    size: &mut usize,
    ids: [u8; 2],
    sides: [u8; 2],
    depth: Depth,
    place: [u8; 2],
) {
    let [id, clut] = ids;
    let [width, height] = sides;
    let [x, y] = place;
    let depth = match depth {
        Depth::Two => 0x24,
        Depth::Four => 0x48,
        Depth::Eight => 0x6C,
    };
    put(
        bytes,
        size,
        &[15, 17, 0, 1, 0, 16, id, 8, 0, width, 0, height],
    );
    put(bytes, size, &[depth, clut, 0x5A, 0x68, 0, 0, 0, x, 0, y]);
}

/// Puts object 0 with these blocks.
pub(crate) fn put_object(
    bytes: &mut [u8; 4096],
    size: &mut usize,
    see_through: bool,
    top: &[u8],
    bottom: &[u8],
) {
    let method = if see_through { 2 } else { 0 };
    let [first, second] = [(top.len() % 64) as u8, (bottom.len() % 64) as u8];
    let length = first.wrapping_add(second).wrapping_add(7);
    put(bytes, size, &[15, 19, 0, 1, 0, length, 0, 0]);
    put(bytes, size, &[method, 0, first, 0, second]);
    put(bytes, size, top);
    put(bytes, size, bottom);
}

/// What becomes of the set with the region of the case, which lists the object, and the object.
fn paint(core: &mut Core, pts: u32, case: &Painted<'_>) -> SetEnd
    ensures { result ≡ Shown → core.new.known ≡ true }
{
    let mut bytes = [0; 4096];
    let mut size = 0;
    put(&mut bytes, &mut size, PAGE);
    put_region(
        &mut bytes,
        &mut size,
        [0, 0],
        [8, 3],
        case.depth,
        [case.x, case.y],
    );
    put_object(
        &mut bytes,
        &mut size,
        case.see_through,
        case.top,
        case.bottom,
    );
    core.take_set(u64::from(pts), bytes.get(..size).unwrap_or(&[]))
}

/// Paints the object, and compares the rows.
fn is_painted<R: Abort>(rt: &R, core: &mut Core, pts: u32, case: &Painted<'_>) {
    match paint(core, pts, case) {
        SetEnd::Shown => {
            let scene = core.scene();
            for y in 0..3u16 {
                same_at(rt, y, scene.packed_row(0, y), Some(case.rows[y as usize]));
            }
        }
        end => same_at(rt, pts, end, SetEnd::Shown),
    }
}

/// A string of each depth in a region of each depth, by the default map tables. The bottom block is
/// empty: the top block serves for both fields.
#[test]
fn strings_of_each_depth(rt: HostRuntime) {
    let mut core = sd_core(&rt, rt.alloc());
    strings_of_each_depth_in(&rt, &mut core);
}

fn strings_of_each_depth_in<R: Abort>(rt: &R, core: &mut Core) {
    let mut pts = 0u32;
    for (depth, top, painted, below) in [
        (
            Depth::Two,
            TWO_BITS.as_slice(),
            [0x6E, 0xAA].as_slice(),
            [0xAA; 2].as_slice(),
        ),
        (
            Depth::Four,
            &TWO_BITS,
            &[0x78, 0xF6, 0x66, 0x66],
            &[0x66; 4],
        ),
        (
            Depth::Eight,
            &TWO_BITS,
            &[0x77, 0x88, 0xFF, 0x5A, 0x5A, 0x5A, 0x5A, 0x5A],
            &[0x5A; 8],
        ),
        (
            Depth::Four,
            &FOUR_BITS,
            &[0x1A, 0x66, 0x66, 0x66],
            &[0x66; 4],
        ),
        (
            Depth::Eight,
            &FOUR_BITS,
            &[0x11, 0xAA, 0x5A, 0x5A, 0x5A, 0x5A, 0x5A, 0x5A],
            &[0x5A; 8],
        ),
        (
            Depth::Eight,
            &EIGHT_BITS,
            &[0x01, 0xC8, 0x5A, 0x5A, 0x5A, 0x5A, 0x5A, 0x5A],
            &[0x5A; 8],
        ),
    ] {
        let case = Painted {
            depth,
            top,
            bottom: &[],
            see_through: false,
            x: 0,
            y: 0,
            rows: [painted, painted, below],
        };
        is_painted(rt, core, pts, &case);
        pts = pts.wrapping_add(1);
    }
}

/// Strings that are deeper than the region, in the top block and in the bottom block.
#[test]
fn strings_too_deep(rt: HostRuntime) {
    let mut core = sd_core(&rt, rt.alloc());
    strings_too_deep_in(&rt, &mut core);
}

fn strings_too_deep_in<R: Abort>(rt: &R, core: &mut Core) {
    let rows: [(Depth, &[u8], &[u8], u32, u32); 5] = [
        (Depth::Two, &FOUR_BITS, &[], 13, 0),
        (Depth::Two, &EIGHT_BITS, &[], 13, 0),
        (Depth::Four, &EIGHT_BITS, &FOUR_BITS, 13, 0),
        (Depth::Two, &TWO_BITS, &FOUR_BITS, 17, 0),
        (Depth::Four, &TWO_BITS, &[0xF0, 0x12, 0x00, 0x00], 17, 1),
    ];
    let mut pts = 0u32;
    for (depth, top, bottom, block, place) in rows {
        let code = CodeFault {
            place,
            kind: CodeKind::TooDeep,
        };
        let wanted = in_segment(block.wrapping_add(place), SegmentKind::Code(code));
        let case = Painted {
            depth,
            top,
            bottom,
            see_through: false,
            x: 0,
            y: 0,
            rows: [&[], &[], &[]],
        };
        same_at(rt, pts, paint(core, pts, &case), wanted);
        pts = pts.wrapping_add(1);
    }
}

/// A map table, code 1 left out as it is read, fields of their own, lines below the first one, and
/// what passes the region.
#[test]
fn objects_in_a_region(rt: HostRuntime) {
    let mut core = sd_core(&rt, rt.alloc());
    objects_in_a_region_in(&rt, &mut core);
}

fn objects_in_a_region_in<R: Abort>(rt: &R, core: &mut Core) {
    let mut pts = 0u32;
    let filled = [0x66; 4].as_slice();
    let mapped = [0x51, 0xF6, 0x66, 0x66].as_slice();
    let seen_through = [0x61, 0xF6, 0x66, 0x66].as_slice();
    let default = [0x78, 0xF6, 0x66, 0x66].as_slice();
    let at_the_edge = [0x66, 0x66, 0x66, 0x67].as_slice();
    for (top, bottom, see_through, x, y, rows) in [
        (
            MAPPED.as_slice(),
            [].as_slice(),
            false,
            0,
            0,
            [mapped, mapped, filled],
        ),
        (
            &MAPPED,
            &[],
            true,
            0,
            0,
            [seen_through, seen_through, filled],
        ),
        (&MAPPED, &EMPTY_LINE, false, 0, 0, [mapped, filled, filled]),
        (&MAPPED, &TWO_BITS, false, 0, 1, [filled, mapped, default]),
        (
            &SECOND_LINE,
            &EMPTY_LINE,
            false,
            0,
            0,
            [filled, filled, default],
        ),
        (&TWO_BITS, &[], false, 7, 2, [filled, filled, at_the_edge]),
        (&TWO_BITS, &[], false, 8, 0, [filled, filled, filled]),
        (&TWO_BITS, &[], false, 0, 3, [filled, filled, filled]),
    ] {
        let case = Painted {
            depth: Depth::Four,
            top,
            bottom,
            see_through,
            x,
            y,
            rows,
        };
        is_painted(rt, core, pts, &case);
        pts = pts.wrapping_add(1);
    }
}
