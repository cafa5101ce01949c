ghost use Rattle.std.specs.Prelude.{◌≡◌, true};
ghost use Rattle.decoder_model.specs.declared.set_end.SetEnd.TheVariants.{Shown};

use crate::painted_objects::{TWO_BITS, put_object, put_region};
use crate::same::{same, same_at};
use crate::taken_sets::{put, sd_core};
use page_core::{Core, Scene, SetEnd};
use std::process::Abort;
use sub_base::{CLEAR, Colour, Depth};

/// The default colours of a CLUT: 1, 2 and 3 of two bits; 1 and 9 of four bits; and 1 of eight
/// bits.
const WHITE: Colour = Colour {
    y: 235,
    cr: 128,
    cb: 128,
    t: 0,
};

const BLACK: Colour = Colour {
    y: 16,
    cr: 128,
    cb: 128,
    t: 0,
};

const GREY: Colour = Colour {
    y: 126,
    cr: 128,
    cb: 128,
    t: 0,
};

const RED: Colour = Colour {
    y: 81,
    cr: 240,
    cb: 90,
    t: 0,
};

const HALF_RED: Colour = Colour {
    y: 49,
    cr: 184,
    cb: 109,
    t: 0,
};

const FAINT_RED: Colour = Colour {
    y: 81,
    cr: 240,
    cb: 90,
    t: 192,
};

/// A set of this display, a page with these entries, region 0 of these sides with that CLUT, and
/// the object that it lists.
fn take_drawn(
    core: &mut Core,
    pts: u32,
    front: &[&[u8]],
    sides: [u8; 2],
    clut: u8,
    depth: Depth,
    object: &[u8],
) -> SetEnd
    ensures { result ≡ Shown → core.new.known ≡ true }
{
    let mut bytes = [0; 4096];
    let mut size = 0;
    for part in front {
        put(&mut bytes, &mut size, part);
    }
    put_region(&mut bytes, &mut size, [0, clut], sides, depth, [0, 0]);
    put_object(&mut bytes, &mut size, false, object, &[]);
    core.take_set(u64::from(pts), bytes.get(..size).unwrap_or(&[]))
}

/// A display of five columns and one row.
const LINE: &[u8] = &[15, 20, 0, 1, 0, 5, 0, 0, 4, 0, 0];

/// A mode change that lists region 0 in the corner.
const PAGE: &[u8] = &[15, 16, 0, 1, 0, 8, 10, 8, 0, 0, 0, 0, 0, 0];

/// Packed codes of each depth in default colours, whole bytes and some codes of one more: the codes
/// are painted as a string, and the packed row and the row of the picture are looked at.
#[test]
fn colours_of_packed_codes(rt: HostRuntime) {
    let mut core = sd_core(&rt, rt.alloc());
    colours_of_packed_codes_in(&rt, &mut core);
}

fn colours_of_packed_codes_in<R: Abort>(rt: &R, core: &mut Core) {
    let two: [u8; 5] = [0x10, 0x6C, 0x50, 0x00, 0xF0];
    let four: [u8; 6] = [0x11, 0x19, 0x0C, 0x19, 0x00, 0xF0];
    let eight: [u8; 9] = [0x12, 0x01, 0x00, 0x02, 0x01, 0x01, 0x00, 0x00, 0xF0];
    let rows: [(Depth, u8, &[u8], &[u8], [Colour; 5]); 3] = [
        (
            Depth::Two,
            7,
            &two,
            &[0x6C, 0x40],
            [WHITE, BLACK, GREY, CLEAR, WHITE],
        ),
        (
            Depth::Four,
            0,
            &four,
            &[0x19, 0x01, 0x90],
            [RED, HALF_RED, CLEAR, RED, HALF_RED],
        ),
        (
            Depth::Eight,
            255,
            &eight,
            &[1, 0, 0, 1, 1],
            [FAINT_RED, CLEAR, CLEAR, FAINT_RED, FAINT_RED],
        ),
    ];
    for pts in 0..rows.len() {
        let (depth, clut, object, packed, colours) = rows[pts];
        let end = take_drawn(core, pts as u32, &[LINE, PAGE], [5, 1], clut, depth, object);
        match end {
            SetEnd::Shown => {
                let scene = core.scene();
                has_line(rt, &scene, 0, Some(packed));
                let mut row = [CLEAR; 5];
                same_at(rt, pts, is_drawn(&scene, 0, &mut row), true);
                same_at(rt, pts, row, colours);
            }
            _ => same_at(rt, pts, end, SetEnd::Shown),
        }
    }
}

/// Makes a row the row y of a picture, where that has so many columns and the row.
fn is_drawn(scene: &Scene<'_>, y: u32, row: &mut [Colour]) -> bool {
    if scene.width() as usize != row.len() || y >= scene.height() {
        return false;
    }
    scene.row_into(y, row);
    true
}

/// A line of region 0 has these packed bytes.
fn has_line<R: Abort>(rt: &R, scene: &Scene<'_>, line: u16, packed: Option<&[u8]>) {
    same_at(rt, line, scene.packed_row(0, line), packed);
}

/// A display of twelve columns and six rows, whose window has columns 2 to 8 and rows 1 to 3.
const WINDOW: &[u8] = &[15, 20, 0, 1, 0, 13, 8, 0, 11, 0, 5, 0, 2, 0, 8, 0, 1, 0, 3];

/// A mode change that lists region 0 at (0, 1) and again at (1, 1) of the window.
const TWO_PLACES: &[u8] = &[
    15, 16, 0, 1, 0, 14, 10, 8, 0, 0, 0, 0, 0, 1, 0, 0, 0, 1, 0, 1,
];

/// Rows of a display of twelve columns, whose window has columns 2 to 8 and rows 1 to 3. A region
/// of eight by three pixels has its corner at (3, 2), and, drawn before it, at (2, 2).
#[test]
fn rows_of_a_window(rt: HostRuntime) {
    let mut core = sd_core(&rt, rt.alloc());
    rows_of_a_window_in(&rt, &mut core);
}

fn rows_of_a_window_in<R: Abort>(rt: &R, core: &mut Core) {
    let nothing = [CLEAR; 12];
    let drawn = [
        CLEAR, CLEAR, WHITE, WHITE, BLACK, GREY, BLACK, BLACK, BLACK, CLEAR, CLEAR, CLEAR,
    ];
    let end = take_drawn(
        core,
        0,
        &[WINDOW, TWO_PLACES],
        [8, 3],
        0,
        Depth::Two,
        &TWO_BITS,
    );
    match end {
        SetEnd::Shown => {
            let scene = core.scene();
            for (y, wanted) in [(1, nothing), (2, drawn), (3, drawn), (4, nothing)] {
                let mut row = [CLEAR; 12];
                same_at(rt, y, is_drawn(&scene, y, &mut row), true);
                same_at(rt, y, row, wanted);
            }
            has_line(rt, &scene, 0, Some(&[0x6E, 0xAA]));
            has_line(rt, &scene, 3, None);
        }
        _ => same(rt, end, SetEnd::Shown),
    }
}
