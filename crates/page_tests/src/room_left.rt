//! What earlier sets of an epoch leave to a set: bytes of pixels, nodes, and versions.

use crate::same::same_at;
use crate::taken_sets::{
    CLUT, CLUT_AGAIN, EMPTY_PAGE, FILLED, NORMAL, OBJECT, OTHER, PAGE, REGION, first_colour, put,
    sd_core, take,
};
use decoder_model::{SetEnd, SetFault};
use page_core::Core;
use std::process::Abort;
use sub_base::{CLEAR, Colour};

// A mode change that lists no region. Regions of 8 bits: 2 of 720 by 80 pixels in versions 0 and 1;
// 3 of 720 by 40, of 640 by 38 and of 720 by 20; and 4 of 720 by 20. Region 5 of 5 by 3 pixels in 2
// bits has six bytes.
const BEGIN: &[u8] = &[15, 16, 0, 1, 0, 2, 10, 8];

const LINES: &[u8] = &[15, 17, 0, 1, 0, 10, 2, 8, 2, 208, 0, 80, 0x6C, 0, 0, 0];

const LINES_NEXT: &[u8] = &[15, 17, 0, 1, 0, 10, 2, 24, 2, 208, 0, 80, 0x6C, 0, 0, 0];

const FORTY: &[u8] = &[15, 17, 0, 1, 0, 10, 3, 8, 2, 208, 0, 40, 0x6C, 0, 0, 0];

const REST: &[u8] = &[15, 17, 0, 1, 0, 10, 3, 8, 2, 128, 0, 38, 0x6C, 0, 0, 0];

const TWENTY: &[u8] = &[15, 17, 0, 1, 0, 10, 3, 8, 2, 208, 0, 20, 0x6C, 0, 0, 0];

const TWENTY_MORE: &[u8] = &[15, 17, 0, 1, 0, 10, 4, 8, 2, 208, 0, 20, 0x6C, 0, 0, 0];

const SMALL: &[u8] = &[15, 17, 0, 1, 0, 10, 5, 8, 0, 5, 0, 3, 0x24, 0, 0, 0];

/// Regions of earlier sets keep their bytes: a new region has what they leave, a known one needs
/// none, and all is free behind a set for which it is not enough.
#[test]
fn pixels_of_earlier_sets(rt: HostRuntime) {
    let mut core = sd_core(&rt, rt.alloc());
    pixels_of_earlier_sets_in(&rt, &mut core);
}

fn pixels_of_earlier_sets_in<R: Abort>(rt: &R, core: &mut Core) {
    let full = |need, free| SetEnd::Broken(SetFault::PixelFull { need, free });
    let rows: [(&[&[u8]], SetEnd, u64); 10] = [
        (&[BEGIN, LINES], SetEnd::Shown, 24_320),
        (&[EMPTY_PAGE, FORTY], full(28_800, 24_320), 81_920),
        (&[BEGIN, LINES], SetEnd::Shown, 24_320),
        (&[EMPTY_PAGE, REST], SetEnd::Shown, 0),
        (&[EMPTY_PAGE, LINES_NEXT], SetEnd::Shown, 0),
        (&[EMPTY_PAGE, SMALL], full(6, 0), 81_920),
        (&[BEGIN, LINES], SetEnd::Shown, 24_320),
        (&[EMPTY_PAGE, SMALL], SetEnd::Shown, 24_314),
        (
            &[EMPTY_PAGE, TWENTY, TWENTY_MORE],
            full(14_400, 9_914),
            81_920,
        ),
        (&[EMPTY_PAGE], SetEnd::Waiting, 81_920),
    ];
    for pts in 0..rows.len() {
        let (parts, end, free) = rows[pts];
        let found = take(core, pts as u32, parts);
        same_at(rt, pts, (found, core.free_pixels()), (end, free));
    }
}

// A set with a page that lists region 1, that region of 2 by 1 pixels in a version with so many
// listings, and CLUT 0 in a version with so many entries of 8 bits.
#[derive(Clone, Copy)]
struct Coloured {
    page: &'static [u8],
    region: u8,
    listings: u32,
    clut: u8,
    entries: u32,
}

// Puts the head of a segment with a body of so many bytes.
fn put_head(bytes: &mut [u8; 4096], size: &mut usize, kind: u8, length: u64) {
    let [high, low] = [length / 256 % 256, length % 256];
    put(bytes, size, &[15, kind, 0, 1, high as u8, low as u8]);
}

fn take_coloured(core: &mut Core, pts: u32, set: Coloured) -> SetEnd {
    let mut bytes = [0; 4096];
    let mut size = 0;
    put(&mut bytes, &mut size, set.page);
    put_head(&mut bytes, &mut size, 17, 10 + 6 * u64::from(set.listings));
    put(
        &mut bytes,
        &mut size,
        &[1, set.region << 4, 0, 2, 0, 1, 0x24, 0, 0, 0],
    );
    for _ in 0..set.listings {
        put(&mut bytes, &mut size, &[0, 0, 0, 0, 0, 0]);
    }
    put_head(&mut bytes, &mut size, 18, 2 + 6 * u64::from(set.entries));
    put(&mut bytes, &mut size, &[0, set.clut << 4]);
    for entry in 0..set.entries {
        put(
            &mut bytes,
            &mut size,
            &[(entry % 256) as u8, 0x21, 100, 128, 128, 0],
        );
    }
    core.take_set(u64::from(pts), bytes.get(..size).unwrap_or(&[]))
}

/// A page entry, a region, a CLUT, and each listing and colour that earlier sets or this one
/// brought is a node. A segment in a version that is known brings none, and listings replace those
/// before them.
#[test]
fn nodes_of_earlier_sets(rt: HostRuntime) {
    let mut core = sd_core(&rt, rt.alloc());
    nodes_of_earlier_sets_in(&rt, &mut core);
}

fn nodes_of_earlier_sets_in<R: Abort>(rt: &R, core: &mut Core) {
    let full = |size| SetEnd::Broken(SetFault::CompositionFull { size });
    let set = |page, region, listings, clut, entries| Coloured {
        page,
        region,
        listings,
        clut,
        entries,
    };
    let rows = [
        (set(PAGE, 0, 250, 0, 200), SetEnd::Shown, 59),
        (set(NORMAL, 1, 309, 0, 256), SetEnd::Shown, 0),
        (set(NORMAL, 1, 0, 1, 200), SetEnd::Shown, 0),
        (set(NORMAL, 1, 0, 2, 201), full(513), 512),
        (set(PAGE, 0, 0, 0, 256), SetEnd::Shown, 253),
        (set(NORMAL, 1, 253, 0, 0), SetEnd::Shown, 0),
        (set(NORMAL, 2, 300, 1, 1), full(559), 512),
        (set(NORMAL, 3, 0, 2, 0), SetEnd::Waiting, 512),
    ];
    for pts in 0..rows.len() {
        let (set, end, free) = rows[pts];
        let found = take_coloured(core, pts as u32, set);
        same_at(rt, pts, (found, core.free_nodes()), (end, free));
    }
}

// Object 5 with two codes 2, and CLUT 0 with the colour (100, 128, 128, 0) for code 1, in version
// 15.
const OTHER_LAST: &[u8] = &[
    15, 19, 0, 1, 0, 11, 0, 5, 0xF0, 0, 4, 0, 0, 16, 0xA0, 0, 240,
];

const CLUT_LAST: &[u8] = &[15, 18, 0, 1, 0, 8, 0, 0xF0, 1, 0x81, 100, 128, 128, 0];

/// Version 0 comes behind version 15 for objects too: it paints again, and then other content in
/// version 0 does not.
#[test]
fn object_versions_go_round(rt: HostRuntime) {
    let mut core = sd_core(&rt, rt.alloc());
    object_versions_go_round_in(&rt, &mut core);
}

fn object_versions_go_round_in<R: Abort>(rt: &R, core: &mut Core) {
    let rows: [(&[&[u8]], u8); 3] = [
        (&[PAGE, FILLED, OTHER_LAST], 0xA0),
        (&[NORMAL, OBJECT], 0x70),
        (&[NORMAL, OTHER], 0x70),
    ];
    for pts in 0..rows.len() {
        let (parts, row) = rows[pts];
        match take(core, pts as u32, parts) {
            SetEnd::Shown => {
                let scene = core.scene();
                same_at(rt, pts, scene.packed_row(1, 0), Some([row].as_slice()));
            }
            end => same_at(rt, pts, end, SetEnd::Shown),
        }
    }
}

/// The same for CLUTs.
#[test]
fn clut_versions_go_round(rt: HostRuntime) {
    let mut core = sd_core(&rt, rt.alloc());
    clut_versions_go_round_in(&rt, &mut core);
}

fn clut_versions_go_round_in<R: Abort>(rt: &R, core: &mut Core) {
    let rows: [(&[&[u8]], u8); 3] = [
        (&[PAGE, REGION, OBJECT, CLUT_LAST], 100),
        (&[NORMAL, CLUT_AGAIN], 50),
        (&[NORMAL, CLUT], 50),
    ];
    let mut row = [CLEAR; 720];
    for pts in 0..rows.len() {
        let (parts, y) = rows[pts];
        let colour = Colour {
            y,
            cr: 128,
            cb: 128,
            t: 0,
        };
        match take(core, pts as u32, parts) {
            SetEnd::Shown => {
                let first = first_colour(&core.scene(), &mut row);
                same_at(rt, pts, first, Some((720, colour)));
            }
            end => same_at(rt, pts, end, SetEnd::Shown),
        }
    }
}
