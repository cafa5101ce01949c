ghost use Rattle.std.specs.Prelude.{◌≡◌, true};
ghost use Rattle.decoder_model.specs.declared.set_end.SetEnd.TheVariants.{Shown};

use crate::same::{same, same_at};
use decoder_model::{SetEnd, SetFault};
use page_core::{Core, Scene};
use std::alloc::Global;
use std::panic::Expect;
use std::process::Abort;
use stream_syntax::{CodeFault, CodeKind, SegmentFault, SegmentKind};
use sub_base::{CLEAR, Colour, Profile, ProfileName};

// Segments of page 1. Pages: a mode change that lists region 1, the same of state normal, and one
// of state normal without entries.
pub(crate) const PAGE: &[u8] = &[15, 16, 0, 1, 0, 8, 10, 8, 1, 0, 0, 0, 0, 0];

pub(crate) const NORMAL: &[u8] = &[15, 16, 0, 1, 0, 8, 10, 0, 1, 0, 0, 0, 0, 0];

pub(crate) const EMPTY_PAGE: &[u8] = &[15, 16, 0, 1, 0, 2, 10, 0];

// Region 1 of 2 by 1 pixels in 2 bits that lists object 5: without a fill, in version 0; with a
// fill of code 1 in versions 0, 1 and 15, and with a fill of code 2 in version 0. Then one of 4 by
// 1 pixels in version 1, and one of 720 by 576 pixels in 8 bits.
pub(crate) const REGION: &[u8] = &[
    15, 17, 0, 1, 0, 16, 1, 0, 0, 2, 0, 1, 0x24, 0, 0, 0, 0, 5, 0, 0, 0, 0,
];

pub(crate) const FILLED: &[u8] = &[
    15, 17, 0, 1, 0, 16, 1, 8, 0, 2, 0, 1, 0x24, 0, 0, 4, 0, 5, 0, 0, 0, 0,
];

pub(crate) const FILLED_NEXT: &[u8] = &[
    15, 17, 0, 1, 0, 16, 1, 24, 0, 2, 0, 1, 0x24, 0, 0, 4, 0, 5, 0, 0, 0, 0,
];

const FILLED_LAST: &[u8] = &[
    15, 17, 0, 1, 0, 16, 1, 248, 0, 2, 0, 1, 0x24, 0, 0, 4, 0, 5, 0, 0, 0, 0,
];

const FILLED_AGAIN: &[u8] = &[
    15, 17, 0, 1, 0, 16, 1, 8, 0, 2, 0, 1, 0x24, 0, 0, 8, 0, 5, 0, 0, 0, 0,
];

const WIDER: &[u8] = &[15, 17, 0, 1, 0, 10, 1, 24, 0, 4, 0, 1, 0x24, 0, 0, 0];

const WHOLE: &[u8] = &[15, 17, 0, 1, 0, 10, 1, 8, 2, 208, 2, 64, 0x6C, 0, 0, 0];

// The same region in 4 and in 8 bits.
const FOUR_BITS: &[u8] = &[
    15, 17, 0, 1, 0, 16, 1, 0, 0, 2, 0, 1, 0x48, 0, 0, 0, 0, 5, 0, 0, 0, 0,
];

const EIGHT_BITS: &[u8] = &[
    15, 17, 0, 1, 0, 16, 1, 0, 0, 2, 0, 1, 0x6C, 0, 0, 0, 0, 5, 0, 0, 0, 0,
];

// Object 5: the codes 1 and 3 in 2 bits; two codes 2 in versions 0 and 1; the codes 1 and F in 4
// bits, and 01 and FF in 8 bits; and one of characters.
pub(crate) const OBJECT: &[u8] = &[15, 19, 0, 1, 0, 11, 0, 5, 0, 0, 4, 0, 0, 16, 0x70, 0, 240];

pub(crate) const OTHER: &[u8] = &[15, 19, 0, 1, 0, 11, 0, 5, 0, 0, 4, 0, 0, 16, 0xA0, 0, 240];

const OTHER_NEXT: &[u8] = &[15, 19, 0, 1, 0, 11, 0, 5, 16, 0, 4, 0, 0, 16, 0xA0, 0, 240];

const FOUR_BIT_OBJECT: &[u8] = &[15, 19, 0, 1, 0, 11, 0, 5, 0, 0, 4, 0, 0, 17, 0x1F, 0, 240];

const EIGHT_BIT_OBJECT: &[u8] = &[
    15, 19, 0, 1, 0, 13, 0, 5, 0, 0, 6, 0, 0, 18, 1, 255, 0, 0, 240,
];

pub(crate) const CHARACTERS: &[u8] = &[15, 19, 0, 1, 0, 3, 0, 5, 4];

// CLUT 0 gives code 1 of 2 bits the colours (100, 128, 128, 0) and, in versions 0 and 1, (50, 128,
// 128, 0).
pub(crate) const CLUT: &[u8] = &[15, 18, 0, 1, 0, 8, 0, 0, 1, 0x81, 100, 128, 128, 0];

pub(crate) const CLUT_AGAIN: &[u8] = &[15, 18, 0, 1, 0, 8, 0, 0, 1, 0x81, 50, 128, 128, 0];

const CLUT_NEXT: &[u8] = &[15, 18, 0, 1, 0, 8, 0, 16, 1, 0x81, 50, 128, 128, 0];

// Displays of 4 by 2 and of 721 by 576 pixels, a segment of a type that is passed over, and the
// end.
pub(crate) const SMALL_DISPLAY: &[u8] = &[15, 20, 0, 1, 0, 5, 0, 0, 3, 0, 1];

const WIDE_DISPLAY: &[u8] = &[15, 20, 0, 1, 0, 5, 0, 2, 208, 2, 63];

const STUFFING: &[u8] = &[15, 255, 0, 1, 0, 2, 170, 170];

pub(crate) const END: &[u8] = &[15, 128, 0, 1, 0, 0];

const WHITE: Colour = Colour {
    y: 235,
    cr: 128,
    cb: 128,
    t: 0,
};

const GREY: Colour = Colour {
    y: 126,
    cr: 128,
    cb: 128,
    t: 0,
};

// A core for page 1 that was handed nothing.
pub(crate) fn sd_core<R: Abort>(rt: &R, alloc: Global) -> Core {
    Core::make(alloc, &Profile::of(ProfileName::Sd), 1, 0).expect(rt, "memory")
}

// Puts bytes behind those that are there, as far as they have room.
pub(crate) fn put(bytes: &mut [u8; 4096], size: &mut usize, part: &[u8]) {
    for byte in part {
        if *size < 4096 {
            bytes[*size] = *byte;
            *size += 1;
        }
    }
}

// A set of these segments, one after another, is taken.
pub(crate) fn take(core: &mut Core, pts: u32, parts: &[&[u8]]) -> SetEnd
    ensures { result ≡ Shown → core.new.known ≡ true }
{
    let mut bytes = [0; 4096];
    let mut size = 0;
    for part in parts {
        put(&mut bytes, &mut size, part);
    }
    core.take_set(u64::from(pts), bytes.get(..size).unwrap_or(&[]))
}

// A set with a page of that state and so many entries, and region 1 of 2 by 1 pixels in that
// version with so many listings.
fn take_large(
    core: &mut Core,
    pts: u32,
    state: u8,
    entries: u32,
    version: u8,
    listings: u32,
) -> SetEnd {
    let mut bytes = [0; 4096];
    let mut size = 0;
    let length = 2 + 6 * u64::from(entries);
    put(
        &mut bytes,
        &mut size,
        &[
            15,
            16,
            0,
            1,
            (length / 256 % 256) as u8,
            (length % 256) as u8,
            10,
            state,
        ],
    );
    for _ in 0..entries {
        put(&mut bytes, &mut size, &[1, 0, 0, 0, 0, 0]);
    }
    let length = 10 + 6 * u64::from(listings);
    put(
        &mut bytes,
        &mut size,
        &[
            15,
            17,
            0,
            1,
            (length / 256 % 256) as u8,
            (length % 256) as u8,
            1,
            version << 4,
        ],
    );
    put(&mut bytes, &mut size, &[0, 2, 0, 1, 0x24, 0, 0, 0]);
    for _ in 0..listings {
        put(&mut bytes, &mut size, &[0, 0, 0, 0, 0, 0]);
    }
    core.take_set(u64::from(pts), bytes.get(..size).unwrap_or(&[]))
}

// The fault of a segment.
pub(crate) fn in_segment(place: u32, kind: SegmentKind) -> SetEnd {
    SetEnd::Broken(SetFault::Segment(SegmentFault { place, kind }))
}

/// A set as a usual encoder makes it, one like it whose object has another coding method, and what
/// follows; and each fault of a set by its epoch once, but the one of a full pool: the answers, and
/// what is free.
#[test]
fn verdicts(rt: HostRuntime) {
    let mut core = sd_core(&rt, rt.alloc());
    verdicts_in(&rt, &mut core);
}

fn verdicts_in<R: Abort>(rt: &R, core: &mut Core) {
    let broken = |fault| SetEnd::Broken(fault);
    let too_deep = SegmentKind::Code(CodeFault {
        place: 0,
        kind: CodeKind::TooDeep,
    });
    let rows: [(u32, &[&[u8]], SetEnd, u32, u64); 16] = [
        (
            90_000,
            &[PAGE, REGION, STUFFING, OBJECT, END],
            SetEnd::Shown,
            509,
            81_919,
        ),
        (
            90_000,
            &[PAGE, END],
            SetEnd::NotLater { last: 90_000 },
            509,
            81_919,
        ),
        (
            90_001,
            &[PAGE, REGION, CHARACTERS, END],
            in_segment(8, SegmentKind::CharacterObject),
            512,
            81_920,
        ),
        (90_002, &[EMPTY_PAGE, END], SetEnd::Waiting, 512, 81_920),
        (
            90_003,
            &[PAGE, REGION, OBJECT, END],
            SetEnd::Shown,
            509,
            81_919,
        ),
        (90_004, &[EMPTY_PAGE, CLUT, END], SetEnd::Shown, 508, 81_919),
        (
            90_005,
            &[NORMAL, WIDER],
            broken(SetFault::RegionChanged { id: 1 }),
            512,
            81_920,
        ),
        (
            90_006,
            &[PAGE, PAGE],
            broken(SetFault::TwiceInSet { kind: 16, id: 0 }),
            512,
            81_920,
        ),
        (
            90_007,
            &[REGION, END],
            broken(SetFault::NoPage),
            512,
            81_920,
        ),
        (
            90_008,
            &[PAGE, WIDE_DISPLAY],
            broken(SetFault::DisplayTooLarge {
                width: 721,
                height: 576,
            }),
            512,
            81_920,
        ),
        (
            90_009,
            &[PAGE, END],
            broken(SetFault::NoSuchRegion { id: 1 }),
            512,
            81_920,
        ),
        (
            90_010,
            &[PAGE, WHOLE],
            broken(SetFault::PixelFull {
                need: 414_720,
                free: 81_920,
            }),
            512,
            81_920,
        ),
        (
            90_011,
            &[PAGE, REGION, FOUR_BIT_OBJECT],
            in_segment(13, too_deep),
            512,
            81_920,
        ),
        // The second object has the version of the first, and paints nothing.
        (
            90_012,
            &[PAGE, FILLED, OBJECT, FOUR_BIT_OBJECT],
            SetEnd::Shown,
            509,
            81_919,
        ),
        (90_013, &[PAGE, FOUR_BITS, END], SetEnd::Shown, 509, 81_919),
        (90_014, &[PAGE, EIGHT_BITS, END], SetEnd::Shown, 509, 81_918),
    ];
    for (pts, parts, end, nodes, pixels) in rows {
        same_at(rt, pts, take(core, pts, parts), end);
        same_at(
            rt,
            pts,
            (core.free_nodes(), core.free_pixels()),
            (nodes, pixels),
        );
    }
}

/// All nodes are taken, by listings or by entries of the page, whichever were there before; and one
/// more is too many.
#[test]
fn full_pools(rt: HostRuntime) {
    let mut core = sd_core(&rt, rt.alloc());
    full_pools_in(&rt, &mut core);
}

fn full_pools_in<R: Abort>(rt: &R, core: &mut Core) {
    let full = SetEnd::Broken(SetFault::CompositionFull { size: 513 });
    let rows = [
        (8, 1, 0, 510, SetEnd::Shown, 0),
        (0, 510, 1, 1, SetEnd::Shown, 0),
        (0, 1, 2, 510, SetEnd::Shown, 0),
        (0, 1, 2, 2, SetEnd::Shown, 0),
        (0, 2, 2, 510, full, 512),
        (8, 2, 3, 510, full, 512),
        (8, 1, 3, 2, SetEnd::Shown, 508),
    ];
    for pts in 0..rows.len() {
        let (state, entries, version, listings, end, free) = rows[pts];
        let found = take_large(core, pts as u32, state, entries, version, listings);
        same_at(rt, pts, (found, core.free_nodes()), (end, free));
    }
}

/// A string of each depth in a region of each depth: the packed row, or none where the string is
/// too deep.
#[test]
fn depths(rt: HostRuntime) {
    let mut core = sd_core(&rt, rt.alloc());
    depths_in(&rt, &mut core);
}

fn depths_in<R: Abort>(rt: &R, core: &mut Core) {
    let rows: [(&[u8], &[u8], Option<&[u8]>); 9] = [
        (REGION, OBJECT, Some(&[0x70])),
        (REGION, FOUR_BIT_OBJECT, None),
        (REGION, EIGHT_BIT_OBJECT, None),
        (FOUR_BITS, OBJECT, Some(&[0x7F])),
        (FOUR_BITS, FOUR_BIT_OBJECT, Some(&[0x1F])),
        (FOUR_BITS, EIGHT_BIT_OBJECT, None),
        (EIGHT_BITS, OBJECT, Some(&[0x77, 0xFF])),
        (EIGHT_BITS, FOUR_BIT_OBJECT, Some(&[0x11, 0xFF])),
        (EIGHT_BITS, EIGHT_BIT_OBJECT, Some(&[1, 255])),
    ];
    for pts in 0..rows.len() {
        let (region, object, row) = rows[pts];
        match take(core, pts as u32, &[PAGE, region, object]) {
            SetEnd::Shown => same_at(rt, pts, core.scene().packed_row(1, 0), row),
            _ => same_at(rt, pts, None, row),
        }
    }
}

/// Versions: a region or an object with the version that is known is held, whatever it has;
/// listings are unpainted behind a region's segment; and version 0 comes behind version 15.
#[test]
fn versions(rt: HostRuntime) {
    let mut core = sd_core(&rt, rt.alloc());
    versions_in(&rt, &mut core);
}

fn versions_in<R: Abort>(rt: &R, core: &mut Core) {
    let rows: [(&[&[u8]], u8); 8] = [
        (&[PAGE, FILLED, OBJECT], 0x70),
        (&[NORMAL, FILLED_AGAIN, OTHER], 0x70),
        (&[NORMAL, OTHER_NEXT], 0xA0),
        (&[NORMAL, FILLED_NEXT], 0x50),
        (&[NORMAL, OTHER_NEXT], 0xA0),
        (&[NORMAL, FILLED_LAST], 0x50),
        (&[NORMAL, FILLED_AGAIN], 0xA0),
        (&[PAGE, REGION], 0),
    ];
    for pts in 0..rows.len() {
        let (parts, row) = rows[pts];
        match take(core, pts as u32, parts) {
            SetEnd::Shown => {
                let scene = core.scene();
                same_at(rt, pts, scene.packed_row(1, 0), Some([row].as_slice()));
            }
            end => same_at(rt, pts, end, SetEnd::Shown),
        }
    }
}

/// Colours: a CLUT with the version that is known is held, and a new epoch has default colours. The
/// display of an epoch stays where a set defines none.
#[test]
fn colours_and_displays(rt: HostRuntime) {
    let mut core = sd_core(&rt, rt.alloc());
    colours_and_displays_in(&rt, &mut core);
}

fn colours_and_displays_in<R: Abort>(rt: &R, core: &mut Core) {
    let grey = |y| Colour {
        y,
        cr: 128,
        cb: 128,
        t: 0,
    };
    let rows: [(&[&[u8]], u32, Colour); 6] = [
        (&[PAGE, REGION, OBJECT], 720, WHITE),
        (&[PAGE, SMALL_DISPLAY, REGION, CLUT, OBJECT], 4, grey(100)),
        (&[NORMAL, CLUT_AGAIN], 4, grey(100)),
        (&[NORMAL, CLUT_NEXT], 4, grey(50)),
        (&[EMPTY_PAGE], 4, CLEAR),
        (&[PAGE, REGION, OBJECT], 720, WHITE),
    ];
    let mut row = [CLEAR; 720];
    for pts in 0..rows.len() {
        let (parts, width, colour) = rows[pts];
        match take(core, pts as u32, parts) {
            SetEnd::Shown => {
                let first = first_colour(&core.scene(), &mut row);
                same_at(rt, pts, first, Some((width, colour)));
            }
            end => same_at(rt, pts, end, SetEnd::Shown),
        }
    }
    same(rt, (row[0], row[1], row[2]), (WHITE, GREY, CLEAR));
}

// The width of a picture, and the first colour of its first row, which the row then has.
pub(crate) fn first_colour(scene: &Scene<'_>, row: &mut [Colour; 720]) -> Option<(u32, Colour)> {
    let width = scene.width();
    let places = row.get_mut(..width as usize)?;
    if scene.height() == 0 {
        return None;
    }
    scene.row_into(0, places);
    Some((width, *places.first()?))
}
