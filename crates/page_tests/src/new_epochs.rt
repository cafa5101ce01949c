use crate::same::{same, same_at};
use crate::taken_sets::{sd_core, take};
use decoder_model::{SetEnd, SetFault};
use page_core::Core;
use std::panic::Expect;
use std::process::Abort;
use stream_syntax::{CodeFault, CodeKind, SegmentFault, SegmentKind};
use sub_base::{Profile, ProfileName};

/// Lifted times go on where presentation times go round, and are kept by refused sets alone: a loss
/// changes none.
#[test]
#[tactic(auto, using(page_core::proofs::Counts::ProfileNodes::few_nodes))]
fn lifted_times(rt: HostRuntime) {
    let mut core = Core::make(rt.alloc(), &Profile::of(ProfileName::Sd), 1, 100).expect(
        &rt, "memory",
    );
    lifted_times_in(&rt, &mut core);
}

fn lifted_times_in<R: Abort>(rt: &R, core: &mut Core) {
    let long = SetFault::SetTooLong { size: 24_577 };
    // The first set is lifted from the anchor on.
    same(rt, core.lift(100), Some(100));
    same(rt, core.lift(99), Some(8_589_934_691));
    same(
        rt,
        core.refuse_set(8_589_934_590, long),
        SetEnd::Broken(long),
    );
    // The next are less than 2 to the 32 ahead of the last kept one.
    same(rt, core.lift(8_589_934_590), None);
    same(rt, core.lift(8_589_934_591), Some(8_589_934_591));
    same(rt, core.lift(5), Some(8_589_934_597));
    same(rt, core.lift(4_294_967_293), Some(12_884_901_885));
    same(rt, core.lift(4_294_967_294), None);
    same(
        rt,
        core.refuse_set(8_589_934_589, long),
        SetEnd::NotLater {
            last: 8_589_934_590,
        },
    );
    core.lose();
    same(rt, core.lift(8_589_934_590), None);
    same(
        rt,
        core.refuse_set(0, SetFault::NoPage),
        SetEnd::Broken(SetFault::NoPage),
    );
    same(
        rt,
        core.refuse_set(0, long),
        SetEnd::NotLater {
            last: 8_589_934_592,
        },
    );
}

/// All memory is free before the first set, after a loss and after a broken set.
#[test]
#[tactic(auto, using(page_core::proofs::Counts::ProfileNodes::few_nodes))]
fn free_memory(rt: HostRuntime) {
    let rows = [
        (ProfileName::Sd, 512, 81_920),
        (ProfileName::Hd, 2_048, 327_680),
        (ProfileName::Wide, 8_192, 4_194_304),
        (ProfileName::Large, 8_192, 4_194_304),
    ];
    for (name, nodes, pixels) in rows {
        let mut core = Core::make(rt.alloc(), &Profile::of(name), 7, 0).expect(&rt, "memory");
        free_memory_in(&rt, &mut core, (nodes, pixels));
    }
}

fn free_memory_in<R: Abort>(rt: &R, core: &mut Core, all: (u32, u64)) {
    same(rt, (core.free_nodes(), core.free_pixels()), all);
    core.lose();
    same(rt, (core.free_nodes(), core.free_pixels()), all);
    let _ = core.refuse_set(1, SetFault::NoPage);
    same(rt, (core.free_nodes(), core.free_pixels()), all);
}

// Segments of page 1: a mode change that lists region 1, an acquisition that lists none, regions 1
// of 2 by 1 and of 4 by 1 pixels in 2 bits, a display of 720 by 576 and one of 721 by 576, an
// object of 2 bits, one of characters, one whose string has no end, one of type FF, and the end.
const PAGE: &[u8] = &[15, 16, 0, 1, 0, 8, 10, 8, 1, 0, 0, 0, 0, 0];

const NO_ENTRY: &[u8] = &[15, 16, 0, 1, 0, 2, 10, 4];

const REGION: &[u8] = &[15, 17, 0, 1, 0, 10, 1, 8, 0, 2, 0, 1, 36, 0, 0, 0];

const WIDER: &[u8] = &[15, 17, 0, 1, 0, 10, 1, 24, 0, 4, 0, 1, 36, 0, 0, 0];

const DISPLAY: &[u8] = &[15, 20, 0, 1, 0, 5, 0, 2, 207, 2, 63];

const WIDE_DISPLAY: &[u8] = &[15, 20, 0, 1, 0, 5, 0, 2, 208, 2, 63];

const OBJECT: &[u8] = &[15, 19, 0, 1, 0, 11, 0, 5, 0, 0, 4, 0, 0, 16, 112, 0, 240];

const CHARACTERS: &[u8] = &[15, 19, 0, 1, 0, 3, 0, 5, 4];

const NO_END: &[u8] = &[15, 19, 0, 1, 0, 9, 0, 5, 0, 0, 2, 0, 0, 18, 1];

const STUFFING: &[u8] = &[15, 255, 0, 1, 0, 2, 170, 170];

const END: &[u8] = &[15, 128, 0, 1, 0, 0];

/// The first fault of a set by its segments one by one; and, where they have none, what the set is
/// by its page in an epoch of its own.
#[test]
fn segments_of_sets(rt: HostRuntime) {
    let mut core = sd_core(&rt, rt.alloc());
    segments_of_sets_in(&rt, &mut core);
}

fn segments_of_sets_in<R: Abort>(rt: &R, core: &mut Core) {
    let broken = |fault| SetEnd::Broken(fault);
    let twice = |kind, id| SetEnd::Broken(SetFault::TwiceInSet { kind, id });
    let rows: [(&[&[u8]], SetEnd); 9] = [
        (&[PAGE, REGION, STUFFING, OBJECT, END], SetEnd::Shown),
        (&[], broken(SetFault::NoPage)),
        (&[PAGE, REGION, NO_ENTRY, CHARACTERS], twice(16, 0)),
        (&[DISPLAY, PAGE, DISPLAY], twice(20, 0)),
        (&[REGION, PAGE, WIDER], twice(17, 1)),
        (&[OBJECT, OBJECT, END, END], broken(SetFault::NoPage)),
        (
            &[CHARACTERS, PAGE, PAGE],
            broken(SetFault::Segment(SegmentFault {
                place: 8,
                kind: SegmentKind::CharacterObject,
            })),
        ),
        (
            &[NO_END],
            broken(SetFault::Segment(SegmentFault {
                place: 13,
                kind: SegmentKind::Code(CodeFault {
                    place: 0,
                    kind: CodeKind::CutString,
                }),
            })),
        ),
        (&[PAGE, STUFFING], broken(SetFault::NoSuchRegion { id: 1 })),
    ];
    for pts in 0..rows.len() {
        let (parts, end) = rows[pts];
        core.lose();
        same_at(rt, pts, take(core, pts as u32, parts), end);
    }
}

// Regions of 8 bits: 2 of 720 by 576, 2 of 720 by 80 and 3 of 720 by 40 pixels.
const WHOLE: &[u8] = &[15, 17, 0, 1, 0, 10, 2, 8, 2, 208, 2, 64, 108, 0, 0, 0];

const LINES: &[u8] = &[15, 17, 0, 1, 0, 10, 2, 8, 2, 208, 0, 80, 108, 0, 0, 0];

const MORE: &[u8] = &[15, 17, 0, 1, 0, 10, 3, 8, 2, 208, 0, 40, 108, 0, 0, 0];

/// The first fault of a set by an epoch that has nothing before it.
#[test]
fn sets_in_a_new_epoch(rt: HostRuntime) {
    let mut core = sd_core(&rt, rt.alloc());
    sets_in_a_new_epoch_in(&rt, &mut core);
}

fn sets_in_a_new_epoch_in<R: Abort>(rt: &R, core: &mut Core) {
    let broken = |fault| SetEnd::Broken(fault);
    let full = |need, free| SetEnd::Broken(SetFault::PixelFull { need, free });
    let rows: [(&[&[u8]], SetEnd); 7] = [
        (&[PAGE, REGION, OBJECT, END], SetEnd::Shown),
        (&[DISPLAY, NO_ENTRY], SetEnd::Shown),
        (
            &[PAGE, WIDE_DISPLAY],
            broken(SetFault::DisplayTooLarge {
                width: 721,
                height: 576,
            }),
        ),
        (&[PAGE, WHOLE], broken(SetFault::NoSuchRegion { id: 1 })),
        (&[NO_ENTRY, WHOLE], full(414_720, 81_920)),
        (&[NO_ENTRY, LINES, MORE], full(28_800, 24_320)),
        (&[NO_ENTRY, MORE, LINES], full(57_600, 53_120)),
    ];
    for pts in 0..rows.len() {
        let (parts, end) = rows[pts];
        core.lose();
        same_at(rt, pts, take(core, pts as u32, parts), end);
    }
}

// Region 1 with two listings. CLUT 7 of version 2 with entry 1 in the tables of 2 and 4 bits,
// twice, and with entry 5 in those two; of version 3 with entry 1 in all tables; and CLUT 8.
const LISTING: &[u8] = &[
    15, 17, 0, 1, 0, 22, 1, 8, 0, 2, 0, 1, 36, 0, 0, 0, 0, 5, 0, 0, 0, 0, 0, 6, 0, 0, 0, 0,
];

const CLUT: &[u8] = &[
    15, 18, 0, 1, 0, 14, 7, 47, 1, 193, 81, 240, 90, 192, 1, 193, 0, 240, 90, 192,
];

const FIVE: &[u8] = &[15, 18, 0, 1, 0, 8, 7, 47, 5, 193, 81, 240, 90, 192];

const NEXT: &[u8] = &[15, 18, 0, 1, 0, 8, 7, 63, 1, 225, 81, 240, 90, 192];

const OTHER: &[u8] = &[15, 18, 0, 1, 0, 8, 8, 47, 1, 193, 81, 240, 90, 192];

/// The nodes that a set needs in an epoch that has nothing before it: a core without nodes tells
/// them, and tells them again.
#[test]
fn nodes_of_sets(rt: HostRuntime) {
    let none = Profile {
        nodes: 0,
        ..Profile::of(ProfileName::Sd)
    };
    let mut core = Core::make(rt.alloc(), &none, 1, 0).expect(&rt, "memory");
    nodes_of_sets_in(&rt, &mut core);
}

fn nodes_of_sets_in<R: Abort>(rt: &R, core: &mut Core) {
    let full = |size| SetEnd::Broken(SetFault::CompositionFull { size });
    let rows: [(&[&[u8]], SetEnd); 10] = [
        (&[NO_ENTRY, OBJECT, END], SetEnd::Shown),
        (&[PAGE, REGION], full(2)),
        (&[NO_ENTRY, LISTING], full(3)),
        (&[PAGE, LISTING], full(4)),
        (&[NO_ENTRY, CLUT], full(3)),
        (&[NO_ENTRY, FIVE], full(2)),
        (&[CLUT, NO_ENTRY, FIVE], full(3)),
        (&[CLUT, NEXT, NO_ENTRY], full(4)),
        (&[CLUT, OTHER, NO_ENTRY], full(6)),
        (&[FIVE, NEXT, CLUT, NO_ENTRY], full(5)),
    ];
    let mut pts = 0u32;
    for (parts, end) in rows {
        core.lose();
        same_at(rt, pts, take(core, pts, parts), end);
        // What was counted is not known any more.
        pts = pts.wrapping_add(1);
        same_at(rt, pts, take(core, pts, parts), end);
        pts = pts.wrapping_add(1);
    }
}

/// The nodes that CLUT segments leave free: one whose version is known takes none.
#[test]
fn nodes_of_cluts(rt: HostRuntime) {
    let mut core = sd_core(&rt, rt.alloc());
    nodes_of_cluts_in(&rt, &mut core);
}

fn nodes_of_cluts_in<R: Abort>(rt: &R, core: &mut Core) {
    let rows: [(&[&[u8]], u32); 5] = [
        (&[NO_ENTRY, CLUT], 509),
        (&[NO_ENTRY, FIVE], 509),
        (&[NO_ENTRY, NEXT, CLUT], 508),
        (&[NO_ENTRY, FIVE], 508),
        (&[NO_ENTRY, OTHER, NEXT, FIVE], 504),
    ];
    for pts in 0..rows.len() {
        let (parts, free) = rows[pts];
        let end = take(core, pts as u32, parts);
        same_at(rt, pts, (end, core.free_nodes()), (SetEnd::Shown, free));
    }
    core.lose();
    same(rt, core.free_nodes(), 512);
    same(rt, take(core, 5, &[NO_ENTRY, CLUT]), SetEnd::Shown);
    same(rt, core.free_nodes(), 509);
}

// Pages without entries: a mode change, and one of state normal.
const MODE_CHANGE: &[u8] = &[15, 16, 0, 1, 0, 2, 10, 8];

const NORMAL: &[u8] = &[15, 16, 0, 1, 0, 2, 10, 0];

/// A set begins an epoch, goes on with the one that is known, or waits: behind a loss, and behind a
/// set with a CLUT of three nodes, which are free again where an epoch begins.
#[test]
fn epochs_begin_and_go_on(rt: HostRuntime) {
    let mut core = sd_core(&rt, rt.alloc());
    epochs_begin_and_go_on_in(&rt, &mut core);
}

fn epochs_begin_and_go_on_in<R: Abort>(rt: &R, core: &mut Core) {
    let rows = [
        (MODE_CHANGE, SetEnd::Shown, 512),
        (NO_ENTRY, SetEnd::Shown, 509),
        (NORMAL, SetEnd::Waiting, 509),
    ];
    let mut pts = 0u32;
    for (page, unknown, free) in rows {
        core.lose();
        let end = take(core, pts, &[page]);
        same_at(rt, pts, (end, core.free_nodes()), (unknown, 512));
        pts = pts.wrapping_add(1);
        let begun = take(core, pts, &[MODE_CHANGE, CLUT]);
        same_at(rt, pts, (begun, core.free_nodes()), (SetEnd::Shown, 509));
        pts = pts.wrapping_add(1);
        let known = take(core, pts, &[page]);
        same_at(rt, pts, (known, core.free_nodes()), (SetEnd::Shown, free));
        pts = pts.wrapping_add(1);
    }
}
