ghost use Rattle.std.specs.Prelude.{◌≡◌, [], true};
ghost use Rattle.display_sets.specs.Gathered.{ready_sets};

use crate::same::same;
use display_sets::{Gathering, Pages, Ready, SetFault, UnitEnd};
use std::alloc::Global;
use std::panic::Expect;
use std::process::Abort;
use stream_syntax::{SegmentFault, SegmentKind};

/// An empty page with the page id 1.
const PAGE: [u8; 8] = [0x0F, 0x10, 0x00, 0x01, 0x00, 0x02, 0x0A, 0x08];

/// The end of a set of page 1.
const END: [u8; 6] = [0x0F, 0x80, 0x00, 0x01, 0x00, 0x00];

/// A page and the end of its set.
const SET: [u8; 14] = [
    0x0F, 0x10, 0x00, 0x01, 0x00, 0x02, 0x0A, 0x08, 0x0F, 0x80, 0x00, 0x01, 0x00, 0x00,
];

/// The same, and the end marker of the field.
const WHOLE: [u8; 15] = [
    0x0F, 0x10, 0x00, 0x01, 0x00, 0x02, 0x0A, 0x08, 0x0F, 0x80, 0x00, 0x01, 0x00, 0x00, 0xFF,
];

/// Two pages, the second with its end between: what follows the end does not count.
const BEHIND: [u8; 22] = [
    0x0F, 0x10, 0x00, 0x01, 0x00, 0x02, 0x0A, 0x08, 0x0F, 0x80, 0x00, 0x01, 0x00, 0x00, 0x0F, 0x10,
    0x00, 0x01, 0x00, 0x02, 0x0A, 0x08,
];

/// An end of page 2, and a segment of page 1 of a type that belongs to no set.
const OTHERS: [u8; 13] = [
    0x0F, 0x80, 0x00, 0x02, 0x00, 0x00, 0x0F, 0x16, 0x00, 0x01, 0x00, 0x01, 0x00,
];

/// Three pages: 24 bytes.
const LONG: [u8; 24] = [
    0x0F, 0x10, 0x00, 0x01, 0x00, 0x02, 0x0A, 0x08, 0x0F, 0x10, 0x00, 0x01, 0x00, 0x02, 0x0A, 0x08,
    0x0F, 0x10, 0x00, 0x01, 0x00, 0x02, 0x0A, 0x08,
];

/// A page, and a byte that begins no segment.
const UNSYNCED: [u8; 9] = [0x0F, 0x10, 0x00, 0x01, 0x00, 0x02, 0x0A, 0x08, 0x00];

/// An end of page 2, and a head that is cut.
const CUT: [u8; 9] = [0x0F, 0x80, 0x00, 0x02, 0x00, 0x00, 0x0F, 0x10, 0x00];

/// Page 1, a CLUT and an object of page 2, the end of page 2, and the end of page 1.
const TWO_PAGES: [u8; 32] = [
    0x0F, 0x10, 0x00, 0x01, 0x00, 0x02, 0x0A, 0x08, 0x0F, 0x12, 0x00, 0x02, 0x00, 0x00, 0x0F, 0x13,
    0x00, 0x02, 0x00, 0x00, 0x0F, 0x80, 0x00, 0x02, 0x00, 0x00, 0x0F, 0x80, 0x00, 0x01, 0x00, 0x00,
];

/// The same without the end of page 2.
const SHARED: [u8; 26] = [
    0x0F, 0x10, 0x00, 0x01, 0x00, 0x02, 0x0A, 0x08, 0x0F, 0x12, 0x00, 0x02, 0x00, 0x00, 0x0F, 0x13,
    0x00, 0x02, 0x00, 0x00, 0x0F, 0x80, 0x00, 0x01, 0x00, 0x00,
];

/// What of it is page 2: a CLUT, an object and the end.
const SECOND: [u8; 18] = [
    0x0F, 0x12, 0x00, 0x02, 0x00, 0x00, 0x0F, 0x13, 0x00, 0x02, 0x00, 0x00, 0x0F, 0x80, 0x00, 0x02,
    0x00, 0x00,
];

/// A unit: its time, its size and its segments; what becomes of it, and the sets that are ready
/// then.
#[derive(Clone, Copy)]
struct Row<'a> {
    time: u32,
    size: u32,
    field: &'a [u8],
    end: UnitEnd,
    sets: &'a [Ready<'a>],
}

fn taken_as<'a>(
    time: u32,
    size: u32,
    field: &'a [u8],
    end: UnitEnd,
    sets: &'a [Ready<'a>],
) -> Row<'a> {
    Row {
        time,
        size,
        field,
        end,
        sets,
    }
}

fn whole(time: u64, size: u64, segments: &[u8]) -> Ready<'_> {
    Ready {
        time,
        size,
        segments: Ok(segments),
    }
}

fn refused(time: u64, size: u64, fault: SetFault) -> Ready<'static> {
    Ready {
        time,
        size,
        segments: Err(fault),
    }
}

fn broken(place: u32, kind: SegmentKind) -> SetFault {
    SetFault::Segment(SegmentFault { place, kind })
}

/// Whether these sets are ready and no more; takes them.
fn gives(gathering: &mut Gathering, sets: &[Ready<'_>]) -> bool
    ensures { result ≡ true → ready_sets gathering.new ≡ [] }
{
    for set in sets {
        if gathering.ready() != Some(*set) {
            return false;
        }
        gathering.give();
    }
    gathering.ready().is_none()
}

/// Whether the unit of a row goes as the row says; takes the sets that are ready then.
fn goes(gathering: &mut Gathering, row: &Row<'_>) -> bool
    requires { ready_sets gathering.old ≡ [] }
    ensures { result ≡ true → ready_sets gathering.new ≡ [] }
{
    gathering.take_unit(u64::from(row.time), row.size, row.field) == row.end
        && gives(gathering, row.sets)
}

/// The time of the first unit that does not go as its row says.
fn first_wrong(gathering: &mut Gathering, rows: &[Row<'_>]) -> Option<u32>
    requires { ready_sets gathering.old ≡ [] }
{
    for row in rows {
        if !goes(gathering, row) {
            return Some(row.time);
        }
    }
    None
}

#[test]
fn units_come_to_sets(rt: HostRuntime) {
    let one = [whole(90_000, 60, &SET)];
    let two = [whole(180_000, 61, &SET)];
    let parted = [whole(270_000, 28, &PAGE), whole(360_000, 62, &SET)];
    let first_end = [whole(450_000, 50, &SET)];
    let long = [refused(540_000, 90, SetFault::SetTooLong { size: 24 })];
    let unsynced = [refused(630_000, 33, broken(0, SegmentKind::NoSync))];
    let cut = [refused(720_000, 34, broken(3, SegmentKind::Cut))];
    let rows = [
        taken_as(90_000, 60, &WHOLE, UnitEnd::Taken, &one),
        taken_as(90_000, 40, &PAGE, UnitEnd::Dropped, &[]),
        taken_as(180_000, 50, &OTHERS, UnitEnd::Aside, &[]),
        taken_as(180_000, 30, &PAGE, UnitEnd::Taken, &[]),
        taken_as(5, 50, &OTHERS, UnitEnd::Aside, &[]),
        taken_as(180_000, 31, &END, UnitEnd::Taken, &two),
        taken_as(270_000, 28, &PAGE, UnitEnd::Taken, &[]),
        taken_as(360_000, 62, &WHOLE, UnitEnd::Parted, &parted),
        taken_as(450_000, 50, &BEHIND, UnitEnd::Taken, &first_end),
        taken_as(540_000, 90, &LONG, UnitEnd::Taken, &long),
        taken_as(630_000, 33, &UNSYNCED, UnitEnd::Taken, &unsynced),
        taken_as(720_000, 34, &CUT, UnitEnd::Taken, &cut),
    ];
    let mut gathering = Gathering::make(rt.alloc(), Pages::only(1), 20).expect(&rt, "memory");
    same(&rt, first_wrong(&mut gathering, &rows), None);
}

/// A loss gives up the set in hand, and the end of the stream makes it ready.
#[test]
fn ends_of_open_sets(rt: HostRuntime) {
    let mut gathering = Gathering::make(rt.alloc(), Pages::only(1), 20).expect(&rt, "memory");
    assert!(rt; goes(&mut gathering, &taken_as(5, 25, &PAGE, UnitEnd::Taken, &[])));
    gathering.lose();
    let end = [whole(5, 26, &END)];
    assert!(rt; goes(&mut gathering, &taken_as(5, 26, &END, UnitEnd::Taken, &end)));
    assert!(rt; goes(&mut gathering, &taken_as(7, 27, &PAGE, UnitEnd::Taken, &[])));
    gathering.finish();
    assert!(rt; gives(&mut gathering, &[whole(7, 27, &PAGE)]));
}

/// Whether a segment without a body, of this type and with this page id, counts.
fn counts<R: Abort>(rt: &R, alloc: Global, pages: Pages, page: u8, kind: u8) -> bool {
    let mut gathering = Gathering::make(alloc, pages, 20).expect(rt, "memory");
    let segment = [0x0F, kind, 0x00, page, 0x00, 0x00];
    gathering.take_unit(90_000, 25, &segment) == UnitEnd::Taken
}

/// Which types of segments with a page id count: page, region, CLUT, object, display, end, and one
/// that belongs to no set.
fn counted<R: Abort>(rt: &R, alloc: Global, pages: Pages, page: u8) -> [bool; 7] {
    [
        counts(rt, alloc, pages, page, 0x10),
        counts(rt, alloc, pages, page, 0x11),
        counts(rt, alloc, pages, page, 0x12),
        counts(rt, alloc, pages, page, 0x13),
        counts(rt, alloc, pages, page, 0x14),
        counts(rt, alloc, pages, page, 0x80),
        counts(rt, alloc, pages, page, 0x16),
    ]
}

/// Of a composition page all types of a display set count, of an ancillary page CLUTs and objects,
/// of other pages nothing.
#[test]
fn what_counts_of_which_page(rt: HostRuntime) {
    let whole = [true, true, true, true, true, true, false];
    let shared = [false, false, true, true, false, false, false];
    let nothing = [false; 7];
    let two = Pages {
        composition: 1,
        ancillary: 2,
    };
    same(&rt, counted(&rt, rt.alloc(), two, 1), whole);
    same(&rt, counted(&rt, rt.alloc(), two, 2), shared);
    same(&rt, counted(&rt, rt.alloc(), two, 3), nothing);
    same(&rt, counted(&rt, rt.alloc(), Pages::only(2), 2), whole);
    same(&rt, counted(&rt, rt.alloc(), Pages::only(2), 1), nothing);
}

/// The set of one unit with segments of both pages: each segment that counts stands in it once.
#[test]
fn segments_of_two_pages(rt: HostRuntime) {
    let two = Pages {
        composition: 1,
        ancillary: 2,
    };
    let rows = [
        (two, &SHARED[..]),
        (Pages::only(1), &SET[..]),
        (Pages::only(2), &SECOND[..]),
    ];
    for (pages, segments) in rows {
        let mut gathering = Gathering::make(rt.alloc(), pages, 40).expect(&rt, "memory");
        let set = [whole(90_000, 50, segments)];
        let row = taken_as(90_000, 50, &TWO_PAGES, UnitEnd::Taken, &set);
        assert!(rt; goes(&mut gathering, &row));
    }
}
