use crate::same::same;
use pixel_codes::{CodeFault, CodeKind, check_block};
use segments::{
    ClutEntry, Listing, ObjectSeg, PageEntry, RegionHead, Segment, SegmentFault, SegmentKind,
    SegmentOut, State, Window, frames, read_frame, read_segment, write_segment,
};
use std::panic::Expect;
use std::process::Abort;
use sub_base::{CLEAR, Colour, Depth};

/// A page with one region, as a usual encoder makes it.
const PAGE: [u8; 14] = [
    0x0F, 0x10, 0x00, 0x01, 0x00, 0x08, 0x0A, 0x08, 0x01, 0x00, 0x00, 0x00, 0x00, 0x00,
];

/// A region of two bits with one object; its reserved bits are 0.
const REGION: [u8; 22] = [
    0x0F, 0x11, 0x00, 0x01, 0x00, 0x10, 0x01, 0x08, 0x00, 0x02, 0x00, 0x01, 0x24, 0x00, 0x00, 0x00,
    0x00, 0x05, 0x00, 0x00, 0x00, 0x00,
];

/// Stuffing.
const STUFFING: [u8; 8] = [0x0F, 0xFF, 0x00, 0x01, 0x00, 0x02, 0xAA, 0xAA];

/// An object without a bottom block.
const OBJECT: [u8; 17] = [
    0x0F, 0x13, 0x00, 0x01, 0x00, 0x0B, 0x00, 0x05, 0x00, 0x00, 0x04, 0x00, 0x00, 0x10, 0x70, 0x00,
    0xF0,
];

/// The end of a display set.
const END: [u8; 6] = [0x0F, 0x80, 0x00, 0x01, 0x00, 0x00];

/// A CLUT with an entry in the full range, one by its high bits, and one without luminance.
const CLUT: [u8; 22] = [
    0x0F, 0x12, 0x00, 0x01, 0x00, 0x10, 0x07, 0x2F, 0x01, 0x81, 0x51, 0xF0, 0x5A, 0xC0, 0x02, 0x60,
    0xFF, 0xFE, 0x03, 0x20, 0x03, 0xFF,
];

/// A display with a window.
const WINDOW: [u8; 19] = [
    0x0F, 0x14, 0x00, 0x01, 0x00, 0x0D, 0x0F, 0x00, 0x03, 0x00, 0x01, 0x00, 0x00, 0x00, 0x03, 0x00,
    0x00, 0x00, 0x01,
];

/// A data field behind its first two bytes: an end of set, stuffing, and the end marker, behind
/// which nothing counts.
const FIELD: [u8; 21] = [
    0x0F, 0x80, 0x00, 0x01, 0x00, 0x00, 0x0F, 0xFF, 0x00, 0x02, 0x00, 0x02, 0xAA, 0xAA, 0xFF, 0x0F,
    0x80, 0x00, 0x01, 0x00, 0x00,
];

fn fault(place: u32, kind: SegmentKind) -> SegmentFault {
    SegmentFault { place, kind }
}

#[test]
fn segments_of_a_usual_encoder(rt: HostRuntime) {
    let Segment::Page(page) = read_segment(&PAGE).expect(&rt, "a segment").0 else {
        rt.panic("no page")
    };
    same(
        &rt,
        (page.time_out, page.version, page.state),
        (10, 0, State::ModeChange),
    );
    assert_eq!(rt; page.count(), 1);
    same(
        &rt,
        page.entry(0),
        PageEntry {
            region: 1,
            x: 0,
            y: 0,
        },
    );

    let Segment::Region(region) = read_segment(&REGION).expect(&rt, "a segment").0 else {
        rt.panic("no region")
    };
    same(
        &rt,
        (region.region, region.version, region.fill),
        (1, 0, true),
    );
    same(
        &rt,
        (region.width, region.height, region.depth),
        (2, 1, Depth::Two),
    );
    same(
        &rt,
        (region.clut, region.code8, region.code4, region.code2),
        (0, 0, 0, 0),
    );
    assert_eq!(rt; region.count(), 1);
    same(
        &rt,
        region.listing(0),
        Listing {
            object: 5,
            x: 0,
            y: 0,
        },
    );

    let Segment::Object(object) = read_segment(&OBJECT).expect(&rt, "a segment").0 else {
        rt.panic("no object")
    };
    same(
        &rt,
        (object.object, object.version, object.see_through),
        (5, 0, false),
    );
    same(&rt, object.top, [0x10, 0x70, 0x00, 0xF0].as_slice());
    same(&rt, object.bottom.len(), 0);

    same(
        &rt,
        read_segment(&STUFFING).expect(&rt, "a segment"),
        (Segment::Passed, 8),
    );
    same(
        &rt,
        read_segment(&END).expect(&rt, "a segment"),
        (Segment::End, 6),
    );
}

#[test]
fn colours_of_a_clut(rt: HostRuntime) {
    let Segment::Clut(clut) = read_segment(&CLUT).expect(&rt, "a segment").0 else {
        rt.panic("no CLUT")
    };
    same(&rt, (clut.clut, clut.version), (7, 2));
    let mut items = clut.items();
    let full = Colour {
        y: 0x51,
        cr: 0xF0,
        cb: 0x5A,
        t: 0xC0,
    };
    let short = Colour {
        y: 252,
        cr: 240,
        cb: 240,
        t: 128,
    };
    let entry = |entry, two, four, eight, colour| ClutEntry {
        entry,
        two,
        four,
        eight,
        colour,
    };
    same(&rt, items.next(), Some(entry(1, true, false, false, full)));
    same(&rt, items.next(), Some(entry(2, false, true, true, short)));
    same(&rt, items.next(), Some(entry(3, false, false, true, CLEAR)));
    same(&rt, items.next(), None);
}

#[test]
fn a_window_inside_the_display(rt: HostRuntime) {
    let Segment::Display(display) = read_segment(&WINDOW).expect(&rt, "a segment").0 else {
        rt.panic("no display")
    };
    let window = Window {
        left: 0,
        right: 3,
        top: 0,
        bottom: 1,
    };
    same(
        &rt,
        (display.version, display.width, display.height),
        (0, 4, 2),
    );
    same(&rt, display.window, Some(window));
}

#[test]
fn first_faults(rt: HostRuntime) {
    let rows: [(&[u8], u32, SegmentKind); 16] = [
        (&[], 0, SegmentKind::NoSync),
        (&[0x0E, 0x80, 0, 1, 0, 0], 0, SegmentKind::NoSync),
        (
            &[0x0F, 0x10, 0, 1, 0, 2, 0x05, 0x0C],
            7,
            SegmentKind::ReservedState,
        ),
        (
            &[0x0F, 0x10, 0, 1, 0, 3, 0x05, 0, 0],
            4,
            SegmentKind::BadLength,
        ),
        (
            &[0x0F, 0x11, 0, 1, 0, 10, 0, 0, 0, 0, 0, 1, 0x24, 0, 0, 0],
            8,
            SegmentKind::ZeroSize,
        ),
        (
            &[0x0F, 0x11, 0, 1, 0, 10, 0, 0, 0, 1, 0, 1, 0x20, 0, 0, 0],
            12,
            SegmentKind::BadDepth,
        ),
        (
            &[0x0F, 0x12, 0, 1, 0, 5, 0, 0, 0, 1, 0],
            4,
            SegmentKind::BadLength,
        ),
        (
            &[0x0F, 0x13, 0, 1, 0, 3, 0, 5, 0x04],
            8,
            SegmentKind::CharacterObject,
        ),
        (
            &[0x0F, 0x13, 0, 1, 0, 3, 0, 5, 0x08],
            8,
            SegmentKind::Progressive,
        ),
        (
            &[0x0F, 0x13, 0, 1, 0, 3, 0, 5, 0x0C],
            8,
            SegmentKind::ReservedMethod,
        ),
        (
            &[0x0F, 0x13, 0, 1, 0, 7, 0, 0, 0, 0xFF, 0xFF, 0, 0],
            4,
            SegmentKind::BadLength,
        ),
        (
            &[0x0F, 0x13, 0, 1, 0, 8, 0, 5, 0, 0, 0, 0, 0, 1],
            4,
            SegmentKind::BadLength,
        ),
        (
            &[0x0F, 0x13, 0, 1, 0, 10, 0, 5, 0, 0, 3, 0, 0, 0x12, 0, 2],
            13,
            SegmentKind::Code(CodeFault {
                place: 0,
                kind: CodeKind::CutString,
            }),
        ),
        (
            &[
                0x0F, 0x13, 0, 1, 0, 10, 0, 5, 0, 0, 1, 0, 2, 0xF0, 0xF0, 0x99,
            ],
            15,
            SegmentKind::Code(CodeFault {
                place: 1,
                kind: CodeKind::UnknownType,
            }),
        ),
        (
            &[0x0F, 0x14, 0, 1, 0, 4, 0, 0, 0, 0],
            4,
            SegmentKind::BadLength,
        ),
        (
            &[
                0x0F, 0x14, 0, 1, 0, 13, 0x0F, 0, 3, 0, 1, 0, 0, 0, 4, 0, 0, 0, 1,
            ],
            11,
            SegmentKind::BadWindow,
        ),
    ];
    for (bytes, place, kind) in rows {
        let expected = fault(place, kind);
        assert!(rt; matches!(read_segment(bytes), Err(found) if found == expected));
    }
}

#[test]
fn faults_of_listings(rt: HostRuntime) {
    for (kinds, kind) in [
        (0x40, SegmentKind::CharacterObject),
        (0xF0, SegmentKind::CharacterObject),
        (0x10, SegmentKind::HeldObject),
    ] {
        let mut bytes = REGION;
        bytes[18] = kinds;
        let expected = fault(18, kind);
        assert!(rt; matches!(read_segment(&bytes), Err(found) if found == expected));
    }
}

#[test]
fn each_prefix_is_cut(rt: HostRuntime) {
    let segments: [&[u8]; 7] = [&PAGE, &REGION, &STUFFING, &OBJECT, &END, &CLUT, &WINDOW];
    for segment in segments {
        for end in 1..segment.len() {
            let expected = fault(end as u32, SegmentKind::Cut);
            let front = &segment[..end];
            assert!(rt; matches!(read_frame(front), Err(found) if found == expected));
            assert!(rt; matches!(read_segment(front), Err(found) if found == expected));
        }
    }
}

#[test]
fn frames_of_a_data_field(rt: HostRuntime) {
    let mut heads = frames(&FIELD);
    for (kind, page, whole, segment) in [
        (0x80, 1, 6, Segment::End),
        (0xFF, 2, 8, Segment::Passed),
    ] {
        let found = heads.next();
        assert!(rt; matches!(found, Some(Ok(frame)) if frame.kind == kind && frame.page == page));
        assert!(rt; matches!(found, Some(Ok(frame)) if frame.whole == whole));
        assert!(rt; matches!(found, Some(Ok(frame)) if frame.segment() == Ok(segment)));
    }
    assert!(rt; heads.next().is_none());
    assert!(rt; heads.next().is_none());
}

#[test]
fn nothing_is_looked_for_behind_a_faulty_head(rt: HostRuntime) {
    let without_sync: [u8; 13] = [
        0x0F, 0x80, 0x00, 0x01, 0x00, 0x00, 0x0E, 0x0F, 0x80, 0x00, 0x01, 0x00, 0x00,
    ];
    for (field, place, kind) in [
        (&without_sync[..], 0, SegmentKind::NoSync),
        (&FIELD[..13], 7, SegmentKind::Cut),
    ] {
        let expected = fault(place, kind);
        let mut heads = frames(field);
        assert!(rt; matches!(heads.next(), Some(Ok(frame)) if frame.kind == 0x80));
        assert!(rt; matches!(heads.next(), Some(Err(found)) if found == expected));
        assert!(rt; heads.next().is_none());
    }
}

#[test]
fn segments_are_written(rt: HostRuntime) {
    let mut out = Vec::new(rt.alloc());
    let display = SegmentOut::Display {
        version: 0,
        width: 4,
        height: 2,
    };
    write_segment(1, &display, &mut out).expect(&rt, "room");
    let entries = [PageEntry {
        region: 0,
        x: 0,
        y: 0,
    }];
    let page = SegmentOut::Page {
        time_out: 12,
        version: 0,
        state: State::ModeChange,
        entries: &entries,
    };
    write_segment(1, &page, &mut out).expect(&rt, "room");
    write_segment(1, &SegmentOut::End, &mut out).expect(&rt, "room");
    same(
        &rt,
        out.as_slice(),
        [
            0x0F, 0x14, 0x00, 0x01, 0x00, 0x05, 0x07, 0x00, 0x03, 0x00, 0x01, 0x0F, 0x10, 0x00,
            0x01, 0x00, 0x08, 0x0C, 0x0B, 0x00, 0xFF, 0x00, 0x00, 0x00, 0x00, 0x0F, 0x80, 0x00,
            0x01, 0x00, 0x00,
        ]
        .as_slice(),
    );
}

#[test]
fn a_region_is_written(rt: HostRuntime) {
    let mut out = Vec::new(rt.alloc());
    let head = RegionHead {
        region: 0,
        version: 0,
        fill: true,
        width: 4,
        height: 2,
        depth: Depth::Eight,
        clut: 0,
        code8: 0,
        code4: 0,
        code2: 0,
    };
    let listings = [Listing {
        object: 0,
        x: 0,
        y: 0,
    }];
    let region = SegmentOut::Region {
        head,
        listings: &listings,
    };
    write_segment(1, &region, &mut out).expect(&rt, "room");
    same(
        &rt,
        out.as_slice(),
        [
            0x0F, 0x11, 0x00, 0x01, 0x00, 0x10, 0x00, 0x0F, 0x00, 0x04, 0x00, 0x02, 0x6F, 0x00,
            0x00, 0x03, 0x00, 0x00, 0x00, 0x00, 0xF0, 0x00,
        ]
        .as_slice(),
    );
}

#[test]
fn a_clut_is_written(rt: HostRuntime) {
    let mut out = Vec::new(rt.alloc());
    let colour = Colour {
        y: 81,
        cr: 240,
        cb: 90,
        t: 192,
    };
    let entries = [ClutEntry {
        entry: 1,
        two: true,
        four: false,
        eight: false,
        colour,
    }];
    let clut = SegmentOut::Clut {
        clut: 4,
        version: 15,
        entries: &entries,
    };
    write_segment(1, &clut, &mut out).expect(&rt, "room");
    same(
        &rt,
        out.as_slice(),
        [
            0x0F, 0x12, 0x00, 0x01, 0x00, 0x08, 0x04, 0xFF, 0x01, 0x9F, 0x51, 0xF0, 0x5A, 0xC0,
        ]
        .as_slice(),
    );
}

#[test]
fn an_object_is_written(rt: HostRuntime) {
    let top = [0x12, 0x01, 0x00, 0x83, 0x02, 0x00, 0x00, 0xF0];
    let bottom = [0x12, 0x00, 0x84, 0x03, 0x00, 0x00, 0xF0];
    let (Ok(_), Ok(_)) = (
        check_block(&top, Depth::Eight),
        check_block(&bottom, Depth::Eight),
    ) else {
        rt.panic("no blocks")
    };
    let mut out = Vec::new(rt.alloc());
    let object = ObjectSeg {
        object: 0,
        version: 0,
        see_through: false,
        top: &top,
        bottom: &bottom,
    };
    write_segment(1, &SegmentOut::Object(object), &mut out).expect(&rt, "room");
    same(
        &rt,
        out.as_slice(),
        [
            0x0F, 0x13, 0x00, 0x01, 0x00, 0x16, 0x00, 0x00, 0x01, 0x00, 0x08, 0x00, 0x07, 0x12,
            0x01, 0x00, 0x83, 0x02, 0x00, 0x00, 0xF0, 0x12, 0x00, 0x84, 0x03, 0x00, 0x00, 0xF0,
        ]
        .as_slice(),
    );
}
