ghost use Rattle.std.specs.Prelude.{◌≡◌};

use crate::same::same;
use block_painting::{FieldPlace, paint_block};
use pixel_store::Store;
use std::panic::Expect;
use stream_syntax::Listing;
use sub_base::Depth;

/// Two lines. The first one has pixels of codes 5 and 6 in 8 bits, of 3 and 9 in 4 bits, and of 1,
/// 3 and 0 in 2 bits; the second one has a pixel of code 7.
const TWO_LINES: [u8; 17] = [
    0x12, 0x05, 0x06, 0x00, 0x00, 0x11, 0x39, 0x00, 0x10, 0x71, 0x00, 0xF0, 0x12, 0x07, 0x00, 0x00,
    0xF0,
];

/// Pixels of codes 1, 2, 3 and 0 in 2 bits, three times: with the default table for 4 bits, and
/// behind each of two others.
const NEW_TABLES: [u8; 15] = [
    0x10, 0x6C, 0x40, 0x20, 0x1A, 0x2B, 0x10, 0x6C, 0x40, 0x20, 0xFE, 0xDC, 0x10, 0x6C, 0x40,
];

/// Tables for 8 bits, and pixels of codes 1, 2, 3 and 0 in 2 bits and of codes 3 and 9 in 4 bits.
const WIDE_TABLES: [u8; 28] = [
    0x21, 0xA0, 0xA1, 0xA2, 0xA3, 0x22, 0x10, 0x11, 0x12, 0x13, 0x14, 0x15, 0x16, 0x17, 0x18, 0x19,
    0x1A, 0x1B, 0x1C, 0x1D, 0x1E, 0x1F, 0x10, 0x6C, 0x40, 0x11, 0x39, 0x00,
];

/// A table that maps codes 1 and 2 to 1, and pixels of codes 1, 2, 3 and 0 in 2 bits.
const MAPPED_TO_ONE: [u8; 6] = [0x20, 0x21, 0x1F, 0x10, 0x6C, 0x40];

/// Four pixels of code 9 and then one of code 7, and on the next lines one of code 8 and one of
/// code 6, in 8 bits.
const OVER_THE_EDGE: [u8; 20] = [
    0x12, 0x00, 0x84, 0x09, 0x00, 0x00, 0x12, 0x07, 0x00, 0x00, 0xF0, 0x12, 0x08, 0x00, 0x00, 0xF0,
    0x12, 0x06, 0x00, 0x00,
];

/// Pixels of codes 3 and 9 in 4 bits, and on the next line one of code 5 in 8 bits.
const DEEP_STRING: [u8; 8] = [0x11, 0x39, 0x00, 0xF0, 0x12, 0x05, 0x00, 0x00];

/// The lines of the top field from a corner on.
fn top_from(x: u16, y: u16) -> FieldPlace
    ensures { result.first_row ≡ 0 }
{
    FieldPlace {
        listing: Listing { object: 1, x, y },
        first_row: 0,
        see_through: false,
    }
}

/// The lines of the bottom field from a corner on.
fn bottom_from(x: u16, y: u16) -> FieldPlace
    ensures { result.first_row ≡ 1 }
{
    FieldPlace {
        listing: Listing { object: 1, x, y },
        first_row: 1,
        see_through: false,
    }
}

/// Strings of all depths go behind one another, by the default tables, and the lines of the top
/// field to every second row.
#[test]
fn top_field(rt: HostRuntime) {
    let mut store = Store::make(rt.alloc(), 40).expect(&rt, "memory");
    let slot = store.place(10, 4, Depth::Eight).expect(&rt, "room");
    store.fill(slot, 0xEE);
    let deep = paint_block(&mut store, slot, top_from(1, 1), &TWO_LINES, Depth::Eight);
    same(&rt, deep, None);
    same(&rt, store.packed_row(slot, 0), [0xEE; 10].as_slice());
    same(
        &rt,
        store.packed_row(slot, 1),
        [0xEE, 0x05, 0x06, 0x33, 0x99, 0x77, 0xFF, 0x00, 0xEE, 0xEE].as_slice(),
    );
    same(&rt, store.packed_row(slot, 2), [0xEE; 10].as_slice());
    same(
        &rt,
        store.packed_row(slot, 3),
        [0xEE, 0x07, 0xEE, 0xEE, 0xEE, 0xEE, 0xEE, 0xEE, 0xEE, 0xEE].as_slice(),
    );
}

/// Those of the bottom field go to the rows between; the second one lies below the region.
#[test]
fn bottom_field(rt: HostRuntime) {
    let mut store = Store::make(rt.alloc(), 40).expect(&rt, "memory");
    let slot = store.place(10, 4, Depth::Eight).expect(&rt, "room");
    store.fill(slot, 0xEE);
    let deep = paint_block(
        &mut store,
        slot,
        bottom_from(0, 1),
        &TWO_LINES,
        Depth::Eight,
    );
    same(&rt, deep, None);
    same(&rt, store.packed_row(slot, 1), [0xEE; 10].as_slice());
    same(
        &rt,
        store.packed_row(slot, 2),
        [0x05, 0x06, 0x33, 0x99, 0x77, 0xFF, 0x00, 0xEE, 0xEE, 0xEE].as_slice(),
    );
    same(&rt, store.packed_row(slot, 3), [0xEE; 10].as_slice());
}

/// A map table is in force from its place on, in the place of the one before.
#[test]
fn tables_one_after_another(rt: HostRuntime) {
    let mut store = Store::make(rt.alloc(), 7).expect(&rt, "memory");
    let slot = store.place(13, 1, Depth::Four).expect(&rt, "room");
    store.fill(slot, 5);
    let deep = paint_block(&mut store, slot, top_from(0, 0), &NEW_TABLES, Depth::Four);
    same(&rt, deep, None);
    same(
        &rt,
        store.packed_row(slot, 0),
        [0x78, 0xF0, 0xA2, 0xB1, 0xED, 0xCF, 0x50].as_slice(),
    );
}

/// The tables for 8 bits, each for strings of its depth.
#[test]
fn tables_of_both_depths(rt: HostRuntime) {
    let mut store = Store::make(rt.alloc(), 8).expect(&rt, "memory");
    let slot = store.place(8, 1, Depth::Eight).expect(&rt, "room");
    store.fill(slot, 0xEE);
    let deep = paint_block(&mut store, slot, top_from(1, 0), &WIDE_TABLES, Depth::Eight);
    same(&rt, deep, None);
    same(
        &rt,
        store.packed_row(slot, 0),
        [0xEE, 0xA1, 0xA2, 0xA3, 0xA0, 0x13, 0x19, 0xEE].as_slice(),
    );
}

/// An object is seen through where the string has code 1, and not where the table gives it.
#[test]
fn seen_through(rt: HostRuntime) {
    let mut store = Store::make(rt.alloc(), 2).expect(&rt, "memory");
    let slot = store.place(4, 1, Depth::Four).expect(&rt, "room");
    store.fill(slot, 5);
    let place = FieldPlace {
        listing: Listing {
            object: 1,
            x: 0,
            y: 0,
        },
        first_row: 0,
        see_through: true,
    };
    let deep = paint_block(&mut store, slot, place, &MAPPED_TO_ONE, Depth::Four);
    same(&rt, deep, None);
    same(&rt, store.packed_row(slot, 0), [0x51, 0xF2].as_slice());
}

/// A string that runs over the edge, one that begins behind it, and a line below the region.
#[test]
fn clipped_lines(rt: HostRuntime) {
    let mut store = Store::make(rt.alloc(), 9).expect(&rt, "memory");
    let slot = store.place(3, 3, Depth::Eight).expect(&rt, "room");
    store.fill(slot, 0xEE);
    let deep = paint_block(
        &mut store,
        slot,
        top_from(1, 0),
        &OVER_THE_EDGE,
        Depth::Eight,
    );
    same(&rt, deep, None);
    same(
        &rt,
        store.packed_row(slot, 0),
        [0xEE, 0x09, 0x09].as_slice(),
    );
    same(
        &rt,
        store.packed_row(slot, 1),
        [0xEE, 0xEE, 0xEE].as_slice(),
    );
    same(
        &rt,
        store.packed_row(slot, 2),
        [0xEE, 0x08, 0xEE].as_slice(),
    );
}

/// Painting ends at a string that is deeper than the region, whose place is told.
#[test]
fn deep_strings(rt: HostRuntime) {
    let mut store = Store::make(rt.alloc(), 9).expect(&rt, "memory");
    let slot = store.place(3, 3, Depth::Four).expect(&rt, "room");
    store.fill(slot, 5);
    let deep = paint_block(&mut store, slot, top_from(0, 0), &DEEP_STRING, Depth::Four);
    same(&rt, deep, Some(4));
    same(&rt, store.packed_row(slot, 0), [0x39, 0x50].as_slice());
    same(&rt, store.packed_row(slot, 1), [0x55, 0x50].as_slice());
    same(&rt, store.packed_row(slot, 2), [0x55, 0x50].as_slice());
    let narrow = store.place(3, 1, Depth::Two).expect(&rt, "room");
    let deep = paint_block(&mut store, narrow, top_from(0, 0), &DEEP_STRING, Depth::Two);
    same(&rt, deep, Some(0));
    same(&rt, store.packed_row(narrow, 0), [0x00].as_slice());
}

/// Of bytes that are no block nothing behind the fault is painted, and no place is told.
#[test]
fn no_blocks(rt: HostRuntime) {
    let mut store = Store::make(rt.alloc(), 3).expect(&rt, "memory");
    let slot = store.place(3, 1, Depth::Eight).expect(&rt, "room");
    let unknown = [0x77, 0x12, 0x05, 0x00, 0x00];
    let cut = [0x21, 0xA0, 0xA1, 0xA2];
    let at = top_from(0, 0);
    same(
        &rt,
        paint_block(&mut store, slot, at, &[], Depth::Eight),
        None,
    );
    same(
        &rt,
        paint_block(&mut store, slot, at, &unknown, Depth::Eight),
        None,
    );
    same(
        &rt,
        paint_block(&mut store, slot, at, &cut, Depth::Eight),
        None,
    );
    same(
        &rt,
        store.packed_row(slot, 0),
        [0x00, 0x00, 0x00].as_slice(),
    );
}
