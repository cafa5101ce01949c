use crate::painted_rows::{EIGHT_BIT_CODES, FOUR_BIT_CODES, TWO_BIT_CODES, brush};
use crate::same::same;
use pixel_store::Store;
use std::panic::Expect;
use string_painting::{Brush, Painted};
use sub_base::Depth;

/// Five of seven pixels are in the region, and the row above stays.
#[test]
fn eight_bits_in_a_region_of_eight(rt: HostRuntime) {
    let mut store = Store::make(rt.alloc(), 12).expect(&rt, "memory");
    let slot = store.place(6, 2, Depth::Eight).expect(&rt, "room");
    store.fill(slot, 0xEE);
    let told = store.paint_string(
        slot,
        1,
        1,
        &EIGHT_BIT_CODES,
        brush(Depth::Eight, Depth::Eight),
        &[],
    );
    same(&rt, told, Painted { size: 9, x: 8 });
    same(&rt, store.packed_row(slot, 0), [0xEE; 6].as_slice());
    same(
        &rt,
        store.packed_row(slot, 1),
        [0xEE, 0x07, 0x09, 0x09, 0x09, 0x00].as_slice(),
    );
}

/// Three of 13 pixels are in the region. The bits behind them stay 0, as does the row below.
#[test]
fn four_bits_in_a_region_of_four(rt: HostRuntime) {
    let mut store = Store::make(rt.alloc(), 6).expect(&rt, "memory");
    let slot = store.place(5, 2, Depth::Four).expect(&rt, "room");
    store.fill(slot, 14);
    let told = store.paint_string(
        slot,
        2,
        0,
        &FOUR_BIT_CODES,
        brush(Depth::Four, Depth::Four),
        &[],
    );
    same(&rt, told, Painted { size: 6, x: 15 });
    same(
        &rt,
        store.packed_row(slot, 0),
        [0xEE, 0x30, 0x00].as_slice(),
    );
    same(
        &rt,
        store.packed_row(slot, 1),
        [0xEE, 0xEE, 0xE0].as_slice(),
    );
}

/// Code 2 becomes 3 by the map table, and the code 1 is seen through.
#[test]
fn two_bits_in_a_region_of_four(rt: HostRuntime) {
    let mut store = Store::make(rt.alloc(), 6).expect(&rt, "memory");
    let slot = store.place(5, 2, Depth::Four).expect(&rt, "room");
    store.fill(slot, 14);
    let seen = Brush {
        string: Depth::Two,
        region: Depth::Four,
        see_through: true,
    };
    let told = store.paint_string(slot, 1, 1, &TWO_BIT_CODES, seen, &[0x7A, 0x3F]);
    same(&rt, told, Painted { size: 5, x: 24 });
    same(
        &rt,
        store.packed_row(slot, 0),
        [0xEE, 0xEE, 0xE0].as_slice(),
    );
    same(
        &rt,
        store.packed_row(slot, 1),
        [0xE3, 0xEE, 0xE0].as_slice(),
    );
}

/// A string of which three pixels are in the region, and one behind the last row, of which as much
/// is told.
#[test]
fn two_bits_in_a_region_of_two(rt: HostRuntime) {
    let mut store = Store::make(rt.alloc(), 4).expect(&rt, "memory");
    let slot = store.place(6, 2, Depth::Two).expect(&rt, "room");
    store.fill(slot, 3);
    let two = brush(Depth::Two, Depth::Two);
    let told = store.paint_string(slot, 3, 0, &TWO_BIT_CODES, two, &[]);
    let behind = store.paint_string(slot, 3, 2, &TWO_BIT_CODES, two, &[]);
    same(&rt, told, Painted { size: 5, x: 26 });
    same(&rt, behind, told);
    same(&rt, store.packed_row(slot, 0), [0xFE, 0x50].as_slice());
    same(&rt, store.packed_row(slot, 1), [0xFF, 0xF0].as_slice());
}
