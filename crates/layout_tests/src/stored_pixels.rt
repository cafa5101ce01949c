use crate::same::same;
use pixel_store::{Store, StoreFull};
use std::panic::Expect;
use sub_base::{Depth, NoMemory};

/// A region of 8 by 2 pixels of 2 bits takes four bytes; after a reset they are free again.
#[test]
fn full_store(rt: HostRuntime) {
    let mut store = Store::make(rt.alloc(), 4).expect(&rt, "memory");
    let _slot = store.place(8, 2, Depth::Two).expect(&rt, "room");
    same(&rt, store.free(), 0);
    same(
        &rt,
        store.place(1, 1, Depth::Two),
        Err(StoreFull { need: 1, free: 0 }),
    );
    store.reset();
    same(&rt, store.free(), 4);
    same(
        &rt,
        store.place(9, 2, Depth::Two),
        Err(StoreFull { need: 6, free: 4 }),
    );
    let _slot = store.place(5, 1, Depth::Four).expect(&rt, "room");
    same(&rt, store.free(), 1);
}

/// A store of more bytes than any memory has is not made.
#[test]
fn no_memory(rt: HostRuntime) {
    same(&rt, Store::make(rt.alloc(), u64::MAX).err(), Some(NoMemory));
}

/// Pixels 1, 2 and 3 of the first row are painted, and nothing else.
#[test]
fn run_of_three(rt: HostRuntime) {
    let mut store = Store::make(rt.alloc(), 4).expect(&rt, "memory");
    let slot = store.place(8, 2, Depth::Two).expect(&rt, "room");
    store.paint_run(slot, 1, 0, 3, 2);
    same(&rt, store.packed_row(slot, 0), [0x2A, 0x00].as_slice());
    same(&rt, store.packed_row(slot, 1), [0x00, 0x00].as_slice());
    same(&rt, store.code_at(slot, 3, 0), 2);
    same(&rt, store.code_at(slot, 4, 0), 0);
}

/// The bits behind the last pixel of a row are 0, at each depth.
#[test]
fn filled_rows(rt: HostRuntime) {
    let mut store = Store::make(rt.alloc(), 16).expect(&rt, "memory");
    let two = store.place(3, 1, Depth::Two).expect(&rt, "room");
    let four = store.place(3, 2, Depth::Four).expect(&rt, "room");
    let eight = store.place(3, 1, Depth::Eight).expect(&rt, "room");
    store.fill(two, 3);
    store.fill(four, 10);
    store.fill(eight, 200);
    same(&rt, store.packed_row(two, 0), [0xFC].as_slice());
    same(&rt, store.packed_row(four, 0), [0xAA, 0xA0].as_slice());
    same(&rt, store.packed_row(four, 1), [0xAA, 0xA0].as_slice());
    same(
        &rt,
        store.packed_row(eight, 0),
        [0xC8, 0xC8, 0xC8].as_slice(),
    );
}

/// Runs over several bytes, and runs of which a part or all is outside of the region.
#[test]
fn clipped_runs(rt: HostRuntime) {
    let mut store = Store::make(rt.alloc(), 16).expect(&rt, "memory");
    let wide = store.place(14, 1, Depth::Two).expect(&rt, "room");
    let small = store.place(3, 2, Depth::Four).expect(&rt, "room");
    store.paint_run(wide, 1, 0, 12, 1);
    store.paint_run(small, 2, 0, u32::MAX, 7);
    store.paint_run(small, 3, 1, 5, 1);
    store.paint_run(small, 0, 2, 3, 1);
    store.paint_run(small, u32::MAX, 1, u32::MAX, 1);
    same(
        &rt,
        store.packed_row(wide, 0),
        [0x15, 0x55, 0x55, 0x40].as_slice(),
    );
    same(&rt, store.packed_row(small, 0), [0x00, 0x70].as_slice());
    same(&rt, store.packed_row(small, 1), [0x00, 0x00].as_slice());
}

/// A region that is placed where another one was has no code of it.
#[test]
fn placed_again(rt: HostRuntime) {
    let mut store = Store::make(rt.alloc(), 4).expect(&rt, "memory");
    let first = store.place(4, 1, Depth::Eight).expect(&rt, "room");
    store.fill(first, 255);
    store.reset();
    let second = store.place(2, 2, Depth::Four).expect(&rt, "room");
    same(&rt, store.packed_row(second, 1), [0x00].as_slice());
    store.paint_run(second, 1, 1, 1, 15);
    same(&rt, store.packed_row(second, 0), [0x00].as_slice());
    same(&rt, store.packed_row(second, 1), [0x0F].as_slice());
}
