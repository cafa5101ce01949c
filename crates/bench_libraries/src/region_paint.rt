//! Paints a region of 720 by 576 pixels at each depth with runs of 3, 30 and 300 pixels, fills it,
//! and fills as many plain bytes, as many times as the word behind the benchmark's name says. It
//! tells on standard error how many million pixels a second that was.

ghost use Rattle.std.specs.Prelude.{◌<◌};
ghost use Rattle.bench_libraries.specs.Private.Painted.{IsScreen};

use crate::words::times_of;
use anyhow::Result;
use pixel_store::{Slot, Store};
use std::time::Instant;
use sub_base::{Depth, zeros};

const WIDTH: u16 = 720;

const HEIGHT: u16 = 576;

/// Paints at each depth.
pub fn run(rt: &HostRuntime) -> Result<()> {
    let times = times_of(rt, 1)?;
    for depth in [Depth::Two, Depth::Four, Depth::Eight] {
        measure(rt, depth, times)?;
    }
    Ok(())
}

/// Paints and fills a region of that depth so many times.
fn measure(rt: &HostRuntime, depth: Depth, times: u32) -> Result<()> {
    for length in [3, 30, 300] {
        let painted = measure_runs(rt, depth, times, length)?;
        println!(rt;
            "{depth:?}: runs of {length}, {} pixels of code 1",
            painted.ones
        )?;
        eprintln!(rt;
            "{depth:?}: runs of {length}, {} million pixels a second",
            painted.rate
        )?;
    }
    let filled = measure_fill(rt, depth, times)?;
    println!(rt; "{depth:?}: filled, {} pixels of code 1", filled.ones)?;
    let bare = rate_of_bytes(rt, depth, times)?;
    println!(rt; "{depth:?}: {} bytes", bytes_of(depth))?;
    eprintln!(rt;
        "{depth:?}: filled, {} million pixels a second; plain bytes, {bare}",
        filled.rate
    )?;
    Ok(())
}

/// How fast a region was painted, in million pixels a second, and how many of them have code 1.
#[derive(Clone, Copy)]
struct Painted {
    rate: u128,
    ones: u32,
}

/// How many bytes the pixels of a region of that depth take.
fn bytes_of(depth: Depth) -> u64 {
    u64::from(WIDTH) * u64::from(HEIGHT) * u64::from(depth.bits()) / 8
}

/// Paints a region with runs of that length.
fn measure_runs(rt: &HostRuntime, depth: Depth, times: u32, length: u32) -> Result<Painted> {
    let mut store = Store::make(rt.alloc(), bytes_of(depth))?;
    let slot = store.place(WIDTH, HEIGHT, depth)?;
    let start = Instant::now(rt)?;
    paint_times(&mut store, slot, length, times);
    let micros = start.elapsed(rt)?.as_micros();
    Ok(Painted {
        rate: rate(times, micros),
        ones: ones(&store, slot),
    })
}

/// Fills a region, the last time with code 1.
fn measure_fill(rt: &HostRuntime, depth: Depth, times: u32) -> Result<Painted> {
    let mut store = Store::make(rt.alloc(), bytes_of(depth))?;
    let slot = store.place(WIDTH, HEIGHT, depth)?;
    let start = Instant::now(rt)?;
    fill_times(&mut store, slot, times);
    let micros = start.elapsed(rt)?.as_micros();
    fill_region(&mut store, slot, 1);
    Ok(Painted {
        rate: rate(times, micros),
        ones: ones(&store, slot),
    })
}

/// How fast as many plain bytes are filled, in million pixels a second.
fn rate_of_bytes(rt: &HostRuntime, depth: Depth, times: u32) -> Result<u128> {
    let mut plain = zeros(rt.alloc(), bytes_of(depth) as usize)?;
    let start = Instant::now(rt)?;
    for time in 0..times {
        fill_plain(&mut plain, (time % 2) as u8);
    }
    let micros = start.elapsed(rt)?.as_micros();
    Ok(rate(times, micros))
}

/// Paints all rows so many times.
fn paint_times(store: &mut Store, slot: Slot, length: u32, times: u32)
    requires { IsScreen slot store.old }
    ensures { IsScreen slot store.new }
{
    for _ in 0..times {
        paint_rows(store, slot, length);
    }
}

/// Fills the region so many times, with the codes 0 and 1 in turn.
fn fill_times(store: &mut Store, slot: Slot, times: u32)
    requires { IsScreen slot store.old }
    ensures { IsScreen slot store.new }
{
    for time in 0..times {
        fill_region(store, slot, (time % 2) as u8);
    }
}

/// Fills the region.
#[inline(never)]
fn fill_region(store: &mut Store, slot: Slot, code: u8)
    requires screen { IsScreen slot store.old }
    requires code { code < 2 }
    ensures { IsScreen slot store.new }
{
    store.fill(slot, code);
}

/// Fills plain bytes.
#[inline(never)]
fn fill_plain(bytes: &mut [u8], value: u8) {
    bytes.fill(value);
}

/// Paints every row with runs of that length, of the codes 1 and 2 in turn.
fn paint_rows(store: &mut Store, slot: Slot, length: u32)
    requires { IsScreen slot store.old }
    ensures { IsScreen slot store.new }
{
    for y in 0..u32::from(HEIGHT) {
        paint_row(store, slot, y, length);
    }
}

/// Paints one row.
fn paint_row(store: &mut Store, slot: Slot, y: u32, length: u32)
    requires { IsScreen slot store.old }
    ensures { IsScreen slot store.new }
{
    let width = u32::from(WIDTH);
    let mut x = 0;
    let mut code = 1;
    while x < width && length > 0 {
        store.paint_run(slot, x, y, length, code);
        code = 3 - code;
        x += length.min(width);
    }
}

/// How many pixels have code 1.
fn ones(store: &Store, slot: Slot) -> u32
    requires { IsScreen slot store.now }
{
    let mut count = 0u32;
    for y in 0..HEIGHT {
        for x in 0..WIDTH {
            if store.code_at(slot, x, y) == 1 {
                count = count.wrapping_add(1);
            }
        }
    }
    count
}

/// Million pixels a second.
fn rate(times: u32, micros: u128) -> u128 {
    u128::from(WIDTH) * u128::from(HEIGHT) * u128::from(times) / micros.max(1)
}
