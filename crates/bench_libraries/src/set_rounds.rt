//! Display sets of a text picture, as many as the word behind the benchmark's name says, each with
//! a later time and new versions. They are read, which tests their segments and keeps nothing;
//! their runs are read, which nobody paints; a page memory takes them; and one takes them and makes
//! all rows of the display behind each. It tells on standard error how many sets a second that was.
//! Where there is one more word, all sets are written to the file of that name, so that another
//! decoder can be measured with them.

ghost use Rattle.std.specs.Prelude.{◌≤◌};

use crate::set_bytes::{PAGE, append_set};
use crate::smooth_letters::picture;
use crate::taking::{read_runs, read_sets, sum_of_rows, take_and_draw, take_sets};
use crate::words::times_of;
use anyhow::{Context, Result};
use page_core::Core;
use segments::State;
use std::alloc::Global;
use std::env;
use std::fs::File;
use std::io::Write;
use std::time::Instant;
use sub_base::{CLEAR, Colour, Depth, Profile, ProfileName};

/// The greatest width of a display here.
const COLUMNS: usize = 1_920;

/// How many pictures are shown in turn, so that a processor cannot learn the runs of one.
const PICTURES: u8 = 8;

/// How many versions there are.
const VERSIONS: u8 = 16;

/// Reads, takes and draws sets of four kinds.
pub fn run(rt: &HostRuntime) -> Result<()> {
    let times = times_of(rt, 20)?;
    let mut file = match env::args(rt)?.nth(3) {
        Some(path) => Some(File::create(rt, path.as_str())?),
        None => None,
    };
    for depth in [Depth::Eight, Depth::Four, Depth::Two] {
        let sets = told_sets(rt, 720, 80, depth, &mut file)?;
        measure(rt, ProfileName::Sd, sets.as_slice(), times)?;
    }
    let sets = told_sets(rt, 1_920, 160, Depth::Eight, &mut file)?;
    measure(rt, ProfileName::Large, sets.as_slice(), times)
}

/// Sets with pictures of these sides and that depth, which are told, and written to the file where
/// there is one.
fn told_sets(
    rt: &HostRuntime,
    width: u16,
    height: u16,
    depth: Depth,
    file: &mut Option<File>,
) -> Result<Vec<Vec<u8>>>
    requires wide { 1 ≤ width }
    requires high { 1 ≤ height }
{
    let sets = display_sets(rt.alloc(), width, height, depth)?;
    println!(rt; "{depth:?}, {width} by {height}:")?;
    eprintln!(rt; "{depth:?}, {width} by {height}:")?;
    if let Some(file) = file {
        write_sets(file, sets.as_slice())?;
    }
    Ok(sets)
}

/// Writes the bytes of sets to a file, one set after another.
fn write_sets(file: &mut File, sets: &[Vec<u8>]) -> Result<()> {
    for set in sets {
        file.write_all(set.as_slice())?;
    }
    Ok(())
}

/// Reads sets, takes them, and takes and draws them.
fn measure(rt: &HostRuntime, profile: ProfileName, sets: &[Vec<u8>], times: u32) -> Result<()> {
    read(rt, sets, times)?;
    read_with_runs(rt, sets, times)?;
    take_alone(rt, profile, sets, times)?;
    take_with_rows(rt, profile, sets, times)
}

/// Reads sets, which nobody takes.
fn read(rt: &HostRuntime, sets: &[Vec<u8>], times: u32) -> Result<()> {
    let start = Instant::now(rt)?;
    let segments = read_sets(sets, times);
    let rate = rate(times, start.elapsed(rt)?.as_micros());
    println!(rt;
        "{} sets of {} bytes, {segments} segments",
        sets.len(),
        size_of(sets)
    )?;
    eprintln!(rt; "{rate} sets a second read")?;
    Ok(())
}

/// Reads sets and their runs, which nobody paints.
fn read_with_runs(rt: &HostRuntime, sets: &[Vec<u8>], times: u32) -> Result<()> {
    let start = Instant::now(rt)?;
    let pixels = read_runs(sets, times);
    let rate = rate(times, start.elapsed(rt)?.as_micros());
    println!(rt; "{pixels} pixels")?;
    eprintln!(rt; "{rate} sets a second read with their runs")?;
    Ok(())
}

/// Takes sets and shows nothing.
fn take_alone(rt: &HostRuntime, profile: ProfileName, sets: &[Vec<u8>], times: u32) -> Result<()> {
    let (shown, rate) = taken(rt, profile, sets, times)?;
    println!(rt; "{shown} shown")?;
    eprintln!(rt; "{rate} sets a second taken")?;
    Ok(())
}

/// How many sets were shown, and how many a second.
fn taken(
    rt: &HostRuntime,
    profile: ProfileName,
    sets: &[Vec<u8>],
    times: u32,
) -> Result<(u32, u128)> {
    let mut core = empty_core(rt.alloc(), profile)?;
    let start = Instant::now(rt)?;
    let shown = take_sets(&mut core, sets, times);
    let micros = start.elapsed(rt)?.as_micros();
    Ok((shown, rate(shown, micros)))
}

/// Takes sets, and makes all rows of the display behind each.
fn take_with_rows(
    rt: &HostRuntime,
    profile: ProfileName,
    sets: &[Vec<u8>],
    times: u32,
) -> Result<()> {
    let drawn = draw_sets(rt, profile, sets, times)?;
    eprintln!(rt; "{} sets a second taken and drawn", drawn.rate)?;
    println!(rt; "{} shown, rows that give {}", drawn.shown, drawn.sum)?;
    Ok(())
}

/// How many sets were shown, how many a second, and what the rows of one more give.
#[derive(Clone, Copy)]
struct Drawn {
    shown: u32,
    rate: u128,
    sum: u64,
}

/// Takes and draws sets.
fn draw_sets(
    rt: &HostRuntime,
    profile: ProfileName,
    sets: &[Vec<u8>],
    times: u32,
) -> Result<Drawn> {
    let mut core = empty_core(rt.alloc(), profile)?;
    let mut row = clear_row(rt.alloc(), COLUMNS)?;
    let start = Instant::now(rt)?;
    let shown = take_and_draw(&mut core, sets, times, row.as_mut_slice());
    let micros = start.elapsed(rt)?.as_micros();
    let sum = sum_of_rows(&mut core, sets, times, row.as_mut_slice()).context(
        "a set is not shown",
    )?;
    Ok(Drawn {
        shown,
        rate: rate(shown, micros),
        sum,
    })
}

/// A core that was handed nothing.
#[tactic(auto, using(page_core::proofs::Counts::ProfileNodes::few_nodes))]
fn empty_core(alloc: Global, profile: ProfileName) -> Result<Core> {
    let profile = Profile::of(profile);
    Ok(Core::make(alloc, &profile, PAGE, 0)?)
}

/// A row of so many places.
fn clear_row(alloc: Global, columns: usize) -> Result<Vec<Colour>> {
    Ok(vec![in alloc; CLEAR; columns]?)
}

/// A set that is a mode change, and behind it one of each version, which come again and again.
fn display_sets(alloc: Global, width: u16, height: u16, depth: Depth) -> Result<Vec<Vec<u8>>>
    requires wide { 1 ≤ width }
    requires high { 1 ≤ height }
{
    let mut sets = Vec::new(alloc);
    for number in 0..VERSIONS + 1 {
        let state = match number {
            0 => State::ModeChange,
            _ => State::Normal,
        };
        let picture = picture(alloc, number % PICTURES, width, height, depth)?;
        let mut set = Vec::new(alloc);
        append_set(&picture, state, number % VERSIONS, &mut set)?;
        sets.push(set)?;
    }
    Ok(sets)
}

/// The bytes of all sets.
fn size_of(sets: &[Vec<u8>]) -> usize {
    let mut size = 0usize;
    for set in sets {
        size = size.wrapping_add(set.len());
    }
    size
}

/// How many a second.
fn rate(times: u32, micros: u128) -> u128 {
    u128::from(times) * 1_000_000 / micros.max(1)
}
