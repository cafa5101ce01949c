//! Codes pictures and reads the blocks of their top fields again, as many times as the word behind
//! the benchmark's name says, and tells on standard error how many million pixels a second that
//! was. The pictures are those of the script that the next word names, all of one depth; without it
//! a text-like picture of rows of 720 pixels at each depth.

use crate::plain_letters;
use crate::runs::pixels_in_runs;
use crate::words::times_of;
use anyhow::{Context, Result, ensure};
use bitmap_font::Font;
use cue_list::Script;
use indexed_picture::Indexed;
use pixel_codes::check_block;
use set_coder::write_fields;
use std::alloc::Global;
use std::env;
use std::fs::File;
use std::io::Read;
use std::time::Instant;
use sub_base::Depth;

/// Codes and reads the pictures.
pub fn run(rt: &HostRuntime) -> Result<()> {
    let times = times_of(rt, 1)?;
    match env::args(rt)?.nth(3) {
        Some(path) => {
            let script = script_in(rt, path.as_str())?;
            measure(rt, script.pictures.as_slice(), times)
        }
        None => measure_letters(rt, times),
    }
}

/// The script in a file, which has no texts.
fn script_in(rt: &HostRuntime, path: &str) -> Result<Script> {
    let mut bytes = Vec::new(rt.alloc());
    File::open(rt, path)?.read_to_end(&mut bytes)?;
    let font = Font::empty(rt.alloc());
    Script::read(rt.alloc(), bytes.as_slice(), &font)
        .ok()
        .context("the file is no script without texts")
}

fn measure_letters(rt: &HostRuntime, times: u32) -> Result<()> {
    for depth in [Depth::Two, Depth::Four, Depth::Eight] {
        let mut pictures = Vec::new(rt.alloc());
        pictures.push(plain_letters::picture(rt.alloc(), depth)?)?;
        measure(rt, pictures.as_slice(), times)?;
    }
    Ok(())
}

/// Codes and reads pictures, one after another, so many times.
fn measure(rt: &HostRuntime, pictures: &[Indexed], times: u32) -> Result<()> {
    let depth = pictures.first().context("there is no picture")?.depth();
    let (bytes, written) = written(rt, pictures, depth, times)?;
    let (pixels, read) = read(rt, pictures, depth, times)?;
    println!(rt; "{depth:?}: {bytes} bytes, {pixels} pixels in the top field")?;
    eprintln!(rt;
        "{depth:?}: {bytes} bytes, {written} million pixels a second written, {read} read"
    )?;
    Ok(())
}

/// The bytes of both fields of all pictures, and how many million pixels a second are coded.
fn written(
    rt: &HostRuntime,
    pictures: &[Indexed],
    depth: Depth,
    times: u32,
) -> Result<(usize, u128)> {
    let mut out = Vec::new(rt.alloc());
    let mut bytes = 0usize;
    let mut pixels = 0u64;
    for picture in pictures {
        ensure!(picture.depth() == depth, "pictures have different depths");
        out.clear();
        let _lengths = write_fields(picture, picture.depth(), &mut out)?;
        bytes = bytes.wrapping_add(out.len());
        pixels = pixels.wrapping_add(u64::from(picture.width()) * u64::from(picture.height()));
    }
    let start = Instant::now(rt)?;
    write_times(pictures, &mut out, times)?;
    let micros = start.elapsed(rt)?.as_micros();
    Ok((bytes, rate(pixels, times, micros)))
}

/// Codes pictures, one after another, so many times.
fn write_times(pictures: &[Indexed], out: &mut Vec<u8>, times: u32) -> Result<()> {
    for _ in 0..times {
        for picture in pictures {
            out.clear();
            let _lengths = write_fields(picture, picture.depth(), out)?;
        }
    }
    Ok(())
}

/// The pixels in the top fields of all pictures, and how many million of them a second are read.
fn read(rt: &HostRuntime, pictures: &[Indexed], depth: Depth, times: u32) -> Result<(u64, u128)> {
    let tops = top_fields(rt.alloc(), pictures)?;
    let mut pixels = 0;
    let start = Instant::now(rt)?;
    for _ in 0..times {
        pixels = pixels_in(tops.as_slice(), depth)?;
    }
    let micros = start.elapsed(rt)?.as_micros();
    Ok((pixels, rate(pixels, times, micros)))
}

/// The blocks of the pictures' top fields.
fn top_fields(alloc: Global, pictures: &[Indexed]) -> Result<Vec<Vec<u8>>> {
    let mut tops = Vec::new(alloc);
    for picture in pictures {
        tops.push(top_field(alloc, picture)?)?;
    }
    Ok(tops)
}

fn top_field(alloc: Global, picture: &Indexed) -> Result<Vec<u8>> {
    let mut out = Vec::new(alloc);
    let lengths = write_fields(picture, picture.depth(), &mut out)?;
    out.truncate(lengths.top as usize);
    Ok(out)
}

/// How many pixels the runs of blocks draw.
fn pixels_in(blocks: &[Vec<u8>], depth: Depth) -> Result<u64> {
    let mut pixels = 0u64;
    for block in blocks {
        ensure!(block.len() <= 65_535, "a block is too long");
        pixels = pixels.wrapping_add(pixels_in_runs(&check_block(block.as_slice(), depth)?));
    }
    Ok(pixels)
}

/// Million pixels a second.
fn rate(pixels: u64, times: u32, micros: u128) -> u128 {
    u128::from(pixels) * u128::from(times) / micros.max(1)
}
