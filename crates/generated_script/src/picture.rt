ghost use Rattle.std.specs.Prelude.{◌≡◌, ◌++◌, ◌<◌, min, map, replicate, IfOk, OnOk};
ghost use Rattle.std.specs.List.{range_with_len};
ghost use Rattle.generated_script.specs.Generated.{generated_row, generated_picture};

use indexed_picture::Indexed;
use std::alloc::Global;
use sub_base::{Depth, NoMemory};

/// How many pictures differ: those of cues that are so many apart are the same.
pub(crate) const PICTURES: u64 = 16;

/// The width of each picture, in pixels.
const WIDTH: u16 = 64;

/// The height of each picture, in pixels.
const HEIGHT: u16 = 32;

/// The pixels of a run of one code.
const RUN: usize = 8;

/// The runs of a row.
const RUNS: u16 = 8;

/// How many rows go by until the codes go on by one.
const BAND: u16 = 3;

/// How many codes there are.
const CODES: u16 = 16;

/// Appends a run of one code.
fn push_run(codes: &mut Vec<u8>, code: u8) -> Result<(), NoMemory>
    ensures { OnOk result (codes.new.items ≡ codes.old.items ++ replicate 8 code) }
{
    codes.extend_from_slice(&[code; RUN])?;
    Ok(())
}

/// Appends a row of the picture of that number.
fn push_row(codes: &mut Vec<u8>, number: u16, y: u16) -> Result<(), NoMemory>
    requires number { number < 16 }
    requires y { y < 32 }
    ensures { OnOk result (codes.new.items ≡ codes.old.items ++ generated_row number y) }
{
    for run in 0..RUNS {
        push_run(codes, ((run + y / BAND + number) % CODES) as u8)?;
    }
    Ok(())
}

/// The picture of that number.
fn picture(alloc: Global, number: u16) -> Result<Indexed, NoMemory>
    requires { number < 16 }
    ensures { IfOk result (λ picture. picture ≡ generated_picture number) }
{
    let mut codes = Vec::new(alloc);
    for y in 0..HEIGHT {
        push_row(&mut codes, number, y)?;
    }
    Ok(Indexed::of_codes(WIDTH, HEIGHT, Depth::Four, codes))
}

/// The pictures of a script of so many cues.
pub(crate) fn pictures(alloc: Global, cues: u64) -> Result<Vec<Indexed>, NoMemory>
    ensures { IfOk result (λ pictures.
        pictures.items ≡ map generated_picture (range_with_len 0 (min cues 16))) }
{
    let mut pictures = Vec::new(alloc);
    for number in 0..cues.min(PICTURES) {
        pictures.push(picture(alloc, number as u16)?)?;
    }
    Ok(pictures)
}
