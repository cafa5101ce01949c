//! Benchmarks of libraries alone. The first word names one: `demux`, `pixel_rows`, `region_paint`
//! or `sets`; without a word all are run, each with a short input. Each tells on standard error how
//! fast it was; standard output has the counts, which are the same in each run.
#![tactic(auto)]

// Units out of transport packets.
mod demux;

// Rows of pixels, written and read.
mod pixel_rows;
mod plain_letters;

// Runs that are painted into region memory.
mod region_paint;

// Display sets that are read, taken and drawn.
mod set_bytes;
mod set_rounds;
mod smooth_letters;
mod taking;

// The words of the command line, and runs of blocks.
mod runs;
mod words;

use anyhow::{Result, bail};
use std::env;

fn main(rt: HostRuntime) -> Result<()> {
    let Some(name) = env::args(&rt)?.nth(1) else {
        return all(&rt);
    };
    match name.as_str() {
        "demux" => demux::run(&rt),
        "pixel_rows" => pixel_rows::run(&rt),
        "region_paint" => region_paint::run(&rt),
        "sets" => set_rounds::run(&rt),
        _ => bail!("the first word names no benchmark"),
    }
}

/// Runs all benchmarks, one after another.
fn all(rt: &HostRuntime) -> Result<()> {
    demux::run(rt)?;
    pixel_rows::run(rt)?;
    region_paint::run(rt)?;
    set_rounds::run(rt)
}
