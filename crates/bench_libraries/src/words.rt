use anyhow::{Context, Result};
use std::env;

/// How many times a benchmark is to do its work: the word behind its name, or as often as is usual.
pub fn times_of(rt: &HostRuntime, usual: u32) -> Result<u32> {
    match env::args(rt)?.nth(2) {
        Some(word) => Ok(
            word.as_str()
                .parse::<u32>()
                .context("the word behind the benchmark's name is no number")?,
        ),
        None => Ok(usual),
    }
}
