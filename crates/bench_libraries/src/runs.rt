use pixel_codes::CodeBlock;

/// How many pixels the runs of a block draw.
pub fn pixels_in_runs(block: &CodeBlock<'_>) -> u64 {
    let mut runs = block.runs();
    let mut pixels = 0u64;
    while let Some(run) = runs.next_run() {
        pixels = pixels.wrapping_add(u64::from(run.length));
    }
    pixels
}
