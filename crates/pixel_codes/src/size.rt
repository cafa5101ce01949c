ghost use Rattle.std.specs.Prelude.{◌≡◌, ℕ, ◌+◌, ◌*◌, ◌<◌, ◌≤◌, List, length, All};
ghost use Rattle.sub_base.specs.Depth.{code_count};
ghost use Rattle.stream_syntax.specs.PixelCodes.{IsLeastSum, IsRowString, IsRowSize};
ghost use Rattle.pixel_codes.specs.Private.Rows.{runs_of};

use crate::least::run_bits;
use crate::maximal::run_length;
use crate::row::end_width;
use sub_base::Depth;

/// How many bytes `write_row` appends for a row of pixel codes. Nothing is written.
pub fn row_size(depth: Depth, codes: &[u8]) -> u64
    requires short { length codes.now ≤ 65535 }
    requires each { All (λ code. code < code_count depth) codes.now }
    ensures size { IsRowSize depth codes.now result }
    ensures written { (bytes : List ℕ) → IsRowString depth codes.now bytes
        → result ≡ length bytes }
    ensures short { result ≤ 2 * length codes.now + 3 }
{
    (row_bits(depth, codes) + u64::from(end_width(depth)) + 7) / 8
}

/// The least bits of the maximal runs of a row.
fn row_bits(depth: Depth, codes: &[u8]) -> u64
    requires short { length codes.now ≤ 65535 }
    requires each { All (λ code. code < code_count depth) codes.now }
    ensures least { IsLeastSum depth (runs_of codes.now) result }
    ensures short { result ≤ 16 * length codes.now }
{
    match depth {
        Depth::Two => row_bits_of(Depth::Two, codes),
        Depth::Four => row_bits_of(Depth::Four, codes),
        Depth::Eight => row_bits_of(Depth::Eight, codes),
    }
}

/// The same, inlined at each depth: the depth is not looked at again for each run.
#[inline(always)]
fn row_bits_of(depth: Depth, codes: &[u8]) -> u64
    requires short { length codes.now ≤ 65535 }
    requires each { All (λ code. code < code_count depth) codes.now }
    ensures least { IsLeastSum depth (runs_of codes.now) result }
    ensures short { result ≤ 16 * length codes.now }
{
    let mut place = 0;
    let mut bits = 0;
    while place < codes.len() {
        let count = run_length(&codes[place..]);
        bits += run_bits(depth, codes[place], count as u32);
        place += count;
    }
    bits
}
