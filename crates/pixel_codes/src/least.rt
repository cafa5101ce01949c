ghost use Rattle.std.specs.Prelude.{◌≡◌, ◌<◌, ◌≤◌};
ghost use Rattle.sub_base.specs.Depth.{code_count};
ghost use Rattle.stream_syntax.specs.PixelCodes.{IsLeast};
ghost use Rattle.pixel_codes.specs.Private.Least as least;
ghost use Rattle.sub_base.specs.declared.depth.Depth.TheVariants.{Two, Four, Eight};

use sub_base::Depth;

/// The least number of bits of any sequence of codes of a depth that gives `length` pixels of
/// `code` (EN 300 743, pixel code strings). The end of a string is not counted.
#[inline(always)]
pub fn run_bits(depth: Depth, code: u8, length: u32) -> u64
    requires long { 1 ≤ length }
    requires code { code < code_count depth }
    ensures { IsLeast depth code length result }
{
    // Among the strings with the least bits there is always one that has as many longest codes as
    // fit.
    let most = longest(depth);
    longest_bits(depth, code) * u64::from(length / most) + rest_bits(depth, code, length % most)
}

/// The pixels of the longest code of a depth.
#[inline(always)]
fn longest(depth: Depth) -> u32
    ensures { result ≡ least.longest depth }
{
    match depth {
        Depth::Two => 284,
        Depth::Four => 280,
        Depth::Eight => 127,
    }
}

/// The bits of the longest code of a depth that gives a pixel code.
#[inline(always)]
fn longest_bits(depth: Depth, code: u8) -> u64
    ensures { result ≡ least.longest_bits depth code }
{
    match depth {
        Depth::Two => 16,
        Depth::Four => 20,
        Depth::Eight => { if code == 0 { 16 } else { 24 } }
    }
}

/// The least bits of fewer pixels than the longest code gives.
#[inline(always)]
fn rest_bits(depth: Depth, code: u8, rest: u32) -> u64
    ensures { result ≡ least.rest_bits depth code rest }
{
    match depth {
        Depth::Two => two_bit_rest(code, rest),
        Depth::Four => four_bit_rest(code, rest),
        Depth::Eight => eight_bit_rest(code, rest),
    }
}

#[inline(always)]
#[tactic(auto, unfolding(crate::specs::Private::Least::two_some, crate::specs::Private::Least::two_none))]
fn two_bit_rest(code: u8, rest: u32) -> u64
    ensures { result ≡ least.rest_bits Two code rest }
{
    match (code, rest) {
        (_, 0) => 0,
        (0, 1) => 4,
        (0, 2) => 6,
        (0, 3..=10) => 8,
        (0, 11..=27) => 12,
        (_, 1) => 2,
        (_, 2) => 4,
        (_, 3) => 6,
        (_, 4..=10) => 8,
        (_, 11) => 10,
        (_, 12..=27) => 12,
        (1.., 28) => 14,
        _ => 16,
    }
}

#[inline(always)]
#[tactic(auto, unfolding(crate::specs::Private::Least::four_some, crate::specs::Private::Least::four_none))]
fn four_bit_rest(code: u8, rest: u32) -> u64
    ensures { result ≡ least.rest_bits Four code rest }
{
    match (code, rest) {
        (_, 0) => 0,
        (0, 1..=9) => 8,
        (_, 1) => 4,
        (_, 2) => 8,
        (1.., 3..=7) => 12,
        (_, 8..=24) => 16,
        _ => 20,
    }
}

#[inline(always)]
#[tactic(auto, unfolding(crate::specs::Private::Least::eight_some, crate::specs::Private::Least::eight_none))]
fn eight_bit_rest(code: u8, rest: u32) -> u64
    ensures { result ≡ least.rest_bits Eight code rest }
{
    match (code, rest) {
        (_, 0) => 0,
        (0, _) => 16,
        (_, 1) => 8,
        (_, 2) => 16,
        _ => 24,
    }
}
