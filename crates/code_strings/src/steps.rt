ghost use Rattle.std.specs.Prelude.{◌≤◌};
ghost use Rattle.sub_base.specs.declared.depth.Depth.TheVariants.{Two, Four};
ghost use Rattle.code_strings.specs.Reached.{IsTold};

use sub_base::Depth;

/// How many bits the 2 bit codes take that each byte begins and tells.
#[rattlefmt::skip]
static TWO_BIT_STEPS: [u8; 256] = [
    0, 0, 0, 0, 6, 8, 8, 8, 12, 12, 12, 12, 16, 16, 16, 16,
    4, 8, 12, 12, 6, 8, 8, 8, 6, 8, 8, 8, 6, 8, 8, 8,
    8, 8, 8, 8, 8, 8, 8, 8, 8, 8, 8, 8, 8, 8, 8, 8,
    8, 8, 8, 8, 8, 8, 8, 8, 8, 8, 8, 8, 8, 8, 8, 8,
    2, 8, 14, 18, 6, 8, 8, 8, 10, 10, 10, 10, 10, 10, 10, 10,
    4, 8, 12, 12, 6, 8, 8, 8, 6, 8, 8, 8, 6, 8, 8, 8,
    4, 8, 12, 12, 6, 8, 8, 8, 6, 8, 8, 8, 6, 8, 8, 8,
    4, 8, 12, 12, 6, 8, 8, 8, 6, 8, 8, 8, 6, 8, 8, 8,
    2, 8, 14, 18, 6, 8, 8, 8, 10, 10, 10, 10, 10, 10, 10, 10,
    4, 8, 12, 12, 6, 8, 8, 8, 6, 8, 8, 8, 6, 8, 8, 8,
    4, 8, 12, 12, 6, 8, 8, 8, 6, 8, 8, 8, 6, 8, 8, 8,
    4, 8, 12, 12, 6, 8, 8, 8, 6, 8, 8, 8, 6, 8, 8, 8,
    2, 8, 14, 18, 6, 8, 8, 8, 10, 10, 10, 10, 10, 10, 10, 10,
    4, 8, 12, 12, 6, 8, 8, 8, 6, 8, 8, 8, 6, 8, 8, 8,
    4, 8, 12, 12, 6, 8, 8, 8, 6, 8, 8, 8, 6, 8, 8, 8,
    4, 8, 12, 12, 6, 8, 8, 8, 6, 8, 8, 8, 6, 8, 8, 8,
];

/// How many bits the 4 bit codes take that each byte begins and tells.
#[rattlefmt::skip]
static FOUR_BIT_STEPS: [u8; 256] = [
    0, 8, 8, 8, 8, 8, 8, 8, 12, 12, 12, 12, 8, 8, 16, 20,
    4, 8, 8, 8, 8, 8, 8, 8, 8, 8, 8, 8, 8, 8, 8, 8,
    4, 8, 8, 8, 8, 8, 8, 8, 8, 8, 8, 8, 8, 8, 8, 8,
    4, 8, 8, 8, 8, 8, 8, 8, 8, 8, 8, 8, 8, 8, 8, 8,
    4, 8, 8, 8, 8, 8, 8, 8, 8, 8, 8, 8, 8, 8, 8, 8,
    4, 8, 8, 8, 8, 8, 8, 8, 8, 8, 8, 8, 8, 8, 8, 8,
    4, 8, 8, 8, 8, 8, 8, 8, 8, 8, 8, 8, 8, 8, 8, 8,
    4, 8, 8, 8, 8, 8, 8, 8, 8, 8, 8, 8, 8, 8, 8, 8,
    4, 8, 8, 8, 8, 8, 8, 8, 8, 8, 8, 8, 8, 8, 8, 8,
    4, 8, 8, 8, 8, 8, 8, 8, 8, 8, 8, 8, 8, 8, 8, 8,
    4, 8, 8, 8, 8, 8, 8, 8, 8, 8, 8, 8, 8, 8, 8, 8,
    4, 8, 8, 8, 8, 8, 8, 8, 8, 8, 8, 8, 8, 8, 8, 8,
    4, 8, 8, 8, 8, 8, 8, 8, 8, 8, 8, 8, 8, 8, 8, 8,
    4, 8, 8, 8, 8, 8, 8, 8, 8, 8, 8, 8, 8, 8, 8, 8,
    4, 8, 8, 8, 8, 8, 8, 8, 8, 8, 8, 8, 8, 8, 8, 8,
    4, 8, 8, 8, 8, 8, 8, 8, 8, 8, 8, 8, 8, 8, 8, 8,
];

/// How many bits the codes of a depth take that a byte begins, as far as its own bits tell how many
/// they are; 0 where it begins an end, and where it does not tell. Of 8 bit codes it tells nothing.
#[inline(always)]
pub(crate) fn told_steps(byte: u8, depth: Depth) -> usize
    ensures told { IsTold depth byte result }
    ensures few { result ≤ 24 }
{
    match depth {
        Depth::Two => two_bit_steps(byte),
        Depth::Four => four_bit_steps(byte),
        Depth::Eight => 0,
    }
}

/// The same of 2 bit codes.
#[inline(always)]
fn two_bit_steps(byte: u8) -> usize
    ensures told { IsTold Two byte result }
    ensures few { result ≤ 24 }
{
    usize::from(TWO_BIT_STEPS[usize::from(byte)])
}

/// The same of 4 bit codes.
#[inline(always)]
fn four_bit_steps(byte: u8) -> usize
    ensures told { IsTold Four byte result }
    ensures few { result ≤ 24 }
{
    usize::from(FOUR_BIT_STEPS[usize::from(byte)])
}
