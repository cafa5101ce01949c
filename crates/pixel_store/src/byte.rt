//! The codes of one byte.

ghost use Rattle.std.specs.Prelude.{◌≡◌, ◌+◌, ◌-◌, ◌*◌, ◌/◌, ◌%◌, ◌<◌, ◌≤◌};
ghost use Rattle.sub_base.specs.Depth.{code_count};
ghost use Rattle.string_painting.specs.Codes.{codes_in_byte, code_in};
ghost use Rattle.pixel_store.specs.Private.Painting.{ones_of, splice, PaintsByte};

use sub_base::Depth;

/// How many bytes so many codes fill.
pub(crate) fn whole_bytes(depth: Depth, codes: usize) -> usize
    ensures { result ≡ codes / codes_in_byte depth }
{
    match depth {
        Depth::Two => codes / 4,
        Depth::Four => codes / 2,
        Depth::Eight => codes,
    }
}

/// How many codes are left over.
pub(crate) fn codes_over(depth: Depth, codes: usize) -> usize
    ensures { result ≡ codes % codes_in_byte depth }
{
    match depth {
        Depth::Two => codes % 4,
        Depth::Four => codes % 2,
        Depth::Eight => 0,
    }
}

/// How many codes a byte has.
pub(crate) fn codes_per_byte(depth: Depth) -> usize
    ensures { result ≡ codes_in_byte depth }
{
    match depth {
        Depth::Two => 4,
        Depth::Four => 2,
        Depth::Eight => 1,
    }
}

// The byte whose codes are all 1.
fn ones(depth: Depth) -> u8
    ensures { result ≡ ones_of depth }
{
    match depth {
        Depth::Two => 0b0101_0101,
        Depth::Four => 0b0001_0001,
        Depth::Eight => 1,
    }
}

/// The byte whose codes are all that code.
pub(crate) fn pattern(depth: Depth, code: u8) -> u8
    requires { code < code_count depth }
    ensures { result ≡ code * ones_of depth }
{
    code * ones(depth)
}

/// A code of a byte, by its index.
pub(crate) fn code(depth: Depth, byte: u8, index: usize) -> u8
    requires { index < codes_in_byte depth }
    ensures { result ≡ code_in depth index byte }
{
    let bits = u32::from(depth.bits());
    let shift = 8 - bits * (index as u32 + 1);
    ((u32::from(byte) >> shift) % (1 << bits)) as u8
}

// The byte, but the bits from `low` up to `high` from the pattern.
#[tactic(auto, unfolding(crate::specs::Private::Painting::splice))]
fn spliced(byte: u8, pattern: u8, high: u32, low: u32) -> u8
    requires order { low ≤ high }
    requires high { high ≤ 8 }
    ensures { result ≡ splice high low pattern byte }
{
    let byte = u32::from(byte);
    let above = byte >> high << high;
    let painted = u32::from(pattern) % (1 << high) >> low << low;
    let below = byte % (1 << low);
    (above + painted + below) as u8
}

/// The byte with the codes from index `from` up to `to` painted.
pub(crate) fn painted(depth: Depth, byte: u8, from: usize, to: usize, code: u8) -> u8
    requires order { from ≤ to }
    requires to { to ≤ codes_in_byte depth }
    requires code { code < code_count depth }
    ensures { PaintsByte depth from to code byte result }
{
    let bits = u32::from(depth.bits());
    spliced(
        byte,
        pattern(depth, code),
        8 - bits * from as u32,
        8 - bits * to as u32,
    )
}
