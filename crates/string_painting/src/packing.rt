//! Packed codes: the first code of a byte is in its highest bits.

ghost use Rattle.std.specs.Prelude.{◌≡◌, ◌+◌, ◌-◌, ◌*◌, ◌/◌, ◌%◌, ◌^◌, ◌<◌, ◌≤◌};
ghost use Rattle.sub_base.specs.Depth.{code_count};
ghost use Rattle.string_painting.specs.Codes.{codes_in_byte, code_in};
ghost use Rattle.string_painting.specs.Private.Packing.{ones_of, cut, with_code, PaintsByte};

use sub_base::Depth;

/// How many bytes so many codes fill.
#[inline(always)]
pub(crate) fn whole_bytes(depth: Depth, codes: usize) -> usize
    ensures { result ≡ codes / codes_in_byte depth }
{
    match depth {
        Depth::Two => codes / 4,
        Depth::Four => codes / 2,
        Depth::Eight => codes,
    }
}

/// How many bytes so many codes begin.
#[inline(always)]
pub(crate) fn started_bytes(depth: Depth, codes: usize) -> usize
    requires { codes < 2 ^ 60 }
    ensures { result ≡ (codes + (codes_in_byte depth - 1)) / codes_in_byte depth }
{
    match depth {
        Depth::Two => (codes + 3) / 4,
        Depth::Four => (codes + 1) / 2,
        Depth::Eight => codes,
    }
}

/// How many codes are left over.
#[inline(always)]
pub(crate) fn codes_over(depth: Depth, codes: usize) -> usize
    ensures { result ≡ codes % codes_in_byte depth }
{
    match depth {
        Depth::Two => codes % 4,
        Depth::Four => codes % 2,
        Depth::Eight => 0,
    }
}

/// How many codes a byte has.
#[inline(always)]
pub(crate) fn codes_per_byte(depth: Depth) -> usize
    ensures { result ≡ codes_in_byte depth }
{
    match depth {
        Depth::Two => 4,
        Depth::Four => 2,
        Depth::Eight => 1,
    }
}

/// A code of a byte, by its index.
#[inline(always)]
pub(crate) fn code(depth: Depth, byte: u8, index: usize) -> u8
    requires { index < codes_in_byte depth }
    ensures { result ≡ code_in depth index byte }
{
    let bits = u32::from(depth.bits());
    let shift = 8 - bits * (index as u32 + 1);
    ((u32::from(byte) >> shift) % (1 << bits)) as u8
}

// The byte whose codes are all 1.
#[inline(always)]
fn ones(depth: Depth) -> u8
    ensures { result ≡ ones_of depth }
{
    match depth {
        Depth::Two => 0b0101_0101,
        Depth::Four => 0b0001_0001,
        Depth::Eight => 1,
    }
}

/// The byte whose codes are all that code.
#[inline(always)]
pub(crate) fn pattern(depth: Depth, code: u8) -> u8
    requires { code < code_count depth }
    ensures { result ≡ code * ones_of depth }
{
    code * ones(depth)
}

// The byte with so many codes of the front byte, and the other codes of the back byte.
#[inline(always)]
#[tactic(auto, unfolding(crate::specs::Private::Packing::cut))]
fn joined(depth: Depth, codes: usize, front: u8, back: u8) -> u8
    requires { codes ≤ codes_in_byte depth }
    ensures { result ≡ cut depth codes front back }
{
    let below = 8 - u32::from(depth.bits()) * codes as u32;
    ((u32::from(front) >> below << below) + u32::from(back) % (1 << below)) as u8
}

/// The byte with the codes from index `from` up to `to` painted.
#[inline(always)]
pub(crate) fn painted(depth: Depth, byte: u8, from: usize, to: usize, code: u8) -> u8
    requires order { from ≤ to }
    requires to { to ≤ codes_in_byte depth }
    requires code { code < code_count depth }
    ensures { PaintsByte depth from to code byte result }
{
    let back = joined(depth, to, pattern(depth, code), byte);
    joined(depth, from, byte, back)
}

// The byte with a code in the place of the one that it has there: what its bits count is taken from
// the byte, and what the new one's count is put to it.
#[inline(always)]
#[tactic(auto, unfolding(crate::specs::Private::Packing::with_code))]
fn replaced(depth: Depth, byte: u8, index: usize, new: u8) -> u8
    requires index { index < codes_in_byte depth }
    requires code { new < code_count depth }
    ensures { result ≡ with_code depth index new byte }
{
    let shift = 8 - u32::from(depth.bits()) * (index as u32 + 1);
    let old = u32::from(code(depth, byte, index));
    (u32::from(byte) - (old << shift) + (u32::from(new) << shift)) as u8
}

/// The byte with one code painted.
#[inline(always)]
pub(crate) fn painted_once(depth: Depth, byte: u8, index: usize, code: u8) -> u8
    requires index { index < codes_in_byte depth }
    requires code { code < code_count depth }
    ensures { PaintsByte depth index (index + 1) code byte result }
{
    replaced(depth, byte, index, code)
}
