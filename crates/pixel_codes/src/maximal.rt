ghost use Rattle.std.specs.Prelude.{◌≡◌, ℕ, ◌==◌, ◌+◌, ◌<◌, ◌≤◌, if◌then◌else◌, length, slice_index, take_while, map, drop};
ghost use Rattle.std.specs.Int.{bit_at};
ghost use Rattle.std.specs.List.{prefix_len};
ghost use Rattle.std.specs.Simd.Lanes.{mask_l};
ghost use Rattle.pixel_codes.specs.Private.Maximal.{is_code, differs, ends_at};

use std::simd::prelude::*;

/// How many codes from the first on are equal.
#[inline]
pub fn run_length(codes: &[u8]) -> usize
    requires { 0 < length codes.now }
    ensures count { result
        ≡ length (take_while (λ code. code == slice_index codes.now 0) codes.now) }
    ensures short { result ≤ length codes.now }
{
    let first = codes[0];
    // Half of the runs of smoothed text have one or two pixels.
    if codes.len() < 2 || codes[1] != first {
        return 1;
    }
    if codes.len() < 3 || codes[2] != first {
        return 2;
    }
    end_of_run(codes, first)
}

/// How many codes from the first on are this one, found sixteen at a time.
#[inline(always)]
fn end_of_run(codes: &[u8], code: u8) -> usize
    ensures value { result ≡ prefix_len (is_code code) codes.now }
    ensures bound { result ≤ length codes.now }
{
    let mut place = 0;
    while codes.len() - place >= 16 {
        let found = differing(u8x16::from_slice(&codes[place..]), code);
        if found != 0 {
            return place + found.trailing_zeros() as usize;
        }
        place += 16;
    }
    end_by_one(codes, code, place)
}

/// The end of the codes from a place on that are this one, found one by one.
#[inline(always)]
fn end_by_one(codes: &[u8], code: u8, from: usize) -> usize
    requires { from ≤ length codes.now }
    ensures value { result ≡ from + prefix_len (is_code code) (drop from codes.now) }
    ensures bound { result ≤ length codes.now }
{
    let mut place = from;
    while place < codes.len() && codes[place] == code {
        place += 1;
    }
    place
}

/// A bit for each lane that holds another code, the first lane's the lowest.
#[inline(always)]
fn differing(lanes: u8x16, code: u8) -> u64
    ensures { result ≡ mask_l (map (differs code) lanes) }
{
    lanes.simd_ne(u8x16::splat(code)).to_bitmask()
}

/// A bit for each of 64 pixels from a place on, the first pixel's the lowest: it is set where the
/// next pixel has another code, so that a run ends.
#[inline(always)]
pub(crate) fn ends_of_block(codes: &[u8], at: usize) -> u64
    requires { at + 65 ≤ length codes.now }
    ensures { (bit : ℕ) → bit < 64
        → bit_at result bit ≡ (if ends_at codes.now (at + bit) then 1 else 0) }
{
    u8x64::from_slice(&codes[at..])
        .simd_ne(u8x64::from_slice(&codes[at + 1..]))
        .to_bitmask()
}
