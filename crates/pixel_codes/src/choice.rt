ghost use Rattle.std.specs.Prelude.{◌≡◌, ◌+◌, ◌*◌, ◌<◌, ◌≤◌};
ghost use Rattle.sub_base.specs.Depth.{code_count};
ghost use Rattle.sub_base.specs.declared.depth.Depth.TheVariants.{Two, Four, Eight};
ghost use Rattle.pixel_codes.specs.Private.Least as least;
ghost use Rattle.pixel_codes.specs.Private.Spelling.{Spells};

use sub_base::Depth;

/// One code of a string: its bits as a number, how many they are, and the pixels that it gives.
#[derive(Clone, Copy, Debug, PartialEq, Eq)]
pub(crate) struct Spelling {
    pub(crate) bits: u32,
    pub(crate) width: u32,
    pub(crate) pixels: usize,
}

/// The first code of the string of a run: of the strings with the least bits, the one with the
/// greatest lengths begins with it.
#[inline(always)]
pub(crate) fn first_spelling(depth: Depth, code: u8, count: usize) -> Spelling
    requires some { 1 ≤ count }
    requires code { code < code_count depth }
    ensures { Spells depth (least.first_code depth code count) result }
{
    match depth {
        Depth::Two => two_bit_spelling(code, count),
        Depth::Four => four_bit_spelling(code, count),
        Depth::Eight => eight_bit_spelling(code, count),
    }
}

#[inline(always)]
fn two_bit_spelling(code: u8, count: usize) -> Spelling
    requires { 1 ≤ count }
    ensures { Spells Two (least.first_code Two code count) result }
{
    if count > 28 {
        let field = (count - 29).min(255);
        return run(0x0C00, 4, field, code, 16, field + 29);
    }
    if count > 11 {
        let field = (count - 12).min(15);
        return run(0x80, 4, field, code, 12, field + 12);
    }
    two_bit_few(code, count)
}

#[inline(always)]
fn two_bit_few(code: u8, count: usize) -> Spelling
    requires { 1 ≤ count }
    ensures { Spells Two (least.two_few code count) result }
{
    match (code, count) {
        (0, 1) => single(1, 4, 1),
        (0, 2) => single(1, 6, 2),
        // One by one they take two bits each, and as a run eight.
        (1.., 1..=3) => single(code, 2, 1),
        _ => {
            let field = (count - 3).min(7);
            run(0x20, 4, field, code, 8, field + 3)
        }
    }
}

#[inline(always)]
fn four_bit_spelling(code: u8, count: usize) -> Spelling
    requires { 1 ≤ count }
    ensures { Spells Four (least.first_code Four code count) result }
{
    if count > 24 {
        let field = (count - 25).min(255);
        return run(0xF000, 16, field, code, 20, field + 25);
    }
    four_bit_few(code, count)
}

#[inline(always)]
fn four_bit_few(code: u8, count: usize) -> Spelling
    requires some { 1 ≤ count }
    requires few { count ≤ 24 }
    ensures { Spells Four (least.four_few code count) result }
{
    match (code, count) {
        (0, 1) => single(12, 8, 1),
        (0, 2) => single(13, 8, 2),
        (0, 3..=9) => single((count - 2) as u8, 8, count),
        (1.., 1..=3) => single(code, 4, 1),
        (1.., 4..=8) => {
            let field = (count - 4).min(3);
            run(0x80, 16, field, code, 12, field + 4)
        }
        _ => run(0xE00, 16, count - 9, code, 16, count),
    }
}

#[inline(always)]
fn eight_bit_spelling(code: u8, count: usize) -> Spelling
    requires { 1 ≤ count }
    ensures { Spells Eight (least.first_code Eight code count) result }
{
    // The greatest length comes first: of the strings with the least bits that is the one that is
    // wanted.
    let most = count.min(127);
    match (code, count) {
        (0, _) => single(most as u8, 16, most),
        // Two take 16 bits one by one, and 24 as a run.
        (_, 1..=2) => single(code, 8, 1),
        _ => run(0x8000, 256, most, code, 24, most),
    }
}

/// A code without a field for a length and a pixel code.
#[inline(always)]
fn single(bits: u8, width: u32, pixels: usize) -> Spelling
    ensures { result ≡ record { bits = bits; width = width; pixels = pixels } }
{
    Spelling {
        bits: u32::from(bits),
        width,
        pixels,
    }
}

/// A code with a field for its length above a pixel code, for which there are `codes` values.
#[inline(always)]
fn run(form: u32, codes: u32, field: usize, code: u8, width: u32, pixels: usize) -> Spelling
    requires form { form ≤ 61440 }
    requires codes { codes ≤ 256 }
    requires field { field ≤ 255 }
    ensures { result
        ≡ record { bits = form + codes * field + code; width = width; pixels = pixels } }
{
    Spelling {
        bits: form + codes * field as u32 + u32::from(code),
        width,
        pixels,
    }
}
