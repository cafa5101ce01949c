ghost use Rattle.std.specs.Prelude.{◌≡◌, ◌+◌, ◌*◌, ◌<◌, ◌≤◌, length};
ghost use Rattle.stream_syntax.specs.PixelCodes.{bits_of};
ghost use Rattle.code_strings.specs.Reading.{two_at, two_long_at, four_at, four_run_at, eight_at, token_at};

use crate::field::field;
use sub_base::Depth;

/// What a code of a string says: pixels of one pixel code, or the end of the string.
#[derive(Clone, Copy, Debug, PartialEq, Eq)]
pub enum Token {
    Pixels { length: u32, code: u8 },
    End,
}

/// The code at bit `place` of a string of a depth, and the place after it; none where the bytes end
/// before.
#[inline(always)]
pub fn read_token(bytes: &[u8], place: usize, depth: Depth) -> Option<(Token, usize)>
    requires bytes { length bytes.now ≤ 65535 }
    requires place { place ≤ 8 * length bytes.now }
    ensures { result ≡ token_at depth (bits_of bytes.now) place }
{
    match depth {
        Depth::Two => two_bit_token(bytes, place),
        Depth::Four => four_bit_token(bytes, place),
        Depth::Eight => eight_bit_token(bytes, place),
    }
}

#[inline(always)]
#[tactic(auto, unfolding(crate::specs::Reading::two_at))]
fn two_bit_token(bytes: &[u8], place: usize) -> Option<(Token, usize)>
    requires bytes { length bytes.now ≤ 65535 }
    requires place { place ≤ 8 * length bytes.now }
    ensures { result ≡ two_at (bits_of bytes.now) place }
{
    let first = field(bytes, place, 2)?;
    if first != 0 {
        return Some((pixels(1, first), place + 2));
    }
    let second = field(bytes, place + 2, 2)?;
    if second == 0 {
        return two_bit_long_token(bytes, place + 4);
    }
    if second == 1 {
        return Some((pixels(1, 0), place + 4));
    }
    // The length has three bits, of which the first is the lower one of `second`.
    let low = field(bytes, place + 4, 2)?;
    let code = field(bytes, place + 6, 2)?;
    let length = u32::from(second - 2) * 4 + u32::from(low) + 3;
    Some((pixels(length, code), place + 8))
}

/// The rest of a 2 bit code behind four bits 0.
#[inline(always)]
#[tactic(auto, unfolding(crate::specs::Reading::two_long_at))]
fn two_bit_long_token(bytes: &[u8], place: usize) -> Option<(Token, usize)>
    requires bytes { length bytes.now ≤ 65535 }
    requires place { place ≤ 8 * length bytes.now }
    ensures { result ≡ two_long_at (bits_of bytes.now) place }
{
    let form = field(bytes, place, 2)?;
    if form == 0 {
        return Some((Token::End, place + 2));
    }
    if form == 1 {
        return Some((pixels(2, 0), place + 2));
    }
    if form == 2 {
        let length = field(bytes, place + 2, 4)?;
        let code = field(bytes, place + 6, 2)?;
        return Some((pixels(u32::from(length) + 12, code), place + 8));
    }
    let length = field(bytes, place + 2, 8)?;
    let code = field(bytes, place + 10, 2)?;
    Some((pixels(u32::from(length) + 29, code), place + 12))
}

#[inline(always)]
#[tactic(auto, unfolding(crate::specs::Reading::four_at))]
fn four_bit_token(bytes: &[u8], place: usize) -> Option<(Token, usize)>
    requires bytes { length bytes.now ≤ 65535 }
    requires place { place ≤ 8 * length bytes.now }
    ensures { result ≡ four_at (bits_of bytes.now) place }
{
    let first = field(bytes, place, 4)?;
    if first != 0 {
        return Some((pixels(1, first), place + 4));
    }
    let second = field(bytes, place + 4, 4)?;
    if second == 0 {
        return Some((Token::End, place + 8));
    }
    if second < 8 {
        return Some((pixels(u32::from(second) + 2, 0), place + 8));
    }
    four_bit_run_token(bytes, place + 8, second - 8)
}

/// The rest of a 4 bit code behind four bits 0 and a bit 1, whose next three bits are `form`.
#[inline(always)]
#[tactic(auto, unfolding(crate::specs::Reading::four_run_at))]
fn four_bit_run_token(bytes: &[u8], place: usize, form: u8) -> Option<(Token, usize)>
    requires bytes { length bytes.now ≤ 65535 }
    requires place { place ≤ 8 * length bytes.now }
    ensures { result ≡ four_run_at (bits_of bytes.now) place form }
{
    if form < 4 {
        let code = field(bytes, place, 4)?;
        return Some((pixels(u32::from(form) + 4, code), place + 4));
    }
    if form == 4 {
        return Some((pixels(1, 0), place));
    }
    if form == 5 {
        return Some((pixels(2, 0), place));
    }
    if form == 6 {
        let length = field(bytes, place, 4)?;
        let code = field(bytes, place + 4, 4)?;
        return Some((pixels(u32::from(length) + 9, code), place + 8));
    }
    let length = field(bytes, place, 8)?;
    let code = field(bytes, place + 8, 4)?;
    Some((pixels(u32::from(length) + 25, code), place + 12))
}

#[inline(always)]
#[tactic(auto, unfolding(crate::specs::Reading::eight_at))]
fn eight_bit_token(bytes: &[u8], place: usize) -> Option<(Token, usize)>
    requires bytes { length bytes.now ≤ 65535 }
    requires place { place ≤ 8 * length bytes.now }
    ensures { result ≡ eight_at (bits_of bytes.now) place }
{
    let first = field(bytes, place, 8)?;
    if first != 0 {
        return Some((pixels(1, first), place + 8));
    }
    let second = field(bytes, place + 8, 8)?;
    if second == 0 {
        return Some((Token::End, place + 16));
    }
    // The high bit says whether a pixel code follows the length.
    if second < 128 {
        return Some((pixels(u32::from(second), 0), place + 16));
    }
    let code = field(bytes, place + 16, 8)?;
    Some((pixels(u32::from(second - 128), code), place + 24))
}

#[inline(always)]
fn pixels(length: u32, code: u8) -> Token
    ensures { result ≡ Token.Pixels length code }
{
    Token::Pixels { length, code }
}
