ghost use Rattle.std.specs.Prelude.{◌≡◌, ◌+◌, ◌*◌, ◌^◌, ◌<◌, ◌≤◌, length, IfSome};
ghost use Rattle.sub_base.specs.declared.depth.Depth.TheVariants.{Two, Four, Eight};
ghost use Rattle.string_painting.specs.Codes.{codes_in_byte};
ghost use Rattle.string_painting.specs.Private.Reading.{two_at, two_far_at, two_middle_at, two_long_at};
ghost use Rattle.string_painting.specs.Private.Reading.{four_at, four_far_at, eight_at, token_at};
ghost use Rattle.string_painting.specs.Private.Reading.{EndsWithin};

use crate::field::field;
use code_strings::Token;
use sub_base::Depth;

// `code_strings` reads a code by bits, which may lie in two bytes. Here places count fields, each
// as wide as a code of the depth, which is faster: a field lies in one byte, and costs a load and a
// shift. The last three forms are inlined as the compiler likes: where all had to be, the loop over
// codes would grow so large that the kit takes no copy of it for each pair of depths.
/// The code at field `place` of a string of a depth, and the place after it; none where the bytes
/// end before.
#[inline(always)]
pub(crate) fn read_token(bytes: &[u8], place: usize, depth: Depth) -> Option<(Token, usize)>
    requires bytes { length bytes.now < 2 ^ 32 }
    requires place { place ≤ codes_in_byte depth * length bytes.now }
    ensures token { result ≡ token_at depth bytes.now place }
    ensures within { IfSome result (EndsWithin depth bytes.now (place + 1)) }
{
    match depth {
        Depth::Two => two_bit_token(bytes, place),
        Depth::Four => four_bit_token(bytes, place),
        Depth::Eight => eight_bit_token(bytes, place),
    }
}

#[inline(always)]
#[tactic(auto, unfolding(crate::specs::Private::Reading::two_at))]
fn two_bit_token(bytes: &[u8], place: usize) -> Option<(Token, usize)>
    requires bytes { length bytes.now < 2 ^ 32 }
    requires place { place ≤ codes_in_byte Two * length bytes.now }
    ensures token { result ≡ two_at bytes.now place }
    ensures within { IfSome result (EndsWithin Two bytes.now (place + 1)) }
{
    let first = field(bytes, place, Depth::Two)?;
    if first != 0 {
        return Some((pixels(1, first), place + 1));
    }
    let second = field(bytes, place + 1, Depth::Two)?;
    if second == 0 {
        return two_bit_far_token(bytes, place + 2);
    }
    if second == 1 {
        return Some((pixels(1, 0), place + 2));
    }
    // The length has three bits, of which the first is the lower one of `second`.
    let low = field(bytes, place + 2, Depth::Two)?;
    let code = field(bytes, place + 3, Depth::Two)?;
    let length = u32::from(second - 2) * 4 + u32::from(low) + 3;
    Some((pixels(length, code), place + 4))
}

/// The rest of a 2 bit code behind four bits 0.
#[inline(always)]
#[tactic(auto, unfolding(crate::specs::Private::Reading::two_far_at))]
fn two_bit_far_token(bytes: &[u8], place: usize) -> Option<(Token, usize)>
    requires bytes { length bytes.now < 2 ^ 32 }
    requires place { place ≤ codes_in_byte Two * length bytes.now }
    ensures token { result ≡ two_far_at bytes.now place }
    ensures within { IfSome result (EndsWithin Two bytes.now place) }
{
    let form = field(bytes, place, Depth::Two)?;
    if form == 0 {
        return Some((Token::End, place + 1));
    }
    if form == 1 {
        return Some((pixels(2, 0), place + 1));
    }
    if form == 2 {
        return two_bit_middle_token(bytes, place + 1);
    }
    two_bit_long_token(bytes, place + 1)
}

/// The length and the code of a middle run of 2 bit codes.
#[inline]
#[tactic(auto, unfolding(crate::specs::Private::Reading::two_middle_at))]
fn two_bit_middle_token(bytes: &[u8], place: usize) -> Option<(Token, usize)>
    requires bytes { length bytes.now < 2 ^ 32 }
    requires place { place ≤ codes_in_byte Two * length bytes.now }
    ensures token { result ≡ two_middle_at bytes.now place }
    ensures within { IfSome result (EndsWithin Two bytes.now place) }
{
    let high = field(bytes, place, Depth::Two)?;
    let low = field(bytes, place + 1, Depth::Two)?;
    let code = field(bytes, place + 2, Depth::Two)?;
    let length = u32::from(high) * 4 + u32::from(low) + 12;
    Some((pixels(length, code), place + 3))
}

/// The length and the code of a long run of 2 bit codes.
#[inline]
#[tactic(auto, unfolding(crate::specs::Private::Reading::two_long_at))]
fn two_bit_long_token(bytes: &[u8], place: usize) -> Option<(Token, usize)>
    requires bytes { length bytes.now < 2 ^ 32 }
    requires place { place ≤ codes_in_byte Two * length bytes.now }
    ensures token { result ≡ two_long_at bytes.now place }
    ensures within { IfSome result (EndsWithin Two bytes.now place) }
{
    let first = field(bytes, place, Depth::Two)?;
    let second = field(bytes, place + 1, Depth::Two)?;
    let third = field(bytes, place + 2, Depth::Two)?;
    let fourth = field(bytes, place + 3, Depth::Two)?;
    let code = field(bytes, place + 4, Depth::Two)?;
    let high = u32::from(first) * 64 + u32::from(second) * 16;
    let length = high + u32::from(third) * 4 + u32::from(fourth) + 29;
    Some((pixels(length, code), place + 5))
}

#[inline(always)]
#[tactic(auto, unfolding(crate::specs::Private::Reading::four_at))]
fn four_bit_token(bytes: &[u8], place: usize) -> Option<(Token, usize)>
    requires bytes { length bytes.now < 2 ^ 32 }
    requires place { place ≤ codes_in_byte Four * length bytes.now }
    ensures token { result ≡ four_at bytes.now place }
    ensures within { IfSome result (EndsWithin Four bytes.now (place + 1)) }
{
    let first = field(bytes, place, Depth::Four)?;
    if first != 0 {
        return Some((pixels(1, first), place + 1));
    }
    let second = field(bytes, place + 1, Depth::Four)?;
    if second == 0 {
        return Some((Token::End, place + 2));
    }
    if second < 8 {
        return Some((pixels(u32::from(second) + 2, 0), place + 2));
    }
    four_bit_far_token(bytes, place + 2, second - 8)
}

/// The rest of a 4 bit code behind four bits 0 and a bit 1, whose next three bits are `form`.
#[inline]
#[tactic(auto, unfolding(crate::specs::Private::Reading::four_far_at))]
fn four_bit_far_token(bytes: &[u8], place: usize, form: u8) -> Option<(Token, usize)>
    requires bytes { length bytes.now < 2 ^ 32 }
    requires place { place ≤ codes_in_byte Four * length bytes.now }
    ensures token { result ≡ four_far_at bytes.now place form }
    ensures moves { IfSome result (EndsWithin Four bytes.now place) }
{
    if form < 4 {
        let code = field(bytes, place, Depth::Four)?;
        return Some((pixels(u32::from(form) + 4, code), place + 1));
    }
    if form == 4 {
        return Some((pixels(1, 0), place));
    }
    if form == 5 {
        return Some((pixels(2, 0), place));
    }
    let first = field(bytes, place, Depth::Four)?;
    let second = field(bytes, place + 1, Depth::Four)?;
    if form == 6 {
        return Some((pixels(u32::from(first) + 9, second), place + 2));
    }
    let code = field(bytes, place + 2, Depth::Four)?;
    let length = u32::from(first) * 16 + u32::from(second) + 25;
    Some((pixels(length, code), place + 3))
}

#[inline(always)]
#[tactic(auto, unfolding(crate::specs::Private::Reading::eight_at))]
fn eight_bit_token(bytes: &[u8], place: usize) -> Option<(Token, usize)>
    requires bytes { length bytes.now < 2 ^ 32 }
    requires place { place ≤ codes_in_byte Eight * length bytes.now }
    ensures token { result ≡ eight_at bytes.now place }
    ensures within { IfSome result (EndsWithin Eight bytes.now (place + 1)) }
{
    let first = field(bytes, place, Depth::Eight)?;
    if first != 0 {
        return Some((pixels(1, first), place + 1));
    }
    let second = field(bytes, place + 1, Depth::Eight)?;
    if second == 0 {
        return Some((Token::End, place + 2));
    }
    // The high bit says whether a pixel code follows the length.
    if second < 128 {
        return Some((pixels(u32::from(second), 0), place + 2));
    }
    let code = field(bytes, place + 2, Depth::Eight)?;
    Some((pixels(u32::from(second - 128), code), place + 3))
}

#[inline(always)]
fn pixels(length: u32, code: u8) -> Token
    ensures { result ≡ Token.Pixels length code }
{
    Token::Pixels { length, code }
}
