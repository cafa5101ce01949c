ghost use Rattle.std.specs.Prelude.{◌≡◌, ◌+◌, ◌*◌, ◌≤◌, length, Some};
ghost use Rattle.sub_base.specs.declared.depth.Depth.TheVariants.{Eight};
ghost use Rattle.stream_syntax.specs.PixelCodes.{bits_of};
ghost use Rattle.code_strings.specs.Reached.{Reached, ShowsBits};
ghost use Rattle.code_strings.specs.Reading.{field_at};

use crate::steps::told_steps;
use sub_base::Depth;

/// How many bits of a string of a depth are found to be whole codes, without a look at its last
/// bytes and at its end.
#[inline(always)]
pub(crate) fn quick_place(body: &[u8], depth: Depth) -> usize
    requires { length body.now ≤ 65535 }
    ensures { Reached depth (bits_of body.now) result }
{
    match depth {
        Depth::Two => narrow_place(body, Depth::Two),
        Depth::Four => narrow_place(body, Depth::Four),
        Depth::Eight => eight_bit_place(body),
    }
}

/// The same of 2 and 4 bit codes, of which each eight bits at a place tell several.
#[inline(always)]
fn narrow_place(body: &[u8], depth: Depth) -> usize
    requires { length body.now ≤ 65535 }
    ensures { Reached depth (bits_of body.now) result }
{
    let place = word_place(body, depth);
    byte_place(body, depth, place)
}

/// The same, as far as eight bytes and more are there at a time.
#[inline(always)]
fn word_place(body: &[u8], depth: Depth) -> usize
    requires { length body.now ≤ 65535 }
    ensures { Reached depth (bits_of body.now) result }
{
    let limit = body.len() * 8;
    let mut place = 0;
    // The last codes that a word tells begin within 49 bits, and take 24 at the most.
    while place + 73 <= limit {
        let passed = passed_in_word(body, depth, place);
        place += passed;
        if passed <= 49 {
            return place;
        }
    }
    place
}

/// How many bits from a place on are whole codes that a word there tells.
// At the most 49 where it does not tell the next one, which is what the walk takes for its end: a
// code that no word tells is stepped over by itself.
#[inline(always)]
fn passed_in_word(body: &[u8], depth: Depth, place: usize) -> usize
    requires short { length body.now ≤ 65535 }
    requires inside { place + 73 ≤ 8 * length body.now }
    requires known { Reached depth (bits_of body.now) place }
    ensures { Reached depth (bits_of body.now) (place + result) }
{
    let mut word = word_at(body, place);
    let mut passed = 0;
    // Behind 49 of the word's 57 bits there are eight to look at.
    while passed <= 49 {
        let steps = told_steps((word >> 56) as u8, depth);
        if steps == 0 {
            return passed;
        }
        word <<= steps;
        passed += steps;
    }
    passed
}

/// A number whose highest 57 bits are those from a place on, out of eight bytes.
#[inline(always)]
fn word_at(body: &[u8], place: usize) -> u64
    requires short { length body.now ≤ 65535 }
    requires inside { place + 64 ≤ 8 * length body.now }
    ensures { ShowsBits result 57 (bits_of body.now) place }
{
    let at = place / 8;
    let whole = u64::from_be_bytes([
        body[at],
        body[at + 1],
        body[at + 2],
        body[at + 3],
        body[at + 4],
        body[at + 5],
        body[at + 6],
        body[at + 7],
    ]);
    whole << (place % 8)
}

/// How far whole codes are found behind a place, by two bytes at a time.
#[inline(always)]
fn byte_place(body: &[u8], depth: Depth, known: usize) -> usize
    requires short { length body.now ≤ 65535 }
    requires known { Reached depth (bits_of body.now) known }
    ensures { Reached depth (bits_of body.now) result }
{
    let limit = body.len() * 8;
    let mut place = known;
    while place + 24 <= limit {
        let steps = told_steps(byte_at(body, place), depth);
        if steps == 0 {
            return place;
        }
        place += steps;
    }
    place
}

/// The eight bits from a bit on, of which a whole byte more follows.
#[inline(always)]
fn byte_at(body: &[u8], place: usize) -> u8
    requires short { length body.now ≤ 65535 }
    requires inside { place + 16 ≤ 8 * length body.now }
    ensures { field_at (bits_of body.now) place 8 ≡ Some result }
{
    let at = place / 8;
    let both = u32::from(body[at]) * 256 + u32::from(body[at + 1]);
    ((both >> (8 - place % 8)) % 256) as u8
}

/// The same of 8 bit codes, which are whole bytes.
fn eight_bit_place(body: &[u8]) -> usize
    requires { length body.now ≤ 65535 }
    ensures { Reached Eight (bits_of body.now) result }
{
    let mut at = 0;
    while body.len() - at >= 3 {
        if body[at] != 0 {
            at += 1;
        } else if body[at + 1] != 0 {
            // The high bit says whether a pixel code follows the length.
            at += 2 + usize::from(body[at + 1] / 128);
        } else {
            return at * 8;
        }
    }
    at * 8
}
