ghost use Rattle.std.specs.Prelude.{◌≡◌, ◌*◌, ◌<◌, ◌≤◌, length, true, All, Some};
ghost use Rattle.std.specs.List.{list_all};
ghost use Rattle.sub_base.specs.Depth.{code_count};
ghost use Rattle.cue_records.specs.Codes.{has_code, are_digits, single_codes, double_codes, codes_of};
ghost use Rattle.cue_records.specs.CodeFaults.{digits_of};

use crate::hex::digit_value;
use sub_base::Depth;

/// Puts the codes of a text in their places, one hexadecimal digit a code, two at 8 bits, and says
/// whether the text has no character but digits of that depth. All of it is walked either way, so
/// that no code is waited for.
pub(crate) fn put_codes(depth: Depth, text: &[u8], codes: &mut [u8]) -> bool
    requires { length text.now ≡ digits_of depth * length codes.old }
    ensures digits { result ≡ are_digits depth text.now }
    ensures codes { result ≡ true → codes_of depth text.now ≡ Some codes.new }
    ensures range { result ≡ true → All (λ code. code < code_count depth) codes.new }
    ensures count { length codes.new ≡ length codes.old }
{
    match depth {
        Depth::Two => put_single_codes(4, text, codes),
        Depth::Four => put_single_codes(16, text, codes),
        Depth::Eight => put_double_codes(text, codes),
    }
}

/// Codes of one digit each, below a limit.
#[inline(always)]
fn put_single_codes(limit: u8, text: &[u8], codes: &mut [u8]) -> bool
    requires small { limit ≤ 16 }
    requires room { length text.now ≡ length codes.old }
    ensures digits { result ≡ list_all (has_code limit) text.now }
    ensures codes { result ≡ true → single_codes limit text.now ≡ Some codes.new }
    ensures range { result ≡ true → All (λ code. code < limit) codes.new }
    ensures count { length codes.new ≡ length codes.old }
{
    let mut valid = true;
    for place in 0..codes.len() {
        let value = digit_value(text[place]);
        codes[place] = value;
        // No way out at the first such character: a loop without one needs no branch, and nearly
        // every picture is valid.
        valid &= value < limit;
    }
    valid
}

/// Codes of two digits each.
#[inline(always)]
fn put_double_codes(text: &[u8], codes: &mut [u8]) -> bool
    requires { length text.now ≡ 2 * length codes.old }
    ensures digits { result ≡ list_all (has_code 16) text.now }
    ensures codes { result ≡ true → double_codes text.now ≡ Some codes.new }
    ensures count { length codes.new ≡ length codes.old }
{
    // As pairs, of which a processor loads many at once.
    let (pairs, _) = text.as_chunks::<2>();
    let mut valid = true;
    for place in 0..codes.len() {
        let [first, second] = pairs[place];
        let high = digit_value(first);
        let low = digit_value(second);
        // A character that is no digit is 255. What it makes here is not used, but has to fit a
        // byte.
        codes[place] = high % 16 * 16 + low % 16;
        valid &= high < 16;
        valid &= low < 16;
    }
    valid
}
