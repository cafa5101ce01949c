ghost use Rattle.std.specs.Prelude.{◌≡◌, ◌==◌, ◌&&◌, ◌*◌, ◌/◌, ◌≤ℤ◌, is_some, ◌++◌, ◌≤◌, ◌<◌, min, pos, negsuc, true, false, length, option_map, IfNone, IfSome, IfOk};
ghost use Rattle.std.specs.List.{list_all};
ghost use Rattle.sub_base.specs.Number.{hex_value as hex_value_of};
ghost use Rattle.bitmap_font.specs.Words.{words, number_within, number_of, are_digits, value_of, capped};
ghost use Rattle.bitmap_font.specs.Values.{IsBox, box_of, advance_of_words, encoding_of, bytes_from};

use crate::bounds::BoundingBox;
use crate::keyword::word_at;
use std::alloc::AllocError;
use sub_base::hex_value;

/// More than any number that a line may have.
const TOO_MUCH: u32 = 2_000_000;

/// What the words of a line say of a box: its sides, from the least to 256, and its offsets.
pub(crate) fn box_of(line: &[u8], least: u8) -> Option<BoundingBox>
    requires { least ≤ 1 }
    ensures value { result ≡ box_of least (words line.now) }
    ensures inside { IfSome result (IsBox least) }
{
    let width = number_at(line, 1, i32::from(least), 256)?;
    let height = number_at(line, 2, i32::from(least), 256)?;
    let left = number_at(line, 3, -256, 256)?;
    let bottom = number_at(line, 4, -256, 256)?;
    Some(BoundingBox {
        width: width as u16,
        height: height as u16,
        left: left as i16,
        bottom: bottom as i16,
    })
}

/// How far a glyph moves the pen.
pub(crate) fn advance_of(line: &[u8]) -> Option<u8>
    ensures { result ≡ advance_of_words (words line.now) }
{
    let advance = number_at(line, 1, 0, 255)?;
    Some(advance as u8)
}

/// The character of a glyph, or none for -1.
pub(crate) fn encoding_of(line: &[u8]) -> Option<Option<char>>
    ensures { result ≡ encoding_of (words line.now) }
{
    let number = number_at(line, 1, -1, 1_114_111)?;
    if number < 0 {
        return Some(None);
    }
    // Surrogates are no characters.
    match char::from_u32(number as u32) {
        None => None,
        Some(character) => Some(Some(character)),
    }
}

/// The number of the word at a place, where it lies between two bounds.
fn number_at(line: &[u8], place: usize, low: i32, high: i32) -> Option<i32>
    requires low { negsuc 1999998 ≤ℤ low }
    requires high { high ≤ℤ pos 1999999 }
    ensures value { result ≡ number_within (words line.now) place low high }
    ensures inside { IfSome result (λ number. (low ≤ℤ number) × (number ≤ℤ high)) }
{
    let word = word_at(line, place)?;
    let number = number_of(word)?;
    if low <= number && number <= high {
        Some(number)
    } else {
        None
    }
}

/// The number that a word spells, but no more than `TOO_MUCH` and no less than its opposite.
fn number_of(word: &[u8]) -> Option<i32>
    ensures { result ≡ option_map capped (number_of word.now) }
{
    match word.split_first() {
        Some((b'-', digits)) => {
            let magnitude = magnitude_of(digits)?;
            Some(-(magnitude as i32))
        }
        _ => {
            let magnitude = magnitude_of(word)?;
            Some(magnitude as i32)
        }
    }
}

/// The number that digits spell, but no more than `TOO_MUCH`.
fn magnitude_of(digits: &[u8]) -> Option<u32>
    ensures none { IfNone result (are_digits digits.now ≡ false) }
    ensures some { IfSome result
        (λ number. (are_digits digits.now ≡ true)
        × (number ≡ min (value_of digits.now) 2000000)) }
{
    if digits.is_empty() {
        return None;
    }
    let mut magnitude = 0u32;
    for digit in digits {
        if !(b'0' <= *digit && *digit <= b'9') {
            return None;
        }
        // Capped past every range: a number of any length is read, and is out of range.
        magnitude = (magnitude * 10 + u32::from(*digit - b'0')).min(TOO_MUCH);
    }
    Some(magnitude)
}

/// Whether a line is a row of a bitmap: two hexadecimal digits for each byte.
pub(crate) fn is_row(line: &[u8], row_bytes: usize) -> bool
    requires { row_bytes ≤ 32 }
    ensures value { result
        ≡ ((length line.now == 2 * row_bytes)
        && list_all (λ byte. is_some (hex_value_of byte)) line.now) }
    ensures digits { result ≡ true → length line.now ≡ 2 * row_bytes }
{
    line.len() == 2 * row_bytes && are_hexadecimal(line)
}

/// Whether all bytes are hexadecimal digits.
fn are_hexadecimal(line: &[u8]) -> bool
    ensures { result ≡ list_all (λ byte. is_some (hex_value_of byte)) line.now }
{
    line.iter().all(|byte| hex_value(*byte).is_some())
}

/// Appends the bytes of a row.
pub(crate) fn push_row(bytes: &mut Vec<u8>, line: &[u8]) -> Result<(), AllocError>
    ensures { IfOk result
        (λ _. bytes.new.items ≡ bytes.old.items ++ bytes_from line.now (length line.now / 2)) }
{
    for place in 0..line.len() / 2 {
        let high = hex_value(line[2 * place]).unwrap_or(0);
        let low = hex_value(line[2 * place + 1]).unwrap_or(0);
        bytes.push(high * 16 + low)?;
    }
    Ok(())
}
