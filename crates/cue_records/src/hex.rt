ghost use Rattle.std.specs.Prelude.{◌≡◌, ◌<◌, IfSome, unwrap_or};
ghost use Rattle.sub_base.specs.Number.{hex_value as hex_value_of};

/// The value of a hexadecimal digit, in capital or small letters.
pub(crate) fn hex_value(digit: char) -> Option<u8>
    ensures value { result ≡ hex_value_of digit }
    ensures small { IfSome result (λ value. value < 16) }
{
    match digit {
        '0'..='9' => Some(digit as u8 - b'0'),
        'A'..='F' => Some(digit as u8 - b'A' + 10),
        'a'..='f' => Some(digit as u8 - b'a' + 10),
        _ => None,
    }
}

/// The same for a byte, and 255 where it is no such digit. Digits come in any order, so that there
/// is no branch in it, and few comparisons: many are read at once.
#[inline(always)]
pub(crate) fn digit_value(digit: u8) -> u8
    ensures { result ≡ unwrap_or (hex_value_of digit) 255 }
{
    let number = digit.wrapping_sub(b'0');
    let capital = digit.wrapping_sub(b'A');
    // A small letter stands 32 behind the same capital one.
    let letter = capital.min(capital.wrapping_sub(32));
    if number < 10 {
        number
    } else if letter < 6 {
        letter + 10
    } else {
        255
    }
}
