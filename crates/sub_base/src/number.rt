ghost use Rattle.std.specs.Prelude.{◌≡◌, ◌≤◌, ◌<◌, length, true, IfSome};
ghost use Rattle.std.specs.List.{list_all};
ghost use Rattle.sub_base.specs.Number.{number_of, value_from, is_digit, is_number as is_number_of, has_leading_zero, number_in as number_in_of, hex_value as hex_value_of};

/// The number that the text is in decimal, without a sign and without leading zeros, of at most
/// that many digits.
pub fn decimal_number(text: &[u8], most_digits: usize) -> Option<u64>
    requires { most_digits ≤ 19 }
    ensures { result ≡ number_of most_digits text.now }
{
    if is_number(text, most_digits) {
        Some(value_of(text))
    } else {
        None
    }
}

/// The number that the text is in decimal, of at most eleven digits, where it lies in that range.
pub fn number_in(text: &[u8], least: u64, most: u64) -> Option<u64>
    ensures value { result ≡ number_in_of least most text.now }
    ensures least { IfSome result (λ number. least ≤ number) }
    ensures most { IfSome result (λ number. number ≤ most) }
{
    let number = decimal_number(text, 11)?;
    if least <= number && number <= most {
        Some(number)
    } else {
        None
    }
}

fn is_number(text: &[u8], most_digits: usize) -> bool
    ensures { result ≡ is_number_of most_digits text.now }
{
    !text.is_empty() && text.len() <= most_digits && all_digits(text) && !leads_with_zero(text)
}

fn leads_with_zero(text: &[u8]) -> bool
    ensures { result ≡ has_leading_zero text.now }
{
    // A number has one text, so `0` is one and `00` and `01` are none.
    text.len() > 1 && text[0] == b'0'
}

fn all_digits(text: &[u8]) -> bool
    ensures { result ≡ list_all is_digit text.now }
{
    text.iter().all(|byte| is_decimal(*byte))
}

fn is_decimal(byte: u8) -> bool
    ensures { result ≡ is_digit byte }
{
    byte >= b'0' && byte <= b'9'
}

fn value_of(digits: &[u8]) -> u64
    requires short { length digits.now ≤ 19 }
    requires digits { list_all is_digit digits.now ≡ true }
    ensures { result ≡ value_from 0 digits.now }
{
    // Nineteen digits at most come here, so that no sum passes 2^64.
    let mut value = 0;
    for digit in digits {
        value = 10 * value + u64::from(*digit - b'0');
    }
    value
}

/// The value of a hexadecimal digit, in capital or small letters.
pub fn hex_value(digit: u8) -> Option<u8>
    ensures value { result ≡ hex_value_of digit }
    ensures small { IfSome result (λ value. value < 16) }
{
    match digit {
        b'0'..=b'9' => Some(digit - b'0'),
        b'A'..=b'F' => Some(digit - b'A' + 10),
        b'a'..=b'f' => Some(digit - b'a' + 10),
        _ => None,
    }
}
