ghost use Rattle.std.specs.Prelude.{◌≡◌, ◌<◌, ◌≤◌, ◌/◌, ◌%◌, ◌*◌, ◌+◌};
ghost use Rattle.sub_base.specs.Colour.{shown_of, default_of, default_of_two, default_of_four, default_of_eight, full_or_half_of, light_or_dark_of, colour_of_mix, primaries_of, graded_of, bit_of};
ghost use Rattle.sub_base.specs.Depth.{code_count};

use crate::depth::Depth;

/// A colour of a CLUT entry: luminance, the two colour differences, and transparency, where 0 is
/// opaque and 255 lets all of the video through (EN 300 743, CLUT definition segment).
#[derive(Clone, Copy, Debug, PartialEq, Eq)]
pub struct Colour {
    /// Luminance, 0 to 255. 0 is read as full transparency.
    pub y: u8,
    /// The red colour difference, 128 where there is none.
    pub cr: u8,
    /// The blue colour difference, 128 where there is none.
    pub cb: u8,
    /// Transparency: 0 is opaque, 255 is clear.
    pub t: u8,
}

/// Full transparency.
pub const CLEAR: Colour = Colour {
    y: 0,
    cr: 0,
    cb: 0,
    t: 255,
};

impl Colour {
    /// The colour as a receiver shows it: a luminance of 0 means full transparency (EN 300 743,
    /// Y_value).
    pub fn shown(self) -> Colour
        ensures { result ≡ shown_of self }
    {
        if self.y == 0 { CLEAR } else { self }
    }
}

/// The colour of a CLUT entry that no CLUT definition segment has set: this project's rounding of
/// the default CLUTs of EN 300 743, clause 10.
pub fn default_colour(depth: Depth, entry: u8) -> Colour
    requires { entry < code_count depth }
    ensures { result ≡ default_of depth entry }
{
    match depth {
        Depth::Two => default_of_two_bits(entry),
        Depth::Four => default_of_four_bits(entry),
        Depth::Eight => default_of_eight_bits(entry),
    }
}

/// Red, green and blue, each in sixths of its full strength.
#[derive(Clone, Copy, Debug)]
pub struct Sixths {
    /// Red, 0 to 6.
    pub red: u32,
    /// Green, 0 to 6.
    pub green: u32,
    /// Blue, 0 to 6.
    pub blue: u32,
}

/// The colour of red, green and blue with that transparency.
fn colour_of(mix: Sixths, t: u8) -> Colour
    requires red { mix.red ≤ 6 }
    requires green { mix.green ≤ 6 }
    requires blue { mix.blue ≤ 6 }
    ensures { result ≡ colour_of_mix mix t }
{
    // The coefficients of ITU-R BT.601 in thousandths. The divisor is 6 * 1,000, and half of it is
    // in each sum, so that values are rounded to the nearest. 771,000 is 128 * 6,000 and that half:
    // the differences of grey are 128.
    let Sixths { red, green, blue } = mix;
    Colour {
        y: (16 + (65_481 * red + 128_553 * green + 24_966 * blue + 3_000) / 6_000) as u8,
        cr: ((771_000 + 112_000 * red - 93_786 * green - 18_214 * blue) / 6_000) as u8,
        cb: ((771_000 + 112_000 * blue - 37_797 * red - 74_203 * green) / 6_000) as u8,
        t,
    }
}

/// The bit of that weight, a power of two, in an entry's number.
fn bit(weight: u8, entry: u8) -> u32
    requires { 0 < weight }
    ensures value { result ≡ bit_of weight entry }
    ensures small { result ≤ 1 }
{
    u32::from(entry / weight % 2)
}

/// Each of the three at that strength where its bit of the lowest three is set.
fn primaries(strength: u32, entry: u8) -> Sixths
    requires { strength ≤ 6 }
    ensures value { result ≡ primaries_of strength entry }
    ensures red { result.red ≤ 6 }
    ensures green { result.green ≤ 6 }
    ensures blue { result.blue ≤ 6 }
{
    Sixths {
        red: strength * bit(1, entry),
        green: strength * bit(2, entry),
        blue: strength * bit(4, entry),
    }
}

/// Each of the three by its low and its high bit.
fn graded(base: u32, low: u32, high: u32, entry: u8) -> Sixths
    requires { base + low + high ≤ 6 }
    ensures value { result ≡ graded_of base low high entry }
    ensures red { result.red ≤ 6 }
    ensures green { result.green ≤ 6 }
    ensures blue { result.blue ≤ 6 }
{
    Sixths {
        red: base + low * bit(1, entry) + high * bit(16, entry),
        green: base + low * bit(2, entry) + high * bit(32, entry),
        blue: base + low * bit(4, entry) + high * bit(64, entry),
    }
}

fn grey(strength: u32, t: u8) -> Colour
    requires { strength ≤ 6 }
    ensures { result
        ≡ colour_of_mix (record { red = strength; green = strength; blue = strength }) t }
{
    colour_of(
        Sixths {
            red: strength,
            green: strength,
            blue: strength,
        },
        t,
    )
}

fn default_of_two_bits(entry: u8) -> Colour
    ensures { result ≡ default_of_two entry }
{
    match entry {
        0 => CLEAR,
        1 => grey(6, 0),
        2 => grey(0, 0),
        _ => grey(3, 0),
    }
}

fn default_of_four_bits(entry: u8) -> Colour
    ensures { result ≡ default_of_four entry }
{
    if entry == 0 {
        CLEAR
    } else if entry < 8 {
        colour_of(primaries(6, entry), 0)
    } else {
        colour_of(primaries(3, entry), 0)
    }
}

fn default_of_eight_bits(entry: u8) -> Colour
    ensures { result ≡ default_of_eight entry }
{
    if entry == 0 {
        CLEAR
    } else if entry < 8 {
        colour_of(primaries(6, entry), 192)
    } else if bit(128, entry) == 0 {
        full_or_half(entry)
    } else {
        light_or_dark(entry)
    }
}

fn full_or_half(entry: u8) -> Colour
    ensures { result ≡ full_or_half_of entry }
{
    let mix = graded(0, 2, 4, entry);
    if bit(8, entry) == 0 {
        colour_of(mix, 0)
    } else {
        colour_of(mix, 128)
    }
}

fn light_or_dark(entry: u8) -> Colour
    ensures { result ≡ light_or_dark_of entry }
{
    if bit(8, entry) == 0 {
        colour_of(graded(3, 1, 2, entry), 0)
    } else {
        colour_of(graded(0, 1, 2, entry), 0)
    }
}
