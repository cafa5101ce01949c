//! Pictures of text: words in the letters of examples/subtitle.bdf, three times as large and
//! smoothed. Each pixel is the mean of the nine about it, by so many levels as the depth has codes.

ghost use Rattle.std.specs.Prelude.{◌≡◌, ◌≤◌, ◌<◌, IfOk};

use anyhow::Result;
use indexed_picture::Indexed;
use std::alloc::Global;
use sub_base::Depth;

/// The words that pictures show, again from their beginning where they end.
const WORDS: &[u8] =
    b"the one that is to sit on his seat and note the data then has this hat in that instead ";

/// The columns of a letter's box.
const BOX: u32 = 8;

/// How many times as large as in the font letters are.
const SCALE: u32 = 3;

/// The rows of a line of text.
const LINE: u32 = 40;

/// The text of a picture, whose lines stand in the middle.
#[derive(Clone, Copy)]
struct Text {
    /// The number of the picture.
    number: u8,
    /// The columns of the picture.
    width: u16,
    /// The rows above the first line.
    above: u32,
}

/// A picture of text. One in four has text in its upper half too.
pub fn picture(alloc: Global, number: u8, width: u16, height: u16, depth: Depth) -> Result<Indexed>
    requires wide { 1 ≤ width }
    requires high { 1 ≤ height }
    ensures width { IfOk result (λ picture. picture.width ≡ width) }
    ensures height { IfOk result (λ picture. picture.height ≡ height) }
    ensures depth { IfOk result (λ picture. picture.depth ≡ depth) }
{
    let text = Text {
        number,
        width,
        above: if number % 4 == 0 {
            0
        } else {
            u32::from(height) / 2
        },
    };
    let mut codes = Vec::new(alloc);
    for y in 0..u32::from(height) {
        for x in 0..u32::from(width) {
            codes.push(level(depth, ink_about(text, x, y)))?;
        }
    }
    Ok(Indexed::from_codes(alloc, width, height, depth, codes)?)
}

/// The code for so many ninths of ink.
fn level(depth: Depth, ninths: u32) -> u8
    requires { ninths ≤ 9 }
{
    let greatest = match depth {
        Depth::Two => 3,
        Depth::Four => 15,
        Depth::Eight => 255,
    };
    (ninths * greatest / 9) as u8
}

/// How many of the nine places about one lie on letters.
fn ink_about(text: Text, x: u32, y: u32) -> u32
    requires x { x < 65536 }
    requires y { y < 65536 }
    ensures { result ≤ 9 }
{
    let above = match y.checked_sub(1) {
        Some(y) => ink_beside(text, x, y),
        None => 0,
    };
    above + ink_beside(text, x, y) + ink_beside(text, x, y + 1)
}

/// How many of the three places about one in its row lie on letters.
fn ink_beside(text: Text, x: u32, y: u32) -> u32
    requires x { x < 65536 }
    ensures { result ≤ 3 }
{
    let left = match x.checked_sub(1) {
        Some(x) => ink_at(text, x, y),
        None => 0,
    };
    left + ink_at(text, x, y) + ink_at(text, x + 1, y)
}

/// 1 where a place lies on a letter, else 0.
fn ink_at(text: Text, x: u32, y: u32) -> u32
    ensures { result ≤ 1 }
{
    let Some(y) = y.checked_sub(text.above) else {
        return 0;
    };
    let line = y / LINE;
    let letters = letters_in(text, line);
    let left = u32::from(text.width).saturating_sub(letters * BOX * SCALE) / 2;
    let Some(x) = x.checked_sub(left) else {
        return 0;
    };
    let place = x / (BOX * SCALE);
    if place >= letters {
        return 0;
    }
    let row = row_of(letter_at(text, line, place), y % LINE / SCALE);
    u32::from(row) >> (BOX - 1 - x / SCALE % BOX) & 1
}

/// How many letters a line has: from two fifths of what has room to two thirds.
fn letters_in(text: Text, line: u32) -> u32
    ensures { result ≤ 4000 }
{
    let room = u32::from(text.width) / (BOX * SCALE);
    room * 2 / 5 + (u32::from(text.number) * 5 % 8 + line % 4) * room / 40
}

/// The letter at a place of a line.
fn letter_at(text: Text, line: u32, place: u32) -> u8 {
    let start = u32::from(text.number) * 13 + line % 16 * 29;
    let letter = (start as usize + place as usize) % WORDS.len();
    *WORDS.get(letter).unwrap_or(&b' ')
}

/// A row of a letter's box; its first column is the highest bit.
fn row_of(letter: u8, row: u32) -> u8 {
    let rows: [u8; 14] = match letter {
        b'a' => [0, 0, 0, 0, 0, 0x3C, 0x66, 0x3E, 0x66, 0x66, 0x3E, 0, 0, 0],
        b'd' => [
            0, 0, 0x06, 0x06, 0x06, 0x3E, 0x66, 0x66, 0x66, 0x66, 0x3E, 0, 0, 0,
        ],
        b'e' => [0, 0, 0, 0, 0, 0x3C, 0x66, 0x7E, 0x60, 0x60, 0x3E, 0, 0, 0],
        b'h' => [
            0, 0, 0x60, 0x60, 0x60, 0x7C, 0x66, 0x66, 0x66, 0x66, 0x66, 0, 0, 0,
        ],
        b'i' => [
            0, 0, 0, 0x18, 0, 0x38, 0x18, 0x18, 0x18, 0x18, 0x3C, 0, 0, 0,
        ],
        b'n' => [0, 0, 0, 0, 0, 0x7C, 0x66, 0x66, 0x66, 0x66, 0x66, 0, 0, 0],
        b'o' => [0, 0, 0, 0, 0, 0x3C, 0x66, 0x66, 0x66, 0x66, 0x3C, 0, 0, 0],
        b's' => [0, 0, 0, 0, 0, 0x3E, 0x60, 0x3C, 0x06, 0x06, 0x7C, 0, 0, 0],
        b't' => [
            0, 0, 0x18, 0x18, 0x18, 0x7E, 0x18, 0x18, 0x18, 0x18, 0x0E, 0, 0, 0,
        ],
        _ => [0; 14],
    };
    *rows.get(row as usize).unwrap_or(&0)
}
