ghost use Rattle.std.specs.Prelude.{◌≡◌, ◌<◌, ◌*◌, length, pos, negsuc, ◌+ℤ◌, ◌≤ℤ◌};
ghost use Rattle.bitmap_font.specs.Font.{IsGlyph, glyph_with, is_set, row_bytes};
ghost use Rattle.bitmap_font.specs.Values.{IsBox};

use crate::bounds::BoundingBox;
use std::marker::Model;

/// The glyph of a character: how far it moves the pen, its sides in pixels, the offsets of its
/// lower left corner from the pen, and its rows from the top in whole bytes, a bit a pixel.
#[derive(Drop)]
pub(crate) struct Glyph {
    character: char,
    advance: u8,
    shape: BoundingBox,
    bytes: Vec<u8>,
}

impl Model for Glyph {
    ghost use Rattle.bitmap_font.specs.Font.{GlyphValue, IsGlyph, glyph_with};

    ghost Value = { GlyphValue };

    ghost view = { λ glyph. glyph_with glyph.character glyph.advance glyph.shape
        glyph.bytes.items };

    ghost invariant = { λ glyph. IsGlyph
        (glyph_with glyph.character glyph.advance glyph.shape glyph.bytes.items) };
}

impl Glyph {
    pub(crate) fn new(character: char, advance: u8, shape: BoundingBox, bytes: Vec<u8>) -> Glyph
        requires shape { IsBox 0 shape }
        requires whole { length bytes.items ≡ shape.height * row_bytes shape.width }
        ensures { result ≡ glyph_with character advance shape bytes.items }
    {
        Glyph {
            character,
            advance,
            shape,
            bytes,
        }
    }

    pub(crate) fn character(&self) -> char
        ensures { result ≡ self.now.character }
    {
        self.character
    }

    pub(crate) fn advance(&self) -> u8
        ensures { result ≡ self.now.advance }
    {
        self.advance
    }

    pub(crate) fn width(&self) -> u16
        ensures value { result ≡ self.now.width }
        ensures glyph { IsGlyph self.now }
    {
        self.shape.width
    }

    pub(crate) fn height(&self) -> u16
        ensures value { result ≡ self.now.height }
        ensures glyph { IsGlyph self.now }
    {
        self.shape.height
    }

    pub(crate) fn left(&self) -> i16
        ensures value { result ≡ self.now.left }
        ensures glyph { IsGlyph self.now }
    {
        self.shape.left
    }

    /// How far the glyph's top lies above the base line.
    pub(crate) fn ascent(&self) -> i32
        ensures value { result ≡ pos self.now.height +ℤ self.now.bottom }
        ensures low { negsuc 1023 ≤ℤ result }
        ensures high { result ≤ℤ pos 1023 }
    {
        i32::from(self.shape.height) + i32::from(self.shape.bottom)
    }

    /// Whether the pixel in a column of a row is set.
    pub(crate) fn is_set(&self, column: u16, row: u16) -> bool
        requires across { column < self.now.width }
        requires down { row < self.now.height }
        ensures { result ≡ is_set self.now column row }
    {
        let row_bytes = (usize::from(self.shape.width) + 7) / 8;
        let byte = self.bytes[usize::from(row) * row_bytes + usize::from(column / 8)];
        // The first pixel of a byte is its highest bit.
        (byte >> (7 - column % 8)) % 2 == 1
    }
}
