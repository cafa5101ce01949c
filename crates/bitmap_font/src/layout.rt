ghost use Rattle.std.specs.Prelude.{◌≡◌, ◌≤◌, ◌*◌, pos, negsuc, ◌+ℤ◌, ◌-ℤ◌, ◌≤ℤ◌};
ghost use Rattle.bitmap_font.specs.Font.{IsOffset};

use crate::glyph::Glyph;

/// A glyph that is to be drawn: where the pen stands, in pixels, and the number of its line, from
/// 0.
#[derive(Drop)]
pub(crate) struct PlacedGlyph<'a> {
    pub(crate) glyph: &'a Glyph,
    pub(crate) pen: u128,
    pub(crate) line: usize,
}

/// The glyphs of a text, the width of its widest line, in pixels, and the number of its lines.
#[derive(Drop)]
pub(crate) struct Layout<'a> {
    pub(crate) placed: Vec<PlacedGlyph<'a>>,
    pub(crate) width: u128,
    pub(crate) lines: usize,
}

impl PlacedGlyph<'_> {
    /// The column of the glyph's left end, which may lie outside the picture.
    pub(crate) fn left(&self) -> i32
        requires { self.now.pen ≤ 1920 }
        ensures value { result ≡ pos self.now.pen +ℤ self.now.glyph.now.left }
        ensures low { negsuc 65535 ≤ℤ result }
        ensures high { result ≤ℤ pos 65535 }
    {
        // Only texts that are narrow enough for a picture are drawn, so the pen fits.
        self.pen as i32 + i32::from(self.glyph.left())
    }

    /// The row of the glyph's top, which may lie outside the picture, with boxes of this height and
    /// lower offset.
    pub(crate) fn top(&self, height: u16, bottom: i16) -> i32
        requires line { self.now.line * height ≤ 1080 }
        requires box_height { height ≤ 256 }
        requires box_bottom { IsOffset bottom }
        ensures value { result
            ≡ (pos (self.now.line * height) +ℤ (pos height +ℤ bottom))
            -ℤ (pos self.now.glyph.now.height +ℤ self.now.glyph.now.bottom) }
        ensures low { negsuc 65535 ≤ℤ result }
        ensures high { result ≤ℤ pos 65535 }
    {
        self.base_line(height, bottom) - self.glyph.ascent()
    }

    /// The row on which the line stands.
    fn base_line(&self, height: u16, bottom: i16) -> i32
        requires line { self.now.line * height ≤ 1080 }
        requires box_height { height ≤ 256 }
        requires box_bottom { IsOffset bottom }
        ensures value { result ≡ pos (self.now.line * height) +ℤ (pos height +ℤ bottom) }
        ensures low { negsuc 1023 ≤ℤ result }
        ensures high { result ≤ℤ pos 2047 }
    {
        let line_top = (self.line * usize::from(height)) as i32;
        line_top + (i32::from(height) + i32::from(bottom))
    }
}
