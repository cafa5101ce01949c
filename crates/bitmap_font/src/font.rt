ghost use Rattle.std.specs.Prelude.{◌≡◌, ◌≢◌, ◌≤◌, ◌<◌, ◌*◌, ℕ, [], IfOk, IfErr, OnOk, IsOkUnless, chars, option_map, pos, length, map, replicate, slice_index_or};
ghost use Rattle.std.specs.Ordering.{nat_cmp};
ghost use Rattle.std.specs.BTreeMap.{get};
ghost use Rattle.bitmap_font.specs.Font.{Indexes, font_with, glyph_of};
ghost use Rattle.bitmap_font.specs.Values.{IsBox};
ghost use Rattle.bitmap_font.specs.declared.layout.PlacedGlyph.{PlacedGlyph};
ghost use Rattle.bitmap_font.specs.Drawing.{PaintsWhere};
ghost use Rattle.bitmap_font.specs.Setting.{IsInked, IsDrawn, HasSides, drawn_of, IsSetting, HasRoom, AllCanBeSet, IsSetFault};
ghost use Rattle.bitmap_font.specs.Refusal.{IsSetRefusal};
ghost use Rattle.sub_base.specs.Depth.{code_count};
ghost use Rattle.sub_base.specs.Picture.{IsPicture, Picture};
ghost use Rattle.bitmap_font.specs.Private.Layout.{IsLayout};

use crate::bounds::BoundingBox;
use crate::drawing::draw_glyph;
use crate::glyph::Glyph;
use crate::layout::{Layout, PlacedGlyph};
use crate::set_fault::SetFault;
use indexed_picture::Indexed;
use std::alloc::{AllocError, Global};
use std::collections::BTreeMap;
use std::marker::Model;
use sub_base::Depth;

/// The greatest sides of a picture of text, in pixels.
const MOST_WIDE: u128 = 1920;

const MOST_HIGH: usize = 1080;

/// A bitmap font: the box on which each line of a text stands, and the glyphs of its characters.
#[derive(Drop)]
pub struct Font {
    bounds: BoundingBox,
    glyphs: Vec<Glyph>,
    /// The place of each character's glyph.
    places: BTreeMap<char, usize>,
}

impl Model for Font {
    ghost use Rattle.std.specs.Ordering.{nat_cmp};
    ghost use Rattle.std.specs.BTreeMap.{get};
    ghost use Rattle.bitmap_font.specs.Font.{FontValue, IsFontValue, Indexes, font_with};

    ghost Value = { FontValue };

    ghost view = { λ font. font_with font.bounds font.glyphs.items };

    ghost invariant = { λ font. IsFontValue (font_with font.bounds font.glyphs.items)
        × Indexes (get nat_cmp font.places) font.glyphs.items };
}

impl Font {
    /// The font with this box and these glyphs.
    pub(crate) fn new(
        bounds: BoundingBox,
        glyphs: Vec<Glyph>,
        places: BTreeMap<char, usize>,
    ) -> Font
        requires bounds { IsBox 1 bounds }
        requires indexed { Indexes (get nat_cmp places) glyphs.items }
        ensures { result ≡ font_with bounds glyphs.items }
    {
        Font {
            bounds,
            glyphs,
            places,
        }
    }

    /// The font without glyphs, whose box is one pixel.
    pub fn empty(alloc: Global) -> Font
        ensures { result
            ≡ record { width = 1; height = 1; left = pos 0; bottom = pos 0; glyphs = [] } }
    {
        Font {
            bounds: BoundingBox {
                width: 1,
                height: 1,
                left: 0,
                bottom: 0,
            },
            glyphs: Vec::new(alloc),
            places: BTreeMap::new(alloc),
        }
    }

    /// The picture of a text, whose lines are parted by line feeds: as wide as its widest line,
    /// each line as high as the font's box, with the set pixels of the glyphs in the code `fg` and
    /// all else in the code `bg`. What lies outside the picture is left out.
    #[tactic(auto, using(crate::proofs::AnswerLaws::every_text, crate::proofs::AnswerLaws::every_set_fault, crate::proofs::OneSetting::one_made))]
    pub fn set(&self, text: &str, fg: u8, bg: u8, depth: Depth) -> Result<Indexed, SetFault>
        requires foreground { fg < code_count depth }
        requires background { bg < code_count depth }
        ensures set { IfOk result (IsSetting self.now (chars text.now) fg bg depth) }
        ensures room { OnOk result (HasRoom self.now (chars text.now)) }
        ensures glyphs { OnOk result (AllCanBeSet self.now (chars text.now)) }
        ensures picture { IfOk result IsPicture }
        ensures refused { IfErr result (IsSetFault self.now (chars text.now)) }

        // But for want of memory each text with glyphs and room is set, and each other one is
        // refused, for its one fault.
        ensures every_text { HasRoom self.now (chars text.now)
            → AllCanBeSet self.now (chars text.now) → IsOkUnless result SetFault.Memory }
        ensures one_picture { (picture : Picture)
            → IsSetting self.now (chars text.now) fg bg depth picture → IsPicture picture
            → IfOk result (λ made. made ≡ picture) }
        ensures every_fault { (fault : SetFault) → IsSetFault self.now (chars text.now) fault
            → fault ≢ SetFault.Memory → IsSetRefusal fault result }
    {
        let characters = characters_of(*self.glyphs.allocator(), text)?;
        self.set_characters(&characters, fg, bg, depth)
    }

    /// The picture of the characters of a text.
    fn set_characters(
        &self,
        characters: &[char],
        fg: u8,
        bg: u8,
        depth: Depth,
    ) -> Result<Indexed, SetFault>
        requires foreground { fg < code_count depth }
        requires background { bg < code_count depth }
        ensures set { IfOk result (IsSetting self.now characters.now fg bg depth) }
        ensures room { OnOk result (HasRoom self.now characters.now) }
        ensures glyphs { OnOk result (AllCanBeSet self.now characters.now) }
        ensures picture { IfOk result IsPicture }
        ensures refused { IfErr result (IsSetFault self.now characters.now) }
    {
        let layout = self.lay_out(characters)?;
        if layout.width == 0 {
            return Err(SetFault::Empty);
        }
        let box_height = usize::from(self.bounds.height);
        // The number of lines is tested by itself, so that the product below it is of small
        // numbers.
        if layout.width > MOST_WIDE
            || layout.lines > MOST_HIGH
            || layout.lines * box_height > MOST_HIGH
        {
            return Err(SetFault::TooWide);
        }
        let width = layout.width as u16;
        let height = (layout.lines * box_height) as u16;
        self.picture_of(&layout.placed, width, height, fg, bg, depth)
    }

    /// The picture of glyphs on these sides.
    fn picture_of(
        &self,
        placed: &[PlacedGlyph<'_>],
        width: u16,
        height: u16,
        fg: u8,
        bg: u8,
        depth: Depth,
    ) -> Result<Indexed, SetFault>
        requires wide { 1 ≤ width }
        requires high { 1 ≤ height }
        requires foreground { fg < code_count depth }
        requires background { bg < code_count depth }
        requires pens { (k : ℕ) (other : PlacedGlyph) → k < length placed.now
            → (slice_index_or placed.now k other).pen ≤ 1920 }
        requires lines { (k : ℕ) (other : PlacedGlyph) → k < length placed.now
            → (slice_index_or placed.now k other).line * self.now.height ≤ 1080 }
        ensures drawn { IfOk result
            (λ picture. IsDrawn self.now (map drawn_of placed.now) fg bg picture) }
        ensures sides { IfOk result (λ picture. HasSides width height depth picture) }
        ensures picture { IfOk result IsPicture }
        ensures memory { IsOkUnless result SetFault.Memory }
    {
        let alloc = *self.glyphs.allocator();
        let mut codes = blank_codes(alloc, usize::from(width) * usize::from(height), bg)?;
        self.draw(placed, width, height, fg, &mut codes);
        match Indexed::from_codes(alloc, width, height, depth, codes) {
            Ok(picture) => Ok(picture),
            // There are as many codes as pixels, and both codes are of the depth.
            Err(_) => unreachable!(),
        }
    }

    /// The glyph of a character.
    fn glyph(&self, character: char) -> Option<&Glyph>
        ensures { option_map (λ glyph. glyph.now) result ≡ glyph_of self.now character }
    {
        match self.places.get(&character) {
            None => None,
            Some(place) => Some(&self.glyphs[*place]),
        }
    }

    /// The glyphs of a text, each looked up once.
    fn lay_out(&self, characters: &[char]) -> Result<Layout<'_>, SetFault>
        ensures laid_out { IfOk result (λ layout. IsLayout self.now characters.now layout) }
        ensures refused { IfErr result (IsSetFault self.now characters.now) }
    {
        let mut placed = Vec::new(*self.glyphs.allocator());
        // As many bits as any text of any length needs: a character without a glyph is found
        // however wide the text is.
        let mut pen = 0u128;
        let mut width = 0u128;
        let mut line = 0usize;
        for character in characters {
            if *character == '\n' {
                line += 1;
                pen = 0;
            } else {
                let Some(glyph) = self.glyph(*character) else {
                    return Err(SetFault::MissingGlyph(*character));
                };
                placed.push(PlacedGlyph { glyph, pen, line })?;
                pen += u128::from(glyph.advance());
                width = width.max(pen);
            }
        }
        Ok(Layout {
            placed,
            width,
            lines: line + 1,
        })
    }

    /// Draws glyphs, each on the box of its line.
    fn draw(&self, placed: &[PlacedGlyph<'_>], width: u16, height: u16, ink: u8, codes: &mut [u8])
        requires sides { height * width ≤ length codes.old }
        requires pens { (k : ℕ) (other : PlacedGlyph) → k < length placed.now
            → (slice_index_or placed.now k other).pen ≤ 1920 }
        requires lines { (k : ℕ) (other : PlacedGlyph) → k < length placed.now
            → (slice_index_or placed.now k other).line * self.now.height ≤ 1080 }
        ensures { PaintsWhere (IsInked self.now (map drawn_of placed.now)) width height ink
            codes.old codes.new }
    {
        for place in placed {
            let left = place.left();
            let top = place.top(self.bounds.height, self.bounds.bottom);
            draw_glyph(codes, width, height, place.glyph, left, top, ink);
        }
    }
}

/// As many equal codes.
fn blank_codes(alloc: Global, count: usize, code: u8) -> Result<Vec<u8>, AllocError>
    ensures { IfOk result (λ codes. codes.items ≡ replicate count code) }
{
    vec![in alloc; code; count]
}

/// The characters of a text.
fn characters_of(alloc: Global, text: &str) -> Result<Vec<char>, AllocError>
    ensures { IfOk result (λ characters. characters.items ≡ chars text.now) }
{
    text.chars().collect(alloc)
}
