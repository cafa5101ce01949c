ghost use Rattle.std.specs.Prelude.{◌≡◌, ◌==◌, ◌++◌, ◌∷◌, [], true, false, find, None, Some, if◌then◌else◌, ◌<◌, ◌≤◌, option_map, OnOk, IsSome, IfOk, IfErr, IfSome, IfNone, IsOkUnless, option_to_list};
ghost use Rattle.std.specs.Ordering.{nat_cmp};
ghost use Rattle.std.specs.BTreeMap.{get};
ghost use Rattle.bitmap_font.specs.Font.{Indexes, font_with, row_bytes};
ghost use Rattle.bitmap_font.specs.declared.keyword.Keyword.TheVariants.{FontBoundingBox, StartProperties, StartChar, Encoding, Dwidth, Bbx, Bitmap, EndChar, EndFont};
ghost use Rattle.bitmap_font.specs.Private.Reader.{IsDraft, IsReader, draft_of, IsTaken, IsLineFault, past_of};
ghost use Rattle.bitmap_font.specs.Past.{line_of};
ghost use Rattle.bitmap_font.specs.LineFaults.{ends_by, fault_by, is_row_due, place_fault, row_fault, width_of};
ghost use Rattle.bitmap_font.specs.Private.Steps.{finished, first_past, step, with_row};
ghost use Rattle.bitmap_font.specs.Values.{IsBox, is_row};

use crate::bounds::BoundingBox;
use crate::font::Font;
use crate::font_fault::FontKind;
use crate::glyph::Glyph;
use crate::keyword::{Keyword, keyword_of};
use crate::line_fault::LineFault;
use crate::values;
use std::alloc::Global;
use std::collections::BTreeMap;

/// A glyph whose lines are being read.
#[derive(Drop)]
pub(crate) struct Draft {
    encoding: Option<Option<char>>,
    advance: Option<u8>,
    shape: Option<BoundingBox>,
    bitmap: bool,
    /// The rows of the bitmap that are still to come.
    left: u16,
    bytes: Vec<u8>,
}

/// What is kept of the lines of a font so far.
#[derive(Drop)]
pub(crate) struct Reader {
    properties: bool,
    bounds: Option<BoundingBox>,
    started: u32,
    draft: Option<Draft>,
    glyphs: Vec<Glyph>,
    places: BTreeMap<char, usize>,
}

const MOST_GLYPHS: u32 = 65_536;

impl Reader {
    /// After the first line.
    pub(crate) fn new(alloc: Global) -> Reader
        ensures reader { IsReader result }
        ensures value { past_of result ≡ first_past }
    {
        Reader {
            properties: false,
            bounds: None,
            started: 0,
            draft: None,
            glyphs: Vec::new(alloc),
            places: BTreeMap::new(alloc),
        }
    }

    /// Takes a line after the first, and says whether it ends the font.
    pub(crate) fn take(&mut self, text: &[u8]) -> Result<bool, LineFault>
        requires { IsReader self.old }
        ensures reader { OnOk result (IsReader self.new) }
        ensures valid { OnOk result (fault_by (past_of self.old) (line_of text.now) ≡ None) }
        ensures next { OnOk result
            (past_of self.new ≡ step (past_of self.old) (line_of text.now)) }
        ensures end { IfOk result
            (λ ended. ended ≡ ends_by (past_of self.old) (line_of text.now)) }
        ensures refused { IfErr result
            (IsLineFault (fault_by (past_of self.old) (line_of text.now))) }
    {
        let keyword = keyword_of(text);
        if self.properties {
            self.properties = !matches!(keyword, Keyword::EndProperties);
            return Ok(false);
        }
        if self.is_row_due() {
            self.add_row(keyword, text)?;
            return Ok(false);
        }
        self.take_in_place(keyword, text)?;
        Ok(matches!(keyword, Keyword::EndFont))
    }

    /// Whether the next line is a row of a bitmap.
    fn is_row_due(&self) -> bool
        ensures { result ≡ is_row_due (past_of self.now).glyph }
    {
        match &self.draft {
            None => false,
            Some(draft) => draft.left > 0,
        }
    }

    /// Takes a line where no row is due.
    fn take_in_place(&mut self, keyword: Keyword, text: &[u8]) -> Result<(), LineFault>
        requires reader { IsReader self.old }
        requires whole { is_row_due (past_of self.old).glyph ≡ false }
        ensures taken { IfOk result (λ _. IsTaken keyword text.now self.old self.new) }
        ensures refused { IfErr result
            (IsLineFault (place_fault (past_of self.old) keyword text.now)) }
    {
        match keyword {
            Keyword::FontBoundingBox => self.give_bounds(text),
            Keyword::StartProperties => self.begin_properties(text),
            Keyword::StartChar => self.begin_glyph(text),
            Keyword::Encoding => self.give_encoding(text),
            Keyword::Dwidth => self.give_advance(text),
            Keyword::Bbx => self.give_shape(text),
            Keyword::Bitmap => self.begin_bitmap(text),
            Keyword::EndChar => self.end_glyph(text),
            Keyword::EndFont => self.end_font(text),
            Keyword::StartFont | Keyword::EndProperties | Keyword::Other => Ok(()),
        }
    }

    /// The font, where its end was taken.
    pub(crate) fn finish(self) -> Option<Font>
        requires { IsReader self }
        ensures none { IfNone result (self.bounds ≡ None) }
        ensures some { IfSome result
            (λ font. IfSome self.bounds (λ bounds. font ≡ font_with bounds self.glyphs.items)) }
    {
        let bounds = self.bounds?;
        Some(Font::new(bounds, self.glyphs, self.places))
    }

    fn give_bounds(&mut self, text: &[u8]) -> Result<(), LineFault>
        requires { IsReader self.old }
        ensures taken { IfOk result (λ _. IsTaken FontBoundingBox text.now self.old self.new) }
        ensures refused { IfErr result
            (IsLineFault (place_fault (past_of self.old) FontBoundingBox text.now)) }
    {
        if self.bounds.is_some() || self.started > 0 {
            return Err(LineFault::Wrong(FontKind::NotBdf));
        }
        let Some(bounds) = values::box_of(text, 1) else {
            return Err(LineFault::Wrong(FontKind::BadNumber));
        };
        self.bounds = Some(bounds);
        Ok(())
    }

    fn begin_properties(&mut self, text: &[u8]) -> Result<(), LineFault>
        requires { IsReader self.old }
        ensures taken { IfOk result (λ _. IsTaken StartProperties text.now self.old self.new) }
        ensures refused { IfErr result
            (IsLineFault (place_fault (past_of self.old) StartProperties text.now)) }
    {
        if self.draft.is_some() {
            return Err(LineFault::Wrong(FontKind::NotBdf));
        }
        self.properties = true;
        Ok(())
    }

    fn begin_glyph(&mut self, text: &[u8]) -> Result<(), LineFault>
        requires { IsReader self.old }
        ensures taken { IfOk result (λ _. IsTaken StartChar text.now self.old self.new) }
        ensures refused { IfErr result
            (IsLineFault (place_fault (past_of self.old) StartChar text.now)) }
    {
        if self.draft.is_some() || self.bounds.is_none() {
            return Err(LineFault::Wrong(FontKind::NotBdf));
        }
        if self.started >= MOST_GLYPHS {
            return Err(LineFault::Wrong(FontKind::TooLarge));
        }
        self.started += 1;
        self.draft = Some(Draft {
            encoding: None,
            advance: None,
            shape: None,
            bitmap: false,
            left: 0,
            bytes: Vec::new(*self.glyphs.allocator()),
        });
        Ok(())
    }

    fn give_encoding(&mut self, text: &[u8]) -> Result<(), LineFault>
        requires { IsReader self.old }
        ensures taken { IfOk result (λ _. IsTaken Encoding text.now self.old self.new) }
        ensures refused { IfErr result
            (IsLineFault (place_fault (past_of self.old) Encoding text.now)) }
    {
        let Some(draft) = self.draft.take() else {
            return Err(LineFault::Wrong(FontKind::NotBdf));
        };
        if draft.bitmap || draft.encoding.is_some() {
            return Err(LineFault::Wrong(FontKind::NotBdf));
        }
        let Some(encoding) = values::encoding_of(text) else {
            return Err(LineFault::Wrong(FontKind::BadNumber));
        };
        if let Some(character) = encoding {
            if self.places.get(&character).is_some() {
                return Err(LineFault::Wrong(FontKind::DoubleGlyph));
            }
        }
        self.draft = Some(Draft {
            encoding: Some(encoding),
            ..draft
        });
        Ok(())
    }

    fn give_advance(&mut self, text: &[u8]) -> Result<(), LineFault>
        requires { IsReader self.old }
        ensures taken { IfOk result (λ _. IsTaken Dwidth text.now self.old self.new) }
        ensures refused { IfErr result
            (IsLineFault (place_fault (past_of self.old) Dwidth text.now)) }
    {
        let Some(draft) = self.draft.take() else {
            return Err(LineFault::Wrong(FontKind::NotBdf));
        };
        if draft.bitmap || draft.advance.is_some() {
            return Err(LineFault::Wrong(FontKind::NotBdf));
        }
        let Some(advance) = values::advance_of(text) else {
            return Err(LineFault::Wrong(FontKind::BadNumber));
        };
        self.draft = Some(Draft {
            advance: Some(advance),
            ..draft
        });
        Ok(())
    }

    fn give_shape(&mut self, text: &[u8]) -> Result<(), LineFault>
        requires { IsReader self.old }
        ensures taken { IfOk result (λ _. IsTaken Bbx text.now self.old self.new) }
        ensures refused { IfErr result
            (IsLineFault (place_fault (past_of self.old) Bbx text.now)) }
    {
        let Some(draft) = self.draft.take() else {
            return Err(LineFault::Wrong(FontKind::NotBdf));
        };
        if draft.bitmap || draft.shape.is_some() {
            return Err(LineFault::Wrong(FontKind::NotBdf));
        }
        let Some(shape) = values::box_of(text, 0) else {
            return Err(LineFault::Wrong(FontKind::BadNumber));
        };
        self.draft = Some(Draft {
            shape: Some(shape),
            ..draft
        });
        Ok(())
    }

    fn begin_bitmap(&mut self, text: &[u8]) -> Result<(), LineFault>
        requires { IsReader self.old }
        ensures taken { IfOk result (λ _. IsTaken Bitmap text.now self.old self.new) }
        ensures refused { IfErr result
            (IsLineFault (place_fault (past_of self.old) Bitmap text.now)) }
    {
        let Some(draft) = self.draft.take() else {
            return Err(LineFault::Wrong(FontKind::NotBdf));
        };
        let Some(shape) = draft.shape else {
            return Err(LineFault::Wrong(FontKind::NotBdf));
        };
        if draft.bitmap || draft.encoding.is_none() || draft.advance.is_none() {
            return Err(LineFault::Wrong(FontKind::NotBdf));
        }
        self.draft = Some(Draft {
            bitmap: true,
            left: shape.height,
            ..draft
        });
        Ok(())
    }

    fn end_glyph(&mut self, text: &[u8]) -> Result<(), LineFault>
        requires reader { IsReader self.old }
        requires whole { is_row_due (past_of self.old).glyph ≡ false }
        ensures taken { IfOk result (λ _. IsTaken EndChar text.now self.old self.new) }
        ensures refused { IfErr result
            (IsLineFault (place_fault (past_of self.old) EndChar text.now)) }
    {
        let Some(draft) = self.draft.take() else {
            return Err(LineFault::Wrong(FontKind::NotBdf));
        };
        if !draft.bitmap {
            return Err(LineFault::Wrong(FontKind::NotBdf));
        }
        // A glyph of the encoding -1 has no character, and is not kept.
        if let Some(glyph) = glyph_of(draft) {
            keep(&mut self.glyphs, &mut self.places, glyph)?;
        }
        Ok(())
    }

    fn end_font(&self, text: &[u8]) -> Result<(), LineFault>
        requires { IsReader self.now }
        ensures taken { OnOk result (IsTaken EndFont text.now self.now self.now) }
        ensures bounds { OnOk result (IsSome self.now.bounds) }
        ensures refused { IfErr result
            (IsLineFault (place_fault (past_of self.now) EndFont text.now)) }
    {
        // Only the clauses read it: they speak of a line's text for each keyword alike.
        let _ = text;
        if self.draft.is_some() || self.bounds.is_none() {
            return Err(LineFault::Wrong(FontKind::NotBdf));
        }
        Ok(())
    }

    /// Takes a row of the bitmap of the glyph in hand.
    fn add_row(&mut self, keyword: Keyword, text: &[u8]) -> Result<(), LineFault>
        requires reader { IsReader self.old }
        requires due { is_row_due (past_of self.old).glyph ≡ true }
        ensures reader { OnOk result (IsReader self.new) }
        ensures valid { OnOk result
            (row_fault (past_of self.old).glyph (record { keyword = keyword; text = text.now })
            ≡ None) }
        ensures next { OnOk result
            (past_of self.new
            ≡ record (past_of self.old) {
              glyph = option_map (with_row text.now)
                  (past_of self.old).glyph;
            }) }
        ensures refused { IfErr result
            (IsLineFault
            (row_fault (past_of self.old).glyph
            (record { keyword = keyword; text = text.now }))) }
    {
        let Some(draft) = self.draft.take() else {
            return Err(LineFault::Wrong(FontKind::NotBdf));
        };
        if keyword.is_known() {
            return Err(LineFault::Wrong(FontKind::NotBdf));
        }
        self.draft = Some(draft.with_row(text)?);
        Ok(())
    }
}

impl Draft {
    /// The bytes of a row of the bitmap.
    fn row_bytes(&self) -> usize
        requires { IfSome self.now.shape (IsBox 0) }
        ensures value { result ≡ row_bytes (width_of (draft_of self.now)) }
        ensures few { result ≤ 32 }
    {
        match self.shape {
            None => 0,
            Some(shape) => (usize::from(shape.width) + 7) / 8,
        }
    }

    /// The glyph with one more row of its bitmap.
    fn with_row(self, text: &[u8]) -> Result<Draft, LineFault>
        requires draft { IsDraft self }
        requires due { 0 < self.left }
        ensures draft { IfOk result IsDraft }
        ensures valid { OnOk result (is_row (width_of (draft_of self)) text.now ≡ true) }
        ensures next { IfOk result
            (λ draft. draft_of draft ≡ with_row text.now (draft_of self)) }
        ensures encoding { IfOk result (λ draft. draft.encoding ≡ self.encoding) }
        ensures refused { IfErr result
            (IsLineFault
            (if is_row (width_of (draft_of self)) text.now then None else Some FontKind.BadRow)) }
    {
        if !values::is_row(text, self.row_bytes()) {
            return Err(LineFault::Wrong(FontKind::BadRow));
        }
        let mut bytes = self.bytes;
        values::push_row(&mut bytes, text)?;
        Ok(Draft {
            encoding: self.encoding,
            advance: self.advance,
            shape: self.shape,
            bitmap: self.bitmap,
            left: self.left - 1,
            bytes,
        })
    }
}

/// The glyph of whole lines, where it has a character.
fn glyph_of(draft: Draft) -> Option<Glyph>
    requires draft { IsDraft draft }
    requires bitmap { draft.bitmap ≡ true }
    requires whole { draft.left ≡ 0 }
    ensures glyph { option_to_list result ≡ finished (Some (draft_of draft)) }
    ensures character { IfSome result (λ glyph. draft.encoding ≡ Some (Some glyph.character)) }
{
    let character = draft.encoding.flatten()?;
    let advance = draft.advance?;
    let shape = draft.shape?;
    Some(Glyph::new(character, advance, shape, draft.bytes))
}

/// Appends a glyph, and notes its place.
fn keep(
    glyphs: &mut Vec<Glyph>,
    places: &mut BTreeMap<char, usize>,
    glyph: Glyph,
) -> Result<(), LineFault>
    requires indexed { Indexes (get nat_cmp places.old) glyphs.old.items }
    requires fresh { find (λ kept. kept.character == glyph.character) glyphs.old.items ≡ None }
    ensures kept { IfOk result (λ _. glyphs.new.items ≡ glyphs.old.items ++ glyph ∷ []) }
    ensures indexed { IfOk result (λ _. Indexes (get nat_cmp places.new) glyphs.new.items) }
    ensures memory { IsOkUnless result LineFault.Memory }
{
    places.insert(glyph.character(), glyphs.len())?;
    glyphs.push(glyph)?;
    Ok(())
}
