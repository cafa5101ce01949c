ghost use Rattle.std.specs.Prelude.{◌≡◌, ◌≢◌, false, ◌+◌, ◌<◌, ◌^◌, true, is_some, IsOk, IfOk, IfErr, IfSome, MatchResult};
ghost use Rattle.bitmap_font.specs.Font.{FontValue, font_with};
ghost use Rattle.bitmap_font.specs.Reading.{IsFont};
ghost use Rattle.bitmap_font.specs.declared.keyword.Keyword.TheVariants.{StartFont};
ghost use Rattle.bitmap_font.specs.Words.{keyword_of};
ghost use Rattle.bitmap_font.specs.Private.Reader.{IsReader};
ghost use Rattle.bitmap_font.specs.Refusal.{IsFontFault, IsFontRefusal};

use crate::font::Font;
use crate::font_fault::{FontFault, FontKind};
use crate::keyword::{Keyword, keyword_of};
use crate::line_fault::LineFault;
use crate::lines::Lines;
use crate::reader::Reader;
use std::alloc::Global;

impl Font {
    /// Reads a font in the format BDF 2.1: the box, and the glyphs that have a character. The first
    /// faulty line is refused, by the first of its tests that fails; what follows ENDFONT is not
    /// read.
    #[tactic(auto, using(crate::proofs::AnswerLaws::every_font, crate::proofs::AnswerLaws::every_font_fault))]
    pub fn read(alloc: Global, bytes: &[u8]) -> Result<Font, FontFault>
        ensures font { IfOk result (IsFont bytes.now) }
        ensures refused { IfErr result (IsFontFault bytes.now) }

        // But for want of memory each font is read, and each faulty file is refused, for its one
        // fault.
        ensures every_font { (font : FontValue) → IsFont bytes.now font
            → MatchResult result (λ read. read ≡ font) (λ fault. fault ≡ FontFault.Memory) }
        ensures every_fault { (fault : FontFault) → IsFontFault bytes.now fault
            → fault ≢ FontFault.Memory → IsFontRefusal fault result }
    {
        read_lines(alloc, bytes)
    }
}

/// Reads the lines of a font one after another, up to the first faulty one or to that which ends
/// the font.
fn read_lines(alloc: Global, bytes: &[u8]) -> Result<Font, FontFault>
    ensures font { IfOk result (IsFont bytes.now) }
    ensures refused { IfErr result (IsFontFault bytes.now) }
{
    let mut reader = Reader::new(alloc);
    let mut number = 0u64;
    for text in Lines::new(bytes) {
        if number == 0 {
            if !begins_font(text) {
                return refusal(number, FontKind::NotBdf);
            }
        } else {
            match reader.take(text) {
                Ok(false) => {}
                Ok(true) => return finished(reader),
                Err(LineFault::Memory) => return Err(FontFault::Memory),
                Err(LineFault::Wrong(kind)) => return refusal(number, kind),
            }
        }
        number += 1;
    }
    refusal(number, FontKind::Truncated)
}

/// Whether a line begins with STARTFONT.
fn begins_font(text: &[u8]) -> bool
    ensures yes { result ≡ true → keyword_of text.now ≡ StartFont }
    ensures no { result ≡ false → keyword_of text.now ≢ StartFont }
{
    matches!(keyword_of(text), Keyword::StartFont)
}

/// The refusal of a line, counted from 0.
fn refusal(number: u64, kind: FontKind) -> Result<Font, FontFault>
    requires { number + 1 < 2 ^ 64 }
    ensures { result ≡ Err (FontFault.Refused (number + 1) kind) }
{
    Err(FontFault::Refused {
        line: number + 1,
        kind,
    })
}

/// The font that was read.
fn finished(reader: Reader) -> Result<Font, FontFault>
    requires reader { IsReader reader }
    requires bounds { is_some reader.bounds ≡ true }
    ensures font { IfOk result
        (λ font. IfSome reader.bounds (λ bounds. font ≡ font_with bounds reader.glyphs.items)) }
    ensures ok { IsOk result }
{
    match reader.finish() {
        Some(font) => Ok(font),
        None => unreachable!(),
    }
}
