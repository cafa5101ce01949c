ghost use Rattle.std.specs.Prelude.{◌≡◌, false, IfOk, IfErr};
ghost use Rattle.script_input.specs.ReadScript.{HasFont, IsFontEnd, IsInputEnd, ReadsScript, end_without_font};

use crate::input_end::{FontEnd, Input, InputEnd};
use crate::limits::TEXT_LIMIT;
use bitmap_font::{Font, FontFault};
use cue_list::{Script, ScriptFault};
use std::alloc::Global;
use sub_base::{ReadAllFault, Source, read_all};

/// The script that is in the first source, in the font that is in the second one, or in the font
/// without glyphs where no font is named. The font is read first, and the second source is not
/// called where no font is named.
pub fn read_script<A: Source, B: Source>(
    alloc: Global,
    has_font: bool,
    first: &mut A,
    second: &mut B,
) -> Result<Script, InputEnd>
    ensures reads { IfOk result (ReadsScript has_font
        (A.supplied first.old)
        (A.supplied first.new)
        (B.supplied second.old)
        (B.supplied second.new)) }
    ensures cause { IfErr result (IsInputEnd has_font
        (A.supplied first.old)
        (A.supplied first.new)
        (B.supplied second.old)
        (B.supplied second.new)) }
    ensures second { has_font ≡ false → second.new ≡ second.old }
{
    // The font first, so that a faulty one is reported even where the script is faulty too.
    let font = match read_font(alloc, has_font, second) {
        Ok(font) => font,
        Err(end) => return Err(without_font(end)),
    };
    let text = match read_all(alloc, first, TEXT_LIMIT) {
        Ok(text) => text,
        Err(ReadAllFault::Memory) => return Err(InputEnd::Memory),
        Err(ReadAllFault::Read) => return Err(InputEnd::Unread(Input::Script)),
        Err(ReadAllFault::TooLong) => return Err(InputEnd::TooLong(Input::Script)),
    };
    match Script::read(alloc, text.as_slice(), &font) {
        Ok(script) => Ok(script),
        Err(ScriptFault::Memory) => Err(InputEnd::Memory),
        Err(ScriptFault::Refused { row, kind }) => {
            Err(InputEnd::ScriptRefused(ScriptFault::Refused { row, kind }))
        }
    }
}

/// The font that is named, or the one without glyphs: then the source is not called.
pub fn read_font<B: Source>(alloc: Global, has_font: bool, source: &mut B) -> Result<Font, FontEnd>
    ensures font { IfOk result
        (HasFont has_font (B.supplied source.old) (B.supplied source.new)) }
    ensures cause { IfErr result
        (IsFontEnd has_font (B.supplied source.old) (B.supplied source.new)) }
    ensures left { has_font ≡ false → source.new ≡ source.old }
{
    if !has_font {
        return Ok(Font::empty(alloc));
    }
    let text = match read_all(alloc, source, TEXT_LIMIT) {
        Ok(text) => text,
        Err(ReadAllFault::Memory) => return Err(FontEnd::Memory),
        Err(ReadAllFault::Read) => return Err(FontEnd::Unread),
        Err(ReadAllFault::TooLong) => return Err(FontEnd::TooLong),
    };
    match Font::read(alloc, text.as_slice()) {
        Ok(font) => Ok(font),
        Err(FontFault::Memory) => Err(FontEnd::Memory),
        Err(FontFault::Refused { line, kind }) => {
            Err(FontEnd::Refused(FontFault::Refused { line, kind }))
        }
    }
}

/// Why no script was read where its font was not.
fn without_font(end: FontEnd) -> InputEnd
    ensures { result ≡ end_without_font end }
{
    match end {
        FontEnd::Refused(fault) => InputEnd::FontRefused(fault),
        FontEnd::Unread => InputEnd::Unread(Input::Font),
        FontEnd::TooLong => InputEnd::TooLong(Input::Font),
        FontEnd::Memory => InputEnd::Memory,
    }
}
