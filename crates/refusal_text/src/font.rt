use bitmap_font::FontKind;
use sentence_text::{Part, Text};
use std::alloc::Global;
use sub_base::NoMemory;

/// The sentence on a font that is refused at that line, from 1. Without the text of the font it has
/// no quotation.
pub fn font_refusal(
    alloc: Global,
    text: Option<&[u8]>,
    line: u64,
    kind: FontKind,
) -> Result<Text, NoMemory> {
    let mut told = Text::new(alloc);
    told.say(&[
        Part::Words("line "),
        Part::Number(line),
        Part::Words(" of the font"),
    ])?;
    let quoted = match text {
        Some(text) => line_of(text, line),
        None => None,
    };
    if let Some(quoted) = quoted {
        told.say(&[Part::Words(", "), Part::Quoted(quoted)])?;
    }
    told.say(&[Part::Words(": "), Part::Words(rule_of(kind))])?;
    Ok(told)
}

/// What a line is asked that is refused for that kind.
fn rule_of(kind: FontKind) -> &'static str {
    match kind {
        FontKind::NotBdf => {
            "a font begins with STARTFONT and has FONTBOUNDINGBOX before its glyphs, each glyph has \
             STARTCHAR, then ENCODING, DWIDTH and BBX once each, BITMAP with all its rows and \
             ENDCHAR, and this line stands where another is due"
        }
        FontKind::BadNumber => {
            "a number has decimal digits, perhaps behind a minus sign, and lies in the range of \
             its line: FONTBOUNDINGBOX 1 to 256 for two sides and -256 to 256 for two places, \
             ENCODING -1 or a character of Unicode, DWIDTH 0 to 255, BBX 0 to 256 for two sides \
             and -256 to 256 for two places"
        }
        FontKind::BadRow => {
            "a row of a bitmap has two hexadecimal digits for each eight pixels of BBX's width, \
             rounded up, and nothing else"
        }
        FontKind::DoubleGlyph => "a character has one glyph, and a glyph before has this one",
        FontKind::Truncated => "a font ends with ENDFONT, and this file ends before",
        FontKind::TooLarge => "a font has at most 65536 glyphs",
    }
}

/// The line of that number, from 1, without the end of its line.
fn line_of(text: &[u8], number: u64) -> Option<&[u8]> {
    let mut place = 1u64;
    let mut start = 0usize;
    for end in 0..text.len() {
        if text[end] == b'\n' {
            if place == number {
                return text.get(start..end);
            }
            place = place.saturating_add(1);
            start = end + 1;
        }
    }
    if place == number && start < text.len() {
        text.get(start..)
    } else {
        None
    }
}
