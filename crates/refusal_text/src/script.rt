use crate::record::Record;
use crate::script_facts::{Case, put_facts};
use crate::script_rules::rule_of;
use bitmap_font::Font;
use cue_list::{Script, ScriptKind};
use cue_records::RowKind;
use sentence_text::{Part, Text};
use std::alloc::Global;
use sub_base::NoMemory;

/// The sentence on a script that is refused at that record, from 1. Without the text of the script
/// it has no quotation, and no numbers; without that of the font none of a text's picture.
pub fn script_refusal(
    alloc: Global,
    text: Option<&[u8]>,
    font: Option<&[u8]>,
    row: u64,
    kind: ScriptKind,
) -> Result<Text, NoMemory> {
    let mut told = Text::new(alloc);
    told.say(&[Part::Words("record "), Part::Number(row)])?;
    let Some(text) = text else {
        told.say(&[
            Part::Words(" of the script: "),
            Part::Words(rule_of(kind, RowKind::Other)),
        ])?;
        return Ok(told);
    };
    let Some(record) = Record::find(alloc, text, row)? else {
        told.say(&[
            Part::Words(", behind the last one of the script: "),
            Part::Words(rule_of(kind, RowKind::Other)),
        ])?;
        return Ok(told);
    };
    let word = RowKind::of(record.cell(0));
    told.say(&[
        Part::Words(", "),
        Part::Quoted(record.bytes(text)),
        Part::Words(": "),
        Part::Words(rule_of(kind, word)),
    ])?;
    let font = font_of(alloc, font);
    let case = Case {
        alloc,
        text,
        origin: origin_of(alloc, text)?,
        before: Script::read(alloc, record.before(text), &font).ok(),
        font,
        record,
        word,
    };
    put_facts(&mut told, kind, &case)?;
    Ok(told)
}

/// The font of a text, or the one without glyphs where there is none.
pub(crate) fn font_of(alloc: Global, font: Option<&[u8]>) -> Font {
    match font {
        Some(font) => match Font::read(alloc, font) {
            Ok(font) => font,
            Err(_) => Font::empty(alloc),
        },
        None => Font::empty(alloc),
    }
}

/// The tick of slot 0, as the first record has it.
fn origin_of(alloc: Global, text: &[u8]) -> Result<u64, NoMemory> {
    let first = Record::find(alloc, text, 1)?;
    Ok(match first {
        Some(first) => sub_base::decimal_number(first.cell(1), cue_list::MOST_DIGITS).unwrap_or(0),
        None => 0,
    })
}
