use crate::cell_rules::{CellRule, Range, cell_rule};
use crate::script_facts::Case;
use cue_records::RowKind;
use sentence_text::{Part, Text};
use sub_base::NoMemory;

/// Puts what the first cell holds that is no number or lies outside its range. Answers whether
/// there is one.
pub(crate) fn put_cell_facts(told: &mut Text, case: &Case<'_>) -> Result<bool, NoMemory> {
    for place in 1..case.record.cells.len() {
        let Some(rule) = cell_rule(case.word, place) else {
            continue;
        };
        match case.number(place) {
            None => {
                told.say(&[
                    Part::Words("; "),
                    Part::Words(rule.name),
                    Part::Words(", cell "),
                    Part::Number(place as u64 + 1),
                    Part::Words(", is \""),
                    Part::Quoted(case.record.cell(place)),
                    Part::Words("\""),
                ])?;
                return Ok(true);
            }
            Some(number) if !rule.range.has(number, case.origin) => {
                put_range(told, case, rule, place as u64 + 1)?;
                return Ok(true);
            }
            Some(_) => {}
        }
    }
    Ok(false)
}

fn put_range(told: &mut Text, case: &Case<'_>, rule: CellRule, place: u64) -> Result<(), NoMemory> {
    told.say(&[
        Part::Words("; "),
        Part::Words(rule.name),
        Part::Words(", cell "),
        Part::Number(place),
    ])?;
    if let Range::Depth = rule.range {
        return told.put_words(", is 2, 4 or 8");
    }
    let ends = rule.range.ends(case.origin);
    told.say(&[
        Part::Words(", lies from "),
        Part::Number(ends.least),
        Part::Words(" to "),
        Part::Number(ends.most),
    ])
}

/// Puts what lies outside its range where each number is valid: the name of a picture, or a text.
pub(crate) fn put_free_cell(told: &mut Text, case: &Case<'_>) -> Result<(), NoMemory> {
    match case.word {
        RowKind::Picture => told.say(&[
            Part::Words("; NAME has "),
            Part::Number(case.record.cell(1).len() as u64),
            Part::Words(" bytes"),
        ]),
        RowKind::Cue => told.put_words("; the text has no pixels"),
        _ => Ok(()),
    }
}

/// Puts the greatest code that there may be.
pub(crate) fn put_code_facts(told: &mut Text, case: &Case<'_>) -> Result<(), NoMemory> {
    let bits = match case.word {
        RowKind::Colour => case.number(3),
        RowKind::Picture => case.number(2),
        _ => match case.number(3) {
            Some(id) => case.region(id).map(|region| u64::from(region.depth.bits())),
            None => None,
        },
    };
    match bits {
        Some(bits) => told.say(&[
            Part::Words("; the depth is "),
            Part::Number(bits),
            Part::Words(" bits"),
        ]),
        None => Ok(()),
    }
}
